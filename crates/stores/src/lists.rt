// Lists of deltas: whether one may be held, its delta at a region, and whether two are alike.

ghost use Rattle.std.specs.Prelude.{◌≡◌, Decides};
ghost use Rattle.spec.specs.Lists.{all};
ghost use Rattle.spec.specs.Fields.{same_signed};
ghost use Rattle.spec.specs.Entries.{delta_at, regions, Alike, is_alike};
ghost use Rattle.storage.specs.Deltas.{deltas_of};
ghost use Rattle.stores.specs.Answers.{told, allowed};

use denials::denial::{Denial, Part, Word};
use storage::delta::Delta;
use storage::faults::deltas_fault;

// Denies a list whose regions do not rise, or that has too many entries.
pub fn check(list: &[Delta]) -> Result<(), Denial>
    ensures { told result ≡ allowed (deltas_of list.now) }
{
    if let Some(place) = deltas_fault(list) {
        return Err(Denial::new(Word::BadDeltas, place, Part::Store));
    }
    Ok(())
}

// The delta at a region, 0 where the region is not listed.
pub fn delta_at(list: &[Delta], region: u16) -> i16
    ensures { result ≡ delta_at (deltas_of list.now) region }
{
    list.iter()
        .find(|entry| entry.region == region)
        .map_or(0, |entry| entry.delta)
}

// Whether the lists have the same delta at each region of `places`.
fn same_at(a: &[Delta], b: &[Delta], places: &[Delta]) -> bool
    ensures { result ≡ all (λ k. same_signed (delta_at (deltas_of a.now) k) (delta_at (deltas_of b.now) k)) (regions (deltas_of places.now)) }
{
    places.iter().all(|entry| delta_at(a, entry.region) == delta_at(b, entry.region))
}

// Whether the lists have the same delta at every region.
pub fn alike(a: &[Delta], b: &[Delta]) -> bool
    ensures value { result ≡ is_alike (deltas_of a.now) (deltas_of b.now) }
    ensures decides { Decides result (Alike (deltas_of a.now) (deltas_of b.now)) }
{
    same_at(a, b, a) && same_at(a, b, b)
}
