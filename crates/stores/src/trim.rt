// A layer over any store: passes lists on without their zero deltas, and denials up.

ghost use Rattle.std.specs.Prelude.{◌≡◌, ℕ, ◌≤◌, length, take};
ghost use Rattle.spec.specs.Stores.{Fresh};
ghost use Rattle.spec.specs.StoreModels.{trimmed};
ghost use Rattle.storage.specs.Deltas.{deltas_of};
ghost use Rattle.stores.specs.Meanings.{trim_layer, trim_layer_laws};

use crate::lists::check;
use crate::store::VariationStore;
use arrayvec::ArrayVec;
use denials::denial::Denial;
use storage::delta::Delta;
use storage::faults::MOST_ENTRIES;

#[derive(Debug, Drop)]
pub struct TrimLayer<S> {
    below: S,
}

impl<S: VariationStore> TrimLayer<S> {
    // A layer over a new store is as new.
    pub fn new(below: S) -> TrimLayer<S>
        ensures below { result.below ≡ below }
        ensures fresh { (places : ℕ) → Fresh S.VariationStore.store below places → Fresh (trim_layer S.VariationStore.store) result places }
    {
        TrimLayer { below }
    }
}

// The deltas that are not 0.
fn trim(list: &[Delta]) -> ArrayVec<Delta, MOST_ENTRIES>
    requires { length list.now ≤ 64 }
    ensures { deltas_of result.items ≡ trimmed (deltas_of list.now) }
{
    let mut kept = ArrayVec::new();
    for entry in list {
        if entry.delta != 0 {
            kept.push(*entry);
        }
    }
    kept
}

impl<S: VariationStore> VariationStore for TrimLayer<S> {
    ghost store = { trim_layer S.VariationStore.store };

    ghost lawful = { trim_layer_laws S.VariationStore.lawful };

    // A list that offends is denied here, as it was sent.
    fn add(&mut self, list: &[Delta]) -> Result<u32, Denial> {
        check(list)?;
        let kept = trim(list);
        self.below.add(kept.as_slice()).map_err(Denial::passed)
    }

    fn delta(&self, id: u32, region: u16) -> Result<i16, Denial> {
        self.below.delta(id, region).map_err(Denial::passed)
    }
}
