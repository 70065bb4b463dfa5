// Laws of stores: theorems on functions that do nothing, and what every store gives back.

ghost use Rattle.std.specs.Prelude.{◌≡◌, Err, MatchResult};
ghost use Rattle.spec.specs.Entries.{delta_at};
ghost use Rattle.spec.specs.Stores.{Added};
ghost use Rattle.spec.specs.StoreModels.{FlatAdds, SharingAdds, Trims};
ghost use Rattle.stores.specs.Laws.{TrimmingKeeps, IdsStay};
ghost use Rattle.storage.specs.Deltas.{deltas_of};
ghost use Rattle.denials.specs.Denials.{denial_of};

use crate::store::VariationStore;
use denials::denial::Denial;
use storage::delta::Delta;

// The model of the flat store meets the meaning of a store.
pub fn flat_adds()
    ensures { FlatAdds }
{}

// The model of the sharing store meets the meaning of a store.
pub fn sharing_adds()
    ensures { SharingAdds }
{}

// Without its zero deltas a good list is good, and alike to itself as it was sent.
pub fn trimming_keeps()
    ensures { TrimmingKeeps }
{}

// If the store below took the trimmed list, the layer took the list.
pub fn trims<S: VariationStore>()
    ensures { Trims S.VariationStore.store }
{}

// Whatever lists are added one after the other, an id keeps its deltas.
pub fn ids_stay<S: VariationStore>()
    ensures { IdsStay S.VariationStore.store }
{}

// Adds a list and asks for its id: the delta that the list has, in every store.
pub fn read_back<S: VariationStore>(
    store: &mut S,
    list: &[Delta],
    region: u16,
) -> Result<i16, Denial>
    ensures { MatchResult result (λ d. d ≡ delta_at (deltas_of list.now) region) (λ e. Added S.VariationStore.store store.old store.new (deltas_of list.now) (Err (denial_of e))) }
{
    let id = store.add(list)?;
    store.delta(id, region)
}
