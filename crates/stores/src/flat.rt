// A store that recognises no list: each list that is added gets an id of its own.

ghost use Rattle.std.specs.Prelude.{◌≡◌, min, [], length};
ghost use Rattle.spec.specs.Stores.{Added, Asked, Fresh};
ghost use Rattle.spec.specs.StoreModels.{Within, flat_add};
ghost use Rattle.storage.specs.Deltas.{deltas_of};
ghost use Rattle.stores.specs.Answers.{told};
ghost use Rattle.stores.specs.Meanings.{flat_rows, flat_store, flat_store_laws};

use crate::lists::check;
use crate::places::{Place, Places};
use crate::store::VariationStore;
use denials::denial::Denial;
use storage::delta::Delta;

#[derive(Debug, Drop)]
pub struct FlatStore<'a> {
    lists: Places<'a>,
}

impl<'a> FlatStore<'a> {
    pub fn new(places: &'a mut [Place]) -> FlatStore<'a>
        ensures fresh { Fresh flat_store result (length places.old) }
        ensures rows { flat_rows result ≡ record { rows = []; free = min (length places.old) 65535 } }
    {
        FlatStore {
            lists: Places::new(places),
        }
    }
}

impl<'a> VariationStore for FlatStore<'a> {
    ghost store = { flat_store };

    ghost lawful = { flat_store_laws };

    fn add(&mut self, list: &[Delta]) -> Result<u32, Denial>
        ensures added { Added flat_store self.old self.new (deltas_of list.now) (told result) }
        ensures same { flat_add (flat_rows self.old) (deltas_of list.now) ≡ (flat_rows self.new, told result) }
    {
        check(list)?;
        self.lists.take_place(list)
    }

    fn delta(&self, id: u32, region: u16) -> Result<i16, Denial>
        ensures asked { Asked flat_store self.now id region (told result) }
        ensures within { Within (flat_rows self.now) }
    {
        self.lists.delta(id, region)
    }
}
