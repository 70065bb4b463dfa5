// A store that recognises every list it holds: lists that are alike share the lowest id.

ghost use Rattle.std.specs.Prelude.{◌≡◌, min, [], length};
ghost use Rattle.spec.specs.Stores.{Added, Asked, Fresh};
ghost use Rattle.spec.specs.StoreModels.{Within, sharing_add};
ghost use Rattle.storage.specs.Deltas.{deltas_of};
ghost use Rattle.stores.specs.Answers.{told};
ghost use Rattle.stores.specs.Meanings.{sharing_rows, sharing_store, sharing_store_laws};

use crate::lists::check;
use crate::places::{Place, Places};
use crate::store::VariationStore;
use denials::denial::Denial;
use storage::delta::Delta;

// Stays apart from the flat store: the two differ in a step of `add` and in what they mean, and in no type or number: `Places` is what they share.
#[derive(Debug, Drop)]
pub struct SharingStore<'a> {
    lists: Places<'a>,
}

impl<'a> SharingStore<'a> {
    pub fn new(places: &'a mut [Place]) -> SharingStore<'a>
        ensures fresh { Fresh sharing_store result (length places.old) }
        ensures rows { sharing_rows result ≡ record { rows = []; free = min (length places.old) 65535 } }
    {
        SharingStore {
            lists: Places::new(places),
        }
    }
}

impl<'a> VariationStore for SharingStore<'a> {
    ghost store = { sharing_store };

    ghost lawful = { sharing_store_laws };

    fn add(&mut self, list: &[Delta]) -> Result<u32, Denial>
        ensures added { Added sharing_store self.old self.new (deltas_of list.now) (told result) }
        ensures same { sharing_add (sharing_rows self.old) (deltas_of list.now) ≡ (sharing_rows self.new, told result) }
    {
        check(list)?;
        if let Some(id) = self.lists.find(list) {
            return Ok(id);
        }
        self.lists.take_place(list)
    }

    fn delta(&self, id: u32, region: u16) -> Result<i16, Denial>
        ensures asked { Asked sharing_store self.now id region (told result) }
        ensures within { Within (sharing_rows self.now) }
    {
        self.lists.delta(id, region)
    }
}
