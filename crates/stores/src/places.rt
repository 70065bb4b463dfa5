// Lists of deltas in places that the caller brings, numbered from 0 in the order in which they came.
// A search compares the list with each one held, at every region of both: linear in what is held.

ghost use Rattle.std.specs.Prelude.{◌≡◌, ◌≤◌, min, [], map, length, ◌==◌};
ghost use Rattle.spec.specs.Entries.{is_alike};
ghost use Rattle.spec.specs.Lists.{place_of};
ghost use Rattle.spec.specs.Stores.{Asked};
ghost use Rattle.spec.specs.StoreModels.{Within, take_place, flat};
ghost use Rattle.storage.specs.Deltas.{deltas_of};
ghost use Rattle.stores.specs.Answers.{told};

use crate::lists::{alike, delta_at};
use denials::denial::{Denial, Part, Word};
use std::marker::Model;
use storage::delta::Delta;
use storage::faults::MOST_ENTRIES;

// The most places that are used.
const MOST_PLACES: usize = 65_535;

// Room for one list: the first `len` of its entries. No `ArrayVec`, which cannot be copied: callers bring `[Place::new(); n]`.
#[derive(Clone, Copy, Debug, PartialEq, Eq)]
pub struct Place {
    len: usize,
    entries: [Delta; MOST_ENTRIES],
    ghost fits: { len ≤ 64 },
}

impl Place {
    ghost use Rattle.stores.specs.Places.{list_in};

    // A place with nothing in it, to bring.
    pub fn new() -> Place
        ensures { list_in result ≡ [] }
    {
        Place {
            len: 0,
            entries: [Delta::default(); MOST_ENTRIES],
        }
    }

    // The bound of the list stands here, at `take_place` and at `trim`: `check` comes before each of them.
    fn of(list: &[Delta]) -> Place
        requires { length list.now ≤ 64 }
        ensures { list_in result ≡ deltas_of list.now }
    {
        let mut entries = [Delta::default(); MOST_ENTRIES];
        entries[..list.len()].copy_from_slice(list);
        Place {
            len: list.len(),
            entries,
        }
    }

    fn list(&self) -> &[Delta]
        ensures { deltas_of result.now ≡ list_in self.now }
    {
        &self.entries[..self.len]
    }
}

// The first `used` places hold a list: a slice and a count, since the caller brings the memory.
#[derive(Debug, Drop)]
pub(crate) struct Places<'a> {
    places: &'a mut [Place],
    used: usize,
}

impl<'a> Model for Places<'a> {
    ghost use Rattle.std.specs.Prelude.{◌-◌, ◌≤◌, map, length, take};
    ghost use Rattle.spec.specs.StoreModels.{Rows};
    ghost use Rattle.stores.specs.Places.{list_in};

    ghost Value = { Rows };

    ghost view = { λ s. record { rows = map list_in (take s.used s.places.now); free = length s.places.now - s.used } };

    ghost invariant = { λ s. (s.used ≤ length s.places.now) × (length s.places.now ≤ 65535) };
}

impl<'a> Places<'a> {
    ghost use Rattle.stores.specs.Places.{list_in};

    pub fn new(places: &'a mut [Place]) -> Places<'a>
        ensures { result ≡ record { rows = []; free = min (length places.old) 65535 } }
    {
        let most = places.len().min(MOST_PLACES);
        Places {
            places: &mut places[..most],
            used: 0,
        }
    }

    // The places that hold a list. Callers do not see what is true of every model, so that this and three others say it (`within`).
    fn held(&self) -> &[Place]
        ensures lists { map list_in result.now ≡ self.now.rows }
        ensures within { Within self.now }
    {
        &self.places[..self.used]
    }

    pub fn is_full(&self) -> bool
        ensures { result ≡ (self.now.free == 0) }
    {
        self.used == self.places.len()
    }

    // The lowest id that holds a list alike to this one.
    pub fn find(&self, list: &[Delta]) -> Option<u32>
        ensures found { result ≡ place_of (is_alike (deltas_of list.now)) 0 self.now.rows }
        ensures within { Within self.now }
    {
        self.held()
            .iter()
            .position(|place| alike(list, place.list()))
            .map(|id| id as u32)
    }

    // The delta that an id has at a region.
    pub fn delta(&self, id: u32, region: u16) -> Result<i16, Denial>
        ensures asked { Asked flat self.now id region (told result) }
        ensures within { Within self.now }
    {
        let id = id as usize;
        self.held()
            .get(id)
            .map(|place| delta_at(place.list(), region))
            .ok_or(Denial::new(Word::UnknownId, id, Part::Store))
    }

    // Puts the list into the next place.
    pub(crate) fn take_place(&mut self, list: &[Delta]) -> Result<u32, Denial>
        requires { length list.now ≤ 64 }
        ensures taken { take_place self.old (deltas_of list.now) self.old.free ≡ (self.new, told result) }
        ensures within { Within self.old }
    {
        if self.is_full() {
            return Err(Denial::new(Word::StoreFull, 0, Part::Store));
        }
        let id = self.used;
        self.places[id] = Place::of(list);
        self.used = id + 1;
        Ok(id as u32)
    }
}
