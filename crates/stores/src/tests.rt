// Stores on small examples, each row with the answer that the rules give.

use crate::flat::FlatStore;
use crate::lists::check;
use crate::places::Place;
use crate::sharing::SharingStore;
use crate::store::VariationStore;
use crate::trim::TrimLayer;
use denials::denial::{Denial, Part, Word};
use storage::delta::Delta;

// A list and its id or its denial.
type Row<'a> = (&'a [Delta], Result<u32, Denial>);

// Deltas at the regions 1 and 2.
fn deltas(one: i16, two: i16) -> [Delta; 2] {
    [
        Delta {
            region: 1,
            delta: one,
        },
        Delta {
            region: 2,
            delta: two,
        },
    ]
}

// `store full`, passed up by so many layers.
fn full(depth: u16) -> Result<u32, Denial> {
    Err(Denial {
        depth,
        ..Denial::new(Word::StoreFull, 0, Part::Store)
    })
}

fn adds<S: VariationStore>(store: &mut S, rows: &[Row<'_>]) -> bool {
    for (list, answer) in rows {
        if store.add(list) != *answer {
            return false;
        }
    }
    true
}

// Exactly as many lists as places, then one over.
#[test]
fn flat_store(rt: HostRuntime) {
    let rows = [
        (&deltas(0, 0)[..0], Ok(0)), // the empty list is good
        (&deltas(5, 0)[..2], Ok(1)),
        (&deltas(5, 0)[..1], full(0)), // nothing is recognised
    ];
    let mut places = [Place::new(); 2];
    let mut store = FlatStore::new(&mut places);
    assert!(rt; adds(&mut store, &rows));
}

// Alike lists share an id, also when no place is free.
#[test]
fn sharing_store(rt: HostRuntime) {
    let rows = [
        (&deltas(0, 0)[..1], Ok(0)), // one zero delta
        (&deltas(0, 0)[..0], Ok(0)), // alike to the empty list
        (&deltas(5, 0)[..1], Ok(1)),
        (&deltas(0, 5)[..2], full(0)), // the same entries' deltas at another region
        (&deltas(5, 0)[..2], Ok(1)), // one zero delta more
    ];
    let mut places = [Place::new(); 2];
    let mut store = SharingStore::new(&mut places);
    assert!(rt; adds(&mut store, &rows));
}

// Two layers pass up what the store denies; no place was brought.
#[test]
fn layers(rt: HostRuntime) {
    let rows = [(&deltas(5, 0)[..2], full(2))];
    let mut places = [Place::new(); 1];
    let mut store = TrimLayer::new(TrimLayer::new(SharingStore::new(&mut places[0..0])));
    assert!(rt; adds(&mut store, &rows));
}

// 64 entries are good; the 65th is told.
#[test]
fn long_lists(rt: HostRuntime) {
    let mut list = [Delta {
        region: 0,
        delta: 1,
    }; 65];
    for (region, entry) in list.iter_mut().enumerate() {
        entry.region = region as u16;
    }
    assert_eq!(rt; check(&list[0..64]), Ok(()));
    assert_eq!(rt;
        check(&list),
        Err(Denial::new(Word::BadDeltas, 64, Part::Store))
    );
}

// An id that was not given is unknown.
#[test]
fn unknown_id(rt: HostRuntime) {
    let mut places = [Place::new(); 1];
    let store = FlatStore::new(&mut places);
    assert_eq!(rt;
        store.delta(7, 0),
        Err(Denial::new(Word::UnknownId, 7, Part::Store))
    );
}
