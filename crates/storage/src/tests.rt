// Answers at the ends of what is allowed: no place, exactly full, one over, the same list twice, 64 and 65.

use crate::delta::Delta;
use crate::entries::{enter_deltas, enter_device, enter_set};
use crate::interner::Interner;
use crate::span::Span;
use denials::denial::{Denial, Part, Word};

// The number of an entry, or the word of a denial with its place.
fn told(answer: Result<u16, Denial>) -> Result<u16, (Word, usize)> {
    answer.map_err(|denial| (denial.word, denial.place))
}

#[test]
fn delta_lists(rt: HostRuntime) {
    let mut list = [Delta::default(); 65];
    for (region, entry) in list.iter_mut().enumerate() {
        entry.region = region as u16;
        entry.delta = 1;
    }
    let mut pool = [Delta::default(); 200];
    let mut table = [Span::default(); 2];
    let mut deltas = Interner::new(&mut pool, &mut table, 65535, Part::Deltas);
    let rows = [
        (64usize, Ok(0)),
        (65, Err((Word::BadDeltas, 64))),
        (64, Ok(0)),
        (0, Ok(1)),
        (1, Err((Word::Full, 0))),
    ];
    for (count, answer) in rows {
        assert_eq!(rt;
            told(enter_deltas(&mut deltas, &list[..count.min(65)])),
            answer
        );
    }
}

#[test]
fn devices(rt: HostRuntime) {
    let values = [1i8; 65];
    let mut pool = [0i8; 128];
    let mut table = [Span::default(); 3];
    let mut devices = Interner::new(&mut pool, &mut table, 65535, Part::Devices);
    let rows = [
        (10, 73, 64usize, Ok(0)),
        (10, 74, 65, Err((Word::BadDevice, 1))),
        (10, 73, 64, Ok(0)),
        (11, 74, 64, Ok(1)),
        (12, 75, 64, Err((Word::Full, 0))),
        (9, 8, 0, Err((Word::BadDevice, 0))),
        (10, 12, 2, Err((Word::BadDevice, 2))),
    ];
    for (first, last, count, answer) in rows {
        let list = &values[..count.min(65)];
        assert_eq!(rt; told(enter_device(&mut devices, first, last, list)), answer);
    }
}

#[test]
fn capacities(rt: HostRuntime) {
    let glyphs = [4u16, 9, 9];
    let rows = [
        (0, 1usize, Err((Word::Full, 0))),
        (1, 2, Ok(0)),
        (1, 0, Err((Word::BadSet, 0))),
        (1, 3, Err((Word::BadSet, 2))),
    ];
    for (most, count, answer) in rows {
        let mut pool = [0u16; 2];
        let mut table = [Span::default(); 1];
        let mut sets = Interner::new(&mut pool, &mut table, most, Part::Sets);
        assert_eq!(rt; told(enter_set(&mut sets, &glyphs[..count.min(3)])), answer);
    }
}
