// How a coverage table or a class definition is written, with the count of its entries.

ghost use Rattle.std.specs.Prelude.{◌≡◌};
ghost use Rattle.layout.specs.Faults.{Allows, count_fault};

use denials::denial::{Denial, Part, Word};

// Format 1 is an array, format 2 ranges.
#[derive(Clone, Copy, Debug, PartialEq, Eq)]
pub(crate) enum Shape {
    Array(u16),
    Ranges(u16),
}

// A count as its field, or `too many`.
pub(crate) fn count_field(count: usize) -> Result<u16, Denial>
    ensures { Allows result (count_fault count) count }
{
    u16::try_from(count).map_err(|_| Denial::new(Word::TooMany, count, Part::Writer))
}
