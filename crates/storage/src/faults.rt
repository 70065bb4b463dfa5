// What is wrong with an entry: the place that offends, or none. Linear in the entry.

ghost use Rattle.std.specs.Prelude.{◌≡◌, map, length};
ghost use Rattle.spec.specs.Entries.{set_fault, device_fault, deltas_fault, lower};
ghost use Rattle.storage.specs.Deltas.{deltas_of};

use crate::delta::Delta;
use crate::rising::first_unsorted;

// The most sizes of a device, and the most entries of a delta list.
pub const MOST_SIZES: usize = 64;

pub const MOST_ENTRIES: usize = 64;

// A set is not empty, and rises strictly.
pub(crate) fn set_fault(glyphs: &[u16]) -> Option<usize>
    ensures { result ≡ set_fault glyphs.now }
{
    if glyphs.is_empty() {
        return Some(0);
    }
    first_unsorted(glyphs)
}

// First size to last size, at most 64 of them, and one value for each.
pub(crate) fn device_fault(first: u16, last: u16, count: usize) -> Option<usize>
    ensures { result ≡ device_fault first last count }
{
    if last < first {
        return Some(0);
    }
    let sizes = usize::from(last - first) + 1;
    if sizes > MOST_SIZES {
        return Some(1);
    }
    if count != sizes {
        return Some(2);
    }
    None
}

// The lower of the first offender and the most entries, where a list is too long.
fn lower(fault: Option<usize>, long: bool) -> Option<usize>
    ensures { result ≡ lower fault long }
{
    if long {
        return Some(fault.unwrap_or(MOST_ENTRIES).min(MOST_ENTRIES));
    }
    fault
}

// The first place whose region does not rise, or that lies past the most entries. What lies past them is not read.
pub fn deltas_fault(list: &[Delta]) -> Option<usize>
    ensures { result ≡ deltas_fault (deltas_of list.now) }
{
    let first = &list[..list.len().min(MOST_ENTRIES)];
    lower(first_unsorted(first), list.len() > MOST_ENTRIES)
}
