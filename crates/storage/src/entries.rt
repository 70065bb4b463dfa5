// Glyph sets, devices and delta lists: checked first, then interned.

ghost use Rattle.std.specs.Prelude.{◌≡◌};
ghost use Rattle.storage.specs.Entries.{SetEntered, DeviceEntered, DeltasEntered};

use crate::delta::Delta;
use crate::faults::{deltas_fault, device_fault, set_fault};
use crate::interner::Interner;
use denials::denial::{Denial, Part, Word};

// The three below stay apart: they differ in what is checked and in what an entry is made of, and `Interner::enter` is what they share.
// The number of a glyph set, `bad set`, or `full`.
pub fn enter_set<'a>(sets: &mut Interner<'a, u16, ()>, glyphs: &[u16]) -> Result<u16, Denial>
    ensures { SetEntered sets.old sets.new glyphs.now result }
{
    if let Some(place) = set_fault(glyphs) {
        return Err(Denial::new(Word::BadSet, place, Part::Sets));
    }
    sets.enter((), glyphs)
}

// The number of a device, `bad device`, or `full`.
pub fn enter_device<'a>(
    devices: &mut Interner<'a, i8, u16>,
    first: u16,
    last: u16,
    values: &[i8],
) -> Result<u16, Denial>
    ensures { DeviceEntered devices.old devices.new first last values.now result }
{
    if let Some(place) = device_fault(first, last, values.len()) {
        return Err(Denial::new(Word::BadDevice, place, Part::Devices));
    }
    devices.enter(first, values)
}

// The number of a delta list, `bad deltas`, or `full`.
pub fn enter_deltas<'a>(deltas: &mut Interner<'a, Delta, ()>, list: &[Delta]) -> Result<u16, Denial>
    ensures { DeltasEntered deltas.old deltas.new list.now result }
{
    if let Some(place) = deltas_fault(list) {
        return Err(Denial::new(Word::BadDeltas, place, Part::Deltas));
    }
    deltas.enter((), list)
}
