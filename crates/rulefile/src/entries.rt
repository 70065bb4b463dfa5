// Reads the statements that give a name: sets, devices and delta lists.
ghost use Rattle.rulefile.specs.Entries.{deltas_entry, device_entry, device_size, entry_of, said, set_entry};
ghost use Rattle.rulefile.specs.Outcomes.{Answered};
ghost use Rattle.rulefile.specs.Words.{words_in};
ghost use Rattle.std.specs.Prelude.{◌≡◌};

use crate::fault::{Fault, Stop};
use crate::lists::read_each;
use crate::numbers::number16;
use crate::rules::{EntryKind, Statement};
use crate::words::{word_at, words_from};
use std::alloc::Global;

// A pixel size of a device.
fn read_size(word: &[u8]) -> Result<u16, Fault>
    ensures { result ≡ device_size word.now }
{
    number16(word).ok_or(Fault::DeviceSize)
}

// device NAME FIRST LAST VALUE…
fn read_device_entry(heap: Global, entry: usize, words: &[&[u8]]) -> Result<Statement, Stop>
    ensures { Answered said result (device_entry entry (words_in words.now)) }
{
    let first = read_size(word_at(words, 2))?;
    let last = read_size(word_at(words, 3))?;
    let values = read_each(heap, words_from(words, 4))?;
    Ok(Statement::Device {
        entry,
        first,
        last,
        values,
    })
}

// The statement of an entry, but for its name: set NAME GLYPH…, device NAME FIRST LAST VALUE… or deltas NAME [REGION:DELTA…].
pub(crate) fn read_entry(
    heap: Global,
    kind: EntryKind,
    entry: usize,
    words: &[&[u8]],
) -> Result<Statement, Stop>
    ensures { Answered said result (entry_of kind entry (words_in words.now)) }
{
    match kind {
        EntryKind::Set => {
            let glyphs = read_each(heap, words_from(words, 2))?;
            Ok(Statement::Set { entry, glyphs })
        }
        EntryKind::Device => read_device_entry(heap, entry, words),
        EntryKind::Deltas => {
            let deltas = read_each(heap, words_from(words, 2))?;
            Ok(Statement::Deltas { entry, deltas })
        }
    }
}
