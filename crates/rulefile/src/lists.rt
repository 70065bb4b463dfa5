// Reads lists: one item a word.
ghost use Rattle.rulefile.specs.Lists.{delta_of, delta_from, device_value_of, each, glyph_of};
ghost use Rattle.rulefile.specs.Outcomes.{Answered};
ghost use Rattle.rulefile.specs.Words.{words_in};
ghost use Rattle.rulefile.specs.declared.fault.Fault.{Fault as Wrong};
ghost use Rattle.std.specs.Prelude.{◌≡◌, ℕ, List, vec_items, Result as Outcome};

use crate::fault::{Fault, Stop};
use crate::numbers::{number16, signed8, signed16};
use crate::rules::Delta;
use crate::words::split_once;
use std::alloc::Global;

// What a list is made of: an item is read from one word.
pub(crate) trait Item: Sized + Drop {
    ghost reads: { List ℕ → Outcome Self Wrong };

    fn read(word: &[u8]) -> Result<Self, Fault>
        ensures { result ≡ reads word.now };
}

// A glyph.
impl Item for u16 {
    ghost reads = { glyph_of };

    fn read(word: &[u8]) -> Result<u16, Fault> {
        number16(word).ok_or(Fault::Glyph)
    }
}

// A value of a device.
impl Item for i8 {
    ghost reads = { device_value_of };

    fn read(word: &[u8]) -> Result<i8, Fault> {
        signed8(word).ok_or(Fault::DeviceValue)
    }
}

// A delta from its region and its value.
fn read_delta(region: &[u8], value: &[u8]) -> Result<Delta, Fault>
    ensures { result ≡ delta_from region.now value.now }
{
    let region = number16(region).ok_or(Fault::Delta)?;
    let delta = signed16(value).ok_or(Fault::Delta)?;
    Ok(Delta { region, delta })
}

// REGION:DELTA
impl Item for Delta {
    ghost reads = { delta_of };

    fn read(word: &[u8]) -> Result<Delta, Fault> {
        let (region, value) = split_once(word, b':').ok_or(Fault::Delta)?;
        read_delta(region, value)
    }
}

// The items of the words.
pub(crate) fn read_each<T: Item>(heap: Global, words: &[&[u8]]) -> Result<Vec<T>, Stop>
    ensures { Answered vec_items result (each T.reads (words_in words.now)) }
{
    let mut items = Vec::new(heap);
    for word in words {
        items.push(T::read(word)?)?;
    }
    Ok(items)
}
