// The names given so far, and what a name stands for. Each search goes through all of them.
ghost use Rattle.rulefile.specs.Names.{raw_reference, raw_set};
ghost use Rattle.std.specs.Prelude.{◌≡◌, ◌∷◌, ◌++◌, [], length, OnOk};

use crate::fault::Fault;
use crate::numbers::number16;
use crate::rules::{Entry, EntryKind, Reference, SetReference};
use crate::words::{is_name, split_once};
use std::alloc::{AllocError, Global};

// The place of an entry, and what kind of entry it is.
#[derive(Clone, Copy, Debug, PartialEq, Eq)]
pub(crate) struct Found {
    pub entry: usize,
    pub kind: EntryKind,
}

// The names in the order in which the lines give them. No model: the parser is taken apart in the end, and `names_in` is what they say.
#[derive(Debug, Drop)]
pub(crate) struct Names {
    pub entries: Vec<Entry>,
}

impl Names {
    ghost use Rattle.rulefile.specs.Entries.{fresh_name};
    ghost use Rattle.rulefile.specs.Names.{name_given, names_in, place_of, reference_of, set_reference_of};

    // How many names are given.
    pub(crate) fn len(&self) -> usize
        ensures { result ≡ length (names_in self.now) }
    {
        self.entries.len()
    }

    // The entry that a name stands for. A loop and no `position`, after which the entry would be looked up again for its kind.
    pub(crate) fn find(&self, name: &[u8]) -> Option<Found>
        ensures { result ≡ place_of name.now (names_in self.now) }
    {
        for (at, entry) in self.entries.iter().enumerate() {
            if entry.name.as_slice() == name {
                return Some(Found {
                    entry: at,
                    kind: entry.kind,
                });
            }
        }
        None
    }

    // A word that can be given as a name: a name that is not given above.
    pub(crate) fn check_fresh(&self, name: &[u8]) -> Result<(), Fault>
        ensures { result ≡ fresh_name (names_in self.now) name.now }
    {
        if !is_name(name) {
            return Err(Fault::Name);
        }
        if self.find(name).is_some() {
            return Err(Fault::NameTwice);
        }
        Ok(())
    }

    // One name more.
    pub(crate) fn give(
        &mut self,
        heap: Global,
        kind: EntryKind,
        line: usize,
        name: &[u8],
    ) -> Result<(), AllocError>
        ensures { OnOk result (names_in self.new ≡ names_in self.old ++ name_given kind line name.now ∷ []) }
    {
        let name = Vec::from_slice(heap, name)?;
        self.entries.push(Entry { kind, line, name })?;
        Ok(())
    }

    // A device or a delta list: its name, device#N or deltas#N.
    pub(crate) fn read_reference(&self, word: &[u8]) -> Result<Reference, Fault>
        ensures { result ≡ reference_of (names_in self.now) word.now }
    {
        if let Some((kind, number)) = split_once(word, b'#') {
            return read_raw(kind, number);
        }
        let found = self.find(word).ok_or(Fault::UnknownName)?;
        match found.kind {
            EntryKind::Set => Err(Fault::NameOfSet),
            EntryKind::Device | EntryKind::Deltas => Ok(Reference::Entered(found.entry)),
        }
    }

    // A set: its name, or #N.
    pub(crate) fn read_set(&self, word: &[u8]) -> Result<SetReference, Fault>
        ensures { result ≡ set_reference_of (names_in self.now) word.now }
    {
        if let [b'#', number @ ..] = word {
            return read_set_number(number);
        }
        let found = self.find(word).ok_or(Fault::UnknownName)?;
        match found.kind {
            EntryKind::Set => Ok(SetReference::EnteredSet(found.entry)),
            EntryKind::Device | EntryKind::Deltas => Err(Fault::NotSet),
        }
    }
}

// A device or a delta list by its number.
fn read_raw(kind: &[u8], number: &[u8]) -> Result<Reference, Fault>
    ensures { result ≡ raw_reference kind.now number.now }
{
    let number = number16(number).ok_or(Fault::Reference);
    match kind {
        b"device" => number.map(Reference::DeviceNumber),
        b"deltas" => number.map(Reference::DeltasNumber),
        _ => Err(Fault::Reference),
    }
}

// A set by its number.
fn read_set_number(number: &[u8]) -> Result<SetReference, Fault>
    ensures { result ≡ raw_set number.now }
{
    number16(number)
        .map(SetReference::SetNumber)
        .ok_or(Fault::NotSet)
}
