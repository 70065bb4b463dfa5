// Why a call is denied: a word, a place, the part that denied, and how many layers passed it up.

ghost use Rattle.std.specs.Prelude.{◌≡◌, Some};
ghost use Rattle.spec.specs.Denials.{number, text, part_text, arises, passed};
ghost use Rattle.denials.specs.Denials.{word_of, part_of, denial_of, shown};

use std::error::Error;
use std::fmt;

#[derive(Clone, Copy, Debug, PartialEq, Eq)]
pub enum Word {
    BadSet,
    BadDevice,
    BadDeltas,
    UnknownEntry,
    Full,
    NoSection,
    BadFlags,
    StoreFull,
    TooMany,
    TooFar,
    ShortOutput,
    BrokenTable,
    UnknownId,
}

impl Word {
    // Its number in the table of answers; 0 is that of an accepted call.
    pub fn number(self) -> u8
        ensures { result ≡ number (word_of self) }
    {
        // The table lists them from 1 on, in the order in which they stand above.
        self as u8 + 1
    }

    pub fn text(self) -> &'static str
        ensures { result.now ≡ text (word_of self) }
    {
        match self {
            Word::BadSet => "bad set",
            Word::BadDevice => "bad device",
            Word::BadDeltas => "bad deltas",
            Word::UnknownEntry => "unknown entry",
            Word::Full => "full",
            Word::NoSection => "no section",
            Word::BadFlags => "bad flags",
            Word::StoreFull => "store full",
            Word::TooMany => "too many",
            Word::TooFar => "too far",
            Word::ShortOutput => "short output",
            Word::BrokenTable => "broken table",
            Word::UnknownId => "unknown id",
        }
    }
}

impl fmt::Display for Word {
    ghost output = { λ w. Some (text (word_of w)) };

    fn fmt<W: fmt::Write>(&self, f: &mut fmt::Formatter<W>) -> fmt::Result {
        f.write_str(self.text())
    }
}

// The part that denied.
#[derive(Clone, Copy, Debug, PartialEq, Eq)]
pub enum Part {
    Sets,
    Devices,
    Deltas,
    Rules,
    Lookup,
    Store,
    Writer,
    Reader,
}

impl Part {
    pub fn text(self) -> &'static str
        ensures { result.now ≡ part_text (part_of self) }
    {
        match self {
            Part::Sets => "sets",
            Part::Devices => "devices",
            Part::Deltas => "deltas",
            Part::Rules => "rules",
            Part::Lookup => "lookup",
            Part::Store => "store",
            Part::Writer => "writer",
            Part::Reader => "reader",
        }
    }
}

impl fmt::Display for Part {
    ghost output = { λ p. Some (part_text (part_of p)) };

    fn fmt<W: fmt::Write>(&self, f: &mut fmt::Formatter<W>) -> fmt::Result {
        f.write_str(self.text())
    }
}

#[derive(Clone, Copy, Debug, PartialEq, Eq)]
pub struct Denial {
    pub word: Word,
    pub place: usize,
    pub part: Part,
    pub depth: u16,
}

impl Denial {
    // A denial where it arises.
    pub fn new(word: Word, place: usize, part: Part) -> Denial
        ensures { denial_of result ≡ arises (word_of word) place (part_of part) }
    {
        Denial {
            word,
            place,
            part,
            depth: 0,
        }
    }

    // The same, passed up by one more layer; the depth stays at 65,535 once there.
    pub fn passed(self) -> Denial
        ensures { denial_of result ≡ passed (denial_of self) }
    {
        Denial {
            depth: self.depth.saturating_add(1),
            ..self
        }
    }
}

// The number of the word, the word, and what else the denial tells.
impl fmt::Display for Denial {
    ghost output = { λ d. Some (shown d) };

    fn fmt<W: fmt::Write>(&self, f: &mut fmt::Formatter<W>) -> fmt::Result {
        let Denial {
            word,
            place,
            part,
            depth,
        } = *self;
        let number = word.number();
        write!(f, "{number} {word} place {place} part {part} depth {depth}")
    }
}

impl Error for Denial {}
