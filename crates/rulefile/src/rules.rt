// What a rule file says, as types.
ghost use Rattle.rulefile.specs.Texts.{entry_text, error_text, lookup_text, mistake_text, statement_text, store_text};
ghost use Rattle.rulefile.specs.declared.rules.Error.TheVariants.{Memory as OutOfMemory};
ghost use Rattle.std.specs.Prelude.{◌≡◌, Some};

use crate::fault::Fault;
use std::alloc::AllocError;
use std::fmt;

// What a name stands for.
#[derive(Clone, Copy, Debug, PartialEq, Eq)]
pub enum EntryKind {
    Set,
    Device,
    Deltas,
}

impl fmt::Display for EntryKind {
    ghost output = { λ k. Some (entry_text k) };

    fn fmt<W: fmt::Write>(&self, f: &mut fmt::Formatter<W>) -> fmt::Result {
        f.write_str(match self {
            EntryKind::Set => "set",
            EntryKind::Device => "device",
            EntryKind::Deltas => "deltas",
        })
    }
}

// A `set`, `device` or `deltas` statement's name, and the line that gives it.
#[derive(Debug, PartialEq, Eq, Drop)]
pub struct Entry {
    pub kind: EntryKind,
    pub line: usize,
    pub name: Vec<u8>,
}

// A device or a delta list: by its number, or by its place among the entries.
#[derive(Clone, Copy, Debug, PartialEq, Eq)]
pub enum Reference {
    DeviceNumber(u16),
    DeltasNumber(u16),
    Entered(usize),
}

// A glyph set: by its number, or by its place among the entries.
#[derive(Clone, Copy, Debug, PartialEq, Eq)]
pub enum SetReference {
    SetNumber(u16),
    EnteredSet(usize),
}

// A metric's default, and the device or delta list beside it.
#[derive(Clone, Copy, Debug, PartialEq, Eq)]
pub struct Metric {
    pub default: i16,
    pub beside: Option<Reference>,
}

// Which metric of a record.
#[derive(Clone, Copy, Debug, PartialEq, Eq)]
pub enum MetricKind {
    XAdvance,
    YAdvance,
    XPlacement,
    YPlacement,
}

// How one glyph is moved; a metric that is absent is not written.
#[derive(Clone, Copy, Debug, Default, PartialEq, Eq)]
pub struct Record {
    pub x_advance: Option<Metric>,
    pub y_advance: Option<Metric>,
    pub x_placement: Option<Metric>,
    pub y_placement: Option<Metric>,
}

// The records of a pair's first and second glyph.
#[derive(Clone, Copy, Debug, PartialEq, Eq)]
pub struct Records {
    pub first: Record,
    pub second: Record,
}

// A region's number and the delta of that region. Not the `Delta` of `storage`: the parser knows no other crate.
#[derive(Clone, Copy, Debug, PartialEq, Eq)]
pub struct Delta {
    pub region: u16,
    pub delta: i16,
}

// What is asked of the written table.
#[derive(Clone, Copy, Debug, PartialEq, Eq)]
pub struct Question {
    pub first: u16,
    pub second: Option<u16>,
    pub ppem: u16,
    pub region: Option<u16>,
}

#[derive(Clone, Copy, Debug, PartialEq, Eq)]
pub enum LookupKind {
    Single,
    Pair,
}

impl fmt::Display for LookupKind {
    ghost output = { λ k. Some (lookup_text k) };

    fn fmt<W: fmt::Write>(&self, f: &mut fmt::Formatter<W>) -> fmt::Result {
        f.write_str(match self {
            LookupKind::Single => "single",
            LookupKind::Pair => "pair",
        })
    }
}

#[derive(Clone, Copy, Debug, PartialEq, Eq)]
pub struct Lookup {
    pub kind: LookupKind,
    pub flags: u32,
    pub mark_set: Option<u16>,
}

// How many places are brought for each table and each pool of elements.
#[derive(Clone, Copy, Debug, PartialEq, Eq)]
pub struct Storage {
    pub sets: u32,
    pub set_pool: u32,
    pub devices: u32,
    pub device_pool: u32,
    pub deltas: u32,
    pub delta_pool: u32,
    pub rules: u32,
    pub store: u32,
}

// How the store of variation deltas is made.
#[derive(Clone, Copy, Debug, PartialEq, Eq)]
pub enum StoreKind {
    Flat,
    Sharing,
    TrimFlat,
    TrimSharing,
}

impl fmt::Display for StoreKind {
    ghost output = { λ k. Some (store_text k) };

    fn fmt<W: fmt::Write>(&self, f: &mut fmt::Formatter<W>) -> fmt::Result {
        f.write_str(match self {
            StoreKind::Flat => "flat",
            StoreKind::Sharing => "sharing",
            StoreKind::TrimFlat => "trim+flat",
            StoreKind::TrimSharing => "trim+sharing",
        })
    }
}

// A statement after `lookup`. An entry is the place of its name among the names of the file.
#[derive(Debug, PartialEq, Eq, Drop)]
pub enum Statement {
    Set {
        entry: usize,
        glyphs: Vec<u16>,
    },
    Device {
        entry: usize,
        first: u16,
        last: u16,
        values: Vec<i8>,
    },
    Deltas {
        entry: usize,
        deltas: Vec<Delta>,
    },
    Single {
        glyph: u16,
        record: Record,
    },
    Pair {
        first: u16,
        second: u16,
        records: Records,
    },
    Class {
        first: SetReference,
        second: SetReference,
        records: Records,
    },
    Break,
    Build,
    Ask {
        question: Question,
    },
}

// Which kind of statement.
#[derive(Clone, Copy, Debug, PartialEq, Eq)]
pub enum StatementKind {
    Set,
    Device,
    Deltas,
    Single,
    Pair,
    Class,
    Break,
    Build,
    Ask,
}

impl fmt::Display for StatementKind {
    ghost output = { λ k. Some (statement_text k) };

    fn fmt<W: fmt::Write>(&self, f: &mut fmt::Formatter<W>) -> fmt::Result {
        f.write_str(match self {
            StatementKind::Set => "set",
            StatementKind::Device => "device",
            StatementKind::Deltas => "deltas",
            StatementKind::Single => "single",
            StatementKind::Pair => "pair",
            StatementKind::Class => "class",
            StatementKind::Break => "break",
            StatementKind::Build => "build",
            StatementKind::Ask => "ask",
        })
    }
}

// A statement and the number of its line, counted from 1.
#[derive(Debug, PartialEq, Eq, Drop)]
pub struct Line {
    pub number: usize,
    pub statement: Statement,
}

// A line that is wrong, counted from 1, and what is wrong with it.
#[derive(Clone, Copy, Debug, PartialEq, Eq)]
pub struct Mistake {
    pub line: usize,
    pub fault: Fault,
}

// LINE: text
impl fmt::Display for Mistake {
    ghost output = { λ m. Some (mistake_text m) };

    fn fmt<W: fmt::Write>(&self, f: &mut fmt::Formatter<W>) -> fmt::Result {
        let line = self.line;
        let fault = self.fault;
        write!(f, "{line}: {fault}")
    }
}

// Why a file is not read.
#[derive(Clone, Copy, Debug, PartialEq, Eq)]
pub enum Error {
    Memory,
    Wrong(Mistake),
}

impl fmt::Display for Error {
    ghost output = { λ e. Some (error_text e) };

    fn fmt<W: fmt::Write>(&self, f: &mut fmt::Formatter<W>) -> fmt::Result {
        match self {
            Error::Memory => write!(f, "there is not enough memory"),
            Error::Wrong(mistake) => write!(f, "{mistake}"),
        }
    }
}

impl std::error::Error for Error {}

impl From<AllocError> for Error {
    ghost from_gives = { λ _ e. e ≡ OutOfMemory };

    fn from(_e: AllocError) -> Error {
        Self::Memory
    }
}

// What a rule file says.
#[derive(Debug, PartialEq, Eq, Drop)]
pub struct RuleFile {
    pub storage: Storage,
    pub store: StoreKind,
    pub lookup: Lookup,
    pub entries: Vec<Entry>,
    pub statements: Vec<Line>,
}
