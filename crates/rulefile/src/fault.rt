// What can be wrong with a line of a rule file, and how that is said to its author.
ghost use Rattle.rulefile.specs.declared.fault.Stop.TheVariants.{Memory, Wrong};
ghost use Rattle.rulefile.specs.Files.{error_at};
ghost use Rattle.rulefile.specs.Texts.{text_of};
ghost use Rattle.std.specs.Prelude.{◌≡◌, Some};

use crate::rules::{Error, Mistake};
use std::alloc::{AllocError, AllocFailed};
use std::fmt;

#[derive(Clone, Copy, Debug, PartialEq, Eq)]
pub enum Fault {
    Statement,
    Extra,
    NoLookup,
    AfterLookup,
    Twice,
    StorageKey,
    StorageKeyTwice,
    StorageNumber,
    StoreKind,
    LookupKind,
    Flags,
    MarkSet,
    Name,
    NameTwice,
    Glyph,
    DeviceSize,
    DeviceValue,
    Delta,
    SingleOnly,
    PairOnly,
    NoRecord,
    Metric,
    MetricTwice,
    MetricValue,
    Reference,
    UnknownName,
    NameOfSet,
    NotSet,
    PixelSize,
    Region,
}

impl Fault {
    // One sentence for whoever wrote the file.
    pub fn text(self) -> &'static str
        ensures { result.now ≡ text_of self }
    {
        match self {
            Fault::Statement => "no statement begins with this word",
            Fault::Extra => "there are more words than this statement takes",
            Fault::NoLookup => "a `lookup` line has to stand before this",
            Fault::AfterLookup => "`storage` and `store` have to stand before `lookup`",
            Fault::Twice => "this statement may stand only once in a file",
            Fault::StorageKey =>
                "`storage` takes KEY=N with the keys sets, set-pool, devices, device-pool, deltas, delta-pool, rules and store",
            Fault::StorageKeyTwice => "this key of `storage` is given twice",
            Fault::StorageNumber => "a number of places goes from 0 to 4294967295",
            Fault::StoreKind => "a store is flat, sharing, trim+flat or trim+sharing",
            Fault::LookupKind => "a lookup is single or pair",
            Fault::Flags => "the flags of a lookup are a number from 0 to 0xFFFFFFFF",
            Fault::MarkSet => "after `markset` comes a number from 0 to 65535",
            Fault::Name =>
                "a name begins with a letter and goes on with letters, digits, `_`, `.` and `-`",
            Fault::NameTwice => "this name is given twice",
            Fault::Glyph => "a glyph is a number from 0 to 65535",
            Fault::DeviceSize =>
                "the first and the last size of a device are numbers from 0 to 65535",
            Fault::DeviceValue => "a value of a device goes from -128 to 127",
            Fault::Delta =>
                "a delta is REGION:DELTA with a region from 0 to 65535 and a delta from -32768 to 32767",
            Fault::SingleOnly => "`single` stands in single lookups only",
            Fault::PairOnly => "`pair` and `class` stand in pair lookups only",
            Fault::NoRecord => "a record is wanted here: `-`, or xadv=V, yadv=V, xpla=V or ypla=V",
            Fault::Metric => "a metric is xadv=V, yadv=V, xpla=V or ypla=V",
            Fault::MetricTwice => "this metric is given twice in one record",
            Fault::MetricValue => "the value of a metric goes from -32768 to 32767",
            Fault::Reference =>
                "after `@` comes a name, device#N or deltas#N with N from 0 to 65535",
            Fault::UnknownName => "this name is not given above",
            Fault::NameOfSet => "this is the name of a set: a device or a delta list is wanted",
            Fault::NotSet => "a set is wanted here: its name, or #N with N from 0 to 65535",
            Fault::PixelSize => "after `ppem` comes a number from 0 to 65535",
            Fault::Region => "after `region` comes a number from 0 to 65535",
        }
    }
}

impl fmt::Display for Fault {
    ghost output = { λ f. Some (text_of f) };

    fn fmt<W: fmt::Write>(&self, f: &mut fmt::Formatter<W>) -> fmt::Result {
        f.write_str(self.text())
    }
}

impl std::error::Error for Fault {}

// Why reading stopped: no memory was left, or the line is wrong. `Error` is this once the line is known, which `at` adds.
#[derive(Clone, Copy, Debug, PartialEq, Eq)]
pub(crate) enum Stop {
    Memory,
    Wrong(Fault),
}

impl Stop {
    // Why the file is not read, where reading stopped at a line.
    pub(crate) fn at(self, line: usize) -> Error
        ensures { result ≡ error_at line self }
    {
        match self {
            Stop::Memory => Error::Memory,
            Stop::Wrong(fault) => Error::Wrong(Mistake { line, fault }),
        }
    }
}

impl From<AllocError> for Stop {
    ghost from_gives = { λ _ r. r ≡ Memory };

    fn from(_e: AllocError) -> Stop {
        Stop::Memory
    }
}

impl<T: Drop> From<AllocFailed<T>> for Stop {
    ghost from_gives = { λ _ r. r ≡ Memory };

    fn from(_e: AllocFailed<T>) -> Stop {
        Stop::Memory
    }
}

impl From<Fault> for Stop {
    ghost from_gives = { λ f r. r ≡ Wrong f };

    fn from(fault: Fault) -> Stop {
        Stop::Wrong(fault)
    }
}
