// Device values in words: how wide they are, how they are packed, and the value at a place of a word.

ghost use Rattle.std.specs.Prelude.{Some, ◌≡◌, ◌+◌, ◌*◌, ◌^◌, ◌<◌, ◌≤◌, length, max};
ghost use Rattle.spec.specs.Lists.{Every};
ghost use Rattle.spec.specs.Fields.{big_endian, bits_of, signed};
ghost use Rattle.spec.specs.Devices.{needed_format, delta_format, width, per_word, pack, unpack};
ghost use Rattle.laws.specs.Conditions.{Within};
ghost use Rattle.layout.specs.Widths.{Wide};
ghost use Rattle.layout.specs.Writing.{Wrote};
ghost use Rattle.layout.specs.Faults.{words_in};
ghost use Rattle.layout.specs.DeltaFormats.{number, Decodes, unknown_text};

use crate::output::Output;
use denials::denial::Denial;
use std::error::Error;
use std::fmt;

// How many bits the values of a device have. A wider format is a larger one.
#[derive(Clone, Copy, Debug, PartialEq, Eq, PartialOrd, Ord)]
pub enum DeltaFormat {
    Local2BitDeltas = 1,
    Local4BitDeltas = 2,
    Local8BitDeltas = 3,
}

impl DeltaFormat {
    // Its number in a device table.
    pub fn number(self) -> u16
        ensures { result ≡ number self }
    {
        self as u16
    }

    // The narrowest for a value.
    fn for_value(value: i8) -> DeltaFormat
        ensures { number result ≡ needed_format value }
    {
        match value {
            -2..=1 => DeltaFormat::Local2BitDeltas,
            -8..=7 => DeltaFormat::Local4BitDeltas,
            _ => DeltaFormat::Local8BitDeltas,
        }
    }

    // The wider of two. Their numbers are compared, which costs less than the derived `max`.
    fn wider(self, other: DeltaFormat) -> DeltaFormat
        ensures { number result ≡ max (number self) (number other) }
    {
        if self.number() < other.number() {
            other
        } else {
            self
        }
    }

    // The bits of a value.
    fn bits(self) -> u32
        ensures value { result ≡ width (number self) }
        ensures wide { Wide result }
    {
        match self {
            DeltaFormat::Local2BitDeltas => 2,
            DeltaFormat::Local4BitDeltas => 4,
            DeltaFormat::Local8BitDeltas => 8,
        }
    }

    // The values in a word.
    pub(crate) fn per_word(self) -> u32
        ensures value { result ≡ per_word (number self) }
        ensures whole { width (number self) * result ≡ 16 }
        ensures some { 1 ≤ result }
    {
        16 / self.bits()
    }

    // The low bits of a value, as a number.
    fn low_bits(self, value: i8) -> u16
        ensures { result ≡ bits_of (width (number self)) value }
    {
        u16::from(value.cast_unsigned()) % (1 << self.bits())
    }

    // One word: values from its high end down, the unused low bits 0.
    fn pack(self, values: &[i8]) -> u16
        requires { width (number self) * length values.now ≤ 16 }
        ensures { result ≡ pack (width (number self)) 0 values.now }
    {
        let width = self.bits();
        let mut word = 0;
        let mut shift = 16;
        for value in values {
            shift -= width;
            word += self.low_bits(*value) << shift;
        }
        word
    }

    // The bits of a value as a signed number.
    fn signed_value(self, bits: u16) -> i8
        requires { bits < 2 ^ width (number self) }
        ensures { result ≡ signed (width (number self)) bits }
    {
        let unused = 8 - self.bits();
        ((bits << unused) as u8).cast_signed() >> unused
    }

    // The value at a place of a word.
    pub(crate) fn value_in(self, word: u16, place: u32) -> i8
        requires { width (number self) * (place + 1) ≤ 16 }
        ensures { result ≡ unpack (number self) word place }
    {
        let width = self.bits();
        let shift = 16 - width * (place + 1);
        self.signed_value((word >> shift) % (1 << width))
    }
}

// A number that is no delta format's.
#[derive(Clone, Copy, Debug, PartialEq, Eq)]
pub struct UnknownDeltaFormat(pub u16);

impl TryFrom<u16> for DeltaFormat {
    type Error = UnknownDeltaFormat;

    ghost try_from_gives = { Decodes };

    fn try_from(number: u16) -> Result<DeltaFormat, UnknownDeltaFormat> {
        match number {
            1 => Ok(DeltaFormat::Local2BitDeltas),
            2 => Ok(DeltaFormat::Local4BitDeltas),
            3 => Ok(DeltaFormat::Local8BitDeltas),
            _ => Err(UnknownDeltaFormat(number)),
        }
    }
}

impl fmt::Display for UnknownDeltaFormat {
    ghost output = { λ e. Some (unknown_text e.0) };

    fn fmt<W: fmt::Write>(&self, f: &mut fmt::Formatter<W>) -> fmt::Result {
        let number = self.0;
        write!(f, "no delta format has number {number}")
    }
}

impl Error for UnknownDeltaFormat {}

// The delta format of a device: that of its widest value.
pub fn delta_format(values: &[i8]) -> DeltaFormat
    ensures value { number result ≡ delta_format values.now }
    ensures fit { Every (Within 128) values.now }
{
    let mut format = DeltaFormat::Local2BitDeltas;
    for value in values {
        format = format.wider(DeltaFormat::for_value(*value));
    }
    format
}

// Writes the values as words. The bound of the output is said here: see `Output`.
pub(crate) fn write_words(
    out: &mut Output<'_>,
    values: &[i8],
    format: DeltaFormat,
) -> Result<(), Denial>
    requires { out.old.used ≤ length out.old.bytes.now }
    ensures { Wrote result out.old out.new (big_endian (words_in (number format) values.now)) }
{
    for chunk in values.chunks(format.per_word() as usize) {
        out.field(format.pack(chunk))?;
    }
    Ok(())
}
