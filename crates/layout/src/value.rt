// Value records: the fields that a value format names, in writing order.

ghost use Rattle.std.specs.Prelude.{◌≡◌, ◌*◌, ◌≤◌, length, None};
ghost use Rattle.spec.specs.Fields.{big_endian};
ghost use Rattle.spec.specs.Values.{ones, encoded_size};
ghost use Rattle.layout.specs.Writing.{Wrote};
ghost use Rattle.layout.specs.Present.{present};

use crate::output::Output;
use denials::denial::Denial;

// The bit of each field: x and y placement, x and y advance, then their devices.
const FIELDS: [u16; 8] = [0x01, 0x02, 0x04, 0x08, 0x10, 0x20, 0x40, 0x80];

// The bytes of a record in a value format: two for each one in it. A value format stays a number: it is a set of bits, and no kind.
pub fn encoded_size(format: u16) -> usize
    ensures value { result ≡ encoded_size format }
    ensures bound { result ≤ 32 }
{
    2 * format.count_ones() as usize
}

// Writes those of the eight fields whose bit the format has.
pub fn write_value(out: &mut Output<'_>, format: u16, fields: &[u16; 8]) -> Result<(), Denial>
    ensures { Wrote result out.old out.new (big_endian (present format fields.now)) }
{
    out.check()?;
    for (bit, value) in FIELDS.iter().zip(fields) {
        if format & bit != 0 {
            out.field(*value)?;
        }
    }
    Ok(())
}
