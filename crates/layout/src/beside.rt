// Reads what stands beside a metric's default: a device table, or a variation index table in its place.

ghost use Rattle.std.specs.Prelude.{◌≡◌};
ghost use Rattle.spec.specs.Meaning.{beside, device_value};
ghost use Rattle.layout.specs.DeltaFormats.{number};

use crate::delta_words::DeltaFormat;
use crate::reading::FontData;

// A metric without an id has this one. It stays a number, since OpenType itself says by it that there is none.
pub const NO_ID: u32 = 0xFFFF_FFFF;

// In the place of a delta format it says that the table is a variation index table.
pub(crate) const VARIATION_INDEX: u16 = 0x8000;

// The value at a pixel size, which is 0 outside the sizes of the device.
fn device_value(
    table: &FontData<'_>,
    ppem: u16,
    sizes: (u16, u16),
    format: DeltaFormat,
) -> Result<(i8, u32), usize>
    ensures { result ≡ device_value table.now.bytes.now ppem table.now.at sizes.0 sizes.1 (number format) }
{
    let (first, last) = sizes;
    if ppem < first || last < ppem {
        return Ok((0, NO_ID));
    }
    let place = u32::from(ppem - first);
    let per_word = format.per_word();
    let word = table.field(6 + 2 * (place / per_word))?;
    Ok((format.value_in(word, place % per_word), NO_ID))
}

// The device value at a pixel size and the store id of the table at a position.
pub fn read_beside(bytes: &[u8], ppem: u16, at: u32) -> Result<(i8, u32), usize>
    ensures { result ≡ beside bytes.now ppem at }
{
    let table = FontData { bytes, at };
    let (a, b, format) = table.three_fields()?;
    if format == VARIATION_INDEX {
        return Ok((0, u32::from(a) << 16 | u32::from(b)));
    }
    let format = DeltaFormat::try_from(format).map_err(|_| at as usize + 4)?;
    device_value(&table, ppem, (a, b), format)
}
