// Reads 16-bit fields of bytes. A reading ends at the first fault, told by its byte position.

ghost use Rattle.std.specs.Prelude.{◌≡◌, ◌+◌};
ghost use Rattle.spec.specs.Fields.{field};
ghost use Rattle.spec.specs.Meaning.{covered_by_glyphs};
ghost use Rattle.layout.specs.Headers.{three_fields, range_of};

// The field that begins at a byte position, or that position if the field does not lie whole inside.
// A position is a number and no error type: it says which field was needed, and that is all that a fault tells.
pub fn field_at(bytes: &[u8], at: usize) -> Result<u16, usize>
    ensures { result ≡ field bytes.now at }
{
    // `split_at_checked` costs less than `get`, which takes the length of what is left before it tests.
    match bytes.split_at_checked(at) {
        Some((_, [high, low, ..])) => Ok(u16::from_be_bytes([*high, *low])),
        _ => Err(at),
    }
}

// Bytes, and the position in them where a table begins. The public readers still take the two, so that every earlier call can be made;
// each makes one of these.
#[derive(Clone, Copy, Debug, PartialEq, Eq)]
pub struct FontData<'a> {
    pub bytes: &'a [u8],
    pub at: u32,
}

impl FontData<'_> {
    // The field so many bytes behind the first of the table.
    pub fn field(&self, offset: u32) -> Result<u16, usize>
        ensures { result ≡ field self.now.bytes.now (self.now.at + offset) }
    {
        field_at(self.bytes, self.at as usize + offset as usize)
    }

    // The first three fields, or the position of the first that does not lie inside.
    pub(crate) fn three_fields(&self) -> Result<(u16, u16, u16), usize>
        ensures { result ≡ three_fields self.now.bytes.now self.now.at }
    {
        let at = self.at as usize;
        let rest = self.bytes.get(at..).ok_or(at)?;
        let [a0, a1, b0, b1, f0, f1, ..] = rest else {
            return Err(at + rest.len() / 2 * 2);
        };
        Ok((
            u16::from_be_bytes([*a0, *a1]),
            u16::from_be_bytes([*b0, *b1]),
            u16::from_be_bytes([*f0, *f1]),
        ))
    }

    // The place of a glyph among those of a coverage table: the first match in written order, reading no field beyond it.
    pub(crate) fn find_glyph(&self, glyph: u16) -> Result<Option<u32>, usize>
        ensures { result ≡ covered_by_glyphs self.now.bytes.now self.now.at glyph }
    {
        let count = self.field(2)?;
        // The places stay a counted `for`: an entry is only a byte position, and no field beyond the match is read.
        for i in 0..u32::from(count) {
            if self.field(4 + 2 * i)? == glyph {
                return Ok(Some(i));
            }
        }
        Ok(None)
    }

    // Start and third field of the first range of a coverage table or class definition that holds the glyph. The end of a range is
    // needed only if its start is not above the glyph, its third field only if it holds the glyph.
    pub(crate) fn find_range(&self, glyph: u16) -> Result<Option<(u16, u16)>, usize>
        ensures { result ≡ range_of self.now.bytes.now self.now.at glyph }
    {
        let count = self.field(2)?;
        // The places stay a counted `for`: an entry is only a byte position, and only the fields that are needed are read.
        for i in 0..u32::from(count) {
            let range = 4 + 6 * i;
            let start = self.field(range)?;
            if start > glyph {
                continue;
            }
            let end = self.field(range + 2)?;
            if end < glyph {
                continue;
            }
            let third = self.field(range + 4)?;
            return Ok(Some((start, third)));
        }
        Ok(None)
    }
}
