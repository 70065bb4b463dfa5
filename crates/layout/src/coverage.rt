// Coverage tables: the glyphs themselves or their ranges, whichever is shorter, the glyphs if both are the same.

ghost use Rattle.std.specs.Prelude.{◌≡◌, ℕ, ◌^◌, ◌<◌, ◌≤◌, List, length, None, Ok};
ghost use Rattle.spec.specs.Fields.{big_endian, Stand};
ghost use Rattle.spec.specs.Coverage.{glyph_ranges, range_fields, coverage_format, coverage_count, coverage_index};
ghost use Rattle.spec.specs.Bytes.{coverage};
ghost use Rattle.spec.specs.Meaning.{covered};
ghost use Rattle.layout.specs.Writing.{Wrote, Puts, room};
ghost use Rattle.layout.specs.Faults.{Shaped, coverage_fault};
ghost use Rattle.layout.specs.Described.{table_fields};

use crate::output::Output;
use crate::ranges::{count_ranges, write_ranges};
use crate::reading::FontData;
use crate::shape::{Shape, count_field};
use crate::write::{FontRead, FontWrite};
use denials::denial::{Denial, Part, Word};

// The coverage index of a glyph in the table at a position, or none.
pub fn read_coverage(bytes: &[u8], at: u32, glyph: u16) -> Result<Option<u32>, usize>
    ensures { result ≡ covered bytes.now at glyph }
{
    let table = FontData { bytes, at };
    match table.field(0)? {
        1 => table.find_glyph(glyph),
        2 => {
            let range = table.find_range(glyph)?;
            Ok(range.map(|(start, index)| {
                u32::from(index) + u32::from(glyph.saturating_sub(start))
            }))
        }
        _ => Err(at as usize),
    }
}

// Glyphs, of which each is found at its place. They should rise, which nothing asks for here.
#[derive(Clone, Copy, Debug, PartialEq, Eq)]
pub struct CoverageTable<'a> {
    pub glyphs: &'a [u16],
}

impl CoverageTable<'_> {
    // Its shape, or why the table cannot be written.
    fn shape(&self) -> Result<Shape, Denial>
        ensures { Shaped result (coverage_fault self.now.glyphs.now) (coverage_format self.now.glyphs.now) (coverage_count self.now.glyphs.now) }
    {
        let glyphs = self.glyphs.len();
        if glyphs > 65536 {
            return Err(Denial::new(Word::TooMany, glyphs, Part::Writer));
        }
        let ranges = count_ranges(self.glyphs);
        if 4 + 6 * ranges < 4 + 2 * glyphs {
            return Ok(Shape::Ranges(ranges as u16));
        }
        Ok(Shape::Array(count_field(glyphs)?))
    }
}

// The clauses of the traits are written out at each part, where a reader sees what it encodes and when it is refused.
impl FontWrite for CoverageTable<'_> {
    ghost encoded = { λ t. table_fields (coverage t.glyphs.now) };

    ghost fault = { λ t. coverage_fault t.glyphs.now };

    fn size(&self) -> usize
        ensures value { result ≡ room (coverage_fault self.now.glyphs.now) (table_fields (coverage self.now.glyphs.now)) }
        ensures bound { result < 2 ^ 32 }
    {
        match self.shape() {
            Ok(Shape::Array(count)) => 4 + 2 * usize::from(count),
            Ok(Shape::Ranges(count)) => 4 + 6 * usize::from(count),
            Err(_) => 0,
        }
    }

    fn write_into(&self, out: &mut Output<'_>) -> Result<(), Denial>
        ensures { Puts (coverage_fault self.now.glyphs.now) result out.old out.new (big_endian (table_fields (coverage self.now.glyphs.now))) }
    {
        match self.shape()? {
            Shape::Array(count) => {
                out.fields(&[1, count])?;
                out.fields(self.glyphs)
            }
            Shape::Ranges(count) => {
                out.fields(&[2, count])?;
                write_ranges(out, self.glyphs)
            }
        }
    }
}

impl FontRead for CoverageTable<'_> {
    type Question = u16;

    type Answer = Option<u32>;

    ghost means = { λ bs at glyph. covered bs at glyph };

    ghost answers = { λ t glyph. coverage_index t.glyphs.now glyph };

    fn reads_back(&self)
        ensures { (bs : List ℕ) (at q : ℕ) → coverage_fault self.now.glyphs.now ≡ None → Stand bs at (table_fields (coverage self.now.glyphs.now)) → covered bs at q ≡ Ok (coverage_index self.now.glyphs.now q) }
    {}

    fn read(bytes: &[u8], at: u32, glyph: u16) -> Result<Option<u32>, usize>
        ensures { result ≡ covered bytes.now at glyph }
    {
        read_coverage(bytes, at, glyph)
    }
}
