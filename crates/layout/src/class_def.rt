// Class definitions: the classes of a span of glyphs or ranges of one class, whichever is shorter, ranges if both are the same.

ghost use Rattle.std.specs.Prelude.{◌≡◌, ℕ, ◌^◌, ◌<◌, ◌≤◌, List, length, None, Ok, OnOk};
ghost use Rattle.spec.specs.Fields.{big_endian, Stand};
ghost use Rattle.spec.specs.Classes.{class_at, class_format};
ghost use Rattle.spec.specs.Bytes.{class_def};
ghost use Rattle.spec.specs.Meaning.{class, class_by_array};
ghost use Rattle.layout.specs.Writing.{Puts, room};
ghost use Rattle.layout.specs.Faults.{Shaped, class_count, class_fault};
ghost use Rattle.layout.specs.Listing.{listed};
ghost use Rattle.layout.specs.Described.{table_fields};

use crate::glyph_class::{GlyphClass, first_and_span, write_array};
use crate::output::Output;
use crate::ranges::{count_ranges, write_ranges};
use crate::reading::FontData;
use crate::shape::{Shape, count_field};
use crate::write::{FontRead, FontWrite};
use denials::denial::{Denial, Part, Word};
use storage::rising::first_unsorted;

// The class in an array of classes, the glyph of the first before them.
fn class_in_array(table: &FontData<'_>, glyph: u16) -> Result<u16, usize>
    ensures { result ≡ class_by_array table.now.bytes.now table.now.at glyph }
{
    let start = table.field(2)?;
    if start > glyph {
        return Ok(0);
    }
    let count = table.field(4)?;
    let place = glyph - start;
    if place >= count {
        return Ok(0);
    }
    table.field(6 + 2 * u32::from(place))
}

// The class of a glyph in the table at a position, 0 if it is not listed.
pub fn read_class(bytes: &[u8], at: u32, glyph: u16) -> Result<u16, usize>
    ensures { result ≡ class bytes.now at glyph }
{
    let table = FontData { bytes, at };
    match table.field(0)? {
        1 => class_in_array(&table, glyph),
        2 => Ok(table.find_range(glyph)?.map_or(0, |(_, class)| class)),
        _ => Err(at as usize),
    }
}

// Glyphs with their classes. They rise, and no class is 0.
#[derive(Clone, Copy, Debug, PartialEq, Eq)]
pub struct ClassDef<'a> {
    pub classes: &'a [GlyphClass],
}

impl ClassDef<'_> {
    // Its shape, or why the table cannot be written: glyphs that do not rise, or a count above 65,535.
    #[tactic(auto, using(crate::proofs::Listing::few, crate::proofs::Listing::keys_listed))]
    fn shape(&self) -> Result<Shape, Denial>
        ensures shaped { Shaped result (class_fault (listed self.now.classes.now)) (class_format (listed self.now.classes.now)) (class_count (listed self.now.classes.now)) }
        ensures few { OnOk result (length self.now.classes.now ≤ 65536) }
    {
        if let Some(place) = first_unsorted(self.classes) {
            return Err(Denial::new(Word::BadSet, place, Part::Writer));
        }
        let (_, span) = first_and_span(self.classes);
        let ranges = count_ranges(self.classes);
        if 6 + 2 * span < 4 + 6 * ranges {
            Ok(Shape::Array(count_field(span)?))
        } else {
            Ok(Shape::Ranges(count_field(ranges)?))
        }
    }
}

impl FontWrite for ClassDef<'_> {
    ghost encoded = { λ t. table_fields (class_def (listed t.classes.now)) };

    ghost fault = { λ t. class_fault (listed t.classes.now) };

    fn size(&self) -> usize
        ensures value { result ≡ room (class_fault (listed self.now.classes.now)) (table_fields (class_def (listed self.now.classes.now))) }
        ensures bound { result < 2 ^ 32 }
    {
        match self.shape() {
            Ok(Shape::Array(count)) => 6 + 2 * usize::from(count),
            Ok(Shape::Ranges(count)) => 4 + 6 * usize::from(count),
            Err(_) => 0,
        }
    }

    fn write_into(&self, out: &mut Output<'_>) -> Result<(), Denial>
        ensures { Puts (class_fault (listed self.now.classes.now)) result out.old out.new (big_endian (table_fields (class_def (listed self.now.classes.now)))) }
    {
        match self.shape()? {
            Shape::Array(count) => {
                let (first, _) = first_and_span(self.classes);
                out.fields(&[1, first, count])?;
                write_array(out, self.classes)
            }
            Shape::Ranges(count) => {
                out.fields(&[2, count])?;
                write_ranges(out, self.classes)
            }
        }
    }
}

impl FontRead for ClassDef<'_> {
    type Question = u16;

    type Answer = u16;

    ghost means = { λ bs at glyph. class bs at glyph };

    ghost answers = { λ t glyph. class_at (listed t.classes.now) glyph };

    fn reads_back(&self)
        ensures { (bs : List ℕ) (at q : ℕ) → class_fault (listed self.now.classes.now) ≡ None → Stand bs at (table_fields (class_def (listed self.now.classes.now))) → class bs at q ≡ Ok (class_at (listed self.now.classes.now) q) }
    {}

    fn read(bytes: &[u8], at: u32, glyph: u16) -> Result<u16, usize>
        ensures { result ≡ class bytes.now at glyph }
    {
        read_class(bytes, at, glyph)
    }
}
