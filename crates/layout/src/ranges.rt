// The ranges of a coverage table or of a class definition.

ghost use Rattle.std.specs.Prelude.{◌≡◌, ℕ, ◌≤◌, map, length, None};
ghost use Rattle.std.specs.Iterator.{YieldsFirst, item_count};
ghost use Rattle.spec.specs.Fields.{big_endian};
ghost use Rattle.spec.specs.Coverage.{Range, ranges};
ghost use Rattle.layout.specs.Writing.{Wrote};
ghost use Rattle.layout.specs.Gathering.{ranged, coming, record_fields};

use crate::gather::{Gatherer, RangeRecord};
use crate::glyph_class::GlyphClass;
use crate::output::Output;
use denials::denial::Denial;

// What a table lists: glyphs, or glyphs with their classes.
pub(crate) trait Listed: Copy {
    // the glyph and its class
    ghost listed: { Self → ℕ × ℕ };

    // the third field of a range, given the coverage index of its start
    ghost third: { Range → ℕ → ℕ };

    // A glyph without a class has class 0.
    fn glyph_class(&self) -> GlyphClass
        ensures glyph { result.glyph ≡ (listed self.now).0 }
        ensures class { result.class ≡ (listed self.now).1 };

    fn third_field(range: &RangeRecord, index: u16) -> u16
        ensures { result ≡ third (ranged range.now) index };
}

impl Listed for u16 {
    ghost listed = { λ g. (g, 0) };

    ghost third = { λ _ i. i };

    fn glyph_class(&self) -> GlyphClass {
        GlyphClass {
            glyph: *self,
            class: 0,
        }
    }

    fn third_field(_range: &RangeRecord, index: u16) -> u16 {
        index
    }
}

impl Listed for GlyphClass {
    ghost listed = { λ e. (e.glyph, e.class) };

    ghost third = { λ r _. r.class };

    fn glyph_class(&self) -> GlyphClass {
        *self
    }

    fn third_field(range: &RangeRecord, _index: u16) -> u16 {
        range.class
    }
}

// The ranges of what a table lists, one after the other.
#[derive(Debug, Drop)]
pub(crate) struct Ranges<'a, T> {
    gatherer: Gatherer,
    entries: &'a [T],
}

impl<'a, T: Listed> Ranges<'a, T> {
    pub(crate) fn new(entries: &'a [T]) -> Ranges<'a, T>
        ensures open { result.gatherer.open ≡ None }
        ensures entries { result.entries.now ≡ entries.now }
    {
        Ranges {
            gatherer: Gatherer { open: None },
            entries,
        }
    }
}

impl<'a, T: Listed> Iterator for Ranges<'a, T> {
    type Item = RangeRecord;

    ghost next_gives = { YieldsFirst (coming T.listed) };

    ghost remaining = { item_count (coming T.listed) };

    fn next(&mut self) -> Option<RangeRecord> {
        while let Some((entry, behind)) = self.entries.split_first() {
            self.entries = behind;
            let listed = entry.glyph_class();
            let closed = self.gatherer.next(listed.glyph, listed.class);
            if closed.is_some() {
                return closed;
            }
        }
        self.gatherer.open.take()
    }
}

// How many ranges the entries make.
pub(crate) fn count_ranges<T: Listed>(entries: &[T]) -> usize
    ensures value { result ≡ length (ranges (map T.listed entries.now)) }
    ensures bound { result ≤ length entries.now }
{
    // A loop and not `Ranges::new(entries).count()`: only the number of entries ends it, so a compiler can take several at a time.
    let mut gatherer = Gatherer { open: None };
    let mut count = 0;
    for entry in entries {
        let listed = entry.glyph_class();
        let closed = gatherer.next(listed.glyph, listed.class);
        count += usize::from(closed.is_some());
    }
    count + usize::from(gatherer.open.is_some())
}

// Writes the ranges: start, end and third field of each. The bound of the output is said here: see `Output`.
pub(crate) fn write_ranges<T: Listed>(out: &mut Output<'_>, entries: &[T]) -> Result<(), Denial>
    requires few { length entries.now ≤ 65536 }
    requires in_bounds { out.old.used ≤ length out.old.bytes.now }
    ensures { Wrote result out.old out.new (big_endian (record_fields T.third 0 (ranges (map T.listed entries.now)))) }
{
    let mut index = 0;
    for range in Ranges::new(entries) {
        let third = T::third_field(&range, index as u16);
        out.fields(&[range.start, range.end, third])?;
        index += usize::from(range.end - range.start) + 1;
    }
    Ok(())
}
