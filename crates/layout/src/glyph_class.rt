// Glyphs with their classes, as class definitions list them, and the classes of their span.

ghost use Rattle.std.specs.Prelude.{◌≡◌, ℕ, ◌^◌, ◌<◌, ◌≤◌, List, map, length, drop};
ghost use Rattle.spec.specs.Fields.{big_endian};
ghost use Rattle.spec.specs.Classes.{first_listed, class_array};
ghost use Rattle.spec.specs.Classes.{span as span_of};
ghost use Rattle.laws.specs.Conditions.{Rising};
ghost use Rattle.layout.specs.Writing.{Wrote};
ghost use Rattle.layout.specs.Listing.{listed, here};

use crate::output::Output;
use denials::denial::Denial;
use storage::rising::Keyed;

// A glyph with its class.
#[derive(Clone, Copy, Debug, PartialEq, Eq)]
pub struct GlyphClass {
    pub glyph: u16,
    pub class: u16,
}

impl Keyed for GlyphClass {
    ghost key = { λ entry. entry.glyph };

    fn key(&self) -> u16 {
        self.glyph
    }
}

// The first glyph, and how many there are from it to the last.
pub(crate) fn first_and_span(classes: &[GlyphClass]) -> (u16, usize)
    ensures first { result.0 ≡ first_listed (listed classes.now) }
    ensures span { result.1 ≡ span_of (listed classes.now) }
    ensures bound { result.1 ≤ 65536 }
{
    let (Some(first), Some(last)) = (classes.first(), classes.last()) else {
        return (0, 0);
    };
    (
        first.glyph,
        usize::from(last.glyph.saturating_sub(first.glyph)) + 1,
    )
}

// The class of a glyph if it is the first listed, else 0; and those listed behind it.
fn class_here(classes: &[GlyphClass], glyph: usize) -> (u16, &[GlyphClass])
    ensures class { result.0 ≡ (here (listed classes.now) glyph).0 }
    ensures behind { result.1.now ≡ drop (here (listed classes.now) glyph).1 classes.now }
{
    match classes.split_first() {
        Some((entry, behind)) if usize::from(entry.glyph) == glyph => (entry.class, behind),
        _ => (0, classes),
    }
}

// Writes the class of each glyph of the span, 0 for those that are not listed. The bound of the output is said here: see `Output`.
pub(crate) fn write_array(out: &mut Output<'_>, classes: &[GlyphClass]) -> Result<(), Denial>
    requires rises { Rising (map (λ p. p.0) (listed classes.now)) }
    requires in_bounds { out.old.used ≤ length out.old.bytes.now }
    ensures { Wrote result out.old out.new (big_endian (class_array (listed classes.now))) }
{
    let (first, span) = first_and_span(classes);
    let first = usize::from(first);
    let mut left = classes;
    for glyph in first..first + span {
        let (class, behind) = class_here(left, glyph);
        left = behind;
        out.field(class)?;
    }
    Ok(())
}
