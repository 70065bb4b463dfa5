// Gathers glyphs into ranges, one glyph after the other. Coverage gathers with class 0.

ghost use Rattle.std.specs.Prelude.{◌≡◌};
ghost use Rattle.layout.specs.Gathering.{step};

// Glyphs without a gap, all of one class.
#[derive(Clone, Copy, Debug, PartialEq, Eq)]
pub struct RangeRecord {
    pub start: u16,
    pub end: u16,
    pub class: u16,
}

// The range that the next glyph may extend, if there is one.
#[derive(Clone, Copy, Debug, PartialEq, Eq)]
pub struct Gatherer {
    pub open: Option<RangeRecord>,
}

impl Gatherer {
    // Takes the next glyph, and gives the range that the glyph closed.
    pub fn next(&mut self, glyph: u16, class: u16) -> Option<RangeRecord>
        ensures open { self.new.open ≡ (step self.old.open glyph class).0 }
        ensures closed { result ≡ (step self.old.open glyph class).1 }
    {
        match self.open {
            Some(range) if range.end.checked_add(1) == Some(glyph) && range.class == class => {
                self.open = Some(RangeRecord {
                    start: range.start,
                    end: glyph,
                    class,
                });
                None
            }
            closed => {
                self.open = Some(RangeRecord {
                    start: glyph,
                    end: glyph,
                    class,
                });
                closed
            }
        }
    }
}
