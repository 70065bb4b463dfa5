// What stands in a list by a rising number: glyphs, and what is listed by glyph or by region.

ghost use Rattle.std.specs.Prelude.{◌≡◌, ℕ, map};
ghost use Rattle.spec.specs.Entries.{unsorted};

use crate::delta::Delta;

pub trait Keyed {
    ghost key: { Self → ℕ };

    fn key(&self) -> u16
        ensures { result ≡ key self.now };
}

impl Keyed for u16 {
    ghost key = { λ glyph. glyph };

    fn key(&self) -> u16 {
        *self
    }
}

impl Keyed for Delta {
    ghost key = { λ entry. entry.region };

    fn key(&self) -> u16 {
        self.region
    }
}

// The first place whose number is not above that of the place before.
pub fn first_unsorted<T: Keyed>(items: &[T]) -> Option<usize>
    ensures { result ≡ unsorted (map T.Keyed.key items.now) }
{
    let (first, rest) = items.split_first()?;
    let mut last = first.key();
    for (i, item) in rest.iter().enumerate() {
        if item.key() <= last {
            return Some(i + 1);
        }
        last = item.key();
    }
    None
}
