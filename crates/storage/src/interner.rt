// Keeps each different list once and numbers it from 0, over memory that the caller brings.
// Entering compares with every list held: linear in what is held.

ghost use Rattle.std.specs.Prelude.{◌≡◌, min, [], length};
ghost use Rattle.std.specs.List.{position};
ghost use Rattle.std.specs.Option.{option_map};
ghost use Rattle.spec.specs.Lists.{at};
ghost use Rattle.storage.specs.Interners.{Entered, IsWithin, same_entry};

use crate::exact::Exact;
use crate::span::Span;
use denials::denial::{Denial, Part, Word};
use std::marker::Model;

// The first `used` places of the table are spans of the first `filled` elements of the pool, one after another. Two slices with their
// counts and no `Vec` or map: this crate allocates nothing, and the caller brings the memory.
#[derive(Debug, Drop)]
pub struct Interner<'a, T, H> {
    pool: &'a mut [T],
    table: &'a mut [Span<H>],
    part: Part,
    used: usize,
    filled: usize,
}

impl<'a, T, H> Model for Interner<'a, T, H> {
    ghost use Rattle.std.specs.Prelude.{map, length, take};
    ghost use Rattle.storage.specs.Interners.{Interned, IsLaid, entry};

    ghost Value = { Interned T H };

    ghost view = { λ d. record { contents = map (entry d.pool.now) (take d.used d.table.now); places = length d.table.now; room = length d.pool.now; part = d.part } };

    ghost invariant = { λ d. IsLaid d.pool.now d.table.now d.used d.filled };
}

impl<'a, T: Exact, H: Exact> Interner<'a, T, H> {
    // At most `most` places of the table are used, and never more than 65,535.
    pub fn new(
        pool: &'a mut [T],
        table: &'a mut [Span<H>],
        most: usize,
        part: Part,
    ) -> Interner<'a, T, H>
        ensures empty { result.contents ≡ [] }
        ensures places { result.places ≡ min (length table.old) (min most 65535) }
        ensures room { result.room ≡ length pool.old }
        ensures part { result.part ≡ part }
    {
        let places = table.len().min(most.min(65535));
        Interner {
            pool,
            table: &mut table[..places],
            part,
            used: 0,
            filled: 0,
        }
    }

    // How many lists there are.
    pub fn len(&self) -> usize
        ensures value { result ≡ length self.now.contents }
        ensures within { IsWithin self.now }
    {
        self.used
    }

    // The list of a number, and what stands beside it.
    pub fn get(&self, n: u16) -> Option<(H, &[T])>
        ensures { option_map (λ p. (p.0, p.1.now)) result ≡ at self.now.contents n }
    {
        let span = self.table[..self.used].get(n as usize)?;
        Some(span.entry(self.pool))
    }

    // The number of a list, if it is held.
    fn number(&self, head: H, list: &[T]) -> Option<u16>
        ensures { result ≡ position (λ e. same_entry H.eq T.eq e (head, list.now)) self.now.contents }
    {
        self.table[..self.used]
            .iter()
            .position(|span| span.holds(self.pool, head, list))
            .map(|n| n as u16)
    }

    // The old number of a list, or the next, or `full`.
    pub fn enter(&mut self, head: H, list: &[T]) -> Result<u16, Denial>
        ensures { Entered (same_entry H.eq T.eq) self.old self.new (head, list.now) result }
    {
        if let Some(n) = self.number(head, list) {
            return Ok(n);
        }
        if self.used == self.table.len() || list.len() > self.pool.len() - self.filled {
            return Err(Denial::new(Word::Full, 0, self.part));
        }
        let n = self.used;
        let start = self.filled;
        let end = start + list.len();
        self.pool[start..end].copy_from_slice(list);
        self.table[n] = Span {
            start,
            len: list.len(),
            head,
        };
        (self.used, self.filled) = (n + 1, end);
        Ok(n as u16)
    }
}
