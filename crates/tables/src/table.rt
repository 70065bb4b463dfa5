// Pairs in key order over memory that the caller brings: rows as they arrive, and their numbers in the order of their keys.
// Finding a key halves what is left; an insertion moves numbers of 16 bits only.

ghost use Rattle.std.specs.Prelude.{◌≡◌, ◌<◌, min, [], length, Err, slice_set};
ghost use Rattle.std.specs.declared.cmp.Ordering.TheVariants.{Equal};
ghost use Rattle.std.specs.List.{insert as put_at, HoldsAt};
ghost use Rattle.spec.specs.Lists.{at, inserted, replaced};
ghost use Rattle.tables.specs.Tables.{lookup, at_or_above, before, with_value, Placed, IsOrdered, Inserted};

use denials::denial::{Denial, Part, Word};
use std::cmp::Ordering;
use std::marker::Model;

// Two slices and a count, no `Vec` or map: this crate allocates nothing, and the caller brings the memory.
#[derive(Debug, Drop)]
pub struct OrderedTable<'a, K: Ord, V> {
    rows: &'a mut [(K, V)],
    order: &'a mut [u16],
    used: u16,
}

// A clause sees the pairs in key order, and how many there can be.
impl<'a, K: Ord, V> Model for OrderedTable<'a, K, V> {
    ghost use Rattle.tables.specs.Tables.{Contents, contents, IsStored};

    ghost Value = { Contents K V };

    ghost view = { λ t. contents t.rows.now t.order.now t.used };

    ghost invariant = { λ t. IsStored K.cmp t.rows.now t.order.now t.used };
}

impl<'a, K: Ord + Copy, V: Copy> OrderedTable<'a, K, V> {
    // At most 65,535 places are used, and as many as both slices have.
    pub fn new(rows: &'a mut [(K, V)], order: &'a mut [u16]) -> Self
        ensures empty { result.pairs ≡ [] }
        ensures most { result.most ≡ min (min (length rows.old) (length order.old)) 65535 }
    {
        OrderedTable {
            rows,
            order,
            used: 0,
        }
    }

    // How many pairs there are.
    pub fn len(&self) -> usize
        ensures count { result ≡ length self.now.pairs }
        ensures ordered { IsOrdered K.cmp self.now }
    {
        self.used as usize
    }

    // The pair at a place in key order.
    pub fn at(&self, i: usize) -> Option<(K, V)>
        ensures { result ≡ at self.now.pairs i }
    {
        let numbers = &self.order[..self.used as usize];
        let n = *numbers.get(i)? as usize;
        Some(self.rows[n])
    }

    // Where a key stands, or where it would.
    fn place(&self, key: &K) -> Result<usize, usize>
        ensures placed { Placed K.cmp self.now.pairs key.now result }
        ensures ordered { IsOrdered K.cmp self.now }
    {
        // Not std's `binary_search_by`, which halves to the end: a key that is met ends this search.
        let (mut low, mut high) = (0, self.len());
        while low < high {
            let middle = low + (high - low) / 2;
            // Each place below the count has a pair, so that this way out is never taken.
            let Some(met) = self.at(middle) else {
                return Err(low);
            };
            match key.cmp(&met.0) {
                Ordering::Less => high = middle,
                Ordering::Equal => return Ok(middle),
                Ordering::Greater => low = middle + 1,
            }
        }
        Err(low)
    }

    // The value of a key.
    pub fn get(&self, key: &K) -> Option<V>
        ensures { result ≡ lookup K.cmp self.now.pairs key.now }
    {
        let i = self.place(key).ok()?;
        self.at(i).map(|pair| pair.1)
    }

    // The place of the first key at or above this one.
    pub fn first_at_or_above(&self, key: &K) -> usize
        ensures { result ≡ at_or_above K.cmp self.now.pairs key.now }
    {
        self.place(key).unwrap_or_else(|i| i)
    }

    // Gives the pair at a place in key order another value.
    pub fn set_at(&mut self, i: usize, value: V)
        ensures after { self.new.pairs ≡ with_value self.old.pairs i value }
        ensures same_most { self.new.most ≡ self.old.most }
    {
        if let Some(pair) = self.at(i) {
            self.set_pair(i, (pair.0, value));
        }
    }

    // Puts another pair with the same key at a place in key order.
    fn set_pair(&mut self, i: usize, pair: (K, V))
        requires { (i < length self.old.pairs) × HoldsAt (λ p. K.cmp pair.0 p.0 ≡ Equal) self.old.pairs i }
        ensures after { self.new.pairs ≡ slice_set self.old.pairs i pair }
        ensures same_most { self.new.most ≡ self.old.most }
    {
        let OrderedTable { rows, order, .. } = self;
        rows[order[i] as usize] = pair;
    }

    // How many pairs it can hold.
    fn most(&self) -> usize
        ensures { result ≡ self.now.most }
    {
        self.rows.len().min(self.order.len()).min(u16::MAX as usize)
    }

    // Puts a row with a new key behind the others and its number at `i`, or says `full`.
    fn add(&mut self, i: usize, key: K, value: V) -> Result<(), Denial>
        requires { Placed K.cmp self.old.pairs key (Err i) }
        ensures { Inserted self.old self.new (put_at self.old.pairs i (key, value)) result }
    {
        let used = self.used as usize;
        if used == self.most() {
            return Err(Denial::new(Word::Full, 0, Part::Rules));
        }
        self.rows[used] = (key, value);
        self.order.copy_within(i..used, i + 1);
        self.order[i] = self.used;
        self.used += 1;
        Ok(())
    }

    // Adds a pair; an old key keeps its value.
    pub fn insert_first(&mut self, key: K, value: V) -> Result<(), Denial>
        ensures { Inserted self.old self.new (inserted (before K.cmp) (key, value) self.old.pairs) result }
    {
        match self.place(&key) {
            Ok(_) => Ok(()),
            Err(i) => self.add(i, key, value),
        }
    }

    // Adds a pair; it replaces one with that key. Stays apart from `insert_first`: they differ in what a pair with that key gets.
    pub fn insert_last(&mut self, key: K, value: V) -> Result<(), Denial>
        ensures { Inserted self.old self.new (replaced (before K.cmp) (key, value) self.old.pairs) result }
    {
        match self.place(&key) {
            Ok(i) => {
                self.set_pair(i, (key, value));
                Ok(())
            }
            Err(i) => self.add(i, key, value),
        }
    }
}
