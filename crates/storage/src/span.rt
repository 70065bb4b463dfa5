// Where a list stands in a pool, and what stands beside the list.

ghost use Rattle.std.specs.Prelude.{◌≡◌};
ghost use Rattle.std.specs.Cmp.Lexicographic.{pointwise};

// Start and length in a pool, not the list itself: the pool is memory that the caller brings, and grows behind the lists.
#[derive(Clone, Copy, Debug, Default, PartialEq, Eq)]
pub struct Span<H> {
    pub start: usize,
    pub len: usize,
    pub head: H,
}

// How many elements are compared one after another before the rest, which `==` compares in groups. Lists that differ mostly do so early,
// and a group is compared whole.
const IN_TURN: usize = 64;

// Whether two lists are the same, element by element.
fn same_list<T: Eq + Copy>(a: &[T], b: &[T]) -> bool
    ensures { result ≡ pointwise T.eq a.now b.now }
{
    if a.len() != b.len() {
        return false;
    }
    let few = a.len().min(IN_TURN);
    // The places stay a counted `for`: over `zip` the same comparisons took twice the time.
    for i in 0..few {
        if a[i] != b[i] {
            return false;
        }
    }
    a[few..] == b[few..]
}

impl<H: Eq + Copy> Span<H> {
    ghost use Rattle.storage.specs.Interners.{entry, same_entry};

    // The entry of this span, as far as its list lies in the pool.
    pub(crate) fn entry<'p, T: Copy>(&self, pool: &'p [T]) -> (H, &'p [T])
        ensures head { result.0 ≡ (entry pool.now self.now).0 }
        ensures list { result.1.now ≡ (entry pool.now self.now).1 }
    {
        let start = self.start.min(pool.len());
        let rest = &pool[start..];
        (self.head, &rest[..self.len.min(rest.len())])
    }

    // Whether the entry of this span is this one.
    pub(crate) fn holds<T: Eq + Copy>(&self, pool: &[T], head: H, list: &[T]) -> bool
        ensures { result ≡ same_entry H.eq T.eq (entry pool.now self.now) (head, list.now) }
    {
        self.head == head && same_list(self.entry(pool).1, list)
    }
}
