ghost use Rattle.bounded.specs.View.{list_of};
ghost use Rattle.std.specs.Cmp.{on_per, on_equiv};
ghost use Rattle.std.specs.Cmp.Lexicographic.{pointwise, lists_per, lists_equiv};

use crate::list::Bounded;

// Not derived: places past `len` do not count.
impl<T: Copy + PartialEq, const N: usize> PartialEq for Bounded<T, N> {
    ghost eq = { λ a b. pointwise T.PartialEq.eq (list_of a) (list_of b) };

    ghost laws = { on_per list_of (lists_per T.PartialEq.laws) };

    fn eq(&self, other: &Bounded<T, N>) -> bool {
        self.as_slice() == other.as_slice()
    }
}

impl<T: Copy + Eq, const N: usize> Eq for Bounded<T, N> {
    ghost laws = { on_equiv list_of (lists_equiv T.Eq.laws) };
}
