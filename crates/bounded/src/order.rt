ghost use Rattle.bounded.specs.View.{list_of};
ghost use Rattle.std.specs.Cmp.{on_total, on_po};
ghost use Rattle.std.specs.Cmp.Lexicographic.{slice_cmp, slice_partial_cmp, lists_po, lists_total, lists_agrees, lists_ties};

use crate::list::Bounded;
use std::cmp::Ordering;

// Not derived: places past `len` do not count.
impl<T: Copy + PartialOrd, const N: usize> PartialOrd for Bounded<T, N> {
    ghost partial_cmp = { λ a b. slice_partial_cmp T.partial_cmp (list_of a) (list_of b) };

    ghost laws = { on_po list_of (lists_po T.PartialOrd.laws) };

    fn partial_cmp(&self, other: &Bounded<T, N>) -> Option<Ordering> {
        self.as_slice().partial_cmp(&other.as_slice())
    }
}

impl<T: Copy + Ord, const N: usize> Ord for Bounded<T, N> {
    ghost cmp = { λ a b. slice_cmp T.cmp (list_of a) (list_of b) };

    ghost total = { on_total list_of (lists_total T.total) };

    ghost matches_partial_cmp = { λ a b. lists_agrees T.matches_partial_cmp (list_of a) (list_of b) };

    ghost matches_eq = { λ a b. lists_ties T.cmp T.matches_eq (list_of a) (list_of b) };

    fn cmp(&self, other: &Bounded<T, N>) -> Ordering {
        self.as_slice().cmp(&other.as_slice())
    }
}
