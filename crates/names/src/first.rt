ghost use Rattle.std.specs.Prelude.{◌≡◌, ◌<◌, true, length, Decides, MatchOption};
ghost use Rattle.std.specs.List.{HoldsAt, AllWithin};

/// Whether an entry is the one that is looked for.
pub trait SameAs<X> {
    ghost is_same: { Self → X → Type 0 };

    fn same_as(&self, x: &X) -> bool
        ensures { Decides result (is_same self.now x.now) };
}

// Of one type, what `==` says.
impl<T: PartialEq> SameAs<T> for T {
    ghost is_same = { λ a b. T.eq a b ≡ true };

    fn same_as(&self, x: &T) -> bool {
        *self == *x
    }
}

/// The least position in `list` whose entry is the same as `x`.
pub fn first_position<T: SameAs<X>, X>(list: &[T], x: &X) -> Option<usize>
    ensures { MatchOption result (AllWithin (λ y. ¬ T.is_same y x.now) list.now 0 (length list.now)) (λ i. (i < length list.now) × HoldsAt (λ y. T.is_same y x.now) list.now i × AllWithin (λ y. ¬ T.is_same y x.now) list.now 0 i) }
{
    // a `for` loop with the index: the search for a first match is written here alone
    for (i, y) in list.iter().enumerate() {
        if y.same_as(x) {
            return Some(i);
        }
    }
    None
}
