ghost use Rattle.std.specs.Prelude.{◌≡◌, ◌+◌, ◌<◌, ◌≤◌, false, [], ◌∷◌, ◌++◌, length, take, MatchOption, MatchResult, ◌==◌, nat_lt, slice_set};
ghost use Rattle.std.specs.List.{HoldsAt};
ghost use Rattle.bounded.specs.View.{list_of};

use crate::list::Bounded;

/// A list that has no room for what it was given.
#[derive(Clone, Copy, PartialEq, Eq, Debug)]
pub struct Full;

impl<T: Copy, const N: usize> Bounded<T, N> {
    /// The empty list; `fill` stands in the places that hold no value yet.
    pub fn new(fill: T) -> Self
        ensures { list_of result ≡ [] }
    {
        Bounded {
            items: [fill; N],
            len: 0,
        }
    }

    pub fn len(&self) -> usize
        ensures count { result ≡ length (list_of self.now) }
        ensures few { result ≤ N }
    {
        self.len
    }

    pub fn is_empty(&self) -> bool
        ensures { result ≡ (length (list_of self.now) == 0) }
    {
        self.len == 0
    }

    pub fn as_slice(&self) -> &[T]
        ensures value { result.now ≡ list_of self.now }
        ensures few { length result.now ≤ N }
    {
        let all = &self.items[..];
        &all[..self.len]
    }

    /// The value at `i`, or none past the end.
    pub fn get(&self, i: usize) -> Option<T>
        ensures { MatchOption result (length (list_of self.now) ≤ i) (λ x. (i < length (list_of self.now)) × HoldsAt (λ y. y ≡ x) (list_of self.now) i) }
    {
        self.as_slice().get(i).copied()
    }

    // a `bool`, with no value beside it: whether there is such a place
    /// Stores `x` at `i`; past the end it answers false and stores nothing.
    pub fn set(&mut self, i: usize, x: T) -> bool
        ensures told { result ≡ nat_lt i (length (list_of self.old)) }
        ensures stored { list_of self.new ≡ slice_set (list_of self.old) i x }
        ensures unchanged { result ≡ false → self.new ≡ self.old }
    {
        if i < self.len {
            self.items[i] = x;
            true
        } else {
            false
        }
    }

    /// One value more at the end, where there is room.
    pub fn push(&mut self, x: T) -> Result<(), Full>
        ensures cases { MatchResult result (λ _. (length (list_of self.old) < N) × (list_of self.new ≡ list_of self.old ++ x ∷ [])) (λ _. (length (list_of self.old) ≡ N) × (self.new ≡ self.old)) }
        ensures pushed { length (list_of self.old) < N → list_of self.new ≡ list_of self.old ++ x ∷ [] }
    {
        let n = self.len;
        if n == N {
            return Err(Full);
        }
        self.items[n] = x;
        self.len = n + 1;
        Ok(())
    }

    /// The first `n` values alone.
    pub fn truncate(&mut self, n: usize)
        ensures { list_of self.new ≡ take n (list_of self.old) }
    {
        if n < self.len {
            self.len = n;
        }
    }

    /// All of `xs` at the end, or none of them where they do not fit.
    pub fn extend_from_slice(&mut self, xs: &[T]) -> Result<(), Full>
        ensures { MatchResult result (λ _. (length (list_of self.old) + length xs.now ≤ N) × (list_of self.new ≡ list_of self.old ++ xs.now)) (λ _. (N < length (list_of self.old) + length xs.now) × (self.new ≡ self.old)) }
    {
        if xs.len() > N - self.len {
            return Err(Full);
        }
        for x in xs {
            self.push(*x)?;
        }
        Ok(())
    }

    pub fn from_slice(fill: T, xs: &[T]) -> Result<Self, Full>
        ensures { MatchResult result (λ b. (length xs.now ≤ N) × (list_of b ≡ xs.now)) (λ _. N < length xs.now) }
    {
        let mut b = Bounded::new(fill);
        b.extend_from_slice(xs)?;
        Ok(b)
    }
}
