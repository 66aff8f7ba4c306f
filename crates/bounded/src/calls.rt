ghost use Rattle.std.specs.Prelude.{◌≡◌, Bool, filter, Ok, Err, MatchResult};
ghost use Rattle.std.specs.List.{AllZip, Any};
ghost use Rattle.std.specs.Fn.{FnReturnsAt};
ghost use Rattle.bounded.specs.Calls.{IsKeptBy, Computes};
ghost use Rattle.bounded.specs.View.{list_of};

use crate::list::Bounded;

// Each has a `requires`: the language asks it of a function that calls a parameter.
impl<T: Copy, const N: usize> Bounded<T, N> {
    /// What `f` makes of each value, in order; `fill` stands in the places that hold no value.
    pub fn map<U: Copy, F: Fn(T) -> U>(&self, fill: U, f: F) -> Bounded<U, N>
        requires { F.IsAlwaysCallable f }
        ensures { AllZip (λ x y. F.post f x y) (list_of self.now) (list_of result) }
    {
        let mut mapped = Bounded::new(fill);
        for x in self.as_slice() {
            // there is room: one is pushed for each value
            let _ = mapped.push(f(*x));
        }
        mapped
    }

    /// The same of an `f` that can fail; the first error stops it.
    pub fn try_map<U: Copy, E, F: Fn(T) -> Result<U, E>>(
        &self,
        fill: U,
        f: F,
    ) -> Result<Bounded<U, N>, E>
        requires { F.IsAlwaysCallable f }
        ensures { MatchResult result (λ mapped. AllZip (λ x y. F.post f x (Ok y)) (list_of self.now) (list_of mapped)) (λ e. Any (λ x. F.post f x (Err e)) (list_of self.now)) }
    {
        let mut mapped = Bounded::new(fill);
        for x in self.as_slice() {
            // there is room: one is pushed for each value
            let _ = mapped.push(f(*x)?);
        }
        Ok(mapped)
    }

    /// Keeps the values at which `f` is true, in order.
    pub fn retain<F: Fn(&T) -> bool>(&mut self, f: F)
        requires { F.IsAlwaysCallable f }
        ensures told { IsKeptBy (FnReturnsAt F.Fn f) (list_of self.old) (list_of self.new) }
        ensures by_test { (p : T → Bool) → Computes (FnReturnsAt F.Fn f) p → list_of self.new ≡ filter p (list_of self.old) }
    {
        let before = *self;
        self.len = 0;
        for x in before.as_slice() {
            if f(x) {
                // there is room: no more are kept than there were
                let _ = self.push(*x);
            }
        }
    }
}
