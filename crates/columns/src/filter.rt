ghost use Rattle.std.specs.Prelude.{◌≡◌, ◌<◌, ℕ, Bool, filter};
ghost use Rattle.std.specs.List.{list_all};
ghost use Rattle.bounded.specs.Calls.{Computes};
ghost use Rattle.columns.specs.Columns.{columns_of, is_listed};

use crate::column_list::ColumnList;

/// A test of column numbers.
pub trait Predicate {
    ghost passes: { Self → ℕ → Bool };

    fn test(&self, column: u16) -> bool
        ensures { result ≡ passes self.now column };
}

impl ColumnList {
    /// The columns that pass, in order.
    pub fn filter<P: Predicate>(&self, predicate: &P) -> ColumnList
        ensures { columns_of result ≡ filter (P.passes predicate.now) (columns_of self.now) }
    {
        self.filter_by(|column| predicate.test(column))
    }

    /// Whether each column passes.
    pub fn all_pass<P: Predicate>(&self, predicate: &P) -> bool
        ensures { result ≡ list_all (P.passes predicate.now) (columns_of self.now) }
    {
        self.all_pass_by(|column| predicate.test(column))
    }

    // The closures' calls have a `requires`: the language asks it of a function that calls a parameter.
    /// The columns at which the test is true, in order.
    pub fn filter_by<F: Fn(u16) -> bool>(&self, test: F) -> ColumnList
        requires { F.IsAlwaysCallable test }
        ensures { (p : ℕ → Bool) → Computes (λ c b. (c < 65536) × F.post test c b) p → columns_of result ≡ filter p (columns_of self.now) }
    {
        let mut columns = self.columns;
        columns.retain(|c| test(*c));
        ColumnList { columns }
    }

    /// Whether the test is true at each column.
    pub fn all_pass_by<F: Fn(u16) -> bool>(&self, test: F) -> bool
        requires { F.IsAlwaysCallable test }
        ensures { (p : ℕ → Bool) → Computes (λ c b. (c < 65536) × F.post test c b) p → result ≡ list_all p (columns_of self.now) }
    {
        self.as_slice().iter().all(|column| test(*column))
    }
}

// A column passes a list if it is listed there.
impl Predicate for ColumnList {
    ghost passes = { λ l c. is_listed (columns_of l) c };

    fn test(&self, column: u16) -> bool {
        self.contains(column)
    }
}
