ghost use Rattle.std.specs.Prelude.{◌≡◌, ◌≤◌, [], ◌++◌, map, length, MatchOption, ◌≢◌};
ghost use Rattle.names.specs.Refusals.{Answers, AnswersOr, oversize_over};
ghost use Rattle.columns.specs.Columns.{columns_of, oversize_together};
ghost use Rattle.constraints.specs.Keys.{key_columns, projected_key, projected_keys};
ghost use Rattle.constraints.specs.View.{key_of, keys_of};

use bounded::list::Bounded;
use columns::column_list::ColumnList;
use names::error::Refusal;

/// The most entries of a list of keys.
pub const MAX_CONSTRAINTS: usize = 64;

/// A key of a table.
#[derive(PartialEq, Eq, Clone, Copy)]
pub enum Constraint {
    /// The columns are jointly unique and none of them is null.
    PrimaryKey(ColumnList),
    /// The columns are jointly unique.
    Unique(ColumnList),
}

impl Constraint {
    // what stands in the places of a list that hold no key
    fn filler() -> Constraint {
        Constraint::Unique(ColumnList::empty())
    }

    /// The columns of the key.
    pub fn columns(&self) -> &ColumnList
        ensures { columns_of result.now ≡ key_columns (key_of self.now) }
    {
        match self {
            Constraint::PrimaryKey(columns) | Constraint::Unique(columns) => columns,
        }
    }

    // the key in the columns of the projection
    fn projected(&self, proj_indices: &ColumnList) -> Constraint
        ensures { key_of result ≡ projected_key (columns_of proj_indices.now) (key_of self.now) }
    {
        match self {
            Constraint::PrimaryKey(columns) => Constraint::PrimaryKey(columns.places_in(
                proj_indices,
            )),
            Constraint::Unique(columns) => Constraint::Unique(columns.places_in(proj_indices)),
        }
    }
}

/// The keys of a table: at most 64.
#[derive(Clone, Copy, PartialEq, Eq)]
pub struct Constraints {
    inner: Bounded<Constraint, MAX_CONSTRAINTS>,
}

// Calls of `Bounded`, as each list has them in its own crate.
impl Constraints {
    /// The keys as they are given: nothing is known of their columns.
    pub fn new_unverified(constraints: &[Constraint]) -> Result<Constraints, Refusal>
        ensures { Answers result (oversize_over 64 constraints.now) (λ k. keys_of k ≡ map key_of constraints.now) }
    {
        Ok(Constraints {
            inner: Bounded::from_slice(Constraint::filler(), constraints)?,
        })
    }

    pub fn as_slice(&self) -> &[Constraint]
        ensures value { map key_of result.now ≡ keys_of self.now }
        ensures few { length result.now ≤ 64 }
    {
        self.inner.as_slice()
    }

    /// The other keys after these, or no change.
    pub fn extend(&mut self, other: &Constraints) -> Result<(), Refusal>
        ensures { AnswersOr result (oversize_together 64 (keys_of self.old) (keys_of other.now)) (λ _. keys_of self.new ≡ keys_of self.old ++ keys_of other.now) (self.new ≡ self.old) }
    {
        Ok(self.inner.extend_from_slice(other.as_slice())?)
    }

    /// The keys in the columns of a projection: those whose columns are all in it, or none if there are none.
    pub fn project(&self, proj_indices: &ColumnList) -> Option<Constraints>
        ensures { MatchOption result (projected_keys (columns_of proj_indices.now) (keys_of self.now) ≡ []) (λ k. (keys_of k ≡ projected_keys (columns_of proj_indices.now) (keys_of self.now)) × (keys_of k ≢ [])) }
    {
        let mut inner = Bounded::new(Constraint::filler());
        for key in self.as_slice() {
            if key.columns().all_listed_in(proj_indices) {
                // there is room: no more are kept than there are
                let _ = inner.push(key.projected(proj_indices));
            }
        }
        if inner.is_empty() {
            return None;
        }
        Some(Constraints { inner })
    }
}
