ghost use Rattle.std.specs.Prelude.{◌≡◌, ℕ, List, refl, ◌+◌, ◌<◌, ◌≤◌, [], ◌∷◌, ◌++◌, length, Decides, true, false, MatchOption, ◌==◌, ◌≢◌, slice_index, nat_eq};
ghost use Rattle.std.specs.List.{range_with_len, AllWithin, list_all, AllByRecursion};
ghost use Rattle.names.specs.Refusals.{Answers, AnswersOr, oversize_over};
ghost use Rattle.columns.specs.Columns.{fits, columns_of, oversize_width, full_at, oversize_together, overrun_at, places, is_listed, shifted};
ghost use Rattle.std.proofs.Common.{rules};
ghost use Rattle.std.specs.Cmp.Lexicographic.{pointwise, nat_list_eq_equiv};

use bounded::list::Bounded;
use names::error::Refusal;
use names::first::first_position;
use names::stands_for::StandsFor;

/// The most columns of a schema, and the most entries of a list of column numbers.
pub const MAX_COLUMNS: usize = 64;

/// A list of at most 64 column numbers.
#[derive(Clone, Copy, PartialEq, Eq)]
pub struct ColumnList {
    pub(crate) columns: Bounded<u16, MAX_COLUMNS>,
}

// the column number with the offset added, where there is one
fn moved(column: u16, offset: usize) -> Option<u16>
    ensures { MatchOption result (fits offset column ≡ false) (λ c. (c ≡ column + offset) × (fits offset column ≡ true)) }
{
    usize::from(column)
        .checked_add(offset)
        .and_then(|sum| u16::try_from(sum).ok())
}

// What the lists of columns, keys and dependencies have alike is in `Bounded`: these calls of it stand in each list's own
// crate, since inherent methods have to, and each has a size and a view of its own.
impl ColumnList {
    pub fn empty() -> ColumnList
        ensures { columns_of result ≡ [] }
    {
        ColumnList {
            columns: Bounded::new(0),
        }
    }

    pub fn new(columns: &[u16]) -> Result<ColumnList, Refusal>
        ensures { Answers result (oversize_over 64 columns.now) (λ l. columns_of l ≡ columns.now) }
    {
        Ok(ColumnList {
            columns: Bounded::from_slice(0, columns)?,
        })
    }

    /// All columns of a schema of that width, in order.
    pub fn all(width: usize) -> Result<ColumnList, Refusal>
        ensures { Answers result (oversize_width width) (λ l. columns_of l ≡ range_with_len 0 width) }
    {
        if width > MAX_COLUMNS {
            return Err(Refusal::Oversize);
        }
        let mut columns = Bounded::new(0);
        // a loop: no chain of iterators collects into a list of fixed size
        for column in 0..width {
            // there is room: at most 64 are pushed
            let _ = columns.push(column as u16);
        }
        Ok(ColumnList { columns })
    }

    pub fn len(&self) -> usize
        ensures count { result ≡ length (columns_of self.now) }
        ensures few { result ≤ 64 }
    {
        self.columns.len()
    }

    pub fn is_empty(&self) -> bool
        ensures { result ≡ (length (columns_of self.now) == 0) }
    {
        self.columns.is_empty()
    }

    pub fn as_slice(&self) -> &[u16]
        ensures value { result.now ≡ columns_of self.now }
        ensures few { length result.now ≤ 64 }
    {
        self.columns.as_slice()
    }

    /// The least position at which the column is listed.
    pub fn position(&self, column: u16) -> Option<usize>
        ensures { MatchOption result (AllWithin (λ c. c ≢ column) (columns_of self.now) 0 (length (columns_of self.now))) (λ i. (i < length (columns_of self.now)) × (slice_index (columns_of self.now) i ≡ column) × AllWithin (λ c. c ≢ column) (columns_of self.now) 0 i) }
    {
        first_position(self.as_slice(), &column)
    }

    /// Whether the column is listed.
    pub fn contains(&self, column: u16) -> bool
        ensures { result ≡ is_listed (columns_of self.now) column }
    {
        self.position(column).is_some()
    }

    /// Whether each column number is below the width.
    pub fn all_below(&self, width: usize) -> bool
        ensures { Decides result (AllByRecursion (λ c. c < width) (columns_of self.now)) }
    {
        self.as_slice()
            .iter()
            .all(|column| usize::from(*column) < width)
    }

    /// The first position in `list` of each column that is listed there; the others are left out.
    pub fn places_in(&self, list: &ColumnList) -> ColumnList
        ensures { columns_of result ≡ places (columns_of list.now) (columns_of self.now) }
    {
        let mut columns = Bounded::new(0);
        for column in self.as_slice() {
            if let Some(place) = list.position(*column) {
                // there is room: at most one is pushed for each of at most 64
                let _ = columns.push(place as u16);
            }
        }
        ColumnList { columns }
    }

    /// Whether each column is in `list`.
    pub fn all_listed_in(&self, list: &ColumnList) -> bool
        ensures { result ≡ list_all (is_listed (columns_of list.now)) (columns_of self.now) }
    {
        self.as_slice().iter().all(|column| list.contains(*column))
    }

    pub fn push(&mut self, column: u16) -> Result<(), Refusal>
        ensures { AnswersOr result (full_at 64 (columns_of self.old)) (λ _. columns_of self.new ≡ columns_of self.old ++ column ∷ []) (self.new ≡ self.old) }
    {
        Ok(self.columns.push(column)?)
    }

    /// The other columns after these, or no change.
    pub fn extend(&mut self, other: &ColumnList) -> Result<(), Refusal>
        ensures { AnswersOr result (oversize_together 64 (columns_of self.old) (columns_of other.now)) (λ _. columns_of self.new ≡ columns_of self.old ++ columns_of other.now) (self.new ≡ self.old) }
    {
        Ok(self.columns.extend_from_slice(other.as_slice())?)
    }

    /// Adds the offset to each column number, or changes none.
    pub fn add_offset(&mut self, offset: usize) -> Result<(), Refusal>
        ensures { AnswersOr result (overrun_at offset (columns_of self.old)) (λ _. columns_of self.new ≡ shifted offset (columns_of self.old)) (self.new ≡ self.old) }
    {
        // a copy that is emptied: it costs less than places that are filled anew
        let mut shifted = self.columns;
        shifted.truncate(0);
        for column in self.as_slice() {
            // there is room: one is pushed for each
            let _ = shifted.push(moved(*column, offset).ok_or(Refusal::Overrun)?);
        }
        self.columns = shifted;
        Ok(())
    }
}

impl StandsFor for ColumnList {
    ghost View = { List ℕ };

    ghost view = { columns_of };

    ghost same = { pointwise nat_eq };

    ghost equivalence = { nat_list_eq_equiv };

    ghost tested = { λ a b. refl };

    ghost decided = { Prim.search rules };
}
