ghost use Rattle.std.specs.Prelude.{◌≡◌, length, Decides, MatchOption};
ghost use Rattle.schemas.specs.CheckNames.{DistinctTo, RepeatAt, Ambiguous, NoneAmbiguous, LeastAmbiguous, duplicate_of, NamesAnswer, Answered};
ghost use Rattle.schemas.specs.ColumnOrder.{compare_columns};

use names::column::Column;
use names::error::{Refusal, SchemaError};
use std::cmp::Ordering;

// the position of the first column that repeats an earlier one
fn first_repeat(columns: &[Column]) -> Option<usize>
    ensures { MatchOption result (DistinctTo columns.now (length columns.now)) (λ i. RepeatAt columns.now i) }
{
    columns
        .iter()
        .enumerate()
        .position(|(i, column)| columns[..i].contains(column))
}

// whether the column is qualified and its name also stands unqualified
fn is_ambiguous(columns: &[Column], column: &Column) -> bool
    ensures { Decides result (Ambiguous columns.now column.now) }
{
    column.relation.is_some() && columns.contains(&Column::new_unqualified(column.name))
}

// by reference, then by name; a column without a reference comes last, which the order of `Option` would put first
fn compare(a: &Column, b: &Column) -> Ordering
    ensures { result ≡ compare_columns a.now b.now }
{
    let names = a.name.cmp(&b.name);
    match (&a.relation, &b.relation) {
        (Some(x), Some(y)) => x.cmp(y).then(names),
        (Some(_), None) => Ordering::Less,
        (None, Some(_)) => Ordering::Greater,
        (None, None) => names,
    }
}

// the least of the columns that are ambiguous
fn least_ambiguous(columns: &[Column]) -> Option<Column>
    ensures { MatchOption result (NoneAmbiguous columns.now) (λ c. LeastAmbiguous columns.now c) }
{
    columns
        .iter()
        .copied()
        .filter(|column| is_ambiguous(columns, column))
        .min_by(compare)
}

// the error that names a repeated column
fn duplicate(column: &Column) -> SchemaError
    ensures { result ≡ duplicate_of column.now }
{
    let name = column.name;
    match column.relation {
        Some(qualifier) => SchemaError::DuplicateQualifiedField { qualifier, name },
        None => SchemaError::DuplicateUnqualifiedField { name },
    }
}

/// Refuses columns of which one repeats an earlier one, and else columns of which one is qualified and its name also
/// stands unqualified.
pub fn check_names(columns: &[Column]) -> Result<(), Refusal>
    ensures { Answered result (NamesAnswer columns.now) }
{
    if let Some(i) = first_repeat(columns) {
        return Err(duplicate(&columns[i]).into());
    }
    if let Some(field) = least_ambiguous(columns) {
        return Err(SchemaError::AmbiguousReference { field }.into());
    }
    Ok(())
}
