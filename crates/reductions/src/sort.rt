ghost use Rattle.std.specs.Prelude.{◌≡◌, map, OnOk};
ghost use Rattle.names.specs.Refusals.{AnswersOr, oversize_over};
ghost use Rattle.schemas.specs.Schemas.{dependencies_of};
ghost use Rattle.reductions.specs.Meant.{texts_of};
ghost use Rattle.reductions.specs.Sorts.{sorted_by, sort_names, sort_marks, Reduces};
ghost use Rattle.reductions.specs.SortLaws.{ComparesAlike};

use crate::determined::is_determined_by;
use crate::named::place_of;
use columns::column_list::{ColumnList, MAX_COLUMNS};
use names::error::Refusal;
use names::name::FullName;
use schemas::dfschema::DFSchema;

// A mark beside the name: the caller lends its list of records, and the mark is written into each.
/// An entry of the caller's list of sort expressions: its name, and whether the order needs it.
#[derive(Clone, Copy)]
pub struct SortExpr {
    pub name: FullName,
    pub kept: bool,
}

/// Marks in each sort entry whether the order of rows needs it. An entry is dropped if its column is a target of one
/// dependency whose sources are all among the columns of earlier kept entries; one whose name is no column is kept.
pub fn get_required_sort_exprs_indices(
    schema: &DFSchema,
    sort_exprs: &mut [SortExpr],
) -> Result<(), Refusal>
    ensures answer { AnswersOr result (oversize_over 64 sort_exprs.old) (λ _. (map sorted_by sort_exprs.new ≡ map sorted_by sort_exprs.old) × Reduces (texts_of schema.now) (dependencies_of schema.now) (sort_names sort_exprs.old) (sort_marks sort_exprs.new)) (sort_exprs.new ≡ sort_exprs.old) }
    ensures compares_alike { OnOk result (ComparesAlike (texts_of schema.now) (dependencies_of schema.now) (sort_names sort_exprs.old) (sort_marks sort_exprs.new)) }
{
    if sort_exprs.len() > MAX_COLUMNS {
        return Err(Refusal::Oversize);
    }
    let field_names = schema.field_names();
    let field_names = field_names.as_slice();
    let dependencies = schema.functional_dependencies().as_slice();
    let mut known = ColumnList::empty();
    for sort_expr in sort_exprs.iter_mut() {
        let Some(place) = place_of(field_names, &sort_expr.name) else {
            sort_expr.kept = true;
            continue;
        };
        let column = place as u16;
        sort_expr.kept = !is_determined_by(dependencies, |source| known.contains(source), column);
        if sort_expr.kept {
            // there is room: at most one is pushed for each of at most 64
            let _ = known.push(column);
        }
    }
    Ok(())
}
