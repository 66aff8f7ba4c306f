ghost use Rattle.std.specs.Prelude.{◌≡◌, ◌≤◌, map, length, IfSome, IfOk};
ghost use Rattle.std.specs.Option.{option_map};
ghost use Rattle.columns.specs.Columns.{columns_of};
ghost use Rattle.names.specs.Refusals.{Answers, oversize_over};
ghost use Rattle.dependencies.specs.View.{dep_of};
ghost use Rattle.schemas.specs.Schemas.{dependencies_of};
ghost use Rattle.reductions.specs.GroupBy.{reduced, required};
ghost use Rattle.reductions.specs.GroupByLaws.{KeptDecide, PositionsIn};
ghost use Rattle.reductions.specs.Meant.{texts_of, names_of};

use crate::column_sets::{merge_and_order_indices, set_difference, sorted};
use crate::named::{names_at, places};
use columns::column_list::{ColumnList, MAX_COLUMNS};
use dependencies::functional_dependencies::FunctionalDependence;
use names::error::Refusal;
use names::name::FullName;
use schemas::dfschema::DFSchema;

// where all sources are among the columns, the sources stand for the targets: by one dependency after the other
fn reduce(
    columns: ColumnList,
    dependencies: &[FunctionalDependence],
    all: &ColumnList,
) -> ColumnList
    ensures { columns_of result ≡ reduced (columns_of all.now) (columns_of columns) (map dep_of dependencies.now) }
{
    let mut required = columns;
    for dependency in dependencies {
        let sources = dependency.source_indices();
        if sources.all_listed_in(&required) {
            let rest = set_difference(&required, dependency.target_indices());
            required = merge_and_order_indices(all, &rest, sources);
        }
    }
    required
}

/// The positions of group-by names that are enough: rows that agree on the columns of these names agree on the columns
/// of all names. None if a name is not the full name of a column.
pub fn get_required_group_by_exprs_indices(
    schema: &DFSchema,
    group_by_expr_names: &[FullName],
) -> Result<Option<ColumnList>, Refusal>
    ensures answer { Answers result (oversize_over 64 group_by_expr_names.now) (λ o. option_map columns_of o ≡ required (texts_of schema.now) (dependencies_of schema.now) (names_of group_by_expr_names.now)) }
    ensures kept_decide { IfOk result (λ o. IfSome o (λ l. KeptDecide (texts_of schema.now) (dependencies_of schema.now) (names_of group_by_expr_names.now) (columns_of l))) }
    ensures positions_asked { IfOk result (λ o. IfSome o (λ l. PositionsIn (names_of group_by_expr_names.now) (columns_of l))) }
{
    if group_by_expr_names.len() > MAX_COLUMNS {
        return Err(Refusal::Oversize);
    }
    let field_names = schema.field_names();
    let columns = places(field_names.as_slice(), group_by_expr_names);
    if columns.len() < group_by_expr_names.len() {
        return Ok(None);
    }
    let all = ColumnList::all(field_names.len())?;
    let asked = sorted(&columns, field_names.len());
    let dependencies = schema.functional_dependencies().as_slice();
    let required = names_at(field_names.as_slice(), &reduce(asked, dependencies, &all));
    Ok(Some(places(group_by_expr_names, required.as_slice())))
}
