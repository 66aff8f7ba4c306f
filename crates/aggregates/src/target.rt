ghost use Rattle.std.specs.Prelude.{◌≡◌, ◌≤◌, map, length, IfSome, IfOk};
ghost use Rattle.std.specs.List.{range_with_len};
ghost use Rattle.std.specs.Option.{option_map};
ghost use Rattle.names.specs.Names.{text_of};
ghost use Rattle.names.specs.Refusals.{Answers, oversize_over};
ghost use Rattle.columns.specs.Columns.{columns_of};
ghost use Rattle.schemas.specs.Schemas.{dependencies_of};
ghost use Rattle.reductions.specs.Meant.{texts_of, names_of};
ghost use Rattle.aggregates.specs.Grouped.{texts_in, deps_in, names_in};
ghost use Rattle.aggregates.specs.Targets.{is_among, target_columns, unless_empty};
ghost use Rattle.aggregates.specs.TargetLaws.{NamesFix};

use crate::grouping::Grouping;
use columns::column_list::{ColumnList, MAX_COLUMNS};
use names::error::Refusal;
use names::name::FullName;
use reductions::determined::is_determined_by;
use reductions::named::place_of;
use schemas::dfschema::DFSchema;

// whether the name at that place of the list is among the others
pub(crate) fn is_among(list: &[FullName], others: &[FullName], place: u16) -> bool
    ensures { result ≡ is_among (map text_of list.now) (map text_of others.now) place }
{
    list.get(usize::from(place))
        .is_some_and(|name| place_of(others, name).is_some())
}

impl Grouping<'_> {
    // the columns that the dependencies determine whose source names are all among the names
    pub(crate) fn target_columns(&self) -> ColumnList
        ensures { columns_of result ≡ target_columns (texts_in self.now) (deps_in self.now) (names_in self.now) }
    {
        let columns = ColumnList::all(self.field_names.len()).unwrap();
        columns.filter_by(|column| {
            is_determined_by(
                self.dependencies,
                |source| is_among(self.field_names, self.names, source),
                column,
            )
        })
    }
}

/// The columns that may stand beside the group-by names: the targets of each dependency whose source names are all
/// among the names, ascending. None if there are no such columns.
pub fn get_target_functional_dependencies(
    schema: &DFSchema,
    group_by_expr_names: &[FullName],
) -> Result<Option<ColumnList>, Refusal>
    ensures answer { Answers result (oversize_over 64 group_by_expr_names.now) (λ o. option_map columns_of o ≡ unless_empty (target_columns (texts_of schema.now) (dependencies_of schema.now) (names_of group_by_expr_names.now))) }
    ensures names_fix { IfOk result (λ o. IfSome o (λ l. NamesFix (texts_of schema.now) (dependencies_of schema.now) (names_of group_by_expr_names.now) (columns_of l))) }
{
    if group_by_expr_names.len() > MAX_COLUMNS {
        return Err(Refusal::Oversize);
    }
    let field_names = schema.field_names();
    let grouping = Grouping {
        field_names: field_names.as_slice(),
        dependencies: schema.functional_dependencies().as_slice(),
        names: group_by_expr_names,
    };
    let columns = grouping.target_columns();
    if columns.is_empty() {
        Ok(None)
    } else {
        Ok(Some(columns))
    }
}
