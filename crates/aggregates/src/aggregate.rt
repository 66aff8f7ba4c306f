ghost use Rattle.std.specs.Prelude.{◌≡◌, ◌≤◌, length, IfOk};
ghost use Rattle.names.specs.Refusals.{Answers};
ghost use Rattle.columns.specs.Columns.{columns_of};
ghost use Rattle.dependencies.specs.Tables.{Valid};
ghost use Rattle.dependencies.specs.View.{dep_of, deps_of};
ghost use Rattle.schemas.specs.Schemas.{fields_of, dependencies_of};
ghost use Rattle.reductions.specs.Meant.{texts_of, names_of};
ghost use Rattle.aggregates.specs.Aggregates.{aggregate_refusal, matched_places, is_carried, covers, carried_dep, carried_deps, group_key, aggregated};
ghost use Rattle.aggregates.specs.Grouped.{texts_in, deps_in, names_in};

use crate::grouping::Grouping;
use crate::target::is_among;
use columns::column_list::{ColumnList, MAX_COLUMNS};
use dependencies::functional_dependencies::{
    Dependency, FunctionalDependence, FunctionalDependencies,
};
use names::error::Refusal;
use names::name::FullName;
use reductions::named::names_at;
use schemas::dfschema::{DFSchema, Field};

impl Grouping<'_> {
    // the positions of the names that are names of those columns
    fn matched_places(&self, columns: &ColumnList) -> ColumnList
        ensures { columns_of result ≡ matched_places (texts_in self.now) (names_in self.now) (columns_of columns.now) }
    {
        let column_names = names_at(self.field_names, columns);
        let places = ColumnList::all(self.names.len()).unwrap();
        places.filter_by(|place| is_among(self.names, column_names.as_slice(), place))
    }

    // whether as many names match as there are sources, and each source's name is among the names
    fn is_carried(&self, dependency: &FunctionalDependence) -> bool
        ensures { result ≡ is_carried (texts_in self.now) (names_in self.now) (dep_of dependency.now) }
    {
        let sources = dependency.source_indices();
        self.matched_places(sources).len() == sources.len()
            && sources.all_pass_by(|column| is_among(self.field_names, self.names, column))
    }

    // whether the names at those places have targets, the same as all names have
    fn covers_all(&self, places: &ColumnList) -> bool
        ensures { result ≡ covers (texts_in self.now) (deps_in self.now) (names_in self.now) (columns_of places.now) }
    {
        let matched_names = names_at(self.names, places);
        let matched = Grouping {
            field_names: self.field_names,
            dependencies: self.dependencies,
            names: matched_names.as_slice(),
        };
        let targets = matched.target_columns();
        !targets.is_empty() && self.target_columns() == targets
    }

    // the dependency over the output columns
    fn carried(&self, dependency: &FunctionalDependence, all: &ColumnList) -> FunctionalDependence
        ensures { dep_of result ≡ carried_dep (texts_in self.now) (deps_in self.now) (names_in self.now) (columns_of all.now) (dep_of dependency.now) }
    {
        let places = self.matched_places(dependency.source_indices());
        let mode = if self.covers_all(&places) {
            Dependency::Single
        } else {
            dependency.mode()
        };
        FunctionalDependence::new(places, *all, dependency.nullable()).with_mode(mode)
    }

    // those of the dependencies that are carried
    fn carried_dependencies(&self, all: &ColumnList) -> FunctionalDependencies
        ensures { deps_of result ≡ carried_deps (texts_in self.now) (deps_in self.now) (names_in self.now) (columns_of all.now) }
    {
        let mut output = FunctionalDependencies::empty();
        for dependency in self.dependencies {
            if self.is_carried(dependency) {
                // there is room: at most one is pushed for each of at most 32
                let _ = output.push(self.carried(dependency, all));
            }
        }
        output
    }

    // those that are carried, or else the key of all names
    fn aggregated(&self, fields: &[Field]) -> FunctionalDependencies
        requires few { length self.now.names.now ≤ length fields.now }
        requires few_fields { length fields.now ≤ 64 }
        ensures { deps_of result ≡ aggregated (texts_in self.now) (deps_in self.now) (names_in self.now) fields.now }
    {
        let count = self.names.len();
        let all = ColumnList::all(fields.len()).unwrap();
        let mut output = self.carried_dependencies(&all);
        if count > 0 && output.as_slice().is_empty() {
            // there is room
            let _ = output.push(group_key(fields, count));
        }
        output
    }
}

// all names together determine all output columns, and occur once
fn group_key(fields: &[Field], count: usize) -> FunctionalDependence
    requires few { count ≤ length fields.now }
    requires few_fields { length fields.now ≤ 64 }
    ensures { dep_of result ≡ group_key count fields.now }
{
    let named = ColumnList::all(count).unwrap();
    let all = ColumnList::all(fields.len()).unwrap();
    let nullable = fields[..count].iter().any(|field| field.nullable);
    FunctionalDependence::new(named, all, nullable).with_mode(Dependency::Single)
}

/// The dependencies of a grouping by those names, as the original answers them but for two corrections: a dependency
/// is carried only if each of its source names is among the names, and more names than output columns are refused.
///
/// The answer can be false of the rows. Columns `a` and `b` with the dependency of `a` on `a`, grouped by `a` and `b`:
/// the answer is that `a` occurs once, and the rows (1, 1) and (1, 2) give two groups with one `a`. A grouping must not
/// report this answer: a dependency is true of the groups if its sources fix all group columns in the input, and else
/// all group columns together are the key.
pub fn aggregate_functional_dependencies(
    aggr_input_schema: &DFSchema,
    group_by_expr_names: &[FullName],
    aggr_schema: &DFSchema,
) -> Result<FunctionalDependencies, Refusal>
    ensures answer { Answers result (aggregate_refusal group_by_expr_names.now (fields_of aggr_schema.now)) (λ d. deps_of d ≡ aggregated (texts_of aggr_input_schema.now) (dependencies_of aggr_input_schema.now) (names_of group_by_expr_names.now) (fields_of aggr_schema.now)) }
    ensures valid_for_output { IfOk result (λ d. Valid (length (fields_of aggr_schema.now)) (deps_of d)) }
{
    let count = group_by_expr_names.len();
    let fields = aggr_schema.fields();
    if count > MAX_COLUMNS {
        return Err(Refusal::Oversize);
    }
    if count > fields.len() {
        return Err(Refusal::NoColumn);
    }
    let field_names = aggr_input_schema.field_names();
    let grouping = Grouping {
        field_names: field_names.as_slice(),
        dependencies: aggr_input_schema.functional_dependencies().as_slice(),
        names: group_by_expr_names,
    };
    Ok(grouping.aggregated(fields))
}
