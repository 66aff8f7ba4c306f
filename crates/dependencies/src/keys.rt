ghost use Rattle.std.specs.Prelude.{◌≡◌, map, IfOk};
ghost use Rattle.std.specs.List.{range_with_len};
ghost use Rattle.std.specs.Option.{option_map};
ghost use Rattle.names.specs.Refusals.{Answers, oversize_over};
ghost use Rattle.columns.specs.Columns.{columns_of};
ghost use Rattle.constraints.specs.View.{key_of, keys_of, keys_or};
ghost use Rattle.dependencies.specs.Keys.{key_dependency, oversize_keys};
ghost use Rattle.dependencies.specs.KeyTables.{StandForKeys};
ghost use Rattle.dependencies.specs.View.{dep_of, deps_of};

use crate::functional_dependencies::{Dependency, FunctionalDependence, FunctionalDependencies};
use columns::column_list::ColumnList;
use constraints::constraints::{Constraint, Constraints};
use names::error::Refusal;

// the key as a dependency of all columns on its own
fn dependence_of(key: &Constraint, all: ColumnList) -> FunctionalDependence
    ensures { dep_of result ≡ key_dependency (columns_of all) (key_of key.now) }
{
    let dependence = match key {
        Constraint::PrimaryKey(columns) => FunctionalDependence::new(*columns, all, false),
        Constraint::Unique(columns) => FunctionalDependence::new(*columns, all, true),
    };
    dependence.with_mode(Dependency::Single)
}

// each key as a dependency of all columns on its own
fn dependencies_of(keys: &Constraints, all: ColumnList) -> Result<FunctionalDependencies, Refusal>
    ensures { Answers result (oversize_over 32 (keys_of keys.now)) (λ d. deps_of d ≡ map (key_dependency (columns_of all)) (keys_of keys.now)) }
{
    let mut dependencies = FunctionalDependencies::empty();
    for key in keys.as_slice() {
        dependencies.push(dependence_of(key, all))?;
    }
    Ok(dependencies)
}

impl FunctionalDependencies {
    /// One `Single` dependency of each key, with all columns as targets.
    pub fn new_from_constraints(
        constraints: Option<&Constraints>,
        n_field: usize,
    ) -> Result<FunctionalDependencies, Refusal>
        ensures answer { Answers result (oversize_keys n_field (keys_or (option_map (λ x. x.now) constraints.entry))) (λ d. deps_of d ≡ map (key_dependency (range_with_len 0 n_field)) (keys_or (option_map (λ x. x.now) constraints.entry))) }
        ensures stand_for_keys { IfOk result (λ d. StandForKeys (keys_or (option_map (λ x. x.now) constraints.entry)) (deps_of d)) }
    {
        let all = ColumnList::all(n_field)?;
        match constraints {
            Some(constraints) => dependencies_of(constraints, all),
            None => Ok(FunctionalDependencies::empty()),
        }
    }
}
