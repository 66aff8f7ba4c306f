ghost use Rattle.std.specs.Prelude.{◌≡◌, map, length, IfOk, vec_len};
ghost use Rattle.std.specs.List.{range_with_len, list_any};
ghost use Rattle.constraints.specs.View.{key_of};
ghost use Rattle.dependencies.specs.Joins.{joined};
ghost use Rattle.dependencies.specs.Keys.{key_dependency};
ghost use Rattle.dependencies.specs.View.{dep_of, deps_of};
ghost use Rattle.open_events.specs.Unique.{is_key_on};

use columns::column_list::ColumnList;
use constraints::constraints::{Constraint, Constraints};
use dependencies::functional_dependencies::{
    Dependency, FunctionalDependence, FunctionalDependencies,
};
use join_type::JoinType;
use names::column::Column;
use names::name::Name;
use names::table_reference::TableReference;
use std::alloc::Global;

/// A table or a join: its columns, and what is known of its rows.
#[derive(Drop)]
pub struct Relation {
    pub columns: Vec<Column>,
    pub dependencies: FunctionalDependencies,
}

/// Whether the dependency says that the column alone is a key whose values occur once.
fn is_key_on(dependence: &FunctionalDependence, column: u16) -> bool
    ensures { result ≡ is_key_on column (dep_of dependence.now) }
{
    let sources = dependence.source_indices().as_slice();
    dependence.mode() == Dependency::Single && sources.len() == 1 && sources[0] == column
}

impl Relation {
    /// A table of that name with those columns and keys.
    pub fn table(
        heap: Global,
        table: &[u8],
        names: &[&[u8]],
        keys: &[Constraint],
    ) -> anyhow::Result<Relation>
        ensures { IfOk result (λ t. deps_of t.dependencies ≡ map (key_dependency (range_with_len 0 (length names.now))) (map key_of keys.now)) }
    {
        let reference = TableReference::bare(Name::new(table)?);
        let mut columns = Vec::new(heap);
        for name in names {
            columns.push(Column::new(Some(reference), Name::new(*name)?))?;
        }
        let keys = Constraints::new_unverified(keys)?;
        let dependencies = FunctionalDependencies::new_from_constraints(
            Some(&keys),
            columns.len(),
        )?;
        Ok(Relation {
            columns,
            dependencies,
        })
    }

    /// The join with the right side: its columns, and the dependencies that hold of its rows.
    pub fn join(
        &self,
        heap: Global,
        right: &Relation,
        join_type: JoinType,
    ) -> anyhow::Result<Relation>
        ensures { IfOk result (λ j. deps_of j.dependencies ≡ joined join_type (vec_len self.now.columns) (deps_of self.now.dependencies) (deps_of right.now.dependencies)) }
    {
        let dependencies = self
            .dependencies
            .join(&right.dependencies, join_type, self.columns.len())?;
        let mut columns = Vec::new(heap);
        match join_type {
            JoinType::Inner | JoinType::Left | JoinType::Right | JoinType::Full => {
                columns.extend_from_slice(self.columns.as_slice())?;
                columns.extend_from_slice(right.columns.as_slice())?;
            }
            JoinType::LeftSemi | JoinType::LeftAnti | JoinType::LeftMark => {
                columns.extend_from_slice(self.columns.as_slice())?;
            }
            JoinType::RightSemi | JoinType::RightAnti | JoinType::RightMark => {
                columns.extend_from_slice(right.columns.as_slice())?;
            }
        }
        if matches!(join_type, JoinType::LeftMark | JoinType::RightMark) {
            columns.push(Column::new_unqualified(Name::new(b"mark")?))?;
        }
        Ok(Relation {
            columns,
            dependencies,
        })
    }

    /// Whether a dependency says that no two rows have one value in that column.
    pub fn is_unique(&self, column: u16) -> bool
        ensures { result ≡ list_any (is_key_on column) (deps_of self.now.dependencies) }
    {
        self.dependencies
            .as_slice()
            .iter()
            .any(|dependence| is_key_on(dependence, column))
    }
}
