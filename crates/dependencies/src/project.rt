ghost use Rattle.std.specs.Prelude.{◌≡◌, IfOk};
ghost use Rattle.names.specs.Refusals.{Answers};
ghost use Rattle.columns.specs.Columns.{oversize_width, columns_of};
ghost use Rattle.dependencies.specs.Projections.{projected_dep, projected};
ghost use Rattle.dependencies.specs.ProjectedTables.{TrueOfProjections};
ghost use Rattle.dependencies.specs.View.{dep_of, deps_of};

use crate::functional_dependencies::{Dependency, FunctionalDependence, FunctionalDependencies};
use columns::column_list::ColumnList;
use names::error::Refusal;

impl FunctionalDependence {
    // the dependency in the columns of the projection
    fn projected(&self, proj_indices: &ColumnList, all: ColumnList) -> FunctionalDependence
        ensures { dep_of result ≡ projected_dep (columns_of proj_indices.now) (columns_of all) (dep_of self.now) }
    {
        let sources = self.source_indices.places_in(proj_indices);
        let targets = match self.mode {
            Dependency::Single => all,
            Dependency::Multi => self.target_indices.places_in(proj_indices),
        };
        FunctionalDependence::new(sources, targets, self.nullable).with_mode(self.mode)
    }
}

impl FunctionalDependencies {
    /// The dependencies in the columns of a projection, which has `n_out` of them: those whose sources are all in it.
    pub fn project_functional_dependencies(
        &self,
        proj_indices: &ColumnList,
        n_out: usize,
    ) -> Result<FunctionalDependencies, Refusal>
        ensures answer { Answers result (oversize_width n_out) (λ d. deps_of d ≡ projected (columns_of proj_indices.now) n_out (deps_of self.now)) }
        ensures true_of_projections { IfOk result (λ d. TrueOfProjections (columns_of proj_indices.now) (deps_of self.now) (deps_of d)) }
    {
        let all = ColumnList::all(n_out)?;
        // a copy that is emptied: it costs less than places that are filled anew
        let mut deps = self.deps;
        deps.truncate(0);
        for dependence in self.as_slice() {
            if dependence.source_indices.all_listed_in(proj_indices) {
                // there is room: no more are kept than there are
                let _ = deps.push(dependence.projected(proj_indices, all));
            }
        }
        Ok(FunctionalDependencies { deps })
    }
}
