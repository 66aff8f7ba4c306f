ghost use Rattle.std.specs.Prelude.{◌≡◌, map, Decides};
ghost use Rattle.names.specs.Refusals.{Answers, AnswersOr};
ghost use Rattle.columns.specs.Columns.{oversize_width, columns_of};
ghost use Rattle.dependencies.specs.Model.{targets_over, over_targets};
ghost use Rattle.dependencies.specs.Tables.{Within, Valid};
ghost use Rattle.dependencies.specs.View.{dep_of, deps_of};

use crate::functional_dependencies::{Dependency, FunctionalDependence, FunctionalDependencies};
use columns::column_list::{ColumnList, MAX_COLUMNS};
use names::error::Refusal;

impl FunctionalDependence {
    // whether both lists are within the width
    fn is_within(&self, n_field: usize) -> bool
        ensures { Decides result (Within n_field (dep_of self.now)) }
    {
        self.source_indices.all_below(n_field) && self.target_indices.all_below(n_field)
    }

    // with all columns as targets if the key occurs once
    fn covering(mut self, all: ColumnList) -> FunctionalDependence
        ensures { dep_of result ≡ over_targets (columns_of all) (dep_of self) }
    {
        if self.mode == Dependency::Single {
            self.target_indices = all;
        }
        self
    }
}

impl FunctionalDependencies {
    /// Whether each listed column is one of a schema of that width.
    pub fn is_valid(&self, n_field: usize) -> Result<bool, Refusal>
        ensures { Answers result (oversize_width n_field) (λ valid. Decides valid (Valid n_field (deps_of self.now))) }
    {
        if n_field > MAX_COLUMNS {
            return Err(Refusal::Oversize);
        }
        Ok(self.as_slice().iter().all(|d| d.is_within(n_field)))
    }

    /// Lets each key that occurs once determine all columns of the output.
    pub fn extend_target_indices(&mut self, n_out: usize) -> Result<(), Refusal>
        ensures { AnswersOr result (oversize_width n_out) (λ _. deps_of self.new ≡ map (targets_over n_out) (deps_of self.old)) (self.new ≡ self.old) }
    {
        let all = ColumnList::all(n_out)?;
        let uncovered = self.deps;
        self.deps.truncate(0);
        for dependence in uncovered.as_slice() {
            // there is room: one is pushed for each
            let _ = self.deps.push(dependence.covering(all));
        }
        Ok(())
    }
}
