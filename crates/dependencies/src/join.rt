ghost use Rattle.std.specs.Prelude.{◌≡◌, IfOk};
ghost use Rattle.names.specs.Refusals.{Answers};
ghost use Rattle.dependencies.specs.JoinedTables.{TrueOfJoins};
ghost use Rattle.dependencies.specs.Joins.{joined, joined_sides, join_refusal, sides_refusal};
ghost use Rattle.dependencies.specs.View.{deps_of};

use crate::functional_dependencies::{Dependency, FunctionalDependencies, MAX_DEPENDENCIES};
use columns::column_list::MAX_COLUMNS;
use join_type::JoinType;
use names::error::Refusal;

impl FunctionalDependencies {
    /// The dependencies of a join of that type, where the left side has `left_cols_len` columns and `other` is the right side's.
    #[tactic(auto, using(crate::proofs::JoinLaws::joined_law))]
    pub fn join(
        &self,
        other: &FunctionalDependencies,
        join_type: JoinType,
        left_cols_len: usize,
    ) -> Result<FunctionalDependencies, Refusal>
        ensures answer { Answers result (join_refusal join_type left_cols_len (deps_of self.now) (deps_of other.now)) (λ d. deps_of d ≡ joined join_type left_cols_len (deps_of self.now) (deps_of other.now)) }
        ensures true_of_joins { IfOk result (λ d. TrueOfJoins join_type left_cols_len (deps_of self.now) (deps_of other.now) (deps_of d)) }
    {
        if left_cols_len > MAX_COLUMNS {
            return Err(Refusal::Oversize);
        }
        let mut left = *self;
        let mut right = *other;
        match join_type {
            JoinType::Inner => left.beside(right, left_cols_len),
            JoinType::Left => {
                right.downgrade_dependencies();
                left.beside(right, left_cols_len)
            }
            JoinType::Right => {
                left.downgrade_dependencies();
                left.beside(right, left_cols_len)
            }
            JoinType::LeftSemi | JoinType::LeftAnti | JoinType::LeftMark => Ok(left),
            JoinType::RightSemi | JoinType::RightAnti | JoinType::RightMark => Ok(right),
            JoinType::Full => Ok(FunctionalDependencies::empty()),
        }
    }

    // both sides' dependencies, each turned `Multi`, the right ones moved up by the left width
    fn beside(
        mut self,
        mut right: FunctionalDependencies,
        left_cols_len: usize,
    ) -> Result<FunctionalDependencies, Refusal>
        ensures { Answers result (sides_refusal left_cols_len (deps_of self) (deps_of right)) (λ d. deps_of d ≡ joined_sides left_cols_len (deps_of self) (deps_of right)) }
    {
        if self.len() + right.len() > MAX_DEPENDENCIES {
            return Err(Refusal::Oversize);
        }
        right.add_offset(left_cols_len)?;
        self.with_dependency(Dependency::Multi);
        right.with_dependency(Dependency::Multi);
        self.extend(&right)?;
        Ok(self)
    }
}
