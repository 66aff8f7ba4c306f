ghost use Rattle.std.specs.Prelude.{◌≡◌, ◌≤◌, [], ◌∷◌, ◌++◌, map, length, Decides, true, false, MatchResult};
ghost use Rattle.names.specs.Refusals.{Answers, AnswersOr, oversize_over};
ghost use Rattle.names.specs.declared.error.Refusal.TheVariants.{Overrun};
ghost use Rattle.columns.specs.Columns.{oversize_together, full_at, columns_of};
ghost use Rattle.dependencies.specs.Model.{mode_name, dependence, with_mode, fits_dep, offset_by, overrun, overrun_any, survives_nulls, padded};
ghost use Rattle.dependencies.specs.View.{dep_of, deps_of};

use bounded::list::Bounded;
use columns::column_list::ColumnList;
use names::error::Refusal;

/// The most dependencies of a schema.
pub const MAX_DEPENDENCIES: usize = 32;

/// How often a determinant key may occur.
#[derive(Clone, Copy, PartialEq, Eq, Debug)]
pub enum Dependency {
    /// A determinant key occurs only once.
    Single,
    /// A determinant key may occur in several rows.
    Multi,
}

impl Dependency {
    pub fn name(self) -> &'static str
        ensures { result.now ≡ mode_name self }
    {
        match self {
            Dependency::Single => "Single",
            Dependency::Multi => "Multi",
        }
    }
}

/// Rows that agree on all source columns agree on all target columns.
#[derive(Clone, Copy, PartialEq, Eq)]
pub struct FunctionalDependence {
    pub(crate) source_indices: ColumnList,
    pub(crate) target_indices: ColumnList,
    pub(crate) nullable: bool,
    pub(crate) mode: Dependency,
}

impl FunctionalDependence {
    // what stands in the places of a list that hold no dependency
    pub(crate) fn filler() -> FunctionalDependence {
        FunctionalDependence::new(ColumnList::empty(), ColumnList::empty(), false)
    }

    // whether rows of nulls leave the dependency true
    fn survives_nulls(&self) -> bool
        ensures { result ≡ survives_nulls (dep_of self.now) }
    {
        !self.nullable && !self.source_indices.is_empty()
    }

    /// Starts in the least restrictive mode.
    pub fn new(
        source_indices: ColumnList,
        target_indices: ColumnList,
        nullable: bool,
    ) -> FunctionalDependence
        ensures { dep_of result ≡ dependence (columns_of source_indices) (columns_of target_indices) nullable Dependency.Multi }
    {
        FunctionalDependence {
            source_indices,
            target_indices,
            nullable,
            mode: Dependency::Multi,
        }
    }

    pub fn with_mode(mut self, mode: Dependency) -> FunctionalDependence
        ensures { dep_of result ≡ with_mode mode (dep_of self) }
    {
        self.mode = mode;
        self
    }

    // a getter for each field
    /// The columns of the determinant key.
    pub fn source_indices(&self) -> &ColumnList
        ensures { columns_of result.now ≡ (dep_of self.now).sources }
    {
        &self.source_indices
    }

    /// The columns that the key determines.
    pub fn target_indices(&self) -> &ColumnList
        ensures { columns_of result.now ≡ (dep_of self.now).targets }
    {
        &self.target_indices
    }

    /// Whether a source cell may be null.
    pub fn nullable(&self) -> bool
        ensures { result ≡ (dep_of self.now).nullable }
    {
        self.nullable
    }

    pub fn mode(&self) -> Dependency
        ensures { result ≡ (dep_of self.now).mode }
    {
        self.mode
    }

    // the dependency with both lists moved up by the offset
    fn moved(mut self, offset: usize) -> Result<FunctionalDependence, Refusal>
        ensures { MatchResult result (λ d. (dep_of d ≡ offset_by offset (dep_of self)) × (fits_dep offset (dep_of self) ≡ true)) (λ e. (e ≡ Overrun) × (fits_dep offset (dep_of self) ≡ false)) }
    {
        self.source_indices.add_offset(offset)?;
        self.target_indices.add_offset(offset)?;
        Ok(self)
    }

    /// Moves both lists up by the offset, or changes neither.
    pub fn add_offset(&mut self, offset: usize) -> Result<(), Refusal>
        ensures { AnswersOr result (overrun offset (dep_of self.old)) (λ _. dep_of self.new ≡ offset_by offset (dep_of self.old)) (self.new ≡ self.old) }
    {
        *self = self.moved(offset)?;
        Ok(())
    }
}

/// The functional dependencies of a relation: at most 32.
#[derive(Clone, Copy, PartialEq, Eq)]
pub struct FunctionalDependencies {
    pub(crate) deps: Bounded<FunctionalDependence, MAX_DEPENDENCIES>,
}

// Calls of `Bounded`, as each list has them in its own crate.
impl FunctionalDependencies {
    pub fn empty() -> FunctionalDependencies
        ensures { deps_of result ≡ [] }
    {
        FunctionalDependencies {
            deps: Bounded::new(FunctionalDependence::filler()),
        }
    }

    pub fn new(dependencies: &[FunctionalDependence]) -> Result<FunctionalDependencies, Refusal>
        ensures { Answers result (oversize_over 32 dependencies.now) (λ d. deps_of d ≡ map dep_of dependencies.now) }
    {
        Ok(FunctionalDependencies {
            deps: Bounded::from_slice(FunctionalDependence::filler(), dependencies)?,
        })
    }

    pub fn len(&self) -> usize
        ensures count { result ≡ length (deps_of self.now) }
        ensures few { result ≤ 32 }
    {
        self.deps.len()
    }

    pub fn as_slice(&self) -> &[FunctionalDependence]
        ensures value { map dep_of result.now ≡ deps_of self.now }
        ensures few { length result.now ≤ 32 }
    {
        self.deps.as_slice()
    }

    pub fn push(&mut self, dependence: FunctionalDependence) -> Result<(), Refusal>
        ensures { AnswersOr result (full_at 32 (deps_of self.old)) (λ _. deps_of self.new ≡ deps_of self.old ++ dep_of dependence ∷ []) (self.new ≡ self.old) }
    {
        Ok(self.deps.push(dependence)?)
    }

    /// Merges the other dependencies with these, or changes nothing.
    pub fn extend(&mut self, other: &FunctionalDependencies) -> Result<(), Refusal>
        ensures { AnswersOr result (oversize_together 32 (deps_of self.old) (deps_of other.now)) (λ _. deps_of self.new ≡ deps_of self.old ++ deps_of other.now) (self.new ≡ self.old) }
    {
        Ok(self.deps.extend_from_slice(other.as_slice())?)
    }

    /// Turns each dependency to the mode.
    pub fn with_dependency(&mut self, mode: Dependency)
        ensures { deps_of self.new ≡ map (with_mode mode) (deps_of self.old) }
    {
        let unturned = self.deps;
        self.deps.truncate(0);
        for dependence in unturned.as_slice() {
            // there is room: one is pushed for each
            let _ = self.deps.push(dependence.with_mode(mode));
        }
    }

    /// Moves every list up by the offset, or changes none.
    pub fn add_offset(&mut self, offset: usize) -> Result<(), Refusal>
        ensures { AnswersOr result (overrun_any offset (deps_of self.old)) (λ _. deps_of self.new ≡ map (offset_by offset) (deps_of self.old)) (self.new ≡ self.old) }
    {
        // a copy that is emptied: it costs less than places that are filled anew
        let mut moved = self.deps;
        moved.truncate(0);
        for dependence in self.as_slice() {
            // there is room: one is pushed for each
            let _ = moved.push(dependence.moved(offset)?);
        }
        self.deps = moved;
        Ok(())
    }

    /// What holds once rows of nulls may stand on this side of a join: a nullable dependency is lost, and one without
    /// a source; the others become nullable.
    pub fn downgrade_dependencies(&mut self)
        ensures { deps_of self.new ≡ padded (deps_of self.old) }
    {
        let before = self.deps;
        self.deps.truncate(0);
        for dependence in before.as_slice() {
            if dependence.survives_nulls() {
                // there is room: no more are kept than there are
                let _ = self.deps.push(FunctionalDependence {
                    nullable: true,
                    ..*dependence
                });
            }
        }
    }
}
