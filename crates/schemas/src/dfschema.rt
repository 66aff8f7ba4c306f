ghost use Rattle.std.specs.Prelude.{◌≡◌, ◌≤◌, [], ◌++◌, map, length, MatchResult};
ghost use Rattle.bounded.specs.View.{list_of};
ghost use Rattle.names.specs.Names.{text_of};
ghost use Rattle.names.specs.Refusals.{Answers, oversize_over};
ghost use Rattle.names.specs.declared.error.Refusal.TheVariants.{NoColumn};
ghost use Rattle.dependencies.specs.Tables.{Valid};
ghost use Rattle.dependencies.specs.View.{deps_of};
ghost use Rattle.schemas.specs.CheckNames.{Answered, NamesAnswer};
ghost use Rattle.schemas.specs.Clashes.{JoinedUnlessClash};
ghost use Rattle.schemas.specs.Schemas.{fields_of, dependencies_of, column_in, full_name_in, SchemaOf, FieldsAnswer};

use crate::check_names::check_names;
use bounded::list::Bounded;
use columns::column_list::MAX_COLUMNS;
use dependencies::functional_dependencies::FunctionalDependencies;
use names::column::Column;
use names::error::Refusal;
use names::name::{FullName, Name};

/// What the cells of a column are, where they are not null.
#[derive(Clone, Copy, PartialEq, Eq, Debug)]
pub enum Kind {
    Number,
    Code,
}

/// A column of a schema.
#[derive(Clone, Copy)]
pub struct Field {
    pub column: Column,
    pub kind: Kind,
    pub nullable: bool,
}

/// The columns of a relation, at most 64, and its dependencies.
#[derive(Clone, Copy)]
pub struct DFSchema {
    pub(crate) fields: Bounded<Field, MAX_COLUMNS>,
    functional_dependencies: FunctionalDependencies,
}

// what stands in the places of a list that hold no field
fn filler() -> Field {
    Field {
        column: Column::new_unqualified(Name::empty()),
        kind: Kind::Number,
        nullable: true,
    }
}

impl DFSchema {
    pub fn empty() -> DFSchema
        ensures { SchemaOf [] result }
    {
        DFSchema {
            fields: Bounded::new(filler()),
            functional_dependencies: FunctionalDependencies::empty(),
        }
    }

    /// Those columns, whatever their names, and no dependencies.
    pub fn new_unchecked(fields: &[Field]) -> Result<DFSchema, Refusal>
        ensures { Answers result (oversize_over 64 fields.now) (SchemaOf fields.now) }
    {
        Ok(DFSchema {
            fields: Bounded::from_slice(filler(), fields)?,
            functional_dependencies: FunctionalDependencies::empty(),
        })
    }

    /// Those columns, if their names pass, and no dependencies.
    pub fn new(fields: &[Field]) -> Result<DFSchema, Refusal>
        ensures { FieldsAnswer fields.now result }
    {
        let schema = DFSchema::new_unchecked(fields)?;
        schema.check_names()?;
        Ok(schema)
    }

    // a getter for each field
    pub fn fields(&self) -> &[Field]
        ensures value { result.now ≡ fields_of self.now }
        ensures few { length result.now ≤ 64 }
    {
        self.fields.as_slice()
    }

    pub fn functional_dependencies(&self) -> &FunctionalDependencies
        ensures { deps_of result.now ≡ dependencies_of self.now }
    {
        &self.functional_dependencies
    }

    /// The columns by reference and name, in order.
    #[tactic(auto, using(bounded::proofs::Called::zip_map))]
    pub fn columns(&self) -> Bounded<Column, MAX_COLUMNS>
        ensures { list_of result ≡ map column_in (fields_of self.now) }
    {
        self.fields.map(filler().column, |field| field.column)
    }

    /// The full names, in order.
    pub fn field_names(&self) -> Bounded<FullName, MAX_COLUMNS>
        ensures { map text_of (list_of result) ≡ map full_name_in (fields_of self.now) }
    {
        self.fields
            .map(FullName::empty(), |field| field.column.flat_name())
    }

    pub fn check_names(&self) -> Result<(), Refusal>
        ensures { Answered result (NamesAnswer (map column_in (fields_of self.now))) }
    {
        check_names(self.columns().as_slice())
    }

    /// The same columns with those dependencies, if they list no missing column.
    pub fn with_functional_dependencies(
        self,
        functional_dependencies: FunctionalDependencies,
    ) -> Result<DFSchema, Refusal>
        ensures { MatchResult result (λ s. Valid (length (fields_of self)) (deps_of functional_dependencies) × (fields_of s ≡ fields_of self) × (dependencies_of s ≡ deps_of functional_dependencies)) (λ e. (e ≡ NoColumn) × (Valid (length (fields_of self)) (deps_of functional_dependencies) → ⊥)) }
    {
        if functional_dependencies.is_valid(self.fields.len())? {
            Ok(DFSchema {
                functional_dependencies,
                ..self
            })
        } else {
            Err(Refusal::NoColumn)
        }
    }

    /// The left columns, then the right ones, if their names pass together, and no dependencies.
    pub fn join(&self, schema: &DFSchema) -> Result<DFSchema, Refusal>
        ensures answer { FieldsAnswer (fields_of self.now ++ fields_of schema.now) result }
        ensures joined_unless_clash { JoinedUnlessClash (fields_of self.now) (fields_of schema.now) result }
    {
        let mut fields = self.fields;
        fields.extend_from_slice(schema.fields())?;
        DFSchema::new(fields.as_slice())
    }
}
