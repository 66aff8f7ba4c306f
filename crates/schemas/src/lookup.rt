ghost use Rattle.std.specs.Prelude.{◌≡◌, Some, None, Decides, MatchResult};
ghost use Rattle.std.specs.List.{list_any};
ghost use Rattle.names.specs.Columns.{column_of};
ghost use Rattle.schemas.specs.Lookups.{RelationFits, Means, SomeMeant, FirstMeant, unknown_column, has_name, has_qualified_name, has_column};
ghost use Rattle.schemas.specs.Schemas.{fields_of};

use crate::dfschema::{DFSchema, Field};
use names::column::Column;
use names::error::{MissingField, Refusal, SchemaError};
use names::first::{SameAs, first_position};
use names::name::Name;
use names::table_reference::TableReference;

impl Field {
    // whether a query that names a column so can mean the field
    fn is_meant(&self, qualifier: &Option<TableReference>, name: &Name) -> bool
        ensures { Decides result (Means qualifier.now name.now self.now) }
    {
        self.column.name == *name
            && qualifier.as_ref().is_none_or(|q| self
                .column
                .relation
                .as_ref()
                .is_some_and(|r| q.resolved_eq(r)))
    }
}

// a column as a query names it
#[derive(Drop)]
struct Lookup<'a> {
    relation: &'a Option<TableReference>,
    name: &'a Name,
}

impl<'a> SameAs<Lookup<'a>> for Field {
    ghost is_same = { λ f l. Means l.relation.now l.name.now f };

    fn same_as(&self, other: &Lookup<'a>) -> bool {
        self.is_meant(other.relation, other.name)
    }
}

impl SameAs<Column> for Field {
    ghost is_same = { λ f c. column_of f.column ≡ column_of c };

    fn same_as(&self, other: &Column) -> bool {
        self.column == *other
    }
}

// the refusal that names a column which is not there
pub(crate) fn unknown(column: Column) -> Refusal
    ensures { result ≡ unknown_column column }
{
    let field = MissingField::Column(column);
    SchemaError::FieldNotFound { field }.into()
}

impl DFSchema {
    /// The first column of that name; where a reference is given, the first that has one which fits it.
    pub fn index_of_column_by_name(
        &self,
        qualifier: Option<TableReference>,
        name: &Name,
    ) -> Option<usize>
        ensures { FirstMeant qualifier name.now (fields_of self.now) result }
    {
        let lookup = Lookup {
            relation: &qualifier,
            name,
        };
        first_position(self.fields(), &lookup)
    }

    pub fn maybe_index_of_column(&self, col: &Column) -> Option<usize>
        ensures { FirstMeant col.now.relation col.now.name (fields_of self.now) result }
    {
        self.index_of_column_by_name(col.relation, &col.name)
    }

    /// As `maybe_index_of_column`; unknown where there is none.
    pub fn index_of_column(&self, col: &Column) -> Result<usize, Refusal>
        ensures { MatchResult result (λ i. FirstMeant col.now.relation col.now.name (fields_of self.now) (Some i)) (λ e. FirstMeant col.now.relation col.now.name (fields_of self.now) None × (e ≡ unknown_column col.now)) }
    {
        self.maybe_index_of_column(col).ok_or_else(|| unknown(*col))
    }

    /// Whether `index_of_column` finds the column.
    pub fn is_column_from_schema(&self, col: &Column) -> bool
        ensures { Decides result (SomeMeant col.now.relation col.now.name (fields_of self.now)) }
    {
        self.maybe_index_of_column(col).is_some()
    }

    /// Whether a column has that name.
    pub fn has_column_with_unqualified_name(&self, name: &Name) -> bool
        ensures { result ≡ list_any (has_name name.now) (fields_of self.now) }
    {
        self.fields().iter().any(|field| field.column.name == *name)
    }

    /// Whether a column has exactly that reference and that name.
    pub fn has_column_with_qualified_name(&self, qualifier: &TableReference, name: &Name) -> bool
        ensures { result ≡ list_any (has_qualified_name qualifier.now name.now) (fields_of self.now) }
    {
        let column = Column {
            relation: Some(*qualifier),
            name: *name,
        };
        first_position(self.fields(), &column).is_some()
    }

    /// Whether a column has that reference and name; without a reference, whether one has that name.
    pub fn has_column(&self, column: &Column) -> bool
        ensures { result ≡ has_column (fields_of self.now) column.now }
    {
        match &column.relation {
            Some(r) => self.has_column_with_qualified_name(r, &column.name),
            None => self.has_column_with_unqualified_name(&column.name),
        }
    }
}
