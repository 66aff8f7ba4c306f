ghost use Rattle.std.specs.Prelude.{◌≡◌, filter};
ghost use Rattle.bounded.specs.View.{list_of};
ghost use Rattle.schemas.specs.Lookups.{has_name};
ghost use Rattle.schemas.specs.NamedFields.{is_unqualified, only_of, field_named};
ghost use Rattle.schemas.specs.Schemas.{fields_of};

use crate::dfschema::{DFSchema, Field};
use crate::lookup::unknown;
use bounded::list::Bounded;
use columns::column_list::MAX_COLUMNS;
use names::column::Column;
use names::error::{Refusal, SchemaError};
use names::name::Name;

// the fields without a reference
fn without_qualifier(mut fields: Bounded<Field, MAX_COLUMNS>) -> Bounded<Field, MAX_COLUMNS>
    ensures { list_of result ≡ filter is_unqualified (list_of fields) }
{
    fields.retain(|field| field.column.relation.is_none());
    fields
}

// the field, where there is just one
fn only(fields: &[Field]) -> Option<Field>
    ensures { result ≡ only_of fields.now }
{
    match fields {
        [field] => Some(*field),
        _ => None,
    }
}

impl DFSchema {
    /// The fields of that name, in order.
    pub fn qualified_fields_with_unqualified_name(&self, name: &Name) -> Bounded<Field, MAX_COLUMNS>
        ensures { list_of result ≡ filter (has_name name.now) (fields_of self.now) }
    {
        let mut matches = self.fields;
        matches.retain(|field| field.column.name == *name);
        matches
    }

    /// The field of that name; where several have it, the only one of them without a reference.
    pub fn qualified_field_with_unqualified_name(&self, name: &Name) -> Result<Field, Refusal>
        ensures { result ≡ field_named name.now (fields_of self.now) }
    {
        let matches = self.qualified_fields_with_unqualified_name(name);
        let column = Column::new_unqualified(*name);
        match matches.as_slice() {
            [] => Err(unknown(column)),
            [field] => Ok(*field),
            _ => only(without_qualifier(matches).as_slice()).ok_or_else(
                || SchemaError::AmbiguousReference { field: column }.into(),
            ),
        }
    }
}
