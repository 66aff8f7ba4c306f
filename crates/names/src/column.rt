ghost use Rattle.std.specs.Prelude.{◌≡◌, None};
ghost use Rattle.names.specs.Columns.{full_text};
ghost use Rattle.names.specs.Names.{full_text_of};

use crate::name::{FullName, Name};
use crate::qualified::qualified_name;
use crate::table_reference::TableReference;

/// A column by its name, under a table reference or none.
#[derive(Clone, Copy, PartialEq, Eq)]
pub struct Column {
    pub relation: Option<TableReference>,
    pub name: Name,
}

impl Column {
    pub fn new(relation: Option<TableReference>, name: Name) -> Column
        ensures reference { result.relation ≡ relation }
        ensures named { result.name ≡ name }
    {
        Column { relation, name }
    }

    pub fn new_unqualified(name: Name) -> Column
        ensures reference { result.relation ≡ None }
        ensures named { result.name ≡ name }
    {
        Column {
            relation: None,
            name,
        }
    }

    /// The full name: the parts of the reference and the name, joined by points.
    pub fn flat_name(&self) -> FullName
        ensures { full_text_of result ≡ full_text self.now.relation self.now.name }
    {
        qualified_name(self.relation.as_ref(), &self.name)
    }
}
