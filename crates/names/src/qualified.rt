ghost use Rattle.std.specs.Prelude.{◌≡◌, ◌+◌, ◌≤◌, [], ◌∷◌, ◌++◌, length};
ghost use Rattle.std.specs.Option.{option_map};
ghost use Rattle.names.specs.Columns.{full_text, pointed};
ghost use Rattle.names.specs.Names.{text_of, full_text_of};
ghost use Rattle.names.specs.References.{parts_of};

use crate::name::{FullName, Name};
use crate::table_reference::TableReference;
use bounded::list::Bounded;

impl FullName {
    fn ended(mut self, part: &Name) -> FullName
        requires { length (text_of self) ≤ 99 }
        ensures value { text_of result ≡ text_of self ++ text_of part.now }
        ensures long { length (text_of result) ≤ length (text_of self) + 32 }
    {
        let _ = self.bytes.extend_from_slice(part.as_bytes());
        self
    }

    fn with(self, part: &Name) -> FullName
        requires { length (text_of self) ≤ 98 }
        ensures value { text_of result ≡ text_of self ++ (text_of part.now ++ 46 ∷ []) }
        ensures long { length (text_of result) ≤ length (text_of self) + 33 }
    {
        let mut out = self.ended(part);
        let _ = out.bytes.push(b'.');
        out
    }
}

fn prefix(reference: &TableReference) -> FullName
    ensures value { text_of result ≡ pointed (parts_of reference.now) [] }
    ensures long { length (text_of result) ≤ 99 }
{
    let out = FullName::empty();
    match reference {
        TableReference::Bare { table } => out.with(table),
        TableReference::Partial { schema, table } => out.with(schema).with(table),
        TableReference::Full {
            catalog,
            schema,
            table,
        } => out.with(catalog).with(schema).with(table),
    }
}

/// The parts of the reference and the name, joined by points.
pub fn qualified_name(relation: Option<&TableReference>, name: &Name) -> FullName
    ensures { full_text_of result ≡ full_text (option_map (λ x. x.now) relation.entry) name.now }
{
    match relation {
        Some(reference) => prefix(reference).ended(name),
        None => FullName::empty().ended(name),
    }
}
