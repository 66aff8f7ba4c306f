ghost use Rattle.std.specs.Prelude.{◌≡◌, map, Decides};
ghost use Rattle.std.specs.Option.{option_map};
ghost use Rattle.bounded.specs.View.{list_of};
ghost use Rattle.names.specs.Names.{text_of};
ghost use Rattle.names.specs.References.{table_part, schema_part, catalog_part, parts_of, Compatible, Resolved};

use crate::name::Name;
use bounded::list::Bounded;

/// A table as a query names it.
#[derive(Clone, Copy, PartialEq, Eq, PartialOrd, Ord)]
pub enum TableReference {
    Bare {
        table: Name,
    },
    Partial {
        schema: Name,
        table: Name,
    },
    Full {
        catalog: Name,
        schema: Name,
        table: Name,
    },
}

impl TableReference {
    pub fn bare(table: Name) -> TableReference
        ensures { result ≡ TableReference.Bare table }
    {
        TableReference::Bare { table }
    }

    pub fn partial(schema: Name, table: Name) -> TableReference
        ensures { result ≡ TableReference.Partial schema table }
    {
        TableReference::Partial { schema, table }
    }

    pub fn full(catalog: Name, schema: Name, table: Name) -> TableReference
        ensures { result ≡ TableReference.Full catalog schema table }
    {
        TableReference::Full {
            catalog,
            schema,
            table,
        }
    }

    pub fn table(&self) -> &Name
        ensures { result.now ≡ table_part self.now }
    {
        match self {
            TableReference::Bare { table } => table,
            TableReference::Partial { table, .. } => table,
            TableReference::Full { table, .. } => table,
        }
    }

    pub fn schema(&self) -> Option<&Name>
        ensures { option_map (λ x. x.now) result ≡ schema_part self.now }
    {
        match self {
            TableReference::Bare { .. } => None,
            TableReference::Partial { schema, .. } => Some(schema),
            TableReference::Full { schema, .. } => Some(schema),
        }
    }

    pub fn catalog(&self) -> Option<&Name>
        ensures { option_map (λ x. x.now) result ≡ catalog_part self.now }
    {
        match self {
            TableReference::Full { catalog, .. } => Some(catalog),
            _ => None,
        }
    }

    /// The parts, from the widest in.
    pub fn to_vec(&self) -> Bounded<Name, 3>
        ensures { map text_of (list_of result) ≡ parts_of self.now }
    {
        let mut parts = Bounded::new(Name::empty());
        // there is room: there are at most three parts
        match self {
            Self::Bare { table } => {
                let _ = parts.push(*table);
            }
            Self::Partial { schema, table } => {
                let _ = parts.push(*schema);
                let _ = parts.push(*table);
            }
            Self::Full {
                catalog,
                schema,
                table,
            } => {
                let _ = parts.push(*catalog);
                let _ = parts.push(*schema);
                let _ = parts.push(*table);
            }
        }
        parts
    }

    /// Whether both can mean one table: each part that both have is the same.
    pub fn resolved_eq(&self, other: &TableReference) -> bool
        ensures { Decides result (Resolved self.now other.now) }
    {
        *self.table() == *other.table()
            && compatible(self.schema(), other.schema())
            && compatible(self.catalog(), other.catalog())
    }
}

fn compatible(a: Option<&Name>, b: Option<&Name>) -> bool
    ensures { Decides result (Compatible (option_map (λ x. x.now) a.entry) (option_map (λ x. x.now) b.entry)) }
{
    match (a, b) {
        (Some(x), Some(y)) => *x == *y,
        _ => true,
    }
}
