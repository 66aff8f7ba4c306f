use crate::column::Column;
use crate::error::{MissingField, Refusal, SchemaError};
use crate::name::Text;
use crate::table_reference::TableReference;
use std::error::Error;
use std::fmt;

// Each byte of a name for people to read: one that cannot be shown, and the backslash, as \x and two digits.
fn escaped<W: fmt::Write>(text: &[u8], f: &mut fmt::Formatter<W>) -> fmt::Result {
    for b in text {
        if (*b == b' ' || b.is_ascii_graphic()) && *b != b'\\' {
            write!(f, "{}", *b as char)?;
        } else {
            write!(f, "\\x{:02x}", *b)?;
        }
    }
    Ok(())
}

impl<const N: usize> fmt::Display for Text<N> {
    fn fmt<W: fmt::Write>(&self, f: &mut fmt::Formatter<W>) -> fmt::Result {
        escaped(self.as_bytes(), f)
    }
}

impl fmt::Display for TableReference {
    fn fmt<W: fmt::Write>(&self, f: &mut fmt::Formatter<W>) -> fmt::Result {
        match self {
            TableReference::Bare { table } => write!(f, "{table}"),
            TableReference::Partial { schema, table } => write!(f, "{schema}.{table}"),
            TableReference::Full {
                catalog,
                schema,
                table,
            } => { write!(f, "{catalog}.{schema}.{table}") }
        }
    }
}

impl fmt::Display for Column {
    fn fmt<W: fmt::Write>(&self, f: &mut fmt::Formatter<W>) -> fmt::Result {
        let name = &self.name;
        match &self.relation {
            Some(reference) => write!(f, "{reference}.{name}"),
            None => write!(f, "{name}"),
        }
    }
}

impl fmt::Display for MissingField {
    fn fmt<W: fmt::Write>(&self, f: &mut fmt::Formatter<W>) -> fmt::Result {
        match self {
            MissingField::Column(column) => write!(f, "{column}"),
            MissingField::FullName(name) => write!(f, "{name}"),
        }
    }
}

// Number, word and the column.
impl fmt::Display for SchemaError {
    fn fmt<W: fmt::Write>(&self, f: &mut fmt::Formatter<W>) -> fmt::Result {
        let number = self.number();
        let word = self.word();
        write!(f, "{number} {word}: ")?;
        match self {
            SchemaError::DuplicateQualifiedField { qualifier, name } => {
                write!(f, "{qualifier}.{name}")
            }
            SchemaError::DuplicateUnqualifiedField { name } => write!(f, "{name}"),
            SchemaError::AmbiguousReference { field } => write!(f, "{field}"),
            SchemaError::FieldNotFound { field } => write!(f, "{field}"),
        }
    }
}

// Number, word and the column, or else what is wrong.
impl fmt::Display for Refusal {
    fn fmt<W: fmt::Write>(&self, f: &mut fmt::Formatter<W>) -> fmt::Result {
        let wrong = match self {
            Refusal::Schema(error) => return write!(f, "{error}"),
            Refusal::Standing => "the step is set already",
            Refusal::Oversize => "more entries than fit",
            Refusal::Overrun => "a column number over 65535",
            Refusal::NoColumn => "a column number past the last column",
            Refusal::SameText => "two columns have the same full name",
            Refusal::EmptyKey => "a key lists no column",
            Refusal::WrongKind => "a value of the wrong kind or out of range",
            Refusal::ShortCells => "the cells are not rows times columns",
            Refusal::BrokenKey => "two rows agree on a key, or a primary key cell is null",
            Refusal::Crowded => "more than 256 groups",
            Refusal::LongWalk => "more than 1000000 rows to group",
            Refusal::NoRow => "a cell is read while on no row",
        };
        let number = self.number();
        let word = self.word();
        write!(f, "{number} {word}: {wrong}")
    }
}

// None is derived: `{:?}` writes the text, as `{}` does, so that a refusal in a log or a message has its number and word.
impl<const N: usize> fmt::Debug for Text<N> {
    fn fmt<W: fmt::Write>(&self, f: &mut fmt::Formatter<W>) -> fmt::Result {
        write!(f, "{self}")
    }
}

impl fmt::Debug for TableReference {
    fn fmt<W: fmt::Write>(&self, f: &mut fmt::Formatter<W>) -> fmt::Result {
        write!(f, "{self}")
    }
}

impl fmt::Debug for Column {
    fn fmt<W: fmt::Write>(&self, f: &mut fmt::Formatter<W>) -> fmt::Result {
        write!(f, "{self}")
    }
}

impl fmt::Debug for MissingField {
    fn fmt<W: fmt::Write>(&self, f: &mut fmt::Formatter<W>) -> fmt::Result {
        write!(f, "{self}")
    }
}

impl fmt::Debug for SchemaError {
    fn fmt<W: fmt::Write>(&self, f: &mut fmt::Formatter<W>) -> fmt::Result {
        write!(f, "{self}")
    }
}

impl fmt::Debug for Refusal {
    fn fmt<W: fmt::Write>(&self, f: &mut fmt::Formatter<W>) -> fmt::Result {
        write!(f, "{self}")
    }
}

impl Error for Refusal {}
