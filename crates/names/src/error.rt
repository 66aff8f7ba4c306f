ghost use Rattle.std.specs.Prelude.{◌≡◌};
ghost use Rattle.names.specs.declared.error.Refusal.TheVariants.{Oversize, Schema};
ghost use Rattle.names.specs.Named.{schema_error_of};
ghost use Rattle.names.specs.Refusals.{number_of, word_of, schema_number, schema_word};

use crate::column::Column;
use crate::name::{FullName, Name};
use crate::table_reference::TableReference;
use bounded::ops::Full;

/// What was looked for and not found: a column, or a full name as it was given.
#[derive(Clone, Copy, PartialEq, Eq)]
pub enum MissingField {
    Column(Column),
    FullName(FullName),
}

/// What is wrong with the names of a schema, with the column that shows it.
#[derive(Clone, Copy, PartialEq, Eq)]
pub enum SchemaError {
    AmbiguousReference {
        field: Column,
    },
    DuplicateQualifiedField {
        qualifier: TableReference,
        name: Name,
    },
    DuplicateUnqualifiedField {
        name: Name,
    },
    FieldNotFound {
        field: MissingField,
    },
}

/// Why a call is refused. The schema errors are the refusals 5 to 8.
#[derive(Clone, Copy, PartialEq, Eq)]
pub enum Refusal {
    Standing,
    Oversize,
    Overrun,
    NoColumn,
    Schema(SchemaError),
    SameText,
    EmptyKey,
    WrongKind,
    ShortCells,
    BrokenKey,
    Crowded,
    LongWalk,
    NoRow,
}

impl SchemaError {
    // a number, since the rules publish one for each case
    /// The number by which the refusal is known.
    pub fn number(&self) -> u8
        ensures { result ≡ schema_number self.now }
    {
        match self {
            SchemaError::DuplicateQualifiedField { .. } => 5,
            SchemaError::DuplicateUnqualifiedField { .. } => 6,
            SchemaError::AmbiguousReference { .. } => 7,
            SchemaError::FieldNotFound { .. } => 8,
        }
    }

    /// The word by which the refusal is known.
    pub fn word(&self) -> &'static str
        ensures { result.now ≡ schema_word self.now }
    {
        match self {
            SchemaError::DuplicateQualifiedField { .. } => "twice qualified",
            SchemaError::DuplicateUnqualifiedField { .. } => "twice unqualified",
            SchemaError::AmbiguousReference { .. } => "ambiguous",
            SchemaError::FieldNotFound { .. } => "unknown",
        }
    }
}

impl Refusal {
    // a number, since the rules publish one for each case
    /// The number by which the refusal is known, 1 to 16.
    pub fn number(&self) -> u8
        ensures { result ≡ number_of self.now }
    {
        match self {
            Refusal::Standing => 1,
            Refusal::Oversize => 2,
            Refusal::Overrun => 3,
            Refusal::NoColumn => 4,
            Refusal::Schema(error) => error.number(),
            Refusal::SameText => 9,
            Refusal::EmptyKey => 10,
            Refusal::WrongKind => 11,
            Refusal::ShortCells => 12,
            Refusal::BrokenKey => 13,
            Refusal::Crowded => 14,
            Refusal::LongWalk => 15,
            Refusal::NoRow => 16,
        }
    }

    /// The word by which the refusal is known.
    pub fn word(&self) -> &'static str
        ensures { result.now ≡ word_of self.now }
    {
        match self {
            Refusal::Standing => "standing",
            Refusal::Oversize => "oversize",
            Refusal::Overrun => "overrun",
            Refusal::NoColumn => "no column",
            Refusal::Schema(error) => error.word(),
            Refusal::SameText => "same text",
            Refusal::EmptyKey => "empty key",
            Refusal::WrongKind => "wrong kind",
            Refusal::ShortCells => "short cells",
            Refusal::BrokenKey => "broken key",
            Refusal::Crowded => "crowded",
            Refusal::LongWalk => "long walk",
            Refusal::NoRow => "no row",
        }
    }

    /// The schema error, where the refusal is one.
    pub fn schema_error(&self) -> Option<SchemaError>
        ensures { result ≡ schema_error_of self.now }
    {
        match self {
            Refusal::Schema(error) => Some(*error),
            _ => None,
        }
    }
}

impl From<Full> for Refusal {
    ghost from_gives = { λ _ refusal. refusal ≡ Oversize };

    fn from(_: Full) -> Self {
        Self::Oversize
    }
}

impl From<SchemaError> for Refusal {
    ghost from_gives = { λ error refusal. refusal ≡ Schema error };

    fn from(error: SchemaError) -> Self {
        Self::Schema(error)
    }
}
