use columns::column_list::ColumnList;
use constraints::constraints::{Constraint, Constraints};
use dependencies::functional_dependencies::{
    Dependency, FunctionalDependence, FunctionalDependencies,
};
use join_type::JoinType;
use names::column::Column;
use names::error::{MissingField, Refusal, SchemaError};
use names::name::{FullName, Text};
use names::table_reference::TableReference;
use schemas::dfschema::{DFSchema, Field, Kind};
use std::cmp::Ordering;
use std::fmt;

/// What a case is answered.
#[derive(Drop)]
pub enum Answer {
    /// The names pass.
    Passed,
    /// A dependency lists a column that the schema lacks.
    Plan,
    Refused(Refusal),
    Flag(bool),
    Flags(bool, bool),
    JoinType(JoinType),
    Order(Ordering),
    FullName(FullName),
    Position(Option<usize>),
    Positions(Vec<usize>),
    Columns(Option<ColumnList>),
    Keys(Option<Constraints>),
    Dependencies(FunctionalDependencies),
    /// The field that was found.
    Field(Field),
    /// The schema that was made.
    Schema(DFSchema),
    /// The schema that was changed.
    Merged(DFSchema),
}

/// What the form of answers can write.
trait Written {
    fn write<W: fmt::Write>(&self, f: &mut fmt::Formatter<W>) -> fmt::Result;
}

// how many, then each
fn list<T: Written, W: fmt::Write>(items: &[T], f: &mut fmt::Formatter<W>) -> fmt::Result {
    let count = items.len();
    write!(f, "{count}")?;
    for item in items {
        write!(f, " ")?;
        item.write(f)?;
    }
    Ok(())
}

// `none`, or `some` and what is there
fn optional<T: Written, W: fmt::Write>(item: &Option<T>, f: &mut fmt::Formatter<W>) -> fmt::Result {
    match item {
        None => write!(f, "none"),
        Some(item) => {
            write!(f, "some ")?;
            item.write(f)
        }
    }
}

impl Written for bool {
    fn write<W: fmt::Write>(&self, f: &mut fmt::Formatter<W>) -> fmt::Result {
        write!(f, "{}", if *self { "1" } else { "0" })
    }
}

impl Written for u16 {
    fn write<W: fmt::Write>(&self, f: &mut fmt::Formatter<W>) -> fmt::Result {
        write!(f, "{self}")
    }
}

impl Written for usize {
    fn write<W: fmt::Write>(&self, f: &mut fmt::Formatter<W>) -> fmt::Result {
        write!(f, "{self}")
    }
}

fn plain<W: fmt::Write>(bytes: &[u8], f: &mut fmt::Formatter<W>) -> fmt::Result {
    write!(f, "'")?;
    for b in bytes {
        write!(f, "{}", *b as char)?;
    }
    Ok(())
}

fn hexadecimal<W: fmt::Write>(bytes: &[u8], f: &mut fmt::Formatter<W>) -> fmt::Result {
    write!(f, "#")?;
    for b in bytes {
        write!(f, "{b:02x}")?;
    }
    Ok(())
}

impl<const N: usize> Written for Text<N> {
    fn write<W: fmt::Write>(&self, f: &mut fmt::Formatter<W>) -> fmt::Result {
        let bytes = self.as_bytes();
        if bytes.iter().all(|b| b.is_ascii_graphic()) {
            plain(bytes, f)
        } else {
            hexadecimal(bytes, f)
        }
    }
}

impl Written for TableReference {
    fn write<W: fmt::Write>(&self, f: &mut fmt::Formatter<W>) -> fmt::Result {
        write!(
            f,
            "{}",
            match self {
                TableReference::Bare { .. } => "b",
                TableReference::Partial { .. } => "p",
                TableReference::Full { .. } => "f",
            }
        )?;
        for part in self.to_vec().as_slice() {
            write!(f, " ")?;
            part.write(f)?;
        }
        Ok(())
    }
}

impl Written for Column {
    fn write<W: fmt::Write>(&self, f: &mut fmt::Formatter<W>) -> fmt::Result {
        match &self.relation {
            Some(reference) => reference.write(f)?,
            None => write!(f, "n")?,
        }
        write!(f, " ")?;
        self.name.write(f)
    }
}

impl Written for Field {
    fn write<W: fmt::Write>(&self, f: &mut fmt::Formatter<W>) -> fmt::Result {
        self.column.write(f)?;
        match self.kind {
            Kind::Number => write!(f, " N ")?,
            Kind::Code => write!(f, " C ")?,
        }
        self.nullable.write(f)
    }
}

impl Written for ColumnList {
    fn write<W: fmt::Write>(&self, f: &mut fmt::Formatter<W>) -> fmt::Result {
        list(self.as_slice(), f)
    }
}

impl Written for Constraint {
    fn write<W: fmt::Write>(&self, f: &mut fmt::Formatter<W>) -> fmt::Result {
        match self {
            Constraint::PrimaryKey(_) => write!(f, "P ")?,
            Constraint::Unique(_) => write!(f, "U ")?,
        }
        self.columns().write(f)
    }
}

impl Written for Constraints {
    fn write<W: fmt::Write>(&self, f: &mut fmt::Formatter<W>) -> fmt::Result {
        list(self.as_slice(), f)
    }
}

impl Written for FunctionalDependence {
    fn write<W: fmt::Write>(&self, f: &mut fmt::Formatter<W>) -> fmt::Result {
        match self.mode() {
            Dependency::Single => write!(f, "S ")?,
            Dependency::Multi => write!(f, "M ")?,
        }
        self.nullable().write(f)?;
        write!(f, " ")?;
        self.source_indices().write(f)?;
        write!(f, " ")?;
        self.target_indices().write(f)
    }
}

impl Written for FunctionalDependencies {
    fn write<W: fmt::Write>(&self, f: &mut fmt::Formatter<W>) -> fmt::Result {
        list(self.as_slice(), f)
    }
}

impl Written for DFSchema {
    fn write<W: fmt::Write>(&self, f: &mut fmt::Formatter<W>) -> fmt::Result {
        list(self.fields(), f)?;
        write!(f, " ")?;
        self.functional_dependencies().write(f)
    }
}

impl Written for MissingField {
    fn write<W: fmt::Write>(&self, f: &mut fmt::Formatter<W>) -> fmt::Result {
        match self {
            MissingField::Column(column) => column.write(f),
            MissingField::FullName(name) => name.write(f),
        }
    }
}

impl Written for SchemaError {
    fn write<W: fmt::Write>(&self, f: &mut fmt::Formatter<W>) -> fmt::Result {
        match self {
            SchemaError::DuplicateQualifiedField { qualifier, name } => {
                write!(f, "err DuplicateQualifiedField ")?;
                Column::new(Some(*qualifier), *name).write(f)
            }
            SchemaError::DuplicateUnqualifiedField { name } => {
                write!(f, "err DuplicateUnqualifiedField ")?;
                name.write(f)
            }
            SchemaError::AmbiguousReference { field } => {
                write!(f, "err AmbiguousReference ")?;
                field.write(f)
            }
            SchemaError::FieldNotFound { field } => {
                write!(f, "err FieldNotFound ")?;
                field.write(f)
            }
        }
    }
}

impl Written for Refusal {
    fn write<W: fmt::Write>(&self, f: &mut fmt::Formatter<W>) -> fmt::Result {
        match self {
            Refusal::Schema(error) => error.write(f),
            _ => write!(f, "refuse {}", self.number()),
        }
    }
}

impl Written for Ordering {
    fn write<W: fmt::Write>(&self, f: &mut fmt::Formatter<W>) -> fmt::Result {
        match self {
            Ordering::Less => write!(f, "Less"),
            Ordering::Equal => write!(f, "Equal"),
            Ordering::Greater => write!(f, "Greater"),
        }
    }
}

impl fmt::Display for Answer {
    fn fmt<W: fmt::Write>(&self, f: &mut fmt::Formatter<W>) -> fmt::Result {
        match self {
            Answer::Passed => write!(f, "ok"),
            Answer::Plan => write!(f, "err Plan"),
            Answer::Refused(refusal) => refusal.write(f),
            Answer::Flag(flag) => flag.write(f),
            Answer::Flags(left, right) => {
                left.write(f)?;
                write!(f, " ")?;
                right.write(f)
            }
            Answer::JoinType(join_type) => write!(f, "{join_type}"),
            Answer::Order(order) => order.write(f),
            Answer::FullName(name) => name.write(f),
            Answer::Position(position) => optional(position, f),
            Answer::Positions(positions) => list(positions.as_slice(), f),
            Answer::Columns(columns) => optional(columns, f),
            Answer::Keys(keys) => optional(keys, f),
            Answer::Dependencies(dependencies) => dependencies.write(f),
            Answer::Field(field) => {
                write!(f, "ok ")?;
                field.write(f)
            }
            Answer::Schema(schema) => {
                write!(f, "ok ")?;
                schema.write(f)
            }
            Answer::Merged(schema) => schema.write(f),
        }
    }
}
