use crate::relation::Relation;
use columns::column_list::ColumnList;
use dependencies::functional_dependencies::{Dependency, FunctionalDependence};
use names::column::Column;
use std::fmt;

// The columns by name, or by number where there is no such column.
fn listed<W: fmt::Write>(
    columns: &[Column],
    list: &ColumnList,
    f: &mut fmt::Formatter<W>,
) -> fmt::Result {
    for (i, number) in list.as_slice().iter().enumerate() {
        if i > 0 {
            write!(f, ", ")?;
        }
        match columns.get(usize::from(*number)) {
            Some(column) => write!(f, "{column}")?,
            None => write!(f, "column {number}")?,
        }
    }
    Ok(())
}

// One dependency: which columns fix which, how often the first occur, and whether they may be null.
fn in_words<W: fmt::Write>(
    columns: &[Column],
    dependence: &FunctionalDependence,
    f: &mut fmt::Formatter<W>,
) -> fmt::Result {
    listed(columns, dependence.source_indices(), f)?;
    write!(f, " fixes ")?;
    listed(columns, dependence.target_indices(), f)?;
    let often = match dependence.mode() {
        Dependency::Single => "unique",
        Dependency::Multi => "possibly repeated",
    };
    let null = if dependence.nullable() {
        "nullable"
    } else {
        "not nullable"
    };
    write!(f, ": {often}, {null}")
}

impl fmt::Display for Relation {
    fn fmt<W: fmt::Write>(&self, f: &mut fmt::Formatter<W>) -> fmt::Result {
        write!(f, "  columns: ")?;
        for (i, column) in self.columns.as_slice().iter().enumerate() {
            if i > 0 {
                write!(f, ", ")?;
            }
            write!(f, "{column}")?;
        }
        writeln!(f, "")?;
        if self.dependencies.as_slice().is_empty() {
            writeln!(f, "  no columns fix others")?;
        }
        for dependence in self.dependencies.as_slice() {
            write!(f, "  ")?;
            in_words(self.columns.as_slice(), dependence, f)?;
            writeln!(f, "")?;
        }
        Ok(())
    }
}
