use columns::column_list::ColumnList;
use dependencies::functional_dependencies::{FunctionalDependence, FunctionalDependencies};
use names::error::Refusal;

// One source and one target.
pub fn pair(source: u16, target: u16, nullable: bool) -> Result<FunctionalDependence, Refusal> {
    let sources = ColumnList::new(&[source])?;
    let targets = ColumnList::new(&[target])?;
    Ok(FunctionalDependence::new(sources, targets, nullable))
}

// No source and one target.
pub fn constant(target: u16) -> Result<FunctionalDependence, Refusal> {
    let targets = ColumnList::new(&[target])?;
    Ok(FunctionalDependence::new(ColumnList::empty(), targets, false))
}

// The dependency at the end, as often as asked.
pub fn add(
    set: &mut FunctionalDependencies,
    dependence: FunctionalDependence,
    count: usize,
) -> Result<(), Refusal> {
    for _ in 0..count {
        set.push(dependence)?;
    }
    Ok(())
}

// The dependency as often as asked, and nothing else.
pub fn times(
    dependence: FunctionalDependence,
    count: usize,
) -> Result<FunctionalDependencies, Refusal> {
    let mut set = FunctionalDependencies::empty();
    add(&mut set, dependence, count)?;
    Ok(set)
}
