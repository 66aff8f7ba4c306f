use crate::samples::{pair, times};
use columns::column_list::ColumnList;
use constraints::constraints::{Constraint, Constraints};
use dependencies::functional_dependencies::{
    Dependency, FunctionalDependence, FunctionalDependencies,
};
use names::error::Refusal;
use std::test::Fail;

#[test]
fn a_key_on_two_columns_is_dropped_where_one_is_missing(rt: HostRuntime) -> Result<(), Fail> {
    let key = Constraint::PrimaryKey(ColumnList::new(&[0, 1])?);
    let keys = Constraints::new_unverified(&[key])?;
    let onto = ColumnList::new(&[0, 2])?;
    assert!(rt; keys.project(&onto).is_none());
    let set = FunctionalDependencies::new_from_constraints(Some(&keys), 3)?;
    assert_eq!(rt; set.project_functional_dependencies(&onto, 2)?.len(), 0);
    assert!(rt; keys.project(&ColumnList::new(&[1, 0])?).is_some());
    Ok(())
}

#[test]
fn columns_become_their_first_places_and_missing_targets_are_left_out(
    rt: HostRuntime,
) -> Result<(), Fail> {
    let sources = ColumnList::new(&[5])?;
    let targets = ColumnList::new(&[5, 7, 8])?;
    let set = times(FunctionalDependence::new(sources, targets, false), 1)?;
    let placed = set.project_functional_dependencies(&ColumnList::new(&[2, 5, 8, 5])?, 4)?;
    let sources = ColumnList::new(&[1])?;
    let targets = ColumnList::new(&[1, 2])?;
    assert!(rt; placed == times(FunctionalDependence::new(sources, targets, false), 1)?);
    Ok(())
}

#[test]
fn an_output_width_of_64_is_taken_and_of_65_refused(rt: HostRuntime) -> Result<(), Fail> {
    let none = ColumnList::empty();
    let mut set = times(pair(0, 1, false)?, 1)?;
    let before = set;
    assert_eq!(rt; set.project_functional_dependencies(&none, 64)?.len(), 0);
    assert_eq!(rt;
        set.project_functional_dependencies(&none, 65).err(),
        Some(Refusal::Oversize)
    );
    assert_eq!(rt; set.extend_target_indices(65), Err(Refusal::Oversize));
    assert!(rt; set == before);
    set.extend_target_indices(64)?;
    assert!(rt; set == before, "a key that may repeat covers nothing more");
    Ok(())
}

#[test]
fn a_single_key_covers_all_columns(rt: HostRuntime) -> Result<(), Fail> {
    let one = pair(0, 1, false)?.with_mode(Dependency::Single);
    let mut set = times(one, 1)?;
    set.extend_target_indices(3)?;
    let all = FunctionalDependence::new(ColumnList::new(&[0])?, ColumnList::all(3)?, false);
    assert!(rt; set == times(all.with_mode(Dependency::Single), 1)?);
    Ok(())
}

#[test]
fn the_last_column_is_valid_and_the_width_is_not(rt: HostRuntime) -> Result<(), Fail> {
    let set = times(pair(63, 0, false)?, 32)?;
    assert_eq!(rt; set.is_valid(64)?, true);
    assert_eq!(rt; set.is_valid(63)?, false);
    assert_eq!(rt; set.is_valid(65), Err(Refusal::Oversize));
    assert_eq!(rt; FunctionalDependencies::empty().is_valid(0)?, true);
    assert_eq!(rt;
        FunctionalDependencies::empty().is_valid(65),
        Err(Refusal::Oversize)
    );
    Ok(())
}
