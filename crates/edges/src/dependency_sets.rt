use crate::samples::{constant, pair, times};
use columns::column_list::ColumnList;
use dependencies::functional_dependencies::{
    Dependency, FunctionalDependence, FunctionalDependencies,
};
use names::error::Refusal;
use std::test::Fail;

#[test]
fn a_set_of_32_is_taken_and_of_33_refused(rt: HostRuntime) -> Result<(), Fail> {
    let dependence = pair(0, 65535, true)?;
    assert_eq!(rt; FunctionalDependencies::empty().len(), 0);
    assert!(rt; FunctionalDependencies::new(&[])? == FunctionalDependencies::empty());
    let full = FunctionalDependencies::new(&[dependence; 32])?;
    assert_eq!(rt; full.len(), 32);
    assert_eq!(rt; full.as_slice().len(), 32);
    assert!(rt; full == times(dependence, 32)?);
    assert_eq!(rt;
        FunctionalDependencies::new(&[dependence; 33]).err(),
        Some(Refusal::Oversize)
    );
    Ok(())
}

#[test]
fn the_33rd_push_is_refused_and_changes_nothing(rt: HostRuntime) -> Result<(), Fail> {
    let mut set = times(pair(0, 1, false)?, 32)?;
    let before = set;
    assert_eq!(rt; set.push(pair(2, 3, false)?).err(), Some(Refusal::Oversize));
    assert!(rt; set == before);
    assert_eq!(rt; set.len(), 32);
    Ok(())
}

#[test]
fn a_set_is_extended_to_32_in_order(rt: HostRuntime) -> Result<(), Fail> {
    let mut set = times(pair(0, 1, false)?, 1)?;
    set.extend(&times(pair(2, 3, true)?, 1)?)?;
    assert!(rt; set == FunctionalDependencies::new(&[pair(0, 1, false)?, pair(2, 3, true)?])?);
    set.extend(&times(pair(4, 5, false)?, 30)?)?;
    assert_eq!(rt; set.len(), 32);
    let before = set;
    set.extend(&FunctionalDependencies::empty())?;
    assert!(rt; set == before);
    Ok(())
}

#[test]
fn a_set_extended_over_32_is_refused_and_unchanged(rt: HostRuntime) -> Result<(), Fail> {
    let one = times(pair(0, 1, false)?, 1)?;
    let full = times(pair(2, 3, false)?, 32)?;
    let mut set = full;
    assert_eq!(rt; set.extend(&one).err(), Some(Refusal::Oversize));
    assert!(rt; set == full);
    let mut set = one;
    assert_eq!(rt; set.extend(&full).err(), Some(Refusal::Oversize));
    assert!(rt; set == one);
    let mut set = full;
    assert_eq!(rt; set.extend(&full).err(), Some(Refusal::Oversize));
    assert!(rt; set == full);
    Ok(())
}

#[test]
fn a_dependency_moves_both_lists_or_neither(rt: HostRuntime) -> Result<(), Fail> {
    let mut dependence = pair(65534, 0, true)?;
    dependence.add_offset(1)?;
    assert!(rt; dependence == pair(65535, 1, true)?);
    assert_eq!(rt;
        dependence.add_offset(1).err(),
        Some(Refusal::Overrun),
        "the source"
    );
    assert!(rt; dependence == pair(65535, 1, true)?);
    let mut dependence = pair(1, 65535, true)?;
    assert_eq!(rt;
        dependence.add_offset(1).err(),
        Some(Refusal::Overrun),
        "the target"
    );
    assert!(rt; dependence == pair(1, 65535, true)?);
    dependence.add_offset(0)?;
    assert!(rt; dependence == pair(1, 65535, true)?);
    Ok(())
}

#[test]
fn a_set_moves_all_its_dependencies_or_none(rt: HostRuntime) -> Result<(), Fail> {
    let mut set = FunctionalDependencies::new(&[pair(0, 1, false)?, pair(65534, 2, true)?])?;
    set.add_offset(1)?;
    let moved = FunctionalDependencies::new(&[pair(1, 2, false)?, pair(65535, 3, true)?])?;
    assert!(rt; set == moved);
    assert_eq!(rt;
        set.add_offset(1).err(),
        Some(Refusal::Overrun),
        "the second"
    );
    assert!(rt; set == moved);
    let turned = FunctionalDependencies::new(&[pair(3, 65535, true)?, pair(1, 2, false)?])?;
    let mut set = turned;
    assert_eq!(rt;
        set.add_offset(1).err(),
        Some(Refusal::Overrun),
        "the first"
    );
    assert!(rt; set == turned);
    set.add_offset(0)?;
    assert!(rt; set == turned);
    Ok(())
}

#[test]
fn a_full_set_whose_last_dependency_overruns_is_unchanged(rt: HostRuntime) -> Result<(), Fail> {
    let mut set = times(pair(0, 0, false)?, 31)?;
    set.push(constant(65472)?)?;
    let before = set;
    assert_eq!(rt; set.add_offset(64).err(), Some(Refusal::Overrun));
    assert!(rt; set == before);
    set.add_offset(63)?;
    let mut moved = times(pair(63, 63, false)?, 31)?;
    moved.push(constant(65535)?)?;
    assert!(rt; set == moved);
    Ok(())
}

#[test]
fn padding_keeps_what_has_sources_and_is_not_nullable(rt: HostRuntime) -> Result<(), Fail> {
    let single = pair(2, 65535, false)?.with_mode(Dependency::Single);
    let given = [pair(0, 1, true)?, single, constant(0)?, pair(3, 4, false)?];
    let mut set = FunctionalDependencies::new(&given)?;
    set.downgrade_dependencies();
    let kept = [
        pair(2, 65535, true)?.with_mode(Dependency::Single),
        pair(3, 4, true)?,
    ];
    assert!(rt; set == FunctionalDependencies::new(&kept)?);
    set.downgrade_dependencies();
    assert_eq!(rt; set.len(), 0, "padded twice, none stays");
    let mut set = times(pair(0, 1, false)?, 32)?;
    set.downgrade_dependencies();
    assert!(rt; set == times(pair(0, 1, true)?, 32)?);
    Ok(())
}
