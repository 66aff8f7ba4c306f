use columns::column_list::ColumnList;
use constraints::constraints::{Constraint, Constraints};
use dependencies::functional_dependencies::{
    Dependency, FunctionalDependence, FunctionalDependencies,
};
use names::error::Refusal;
use std::test::Fail;

fn primary(column: u16) -> Result<Constraint, Refusal> {
    Ok(Constraint::PrimaryKey(ColumnList::new(&[column])?))
}

fn unique(column: u16) -> Result<Constraint, Refusal> {
    Ok(Constraint::Unique(ColumnList::new(&[column])?))
}

fn from_keys(keys: Option<Constraints>, width: usize) -> Result<FunctionalDependencies, Refusal> {
    FunctionalDependencies::new_from_constraints(keys.as_ref(), width)
}

#[test]
fn a_list_of_64_keys_is_taken_and_of_65_refused(rt: HostRuntime) -> Result<(), Fail> {
    let key = primary(65535)?;
    assert!(rt; Constraints::new_unverified(&[])?.as_slice().is_empty());
    assert_eq!(rt;
        Constraints::new_unverified(&[key; 64])?.as_slice().len(),
        64
    );
    assert_eq!(rt;
        Constraints::new_unverified(&[key; 65]).err(),
        Some(Refusal::Oversize)
    );
    Ok(())
}

#[test]
fn keys_are_extended_to_64_in_order(rt: HostRuntime) -> Result<(), Fail> {
    let mut keys = Constraints::new_unverified(&[primary(0)?])?;
    keys.extend(&Constraints::new_unverified(&[unique(1)?, unique(2)?])?)?;
    assert!(rt; keys == Constraints::new_unverified(&[primary(0)?, unique(1)?, unique(2)?])?);
    keys.extend(&Constraints::new_unverified(&[unique(3)?; 61])?)?;
    assert_eq!(rt; keys.as_slice().len(), 64);
    let before = keys;
    keys.extend(&Constraints::new_unverified(&[])?)?;
    assert!(rt; keys == before);
    Ok(())
}

#[test]
fn keys_over_64_are_refused_and_nothing_changes(rt: HostRuntime) -> Result<(), Fail> {
    let one = Constraints::new_unverified(&[primary(0)?])?;
    let full = Constraints::new_unverified(&[unique(1)?; 64])?;
    let mut keys = full;
    assert_eq!(rt; keys.extend(&one).err(), Some(Refusal::Oversize));
    assert!(rt; keys == full);
    let mut keys = one;
    assert_eq!(rt; keys.extend(&full).err(), Some(Refusal::Oversize));
    assert!(rt; keys == one);
    let mut keys = full;
    assert_eq!(rt; keys.extend(&full).err(), Some(Refusal::Oversize));
    assert!(rt; keys == full);
    Ok(())
}

#[test]
fn no_list_of_keys_gives_no_dependency(rt: HostRuntime) -> Result<(), Fail> {
    let none = Constraints::new_unverified(&[])?;
    for width in [0, 1, 64] {
        assert_eq!(rt; from_keys(None, width)?.len(), 0);
        assert_eq!(rt; from_keys(Some(none), width)?.len(), 0);
    }
    Ok(())
}

#[test]
fn a_width_over_64_is_refused_with_and_without_keys(rt: HostRuntime) -> Result<(), Fail> {
    let none = Constraints::new_unverified(&[])?;
    let some = Constraints::new_unverified(&[primary(0)?])?;
    let many = Constraints::new_unverified(&[primary(0)?; 33])?;
    assert_eq!(rt; from_keys(Some(some), 64)?.len(), 1);
    for width in [65, usize::MAX] {
        assert_eq!(rt; from_keys(None, width).err(), Some(Refusal::Oversize));
        assert_eq!(rt; from_keys(Some(none), width).err(), Some(Refusal::Oversize));
        assert_eq!(rt; from_keys(Some(some), width).err(), Some(Refusal::Oversize));
        assert_eq!(rt; from_keys(Some(many), width).err(), Some(Refusal::Oversize));
    }
    Ok(())
}

#[test]
fn a_set_takes_32_keys_and_refuses_33(rt: HostRuntime) -> Result<(), Fail> {
    let keys = Constraints::new_unverified(&[unique(0)?; 32])?;
    assert_eq!(rt; from_keys(Some(keys), 64)?.len(), 32);
    assert_eq!(rt; from_keys(Some(keys), 0)?.len(), 32);
    let keys = Constraints::new_unverified(&[unique(0)?; 33])?;
    assert_eq!(rt; from_keys(Some(keys), 64).err(), Some(Refusal::Oversize));
    assert_eq!(rt; from_keys(Some(keys), 0).err(), Some(Refusal::Oversize));
    Ok(())
}

#[test]
fn each_key_gives_one_single_dependency_on_all_columns(rt: HostRuntime) -> Result<(), Fail> {
    let keys = Constraints::new_unverified(&[unique(1)?, primary(0)?])?;
    let set = from_keys(Some(keys), 64)?;
    let all = ColumnList::all(64)?;
    let first = FunctionalDependence::new(ColumnList::new(&[1])?, all, true);
    let second = FunctionalDependence::new(ColumnList::new(&[0])?, all, false);
    let expected = [
        first.with_mode(Dependency::Single),
        second.with_mode(Dependency::Single),
    ];
    assert!(rt; set == FunctionalDependencies::new(&expected)?);
    Ok(())
}
