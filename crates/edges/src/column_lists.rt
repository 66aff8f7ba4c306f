use columns::column_list::ColumnList;
use names::error::Refusal;
use std::test::Fail;

#[test]
fn a_list_of_64_columns_is_taken_and_of_65_refused(rt: HostRuntime) -> Result<(), Fail> {
    assert!(rt; ColumnList::empty().is_empty());
    assert!(rt; ColumnList::new(&[])? == ColumnList::empty());
    let full = ColumnList::new(&[65535; 64])?;
    assert_eq!(rt; full.len(), 64);
    assert_eq!(rt; full.as_slice(), &[65535; 64][..]);
    assert_eq!(rt;
        ColumnList::new(&[65535; 65]).err(),
        Some(Refusal::Oversize)
    );
    Ok(())
}

#[test]
fn the_65th_push_is_refused_and_changes_nothing(rt: HostRuntime) -> Result<(), Fail> {
    let mut list = ColumnList::empty();
    for column in 65472..=65535 {
        list.push(column)?;
    }
    let before = list;
    assert_eq!(rt; list.push(0).err(), Some(Refusal::Oversize));
    assert!(rt; list == before);
    assert_eq!(rt; list.len(), 64);
    assert_eq!(rt; list.as_slice().last().copied(), Some(65535));
    Ok(())
}

#[test]
fn all_columns_are_0_to_63_at_the_most(rt: HostRuntime) -> Result<(), Fail> {
    assert!(rt; ColumnList::all(0)?.is_empty());
    assert_eq!(rt; ColumnList::all(1)?.as_slice(), &[0][..]);
    let all = ColumnList::all(64)?;
    assert_eq!(rt; all.len(), 64);
    for (place, column) in all.as_slice().iter().enumerate() {
        assert_eq!(rt; usize::from(*column), place);
    }
    assert_eq!(rt; ColumnList::all(65).err(), Some(Refusal::Oversize));
    assert_eq!(rt; ColumnList::all(usize::MAX).err(), Some(Refusal::Oversize));
    Ok(())
}

#[test]
fn the_position_of_a_column_is_the_least(rt: HostRuntime) -> Result<(), Fail> {
    let list = ColumnList::new(&[65535, 0, 7, 0, 65535])?;
    assert_eq!(rt; list.position(65535), Some(0));
    assert_eq!(rt; list.position(0), Some(1));
    assert_eq!(rt; list.position(7), Some(2));
    assert_eq!(rt; list.position(65534), None);
    assert_eq!(rt; ColumnList::all(64)?.position(63), Some(63));
    assert_eq!(rt; ColumnList::all(64)?.position(64), None);
    assert_eq!(rt; ColumnList::empty().position(0), None);
    Ok(())
}

#[test]
fn offset_1_raises_65534_and_not_65535(rt: HostRuntime) -> Result<(), Fail> {
    let mut list = ColumnList::new(&[65534, 0])?;
    list.add_offset(1)?;
    assert_eq!(rt; list.as_slice(), &[65535, 1][..]);
    assert_eq!(rt; list.add_offset(1).err(), Some(Refusal::Overrun));
    assert_eq!(rt; list.as_slice(), &[65535, 1][..]);
    list.add_offset(0)?;
    assert_eq!(rt; list.as_slice(), &[65535, 1][..]);
    Ok(())
}

#[test]
fn a_list_whose_last_column_overruns_is_left_as_a_whole(rt: HostRuntime) -> Result<(), Fail> {
    let mut columns = [0; 64];
    columns[63] = 65535;
    let mut list = ColumnList::new(&columns)?;
    assert_eq!(rt; list.add_offset(1).err(), Some(Refusal::Overrun));
    assert_eq!(rt; list.as_slice(), &columns[..]);
    columns[63] = 65534;
    let mut list = ColumnList::new(&columns)?;
    list.add_offset(1)?;
    assert_eq!(rt; list.as_slice().first().copied(), Some(1));
    assert_eq!(rt; list.as_slice().last().copied(), Some(65535));
    Ok(())
}

#[test]
fn the_largest_offsets_overrun_all_but_the_empty_list(rt: HostRuntime) -> Result<(), Fail> {
    let mut list = ColumnList::new(&[0])?;
    for offset in [65536, 65537, 131072, usize::MAX] {
        assert_eq!(rt; list.add_offset(offset).err(), Some(Refusal::Overrun));
        assert_eq!(rt; list.as_slice(), &[0][..]);
    }
    list.add_offset(65535)?;
    assert_eq!(rt; list.as_slice(), &[65535][..]);
    let mut list = ColumnList::empty();
    list.add_offset(usize::MAX)?;
    assert!(rt; list.is_empty());
    Ok(())
}
