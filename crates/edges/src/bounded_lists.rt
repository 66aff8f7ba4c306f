use bounded::list::Bounded;
use bounded::ops::Full;
use std::test::Fail;

// A list of three places that is full.
fn three() -> Result<Bounded<u16, 3>, Full> {
    Bounded::from_slice(0, &[65535, 0, 65535])
}

#[test]
fn a_push_to_a_full_list_answers_full_and_changes_nothing(rt: HostRuntime) -> Result<(), Fail> {
    let mut list: Bounded<u16, 3> = Bounded::new(0);
    for x in 1..4 {
        list.push(x)?;
    }
    assert!(rt; !list.is_empty());
    assert_eq!(rt; list.push(4), Err(Full));
    assert_eq!(rt; list.len(), 3);
    assert_eq!(rt; list.as_slice(), &[1, 2, 3][..]);
    Ok(())
}

#[test]
fn get_answers_none_past_the_end(rt: HostRuntime) -> Result<(), Fail> {
    let mut list = three()?;
    assert_eq!(rt; list.get(0), Some(65535));
    assert_eq!(rt; list.get(2), Some(65535));
    assert_eq!(rt; list.get(3), None);
    assert_eq!(rt; list.get(usize::MAX), None);
    list.truncate(1);
    assert_eq!(rt; list.get(0), Some(65535));
    assert_eq!(rt; list.get(1), None, "a place that holds a value no more");
    Ok(())
}

#[test]
fn set_past_the_end_answers_false_and_stores_nothing(rt: HostRuntime) -> Result<(), Fail> {
    let mut list = three()?;
    assert!(rt; list.set(2, 5));
    assert_eq!(rt; list.as_slice(), &[65535, 0, 5][..]);
    assert!(rt; !list.set(3, 6));
    assert!(rt; !list.set(usize::MAX, 6));
    assert_eq!(rt; list.as_slice(), &[65535, 0, 5][..]);
    list.truncate(2);
    assert!(rt; !list.set(2, 6), "a place that holds a value no more");
    assert_eq!(rt; list.as_slice(), &[65535, 0][..]);
    Ok(())
}

#[test]
fn extend_fills_the_list_exactly_or_changes_nothing(rt: HostRuntime) -> Result<(), Fail> {
    let mut list = Bounded::<u16, 3>::from_slice(0, &[1])?;
    assert_eq!(rt; list.extend_from_slice(&[2, 3, 4]), Err(Full));
    assert_eq!(rt; list.as_slice(), &[1][..], "one over");
    assert_eq!(rt; list.extend_from_slice(&[2, 3]), Ok(()));
    assert_eq!(rt; list.as_slice(), &[1, 2, 3][..], "exactly full");
    assert_eq!(rt;
        list.extend_from_slice(&[]),
        Ok(()),
        "nothing to a full list"
    );
    assert_eq!(rt; list.extend_from_slice(&[4]), Err(Full));
    assert_eq!(rt; list.as_slice(), &[1, 2, 3][..]);
    Ok(())
}

#[test]
fn a_slice_of_the_size_is_taken_and_of_one_more_refused(rt: HostRuntime) -> Result<(), Fail> {
    assert!(rt; Bounded::<u16, 3>::from_slice(0, &[])?.is_empty());
    assert_eq!(rt;
        Bounded::<u16, 3>::from_slice(0, &[3, 2, 1])?.as_slice(),
        &[3, 2, 1][..]
    );
    assert_eq!(rt;
        Bounded::<u16, 3>::from_slice(0, &[4, 3, 2, 1]).err(),
        Some(Full)
    );
    Ok(())
}
