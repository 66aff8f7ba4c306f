use crate::samples::{add, constant, pair, times};
use columns::column_list::ColumnList;
use constraints::constraints::{Constraint, Constraints};
use dependencies::functional_dependencies::{
    Dependency, FunctionalDependence, FunctionalDependencies,
};
use join_type::{JOIN_TYPES, JoinType};
use names::error::Refusal;
use std::test::Fail;

// The types whose joins take dependencies from both sides.
const BOTH_SIDES: [JoinType; 3] = [JoinType::Inner, JoinType::Left, JoinType::Right];

// Why the join is refused; none where it is answered.
fn refusal(
    left: &FunctionalDependencies,
    right: &FunctionalDependencies,
    join_type: JoinType,
    left_width: usize,
) -> Option<Refusal> {
    left.join(right, join_type, left_width).err()
}

// Of events with the primary key 0 and two columns.
fn events() -> Result<FunctionalDependencies, Refusal> {
    let key = Constraint::PrimaryKey(ColumnList::new(&[0])?);
    FunctionalDependencies::new_from_constraints(Some(&Constraints::new_unverified(&[key])?), 2)
}

// Twenty dependencies of which padding keeps those asked for; the others are nullable or have no source.
fn twenty(kept: usize) -> Result<FunctionalDependencies, Refusal> {
    let mut set = times(constant(0)?, 4)?;
    add(&mut set, pair(0, 1, false)?, kept)?;
    add(&mut set, pair(0, 1, true)?, 16usize.saturating_sub(kept))?;
    Ok(set)
}

// One dependency of one source and one target.
fn alone(source: u16, target: u16, nullable: bool) -> Result<FunctionalDependencies, Refusal> {
    times(pair(source, target, nullable)?, 1)
}

#[test]
fn a_left_width_of_64_is_taken_and_of_65_refused_in_every_type(
    rt: HostRuntime,
) -> Result<(), Fail> {
    let some = times(pair(0, 1, false)?, 1)?;
    let none = FunctionalDependencies::empty();
    for record in JOIN_TYPES {
        assert_eq!(rt; refusal(&some, &some, record.join_type, 64), None);
        assert_eq!(rt; refusal(&none, &none, record.join_type, 64), None);
        for width in [65, usize::MAX] {
            let oversize = Some(Refusal::Oversize);
            assert_eq!(rt; refusal(&some, &some, record.join_type, width), oversize);
            assert_eq!(rt; refusal(&none, &none, record.join_type, width), oversize);
        }
    }
    Ok(())
}

#[test]
fn an_inner_join_of_32_is_taken_and_of_33_refused(rt: HostRuntime) -> Result<(), Fail> {
    let left = twenty(16)?;
    let right = times(pair(0, 1, true)?, 12)?;
    assert_eq!(rt; left.join(&right, JoinType::Inner, 2)?.len(), 32);
    assert_eq!(rt; right.join(&left, JoinType::Inner, 2)?.len(), 32);
    let right = times(pair(0, 1, true)?, 13)?;
    assert_eq!(rt;
        refusal(&left, &right, JoinType::Inner, 2),
        Some(Refusal::Oversize)
    );
    assert_eq!(rt;
        refusal(&right, &left, JoinType::Inner, 2),
        Some(Refusal::Oversize)
    );
    Ok(())
}

#[test]
fn what_padding_drops_does_not_count(rt: HostRuntime) -> Result<(), Fail> {
    let all_lost = twenty(0)?;
    let kept_12 = twenty(12)?;
    let kept_13 = twenty(13)?;
    let oversize = Some(Refusal::Oversize);
    assert!(rt; all_lost.len() == 20 && kept_12.len() == 20 && kept_13.len() == 20);
    assert_eq!(rt; all_lost.join(&kept_12, JoinType::Left, 2)?.len(), 32);
    assert_eq!(rt; refusal(&all_lost, &kept_13, JoinType::Left, 2), oversize);
    assert_eq!(rt; kept_12.join(&all_lost, JoinType::Right, 2)?.len(), 32);
    assert_eq!(rt; refusal(&kept_13, &all_lost, JoinType::Right, 2), oversize);
    assert_eq!(rt; refusal(&all_lost, &kept_12, JoinType::Inner, 2), oversize);
    Ok(())
}

#[test]
fn the_right_side_is_moved_up_to_65535_and_not_beyond(rt: HostRuntime) -> Result<(), Fail> {
    let none = FunctionalDependencies::empty();
    let last = alone(65535, 65535, false)?;
    let overrun = Some(Refusal::Overrun);
    for join_type in BOTH_SIDES {
        let nullable = join_type == JoinType::Left;
        let moved = none.join(&alone(65471, 0, false)?, join_type, 64)?;
        assert!(rt; moved == alone(65535, 64, nullable)?);
        assert_eq!(rt;
            refusal(&none, &alone(65472, 0, false)?, join_type, 64),
            overrun
        );
        assert_eq!(rt;
            refusal(&none, &alone(0, 65472, false)?, join_type, 64),
            overrun
        );
        assert_eq!(rt; refusal(&none, &last, join_type, 1), overrun);
        assert!(rt; none.join(&last, join_type, 0)? == alone(65535, 65535, nullable)?);
    }
    Ok(())
}

#[test]
fn only_what_stays_can_overrun(rt: HostRuntime) -> Result<(), Fail> {
    let none = FunctionalDependencies::empty();
    let nullable = times(pair(65535, 0, true)?, 1)?;
    let sourceless = times(constant(65535)?, 1)?;
    let keyed = times(pair(65535, 0, false)?, 1)?;
    assert_eq!(rt; none.join(&nullable, JoinType::Left, 1)?.len(), 0);
    assert_eq!(rt; none.join(&sourceless, JoinType::Left, 1)?.len(), 0);
    assert_eq!(rt;
        refusal(&none, &keyed, JoinType::Left, 1),
        Some(Refusal::Overrun)
    );
    for join_type in [JoinType::Inner, JoinType::Right] {
        assert_eq!(rt;
            refusal(&none, &nullable, join_type, 1),
            Some(Refusal::Overrun)
        );
        assert_eq!(rt;
            refusal(&none, &sourceless, join_type, 1),
            Some(Refusal::Overrun)
        );
        assert_eq!(rt;
            refusal(&none, &keyed, join_type, 1),
            Some(Refusal::Overrun)
        );
    }
    Ok(())
}

#[test]
fn oversize_is_told_before_overrun(rt: HostRuntime) -> Result<(), Fail> {
    let full = times(pair(0, 1, false)?, 32)?;
    let last = times(pair(65535, 0, false)?, 1)?;
    let oversize = Some(Refusal::Oversize);
    let mut at_front = last;
    add(&mut at_front, pair(0, 1, false)?, 31)?;
    let mut at_end = times(pair(0, 1, false)?, 31)?;
    at_end.extend(&last)?;
    for join_type in BOTH_SIDES {
        assert_eq!(rt; refusal(&full, &last, join_type, 1), oversize);
        assert_eq!(rt; refusal(&full, &at_front, join_type, 1), oversize);
        assert_eq!(rt; refusal(&full, &at_end, join_type, 1), oversize);
        assert_eq!(rt; refusal(&last, &at_front, join_type, 1), oversize);
        assert_eq!(rt; refusal(&last, &at_end, join_type, 65), oversize);
        assert_eq!(rt;
            refusal(&FunctionalDependencies::empty(), &last, join_type, 65),
            oversize
        );
    }
    Ok(())
}

#[test]
fn both_sides_stay_as_they_were(rt: HostRuntime) -> Result<(), Fail> {
    let left_before = twenty(12)?;
    let right_before = events()?;
    let left = left_before;
    let right = right_before;
    for record in JOIN_TYPES {
        for width in [0, 64, 65] {
            let _ = left.join(&right, record.join_type, width);
            assert!(rt; left == left_before);
            assert!(rt; right == right_before);
        }
    }
    Ok(())
}

#[test]
fn events_with_windows_keep_their_key_as_multi(rt: HostRuntime) -> Result<(), Fail> {
    let events = events()?;
    let windows = FunctionalDependencies::empty();
    let dependence = FunctionalDependence::new(ColumnList::new(&[0])?, ColumnList::all(2)?, false);
    let multi = FunctionalDependencies::new(&[dependence])?;
    assert!(rt; events.join(&windows, JoinType::Inner, 2)? == multi);
    assert!(rt; events.join(&windows, JoinType::Left, 2)? == multi);
    assert_eq!(rt; events.join(&windows, JoinType::Full, 2)?.len(), 0);
    assert!(rt; events.join(&windows, JoinType::LeftSemi, 2)? == events);
    assert_eq!(rt; events.join(&windows, JoinType::RightSemi, 2)?.len(), 0);
    Ok(())
}

#[test]
fn windows_with_events_move_the_key_by_three(rt: HostRuntime) -> Result<(), Fail> {
    let windows = FunctionalDependencies::empty();
    let sources = ColumnList::new(&[3])?;
    let targets = ColumnList::new(&[3, 4])?;
    let nullable = FunctionalDependence::new(sources, targets, true);
    let kept = FunctionalDependence::new(sources, targets, false);
    let left = windows.join(&events()?, JoinType::Left, 3)?;
    assert!(rt; left == FunctionalDependencies::new(&[nullable])?);
    let inner = windows.join(&events()?, JoinType::Inner, 3)?;
    assert!(rt; inner == FunctionalDependencies::new(&[kept])?);
    let right = windows.join(&events()?, JoinType::Right, 3)?;
    assert!(rt; right == FunctionalDependencies::new(&[kept])?);
    assert!(rt; windows.join(&events()?, JoinType::RightAnti, 3)? == events()?);
    Ok(())
}

#[test]
fn the_padded_side_loses_what_has_no_source(rt: HostRuntime) -> Result<(), Fail> {
    let fixed = times(constant(0)?, 1)?;
    let moved = times(constant(2)?, 1)?;
    assert!(rt; fixed.join(&fixed, JoinType::Left, 2)? == fixed);
    assert!(rt; fixed.join(&fixed, JoinType::Right, 2)? == moved);
    let both = FunctionalDependencies::new(&[constant(0)?, constant(2)?])?;
    assert!(rt; fixed.join(&fixed, JoinType::Inner, 2)? == both);
    Ok(())
}
