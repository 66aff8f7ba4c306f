use join_type::{JOIN_TYPES, JoinType};

#[test]
fn swap_twice_gives_the_type_back(rt: HostRuntime) {
    for record in JOIN_TYPES {
        assert_eq!(rt; record.join_type.swap().swap(), record.join_type);
    }
}

#[test]
fn the_number_is_the_place_in_the_table(rt: HostRuntime) {
    assert_eq!(rt; JOIN_TYPES.len(), 10);
    for (place, record) in JOIN_TYPES.iter().enumerate() {
        assert_eq!(rt; usize::from(record.join_type.number()), place);
        assert_eq!(rt; record.join_type.record(), *record);
    }
}

#[test]
fn the_table_is_that_of_the_rules(rt: HostRuntime) {
    let rules = [
        (JoinType::Inner, JoinType::Inner, (true, true)),
        (JoinType::Left, JoinType::Right, (false, true)),
        (JoinType::Right, JoinType::Left, (true, false)),
        (JoinType::Full, JoinType::Full, (false, false)),
        (JoinType::LeftSemi, JoinType::RightSemi, (true, true)),
        (JoinType::RightSemi, JoinType::LeftSemi, (true, true)),
        (JoinType::LeftAnti, JoinType::RightAnti, (false, true)),
        (JoinType::RightAnti, JoinType::LeftAnti, (true, false)),
        (JoinType::LeftMark, JoinType::RightMark, (false, true)),
        (JoinType::RightMark, JoinType::LeftMark, (true, false)),
    ];
    for (place, (join_type, swap, preserved)) in rules.iter().enumerate() {
        assert_eq!(rt; usize::from(join_type.number()), place);
        assert_eq!(rt; join_type.swap(), *swap);
        assert_eq!(rt; join_type.on_lr_is_preserved(), *preserved);
    }
}
