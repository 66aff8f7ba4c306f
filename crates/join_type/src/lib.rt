#![tactic(auto)]

ghost use Rattle.std.specs.Prelude.{◌≡◌, true};
ghost use Rattle.join_type.specs.Table.{record_of, name_of, number_of, Ruled, ruled};

use std::fmt;

/// How a join combines the rows of its two sides.
#[derive(Clone, Copy, PartialEq, Eq, Debug)]
pub enum JoinType {
    Inner,
    Left,
    Right,
    Full,
    LeftSemi,
    RightSemi,
    LeftAnti,
    RightAnti,
    LeftMark,
    RightMark,
}

/// What is known of one join type.
#[derive(Clone, Copy, PartialEq, Eq, Debug)]
pub struct JoinRecord {
    pub join_type: JoinType,
    /// The type of the join with its sides exchanged.
    pub swap: JoinType,
    /// Whether unmatched rows are padded with nulls.
    pub outer: bool,
    /// Whether a filter of the condition may be pushed below the left side.
    pub left_preserved: bool,
    /// Whether a filter of the condition may be pushed below the right side.
    pub right_preserved: bool,
    /// Whether the result is empty where the build side, the left one, is.
    pub empty_build_side: bool,
    /// Whether the result is empty where no row of the build side can match.
    pub empty_map: bool,
}

// A table: its rules are checked once over the whole of it.
/// The ten join types, each at its own number.
pub const JOIN_TYPES: [JoinRecord; 10] = [
    JoinRecord {
        join_type: JoinType::Inner,
        swap: JoinType::Inner,
        outer: false,
        left_preserved: true,
        right_preserved: true,
        empty_build_side: true,
        empty_map: true,
    },
    JoinRecord {
        join_type: JoinType::Left,
        swap: JoinType::Right,
        outer: true,
        left_preserved: false,
        right_preserved: true,
        empty_build_side: true,
        empty_map: false,
    },
    JoinRecord {
        join_type: JoinType::Right,
        swap: JoinType::Left,
        outer: true,
        left_preserved: true,
        right_preserved: false,
        empty_build_side: false,
        empty_map: false,
    },
    JoinRecord {
        join_type: JoinType::Full,
        swap: JoinType::Full,
        outer: true,
        left_preserved: false,
        right_preserved: false,
        empty_build_side: false,
        empty_map: false,
    },
    JoinRecord {
        join_type: JoinType::LeftSemi,
        swap: JoinType::RightSemi,
        outer: false,
        left_preserved: true,
        right_preserved: true,
        empty_build_side: true,
        empty_map: true,
    },
    JoinRecord {
        join_type: JoinType::RightSemi,
        swap: JoinType::LeftSemi,
        outer: false,
        left_preserved: true,
        right_preserved: true,
        empty_build_side: true,
        empty_map: true,
    },
    JoinRecord {
        join_type: JoinType::LeftAnti,
        swap: JoinType::RightAnti,
        outer: false,
        left_preserved: false,
        right_preserved: true,
        empty_build_side: true,
        empty_map: false,
    },
    JoinRecord {
        join_type: JoinType::RightAnti,
        swap: JoinType::LeftAnti,
        outer: false,
        left_preserved: true,
        right_preserved: false,
        empty_build_side: false,
        empty_map: false,
    },
    JoinRecord {
        join_type: JoinType::LeftMark,
        swap: JoinType::RightMark,
        outer: false,
        left_preserved: false,
        right_preserved: true,
        empty_build_side: true,
        empty_map: false,
    },
    JoinRecord {
        join_type: JoinType::RightMark,
        swap: JoinType::LeftMark,
        outer: false,
        left_preserved: true,
        right_preserved: false,
        empty_build_side: false,
        empty_map: false,
    },
];

impl JoinType {
    // a number, since the table is published with its places
    /// The place of the type in the table.
    pub fn number(self) -> u8
        ensures { result ≡ number_of self }
    {
        self as u8
    }

    pub fn record(self) -> JoinRecord
        ensures { result ≡ record_of self }
    {
        JOIN_TYPES[self as usize]
    }

    pub fn is_outer(self) -> bool
        ensures { result ≡ (record_of self).outer }
    {
        self.record().outer
    }

    /// The type of the join with its sides exchanged.
    pub fn swap(self) -> JoinType
        ensures value { result ≡ (record_of self).swap }
        ensures rules { Ruled self result }
    {
        self.record().swap
    }

    /// For the left and the right side, whether a filter of the condition may be pushed below it.
    pub fn on_lr_is_preserved(self) -> (bool, bool)
        ensures left { result.0 ≡ (record_of self).left_preserved }
        ensures right { result.1 ≡ (record_of self).right_preserved }
    {
        let record = self.record();
        (record.left_preserved, record.right_preserved)
    }

    /// Whether the sides of such a join can be exchanged: they can in every type.
    pub fn supports_swap(self) -> bool
        ensures { (result ≡ true) × ((record_of (record_of self).swap).swap ≡ self) }
    {
        self.swap().swap() == self
    }

    /// Whether an empty build side makes the result empty.
    pub fn empty_build_side_produces_empty_result(self) -> bool
        ensures { result ≡ (record_of self).empty_build_side }
    {
        self.record().empty_build_side
    }

    /// Whether a build side of which no row can match makes the result empty.
    pub fn empty_map_produces_empty_result(self) -> bool
        ensures value { result ≡ (record_of self).empty_map }
        ensures also_where_empty { result ≡ true → (record_of self).empty_build_side ≡ true }
    {
        self.record().empty_map
    }

    pub fn name(self) -> &'static str
        ensures { result.now ≡ name_of self }
    {
        match self {
            JoinType::Inner => "Inner",
            JoinType::Left => "Left",
            JoinType::Right => "Right",
            JoinType::Full => "Full",
            JoinType::LeftSemi => "LeftSemi",
            JoinType::RightSemi => "RightSemi",
            JoinType::LeftAnti => "LeftAnti",
            JoinType::RightAnti => "RightAnti",
            JoinType::LeftMark => "LeftMark",
            JoinType::RightMark => "RightMark",
        }
    }
}

/// The table keeps its rules, by one test over the constant itself; the answer is the number of its records.
pub fn table_rules() -> usize
    ensures { ruled JOIN_TYPES ≡ true }
{
    JOIN_TYPES.len()
}

impl fmt::Display for JoinType {
    fn fmt<W: fmt::Write>(&self, f: &mut fmt::Formatter<W>) -> fmt::Result {
        let name = self.name();
        write!(f, "{name}")
    }
}
