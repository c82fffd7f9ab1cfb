//! The cases.

use crate::step::Case;
use crate::step::Step::{
    self, Add, Back, Delete, Deleted, EmptyLost, Gone, Join, Lost, Lower, Mark, Put, Split,
};

/// Three runs at the front: `B` and `A` have no origins, and `C` stands before `B`.
const B: Step = Put(0, (0, 0), None, None, "B");

const A: Step = Put(0, (1, 0), None, None, "A");

const C: Step = Put(0, (3, 0), None, Some((0, 0)), "C");

/// A run of three units, and two runs of two units each, both between its first and second.
const ABC: Step = Put(0, (1, 0), None, None, "abc");

const XY: Step = Put(0, (2, 0), Some((1, 0)), Some((1, 1)), "xy");

const UV: Step = Put(0, (3, 0), Some((1, 0)), Some((1, 1)), "uv");

/// Runs without origins.
const A_BY_1: Step = Put(0, (1, 0), None, None, "a");

const N_BY_2: Step = Put(0, (2, 0), None, None, "n");

const R_BY_0: Step = Put(0, (0, 0), None, None, "r");

const R_BY_9: Step = Put(0, (9, 0), None, None, "r");

/// What stands behind the first of them.
const B_BEHIND_A: Step = Put(0, (1, 1), Some((1, 0)), None, "b");

/// Runs of client 5 before those of client 0 and of client 9.
const X_BEFORE_0: Step = Put(0, (5, 0), None, Some((0, 0)), "x");

const X_BEFORE_9: Step = Put(0, (5, 0), None, Some((9, 0)), "x");

/// A case in which no id is asked.
macro_rules! case {
    ($name:expr, $($step:expr),+ $(,)?) => {
        Case { name: $name, steps: &[$($step),+], ids: &[] }
    };
}

/// The cases in which runs are cut, and those in which nothing is scanned.
pub const CUTS: [Case; 19] = [
    Case {
        name: "a run is split at 2 and at 4",
        steps: &[
            Put(0, (1, 0), None, None, "abcdef"),
            Split((1, 2)),
            Split((1, 4)),
        ],
        ids: &[(1, 1), (1, 2), (1, 5), (1, 6)],
    },
    case!(
        "a deleted run is split at 2 and at 4",
        Put(0, (1, 0), None, None, "abcdef"),
        Delete((1, 0), 6),
        Split((1, 2)),
        Split((1, 4)),
    ),
    case!(
        "a span within a run is deleted",
        Put(0, (1, 0), None, None, "abcdef"),
        Delete((1, 2), 2),
    ),
    case!(
        "a span over the borders of runs is marked",
        Put(0, (1, 0), None, None, "abcdef"),
        Split((1, 2)),
        Split((1, 4)),
        Mark((1, 1), 4),
    ),
    case!(
        "a run goes into the middle of another",
        Put(0, (1, 0), None, None, "abcdef"),
        Put(0, (2, 0), Some((1, 2)), Some((1, 3)), "xy"),
    ),
    case!("two runs part one, the smaller client first", ABC, XY, UV),
    case!("two runs part one, the greater client first", ABC, UV, XY),
    case!(
        "the units behind the left origin are passed",
        ABC,
        Put(0, (2, 0), Some((1, 0)), None, "x"),
    ),
    case!(
        "the units behind the left origin are not passed",
        ABC,
        Put(0, (0, 0), Some((1, 0)), None, "x"),
    ),
    case!(
        "a right origin before the left one is never met",
        Put(0, (1, 0), None, None, "ab"),
        Put(0, (2, 0), Some((1, 1)), Some((1, 0)), "x"),
    ),
    Case {
        name: "a right origin in another list is absent",
        steps: &[
            A_BY_1,
            Put(1, (3, 0), None, None, "z"),
            Put(0, (2, 0), None, Some((3, 0)), "n"),
        ],
        ids: &[(2, 0), (3, 0)],
    },
    case!(
        "a left origin in another list is none of this one",
        A_BY_1,
        Put(1, (2, 0), Some((1, 0)), None, "z"),
    ),
    Case {
        name: "units between are gone",
        steps: &[
            A_BY_1,
            Gone((1, 1), 2),
            Put(0, (1, 3), Some((1, 0)), None, "b"),
            Split((1, 2)),
        ],
        ids: &[(1, 0), (1, 1), (1, 2), (1, 3), (1, 4)],
    },
    Case {
        name: "a span over gone units is deleted",
        steps: &[
            A_BY_1,
            Gone((1, 1), 2),
            Put(0, (1, 3), Some((1, 0)), None, "bc"),
            Delete((1, 0), 4),
        ],
        ids: &[(1, 3), (1, 4)],
    },
    Case {
        name: "a run behind a gone unit is in no list",
        steps: &[
            A_BY_1,
            Gone((1, 1), 1),
            Put(0, (2, 0), Some((1, 1)), None, "n"),
        ],
        ids: &[(2, 0)],
    },
    Case {
        name: "units between are lost",
        steps: &[
            A_BY_1,
            Lost((2, 0), "xy"),
            Put(0, (2, 2), None, None, "n"),
            Split((2, 1)),
        ],
        ids: &[(2, 0), (2, 1), (2, 2), (2, 3)],
    },
    case!(
        "units between are known by their neighbours",
        A_BY_1,
        Deleted((1, 1), Some((1, 0)), 2),
        Put(0, (1, 3), Some((1, 2)), None, "c"),
        Delete((1, 2), 1),
    ),
    case!(
        "a pair is split, and its halves stay",
        Put(0, (1, 0), None, None, "a😀b"),
        Split((1, 2)),
    ),
    case!(
        "a run is added in room that was taken",
        Add((1, 0), "a"),
        Add((2, 0), "bc"),
        Mark((2, 0), 1),
    ),
];

/// The cases in which runs are joined, and those in which they are not.
pub const JOINS: [Case; 9] = [
    Case {
        name: "letters that are typed are one run",
        steps: &[
            A_BY_1,
            B_BEHIND_A,
            Join,
            Put(0, (1, 2), Some((1, 1)), None, "c"),
            Join,
        ],
        ids: &[(1, 0), (1, 1), (1, 2), (1, 3)],
    },
    case!(
        "a run that is split is joined again",
        Put(0, (1, 0), None, None, "abcdef"),
        Split((1, 2)),
        Join,
    ),
    case!(
        "the halves of a pair are joined",
        Put(0, (1, 0), None, None, "a😀b"),
        Split((1, 2)),
        Join,
    ),
    Case {
        name: "deleted runs are joined",
        steps: &[A_BY_1, B_BEHIND_A, Delete((1, 0), 2), Join],
        ids: &[(1, 1)],
    },
    case!(
        "units that are known by their neighbours are joined",
        Deleted((1, 0), None, 1),
        Deleted((1, 1), Some((1, 0)), 2),
        Join,
    ),
    case!(
        "a deleted run is not joined to a live one",
        A_BY_1,
        B_BEHIND_A,
        Delete((1, 1), 1),
        Join,
    ),
    case!(
        "a run is not joined over another",
        A_BY_1,
        Put(0, (0, 0), Some((1, 0)), None, "x"),
        B_BEHIND_A,
        Join,
    ),
    case!(
        "a run with another right origin is not joined",
        A_BY_1,
        Put(0, (2, 0), Some((1, 0)), None, "z"),
        Put(0, (1, 1), Some((1, 0)), Some((2, 0)), "b"),
        Join,
    ),
    case!(
        "units that were typed before another run are not joined",
        A_BY_1,
        B_BEHIND_A,
        R_BY_9,
        Join,
    ),
];

/// The cases in which units are told less, or are taken out again.
pub const LOSSES: [Case; 16] = [
    case!(
        "a span within a run is spelled deleted",
        Put(0, (1, 0), None, None, "abcdef"),
        Lower((1, 2), 2),
    ),
    case!(
        "a deleted span over the borders of runs is spelled so",
        Put(0, (1, 0), None, None, "abcdef"),
        Split((1, 3)),
        Delete((1, 2), 2),
        Lower((1, 2), 2),
    ),
    Case {
        name: "a span of lost units is gone",
        steps: &[
            A_BY_1,
            Lost((2, 0), "xyzw"),
            Split((2, 2)),
            EmptyLost((2, 1), 2),
        ],
        ids: &[(1, 0), (2, 0), (2, 1), (2, 2), (2, 3)],
    },
    case!(
        "a half before what is spelled deleted is torn",
        Put(0, (1, 0), None, None, "a😀b"),
        Lower((1, 2), 1),
    ),
    case!(
        "a half behind what is spelled deleted is torn",
        Put(0, (1, 0), None, None, "a😀b"),
        Lower((1, 0), 2),
    ),
    case!(
        "halves at both ends are torn",
        Put(0, (1, 0), None, None, "😀😀"),
        Lower((1, 1), 2),
    ),
    case!(
        "a pair that is spelled deleted is whole",
        Put(0, (1, 0), None, None, "😀😀"),
        Lower((1, 2), 2),
    ),
    case!(
        "a half in a run of its own is torn",
        Put(0, (1, 0), None, None, "😀"),
        Split((1, 1)),
        Lower((1, 1), 1),
    ),
    case!(
        "a half beside a unit that is no partner stays",
        Put(0, (1, 0), None, None, "a😀"),
        Back((1, 2)),
        Put(0, (1, 2), Some((1, 1)), None, "b"),
        Lower((1, 2), 1),
    ),
    case!(
        "no half is torn where no unit is spelled deleted",
        Put(0, (1, 0), None, None, "😀"),
        Lower((1, 1), 0),
    ),
    Case {
        name: "a half before lost units that are gone is torn",
        steps: &[A_BY_1, Lost((2, 0), "x😀y"), EmptyLost((2, 2), 2)],
        ids: &[(2, 0), (2, 1), (2, 2), (2, 3)],
    },
    Case {
        name: "a half behind lost units that are gone is torn",
        steps: &[A_BY_1, Lost((2, 0), "x😀y"), EmptyLost((2, 1), 1)],
        ids: &[(2, 0), (2, 1), (2, 2), (2, 3)],
    },
    Case {
        name: "a run is taken out, and what it parted stays so",
        steps: &[ABC, XY, Back((2, 0))],
        ids: &[(1, 2), (2, 0)],
    },
    Case {
        name: "the last units of a run are taken out",
        steps: &[Put(0, (1, 0), None, None, "abcdef"), Back((1, 4))],
        ids: &[(1, 3), (1, 4)],
    },
    Case {
        name: "gone and lost units are taken out",
        steps: &[A_BY_1, Gone((2, 0), 2), Lost((2, 2), "x"), Back((2, 1))],
        ids: &[(1, 0), (2, 0), (2, 1), (2, 2)],
    },
    case!(
        "a run is taken out and added again",
        A_BY_1,
        N_BY_2,
        Back((1, 0)),
        A_BY_1,
    ),
];

/// The cases of the scan.
pub const SCANS: [Case; 18] = [
    case!("both left origins are absent, a first", A_BY_1, N_BY_2),
    case!("both left origins are absent, n first", N_BY_2, A_BY_1),
    case!("three at the front, B A C", B, A, C),
    case!("three at the front, B C A", B, C, A),
    case!("three at the front, A B C", A, B, C),
    case!("three at the front, A C B", A, C, B),
    case!("three at the front, C A B", C, A, B),
    case!("three at the front, C B A", C, B, A),
    case!(
        "a client is not smaller than itself",
        A_BY_1,
        Put(0, (1, 1), None, None, "b"),
    ),
    case!(
        "and with another right origin it is gone by",
        R_BY_0,
        Put(0, (2, 0), None, Some((0, 0)), "m"),
        Put(0, (2, 1), None, None, "n"),
    ),
    case!(
        "a greater client with another right origin does not move the place",
        R_BY_9,
        X_BEFORE_9,
        N_BY_2,
    ),
    case!("and the scan goes on behind it", R_BY_0, X_BEFORE_0, N_BY_2),
    case!(
        "a run is passed with its left origin",
        A_BY_1,
        B_BEHIND_A,
        N_BY_2,
    ),
    case!(
        "a run is not passed where its left origin is not",
        R_BY_9,
        X_BEFORE_9,
        Put(0, (5, 1), Some((5, 0)), Some((9, 0)), "y"),
        N_BY_2,
    ),
    case!(
        "and the scan goes on behind both",
        R_BY_0,
        X_BEFORE_0,
        Put(0, (5, 1), Some((5, 0)), Some((0, 0)), "y"),
        N_BY_2,
    ),
    case!(
        "a left origin before the scan ends it",
        A_BY_1,
        B_BEHIND_A,
        Put(0, (3, 0), Some((1, 0)), None, "m"),
        Put(0, (2, 0), Some((1, 1)), None, "n"),
    ),
    case!(
        "the right origin ends the scan before all else",
        R_BY_0,
        Put(0, (2, 0), None, Some((0, 0)), "n"),
    ),
    case!(
        "a deleted run is scanned as others are",
        A_BY_1,
        Delete((1, 0), 1),
        N_BY_2
    ),
];
