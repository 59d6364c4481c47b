//! The goal's propagator beside trying, over small rooms.

use crate::kinds::{Asked, Kind, Row, Sweep, agree, hold};
use crate::rooms::{ANY, OPEN, Rooms, WHOLE};
use hw_flat::Source;
use std::test::Fail;

const GOODS: &[u8] = b"flat 1\nsize 2 3\nv 10 20 30\nv 10 20 30\nend\n";

// The last of three slots means staying.
const STAYING: &[u8] = b"flat 2\nsize 2 2\nv 10 30 y\nv - 20 y\nend\n";

const HOLES: &[u8] = b"flat 1\nsize 2 3\nv - 5 -\nv 7 - 3\nend\n";

const GOAL: Asked = (Kind::ByGoal, Source::Goal);

const ROWS: [Row; 10] = [
    (
        "no best",
        GOODS,
        GOAL,
        None,
        [(0, 0), (0, 0), ANY],
        OPEN,
        None,
    ),
    ("40 beats 39", GOODS, GOAL, Some(39), WHOLE, OPEN, None),
    (
        "10 and 30",
        GOODS,
        GOAL,
        Some(40),
        WHOLE,
        OPEN,
        Some(&[('a', 0, 1)]),
    ),
    (
        "10 more are spared",
        GOODS,
        GOAL,
        Some(50),
        WHOLE,
        OPEN,
        Some(&[('a', 0, 2)]),
    ),
    (
        "the cut goes first",
        GOODS,
        GOAL,
        Some(40),
        [ANY, (0, 1), ANY],
        OPEN,
        Some(&[('a', 0, 2), ('a', 1, 2)]),
    ),
    (
        "the other is opened whole",
        GOODS,
        GOAL,
        Some(40),
        [(0, 0), (1, 2), ANY],
        OPEN,
        Some(&[('a', 0, 1)]),
    ),
    (
        "one may move, and not the other",
        GOODS,
        GOAL,
        Some(30),
        [(0, 0), (0, 0), ANY],
        OPEN,
        Some(&[('a', 0, 2), ('a', 1, 1)]),
    ),
    (
        "never more than 60",
        GOODS,
        GOAL,
        Some(60),
        [(0, 0), ANY, ANY],
        OPEN,
        Some(&[]),
    ),
    (
        "who stays carries nothing",
        STAYING,
        GOAL,
        Some(20),
        WHOLE,
        OPEN,
        Some(&[('b', 0, 2)]),
    ),
    (
        "nothing sails",
        HOLES,
        GOAL,
        Some(0),
        [(2, 2), (1, 1), ANY],
        OPEN,
        Some(&[('b', 0, 2), ('a', 1, 2), ('b', 1, 1)]),
    ),
];

/// Each two ranges of three slots.
const TWO_RANGES: Rooms = Rooms {
    ranges: 6,
    third: false,
    count: 36,
};

const SWEEPS: [Sweep; 10] = [
    ("no best", GOODS, GOAL, None, TWO_RANGES),
    ("0", GOODS, GOAL, Some(0), TWO_RANGES),
    ("20", GOODS, GOAL, Some(20), TWO_RANGES),
    ("45", GOODS, GOAL, Some(45), TWO_RANGES),
    ("no best, staying", STAYING, GOAL, None, TWO_RANGES),
    ("0, staying", STAYING, GOAL, Some(0), TWO_RANGES),
    ("30, staying", STAYING, GOAL, Some(30), TWO_RANGES),
    ("0, holes", HOLES, GOAL, Some(0), TWO_RANGES),
    ("7, holes", HOLES, GOAL, Some(7), TWO_RANGES),
    ("12, holes", HOLES, GOAL, Some(12), TWO_RANGES),
];

#[test]
fn single_steps(rt: HostRuntime) -> Result<(), Fail> {
    hold(&rt, rt.alloc(), &ROWS)
}

#[test]
fn every_room_as_by_trying(rt: HostRuntime) -> Result<(), Fail> {
    agree(&rt, rt.alloc(), &SWEEPS)
}
