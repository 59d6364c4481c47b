//! A rule on tugs beside trying, over small rooms.

use crate::kinds::{Asked, Kind, Row, Sweep, agree, hold};
use crate::rooms::{ANY, OPEN, Rooms, WHOLE};
use hw_flat::Source;
use std::test::Fail;

const TOGETHER: &[u8] = b"flat 1\nsize 2 6\nv 0 1 5 9 5 1\nv 0 1 5 9 5 1\nu 3 0:2:3 1:2:3\nend\n";

const TWO_SHIPS: &[u8] = b"flat 1\nsize 2 4\nv 1 1 1 1\nv 1 1 1 1\nu 3 0:2:2 1:2:3\nend\n";

const THREE_SHIPS: &[u8] =
    b"flat 1\nsize 3 3\nv 1 1 1\nv 1 1 1\nv 1 1 1\nu 2 0:2:2 1:1:1 2:1:3\nend\n";

// The last of four slots means staying.
const STAYING: &[u8] = b"flat 2\nsize 2 3\nv 1 1 1 y\nv 1 1 1 y\nu 3 0:2:2 1:2:3\nend\n";

// Four tugs by day, and none in slots 2 and 3.
const NIGHT: &[u8] =
    b"flat 3\nsize 2 6\nv 0 1 5 9 5 1\nv 0 1 5 9 5 1\nh 4 2:0 4:4 0:2:3 1:2:3\nend\n";

// Four tugs, and three from slot 3 on.
const LESSENED: &[u8] =
    b"flat 3\nsize 2 6\nv 0 1 5 9 5 1\nv 0 1 5 9 5 1\nh 4 3:3 0:2:3 1:2:3\nend\n";

// The last of four slots means staying.
const STAYING_BY_THE_HOUR: &[u8] =
    b"flat 4\nsize 2 3\nv 1 1 1 y\nv 1 1 1 y\nh 3 1:4 2:1 0:2:2 1:2:3\nend\n";

const ONE_STEP: &[u8] =
    b"flat 3\nsize 3 4\nv 1 1 1 1\nv 1 1 1 1\nv 1 1 1 1\nh 2 2:4 0:2:2 1:1:1 2:1:3\nend\n";

const TWO_STEPS: &[u8] =
    b"flat 3\nsize 3 4\nv 1 1 1 1\nv 1 1 1 1\nv 1 1 1 1\nh 3 1:1 3:3 0:1:2 1:1:3 2:2:1\nend\n";

const WITHOUT_TUGS_AT_FIRST: &[u8] =
    b"flat 3\nsize 3 4\nv 1 1 1 1\nv 1 1 1 1\nv 1 1 1 1\nh 0 1:2 2:2 0:1:1 1:1:2 2:1:2\nend\n";

const THREE_STEPS: &[u8] =
    b"flat 3\nsize 3 4\nv 1 1 1 1\nv 1 1 1 1\nv 1 1 1 1\nh 4 1:3 2:2 3:1 0:2:2 1:1:4 2:1:2\nend\n";

const UP_AND_DOWN: &[u8] =
    b"flat 3\nsize 3 4\nv 1 1 1 1\nv 1 1 1 1\nv 1 1 1 1\nh 1 1:4 2:1 3:2560 0:1:2 1:2:2 2:1:3\nend\n";

const RULE: Source = Source::Rule { place: 0 };

const TUGS: Asked = (Kind::ByTugs, RULE);

const ROWS: [Row; 12] = [
    (
        "held apart",
        TOGETHER,
        TUGS,
        None,
        [(2, 3), (0, 5), ANY],
        OPEN,
        None,
    ),
    (
        "cut behind the last slot that is too full",
        TOGETHER,
        TUGS,
        None,
        [(2, 2), (3, 5), ANY],
        OPEN,
        Some(&[('a', 0, 5), ('b', 0, 2), ('a', 1, 5), ('b', 1, 2)]),
    ),
    (
        "cut before the first",
        TOGETHER,
        TUGS,
        None,
        [(3, 3), (0, 2), ANY],
        OPEN,
        Some(&[('a', 0, 4), ('b', 0, 1), ('a', 1, 4), ('b', 1, 1)]),
    ),
    (
        "both in a slot",
        TOGETHER,
        TUGS,
        None,
        [(1, 1), (2, 2), ANY],
        OPEN,
        Some(&[('a', 0, 3), ('a', 1, 3)]),
    ),
    (
        "the whole fleet",
        THREE_SHIPS,
        TUGS,
        None,
        [(0, 0), (2, 2), (2, 2)],
        OPEN,
        None,
    ),
    (
        "one may stay",
        STAYING,
        TUGS,
        None,
        [(1, 1), (2, 3), ANY],
        OPEN,
        Some(&[('a', 0, 3), ('b', 0, 1), ('a', 1, 3)]),
    ),
    (
        "one stays",
        STAYING,
        TUGS,
        None,
        [(1, 1), (3, 3), ANY],
        OPEN,
        None,
    ),
    (
        "no tugs into the night",
        NIGHT,
        TUGS,
        None,
        WHOLE,
        OPEN,
        Some(&[('a', 0, 3)]),
    ),
    (
        "no tugs out of the night",
        NIGHT,
        TUGS,
        None,
        [(3, 5), ANY, ANY],
        OPEN,
        Some(&[('a', 0, 4), ('b', 0, 1)]),
    ),
    (
        "both after the night",
        NIGHT,
        TUGS,
        None,
        [(4, 5), (4, 5), ANY],
        OPEN,
        None,
    ),
    (
        "both before the fleet is lessened",
        LESSENED,
        TUGS,
        None,
        [(0, 0), (0, 0), ANY],
        OPEN,
        None,
    ),
    (
        "both when it is lessened",
        LESSENED,
        TUGS,
        None,
        [(1, 1), (1, 5), ANY],
        OPEN,
        Some(&[('a', 0, 4), ('b', 0, 1), ('a', 1, 4), ('b', 1, 1)]),
    ),
];

/// Each two ranges of four slots.
const TWO_RANGES: Rooms = Rooms {
    ranges: 10,
    third: false,
    count: 100,
};

/// Each three ranges of three slots.
const THREE_RANGES: Rooms = Rooms {
    ranges: 6,
    third: true,
    count: 216,
};

/// Each three ranges of four slots.
const THREE_LONG_RANGES: Rooms = Rooms {
    ranges: 10,
    third: true,
    count: 1000,
};

const SWEEPS: [Sweep; 3] = [
    ("two ships", TWO_SHIPS, TUGS, None, TWO_RANGES),
    ("three ships", THREE_SHIPS, TUGS, None, THREE_RANGES),
    ("ships that may stay", STAYING, TUGS, None, TWO_RANGES),
];

/// Fleets by the hour, with up to three steps.
const SWEEPS_BY_THE_HOUR: [Sweep; 6] = [
    ("one step", ONE_STEP, TUGS, None, THREE_LONG_RANGES),
    ("two steps", TWO_STEPS, TUGS, None, THREE_LONG_RANGES),
    (
        "none in the first slot",
        WITHOUT_TUGS_AT_FIRST,
        TUGS,
        None,
        THREE_LONG_RANGES,
    ),
    ("three steps", THREE_STEPS, TUGS, None, THREE_LONG_RANGES),
    ("up and down", UP_AND_DOWN, TUGS, None, THREE_LONG_RANGES),
    (
        "staying by the hour",
        STAYING_BY_THE_HOUR,
        TUGS,
        None,
        TWO_RANGES,
    ),
];

#[test]
fn single_steps(rt: HostRuntime) -> Result<(), Fail> {
    hold(&rt, rt.alloc(), &ROWS)
}

#[test]
fn every_room_as_by_trying(rt: HostRuntime) -> Result<(), Fail> {
    agree(&rt, rt.alloc(), &SWEEPS)
}

#[test]
fn every_room_by_the_hour_as_by_trying(rt: HostRuntime) -> Result<(), Fail> {
    agree(&rt, rt.alloc(), &SWEEPS_BY_THE_HOUR)
}
