//! The plain propagator of each kind of source, in rooms whose clauses were worked out by hand.

use crate::kinds::{Asked, Kind, Row, Sweep, agree, hold};
use crate::rooms::{ANY, OPEN, Rooms, WHOLE};
use hw_flat::Order::{First, NotFirst, Unset};
use hw_flat::Source;
use std::test::Fail;

const VALUES: &[u8] = b"flat 1\nsize 1 4\nv - - 5 -\nend\n";

const GOODS: &[u8] = b"flat 1\nsize 2 3\nv 10 20 30\nv 10 20 30\nend\n";

const RULES: &[u8] =
    b"flat 1\nsize 3 4\nv 1 1 1 1\nv 1 1 1 1\nv 1 1 1 1\np 0 1 -1:1\ns 1 2 2\nu 1 0:1:2 2:1:2\nend\n";

// The last slot of these three means staying.
const STAYING_VALUES: &[u8] = b"flat 2\nsize 1 2\nv - 5 y\nend\n";

const STAYING_GOODS: &[u8] = b"flat 2\nsize 2 2\nv 10 30 y\nv 10 20 y\nend\n";

const STAYING_RULES: &[u8] =
    b"flat 2\nsize 3 3\nv 1 1 1 y\nv 1 1 1 y\nv 1 1 1 y\np 0 1 -2:2\ns 0 1 1\nu 1 0:1:2 1:1:2\nend\n";

const WINDOW: Asked = (Kind::Plain, Source::Window { ship: 0 });

const PAIR: Asked = (Kind::Plain, Source::Rule { place: 0 });

const AFTER: Asked = (Kind::Plain, Source::Rule { place: 1 });

const TUGS: Asked = (Kind::Plain, Source::Rule { place: 2 });

const ORDER: Asked = (Kind::Plain, Source::Order { v: 0, w: 1, x: 2 });

const GOAL: Asked = (Kind::Plain, Source::Goal);

const ROWS: [Row; 11] = [
    (
        "no value before 2",
        VALUES,
        WINDOW,
        None,
        WHOLE,
        OPEN,
        Some(&[('a', 0, 2)]),
    ),
    (
        "no value behind 2",
        VALUES,
        WINDOW,
        None,
        [(2, 3), ANY, ANY],
        OPEN,
        Some(&[('b', 0, 3)]),
    ),
    (
        "a value",
        VALUES,
        WINDOW,
        None,
        [(2, 2), ANY, ANY],
        OPEN,
        None,
    ),
    (
        "apart by 2",
        RULES,
        PAIR,
        None,
        [(0, 0), ANY, ANY],
        OPEN,
        Some(&[('a', 0, 2), ('a', 1, 2)]),
    ),
    (
        "must be later",
        RULES,
        PAIR,
        None,
        [(0, 0), (2, 3), ANY],
        OPEN,
        Some(&[('b', 1, 2), ('f', 0, 1)]),
    ),
    (
        "pair in the whole room",
        RULES,
        PAIR,
        None,
        WHOLE,
        OPEN,
        None,
    ),
    (
        "a gap behind",
        RULES,
        AFTER,
        None,
        WHOLE,
        OPEN,
        Some(&[('b', 1, 2)]),
    ),
    (
        "tugs are held",
        RULES,
        TUGS,
        None,
        [(1, 1), ANY, ANY],
        OPEN,
        Some(&[('a', 0, 2), ('a', 2, 2)]),
    ),
    (
        "tugs in the whole room",
        RULES,
        TUGS,
        None,
        WHOLE,
        OPEN,
        None,
    ),
    (
        "in a line",
        RULES,
        ORDER,
        None,
        WHOLE,
        [First, Unset, First],
        Some(&[('n', 0, 1), ('f', 0, 2), ('n', 1, 2)]),
    ),
    (
        "one order",
        RULES,
        ORDER,
        None,
        WHOLE,
        [First, Unset, Unset],
        None,
    ),
];

const STAYING_ROWS: [Row; 9] = [
    (
        "no value but staying",
        STAYING_VALUES,
        WINDOW,
        None,
        WHOLE,
        OPEN,
        Some(&[('a', 0, 1)]),
    ),
    (
        "a value or staying",
        STAYING_VALUES,
        WINDOW,
        None,
        [(1, 2), ANY, ANY],
        OPEN,
        None,
    ),
    (
        "the other must stay",
        STAYING_RULES,
        PAIR,
        None,
        [(0, 0), ANY, ANY],
        OPEN,
        Some(&[('a', 0, 3), ('a', 1, 3)]),
    ),
    (
        "none is later than staying",
        STAYING_RULES,
        PAIR,
        None,
        [(3, 3), ANY, ANY],
        OPEN,
        Some(&[('b', 0, 3), ('n', 0, 1)]),
    ),
    (
        "either may stay",
        STAYING_RULES,
        PAIR,
        None,
        WHOLE,
        OPEN,
        None,
    ),
    (
        "not after staying",
        STAYING_RULES,
        AFTER,
        None,
        [(3, 3), (2, 3), ANY],
        OPEN,
        Some(&[('b', 0, 2), ('a', 1, 3)]),
    ),
    (
        "tugs held by sailing",
        STAYING_RULES,
        TUGS,
        None,
        [(1, 1), ANY, ANY],
        OPEN,
        Some(&[('a', 0, 2), ('a', 1, 2)]),
    ),
    (
        "tugs left by staying",
        STAYING_RULES,
        TUGS,
        None,
        [(2, 3), ANY, ANY],
        OPEN,
        None,
    ),
    (
        "the third order",
        STAYING_RULES,
        ORDER,
        None,
        WHOLE,
        [NotFirst, First, Unset],
        Some(&[('f', 0, 1), ('n', 0, 2), ('f', 1, 2)]),
    ),
];

const GOAL_ROWS: [Row; 6] = [
    (
        "10 and 30",
        GOODS,
        GOAL,
        Some(40),
        WHOLE,
        OPEN,
        Some(&[('a', 0, 1)]),
    ),
    (
        "20 and 20",
        GOODS,
        GOAL,
        Some(40),
        [ANY, (1, 1), ANY],
        OPEN,
        Some(&[('a', 0, 2), ('a', 1, 2)]),
    ),
    (
        "never more than 60",
        GOODS,
        GOAL,
        Some(60),
        WHOLE,
        OPEN,
        Some(&[]),
    ),
    ("no best", GOODS, GOAL, None, WHOLE, OPEN, None),
    (
        "who stays carries nothing",
        STAYING_GOODS,
        GOAL,
        Some(40),
        [(1, 2), ANY, ANY],
        OPEN,
        Some(&[('b', 0, 2)]),
    ),
    (
        "30 and 10",
        STAYING_GOODS,
        GOAL,
        Some(40),
        [(1, 1), ANY, ANY],
        OPEN,
        Some(&[('a', 1, 1)]),
    ),
];

#[test]
fn first_steps(rt: HostRuntime) -> Result<(), Fail> {
    hold(&rt, rt.alloc(), &ROWS)
}

#[test]
fn first_steps_with_staying(rt: HostRuntime) -> Result<(), Fail> {
    hold(&rt, rt.alloc(), &STAYING_ROWS)
}

#[test]
fn first_steps_of_the_goal(rt: HostRuntime) -> Result<(), Fail> {
    hold(&rt, rt.alloc(), &GOAL_ROWS)
}

/// Each two ranges of four slots.
const TWO_RANGES: Rooms = Rooms {
    ranges: 10,
    third: false,
    count: 100,
};

const SWEEPS: [Sweep; 1] = [("one in each room", RULES, PAIR, None, TWO_RANGES)];

#[test]
fn one_shaver_in_every_room(rt: HostRuntime) -> Result<(), Fail> {
    agree(&rt, rt.alloc(), &SWEEPS)
}
