//! Rules on two ships and three orders beside trying, over small rooms.

ghost use Rattle.std.specs.Prelude.{◌≡◌, ◌<◌};

use crate::found::{follow, found};
use crate::kinds::{Asked, Kind, Row, Sweep, agree, hold, is_pair};
use crate::rooms::{ANY, OPEN, Rooms, WHOLE, room_of};
use hw_flat::Order::{First, NotFirst, Unset};
use hw_flat::{Flat, Order, Room, Slot, Source};
use hw_lits::Found;
use hw_model::NoMemory;
use hw_pairs::Channel;
use std::alloc::Global;
use std::process::Abort;
use std::test::Fail;

const FAR_HOLES: &[u8] = b"flat 1\nsize 2 3\nv 1 1 1\nv 1 1 1\np 0 1 -5:-3 3:5\nend\n";

const ONE_WAY: &[u8] = b"flat 1\nsize 2 4\nv 1 1 1 1\nv 1 1 1 1\np 0 1 0:1 3:3\nend\n";

const SAILING: &[u8] =
    b"flat 1\nsize 2 3\nv 1 1 1\nv 1 1 1\np 0 1 -1:0 2:2\np 0 1 -1:1\ns 0 1 1\ns 1 0 1\nend\n";

// The last of three slots means staying.
const STAYING: &[u8] =
    b"flat 2\nsize 2 2\nv 1 1 y\nv 1 1 y\np 0 1 -1:0 2:2\np 0 1 -1:1\ns 0 1 1\ns 1 0 1\nend\n";

const THREE_SHIPS: &[u8] = b"flat 1\nsize 3 3\nv 1 1 1\nv 1 1 1\nv 1 1 1\nend\n";

const FIRST_RULE: Source = Source::Rule { place: 0 };

const HOLES: Asked = (Kind::ByHoles, FIRST_RULE);

const HOLE: Asked = (Kind::ByHole, Source::Rule { place: 1 });

const GREATER_LATER: Asked = (Kind::ByGap, Source::Rule { place: 2 });

const LESSER_LATER: Asked = (Kind::ByGap, Source::Rule { place: 3 });

const ORDERS: Asked = (Kind::ByOrders, Source::Order { v: 0, w: 1, x: 2 });

const ROWS: [Row; 11] = [
    (
        "between far holes",
        FAR_HOLES,
        HOLES,
        None,
        [(2, 2), (2, 2), ANY],
        [NotFirst, Unset, Unset],
        None,
    ),
    (
        "in no order at one slot",
        FAR_HOLES,
        HOLES,
        None,
        [(2, 2), (2, 2), ANY],
        OPEN,
        Some(&[('b', 0, 2), ('n', 0, 1)]),
    ),
    (
        "the other must stay",
        STAYING,
        HOLE,
        None,
        [(0, 0), ANY, ANY],
        OPEN,
        Some(&[('a', 0, 2), ('a', 1, 2)]),
    ),
    (
        "no slot behind the last",
        SAILING,
        GREATER_LATER,
        None,
        WHOLE,
        OPEN,
        Some(&[('b', 0, 2)]),
    ),
    (
        "no slot before the first",
        SAILING,
        LESSER_LATER,
        None,
        WHOLE,
        OPEN,
        Some(&[('a', 0, 1)]),
    ),
    (
        "none before slot 0",
        STAYING,
        GREATER_LATER,
        None,
        WHOLE,
        OPEN,
        Some(&[('a', 1, 1)]),
    ),
    (
        "freed by the second",
        STAYING,
        GREATER_LATER,
        None,
        [ANY, (2, 2), ANY],
        OPEN,
        None,
    ),
    (
        "not freed by the first",
        STAYING,
        GREATER_LATER,
        None,
        [(2, 2), (0, 1), ANY],
        OPEN,
        Some(&[('b', 0, 1), ('a', 1, 2)]),
    ),
    (
        "in a line",
        THREE_SHIPS,
        ORDERS,
        None,
        WHOLE,
        [First, Unset, First],
        Some(&[('n', 0, 1), ('f', 0, 2), ('n', 1, 2)]),
    ),
    (
        "a circle",
        THREE_SHIPS,
        ORDERS,
        None,
        WHOLE,
        [First, NotFirst, First],
        Some(&[('n', 0, 1), ('f', 0, 2), ('n', 1, 2)]),
    ),
    (
        "one order",
        THREE_SHIPS,
        ORDERS,
        None,
        WHOLE,
        [First, Unset, Unset],
        None,
    ),
];

/// Each two ranges of three slots, with each order of the first two ships.
const ONE_ORDER: Rooms = Rooms {
    ranges: 6,
    third: false,
    count: 108,
};

/// The same, with each order of each two ships.
const THREE_ORDERS: Rooms = Rooms {
    ranges: 6,
    third: false,
    count: 972,
};

const SWEEPS: [Sweep; 9] = [
    ("holes", SAILING, HOLES, None, ONE_ORDER),
    ("a hole", SAILING, HOLE, None, ONE_ORDER),
    ("greater later", SAILING, GREATER_LATER, None, ONE_ORDER),
    ("lesser later", SAILING, LESSER_LATER, None, ONE_ORDER),
    ("holes, staying", STAYING, HOLES, None, ONE_ORDER),
    ("a hole, staying", STAYING, HOLE, None, ONE_ORDER),
    ("greater, stay", STAYING, GREATER_LATER, None, ONE_ORDER),
    ("lesser, stay", STAYING, LESSER_LATER, None, ONE_ORDER),
    ("orders", THREE_SHIPS, ORDERS, None, THREE_ORDERS),
];

#[test]
fn single_steps(rt: HostRuntime) -> Result<(), Fail> {
    hold(&rt, rt.alloc(), &ROWS)
}

#[test]
fn every_room_as_by_trying(rt: HostRuntime) -> Result<(), Fail> {
    agree(&rt, rt.alloc(), &SWEEPS)
}

/// How many clauses of the first rule's propagator were followed until it was quiet, of nine.
fn steps_until_quiet(alloc: Global, flat: &Flat, room: &mut Room) -> Result<Option<u32>, NoMemory> {
    if !is_pair(flat, FIRST_RULE) {
        return Ok(None);
    }
    for number in 0..9 {
        let mut channel = Channel::new(flat, FIRST_RULE);
        match found(&mut channel, alloc, flat, None, room)? {
            Some(Found::Clause(clause)) => {
                for lit in clause.as_slice() {
                    follow(room, *lit);
                }
            }
            Some(Found::Quiet) => return Ok(Some(number)),
            None => return Ok(None),
        }
    }
    Ok(None)
}

/// The range of the second of two ships, and their order; none where there aren't two.
fn second_of_two(room: &Room) -> Option<(Slot, Slot, Order)> {
    if room.ships() == 2 {
        Some((room.low(1), room.high(1), room.order(0, 1)))
    } else {
        None
    }
}

#[test]
fn clauses_in_turn(rt: HostRuntime) -> Result<(), Fail> {
    let flat = Flat::read(rt.alloc(), ONE_WAY)?;
    let mut room = room_of(rt.alloc(), &flat, &[(0, 0), ANY, ANY], &OPEN)?;
    let steps = steps_until_quiet(rt.alloc(), &flat, &mut room)?;
    assert_eq!(rt; steps, Some(3), "two bounds and an order");
    let second = second_of_two(&room);
    assert!(rt;
        second == Some((2, 2, First)),
        "2 alone is in no hole, and 0 is before 2"
    );
    Ok(())
}
