//! Rooms of a problem, put range by range and order by order.

ghost use Rattle.std.specs.Prelude.{◌≡◌, IsTrue};
ghost use Rattle.hw_model.specs.Rooms.{RoomFits};

use hw_flat::Order::{First, NotFirst, Unset};
use hw_flat::{Flat, Order, Room, ShipId, Slot};
use hw_model::NoMemory;
use std::alloc::Global;

/// The first and the last slot of a range.
pub type Range = (Slot, Slot);

/// No range of any of the rooms: the ship keeps all its slots.
pub const ANY: Range = (0, 9);

/// The ranges of ships 0, 1 and 2.
pub type Ranges = [Range; 3];

/// Each ship keeps all its slots.
pub const WHOLE: Ranges = [ANY, ANY, ANY];

/// The orders of ships 0 and 1, of 0 and 2, of 1 and 2.
pub type Orders = [Order; 3];

pub const OPEN: Orders = [Unset, Unset, Unset];

/// Each range of four slots, those of three first.
const RANGES: [Range; 10] = [
    (0, 0),
    (0, 1),
    (0, 2),
    (1, 1),
    (1, 2),
    (2, 2),
    (0, 3),
    (1, 3),
    (2, 3),
    (3, 3),
];

const EACH_ORDER: [Order; 3] = [Unset, First, NotFirst];

/// Rooms by number: how many of the ranges a ship takes, whether a third ship takes them too or the
/// orders change in its place, and how many rooms there are.
#[derive(Clone, Copy)]
pub struct Rooms {
    pub ranges: u32,
    pub third: bool,
    pub count: u32,
}

/// Whether the room is one of the problem.
pub fn fits(flat: &Flat, room: &Room) -> bool
    ensures { IsTrue result → RoomFits flat.now room.now }
{
    let shape = flat.shape();
    room.ships() == shape.ships && room.slots() == shape.slots
}

/// Gives a ship another range, where it is one of the room's slots.
fn put(room: &mut Room, ship: ShipId, range: Range) {
    if ship < room.ships() && range.0 <= range.1 && range.1 < room.slots() {
        room.put(ship, range.0, range.1);
    }
}

/// Gives two ships another order, the lesser one first.
fn put_order(room: &mut Room, v: ShipId, w: ShipId, order: Order) {
    if v < w && w < room.ships() {
        room.put_order(v, w, order);
    }
}

/// The room of a problem with these ranges and orders of its ships.
pub fn room_of(
    alloc: Global,
    flat: &Flat,
    ranges: &Ranges,
    orders: &Orders,
) -> Result<Room, NoMemory> {
    let mut room = Room::whole(alloc, flat.shape())?;
    put(&mut room, 0, ranges[0]);
    put(&mut room, 1, ranges[1]);
    put(&mut room, 2, ranges[2]);
    put_order(&mut room, 0, 1, orders[0]);
    put_order(&mut room, 0, 2, orders[1]);
    put_order(&mut room, 1, 2, orders[2]);
    Ok(room)
}

fn nth_range(number: u32) -> Range {
    RANGES[(number % 10) as usize]
}

fn nth_order(number: u32) -> Order {
    EACH_ORDER[(number % 3) as usize]
}

/// The ranges of a number.
pub fn nth_ranges(rooms: Rooms, number: u32) -> Ranges {
    let ranges = rooms.ranges.max(1);
    let third = if rooms.third {
        nth_range(number / ranges / ranges % ranges)
    } else {
        ANY
    };
    [
        nth_range(number % ranges),
        nth_range(number / ranges % ranges),
        third,
    ]
}

/// The orders of a number.
pub fn nth_orders(rooms: Rooms, number: u32) -> Orders {
    if rooms.third {
        return OPEN;
    }
    let ranges = rooms.ranges.max(1);
    let rest = number / ranges / ranges;
    [nth_order(rest), nth_order(rest / 3), nth_order(rest / 9)]
}
