//! Rooms: ranges of slots and orders of ships, read, set, copied, and asked for the timetables
//! inside.

ghost use Rattle.std.specs.Prelude.{◌≡◌, ◌≤◌, ◌<◌, ℕ, length, IfOk, IsTrue, ◌↔◌, slice_index, replicate};
ghost use Rattle.hw_model.specs.Limits.{ShapeFits};
ghost use Rattle.hw_model.specs.Rooms.{IsRoom, IsRoomOf, IsPoint, Inside, InRange, agrees, low_of, high_of, order_of, whole_room};
ghost use Rattle.hw_flat.specs.Opened.{opened};
ghost use Rattle.hw_model.specs.Narrowing.{with_range, with_order};

use crate::timetable::Timetable;
use hw_model::{NoMemory, Order, Shape, ShipId, Slot};
use std::alloc::Global;
use std::marker::Model;

/// A room: a range of slots for each ship, and for each two ships an order that is set or not.
///
/// No range is empty.
#[derive(Drop)]
pub struct Room {
    ships: u32,
    slots: u32,
    ranges: Vec<(Slot, Slot)>,
    orders: Vec<Order>,
}

impl Model for Room {
    ghost use Rattle.hw_model.specs.Rooms.{RoomModel, IsRoom};

    ghost Value = { RoomModel };

    ghost view = { λ r. record { ships = r.ships; slots = r.slots; ranges = r.ranges.items; orders = r.orders.items } };

    ghost invariant = { λ r. IsRoom (record { ships = r.ships; slots = r.slots; ranges = r.ranges.items; orders = r.orders.items }) };
}

impl Room {
    /// The room that leaves every slot and every order open.
    pub fn whole(alloc: Global, shape: Shape) -> Result<Room, NoMemory>
        requires fits { ShapeFits shape }
        ensures value { IfOk result (λ room. room ≡ whole_room shape) }
        ensures room { IfOk result (λ room. IsRoomOf shape room) }
    {
        let ranges = vec![in alloc; (0, shape.slots - 1); shape.ships as usize]?;
        let pairs = (shape.ships * shape.ships) as usize;
        let orders = vec![in alloc; Order::Unset; pairs]?;
        Ok(Room {
            ships: shape.ships,
            slots: shape.slots,
            ranges,
            orders,
        })
    }

    /// A room of the same ranges and orders.
    pub fn copy(&self, alloc: Global) -> Result<Room, NoMemory>
        ensures value { IfOk result (λ room. room ≡ self.now) }
    {
        let ranges = Vec::from_slice(alloc, &self.ranges)?;
        let orders = Vec::from_slice(alloc, &self.orders)?;
        Ok(Room {
            ships: self.ships,
            slots: self.slots,
            ranges,
            orders,
        })
    }

    /// Takes the ranges and orders of a room of as many ships. It takes no memory.
    pub fn copy_from(&mut self, other: &Room)
        requires same_ships { self.old.ships ≡ other.now.ships }
        ensures value { self.new ≡ other.now }
    {
        self.slots = other.slots;
        self.ranges.copy_from_slice(&other.ranges);
        self.orders.copy_from_slice(&other.orders);
    }

    /// The number of ships.
    pub fn ships(&self) -> u32
        ensures value { result ≡ self.now.ships }
        ensures room { IsRoom self.now }
    {
        self.ships
    }

    /// The number of slots, the one that means staying among them.
    pub fn slots(&self) -> u32
        ensures value { result ≡ self.now.slots }
    {
        self.slots
    }

    /// The lowest slot of a ship.
    pub fn low(&self, ship: ShipId) -> Slot
        requires ship_in { ship < self.now.ships }
        ensures value { result ≡ low_of self.now ship }
        ensures ordered { result ≤ high_of self.now ship }
        ensures in_slots { high_of self.now ship < self.now.slots }
    {
        self.ranges[ship as usize].0
    }

    /// The highest slot of a ship.
    pub fn high(&self, ship: ShipId) -> Slot
        requires ship_in { ship < self.now.ships }
        ensures value { result ≡ high_of self.now ship }
        ensures ordered { low_of self.now ship ≤ result }
        ensures in_slots { result < self.now.slots }
    {
        self.ranges[ship as usize].1
    }

    /// The order of two ships, the lesser one first.
    pub fn order(&self, v: ShipId, w: ShipId) -> Order
        requires ascends { v < w }
        requires ship_in { w < self.now.ships }
        ensures value { result ≡ order_of self.now v w }
    {
        self.orders[(v * self.ships + w) as usize]
    }

    /// Whether each range has one slot. One pass over the ranges.
    pub fn is_point(&self) -> bool
        ensures point { IsTrue result ↔ IsPoint self.now }
    {
        for range in &self.ranges {
            if range.0 != range.1 {
                return false;
            }
        }
        true
    }

    /// Whether a timetable with a slot for each ship lies in the ranges and agrees with each
    /// order that is set. One pass over the ranges and the orders.
    pub fn inside(&self, table: &Timetable) -> bool
        requires each_ship { length table.now ≡ self.now.ships }
        ensures inside { IsTrue result ↔ Inside table.now self.now }
    {
        self.in_ranges(table) && self.keeps_orders(table)
    }

    fn in_ranges(&self, table: &Timetable) -> bool
        requires each_ship { length table.now ≡ self.now.ships }
        ensures ranges { IsTrue result
            ↔ ((ship : ℕ) → ship < self.now.ships → InRange self.now ship (slice_index table.now ship)) }
    {
        for ship in 0..self.ships() {
            let slot = table.slot(ship);
            if slot < self.low(ship) || self.high(ship) < slot {
                return false;
            }
        }
        true
    }

    fn keeps_orders(&self, table: &Timetable) -> bool
        requires each_ship { length table.now ≡ self.now.ships }
        ensures orders { IsTrue result
            ↔ ((v w : ℕ) → v < w → w < self.now.ships → IsTrue (agrees (order_of self.now v w) (slice_index table.now v) (slice_index table.now w))) }
    {
        for w in 0..self.ships() {
            if !self.keeps_orders_of(table, w) {
                return false;
            }
        }
        true
    }

    // The orders of this ship with the lesser ones.
    fn keeps_orders_of(&self, table: &Timetable, w: ShipId) -> bool
        requires each_ship { length table.now ≡ self.now.ships }
        requires ship_in { w < self.now.ships }
        ensures orders { IsTrue result
            ↔ ((v : ℕ) → v < w → IsTrue (agrees (order_of self.now v w) (slice_index table.now v) (slice_index table.now w))) }
    {
        for v in 0..w {
            if !order_agrees(self.order(v, w), table.slot(v), table.slot(w)) {
                return false;
            }
        }
        true
    }

    /// Leaves every slot and every order open.
    pub fn reset(&mut self)
        ensures whole { self.new ≡ opened self.old }
        ensures room { IsRoom self.old }
    {
        fill(&mut self.ranges, (0, self.slots.saturating_sub(1)));
        fill(&mut self.orders, Order::Unset);
    }

    /// Gives a ship another range. No other range and no order changes.
    pub fn put(&mut self, ship: ShipId, low: Slot, high: Slot)
        requires ship_in { ship < self.old.ships }
        requires ordered { low ≤ high }
        requires in_slots { high < self.old.slots }
        ensures room { self.new ≡ with_range self.old ship low high }
    {
        self.ranges[ship as usize] = (low, high);
    }

    /// Gives two ships another order, the lesser one first. No range and no other order changes.
    pub fn put_order(&mut self, v: ShipId, w: ShipId, order: Order)
        requires ascends { v < w }
        requires ship_in { w < self.old.ships }
        ensures room { self.new ≡ with_order self.old v w order }
    {
        self.orders[(v * self.ships + w) as usize] = order;
    }
}

fn fill<T: Copy + Drop>(items: &mut [T], value: T)
    ensures value { items.new ≡ replicate (length items.old) value }
{
    for item in items.iter_mut() {
        *item = value;
    }
}

// Whether two slots agree with an order, if it is set.
fn order_agrees(order: Order, x: Slot, y: Slot) -> bool
    ensures value { result ≡ agrees order x y }
{
    match order {
        Order::Unset => true,
        Order::First => x < y,
        Order::NotFirst => y <= x,
    }
}
