//! Whether one room lies inside another.

ghost use Rattle.std.specs.Prelude.{◌≡◌, ◌⊎◌, ◌<◌, ◌≤◌, ℕ, IsTrue, ◌↔◌};
ghost use Rattle.hw_model.specs.declared.order.Order.TheVariants.{Unset};
ghost use Rattle.hw_model.specs.Rooms.{IsRoom, RoomWithin, low_of, high_of, order_of};

use hw_flat::Room;
use hw_model::{Order, ShipId};

/// Whether the first room lies inside the second. One pass over the ranges and the orders.
pub fn is_within(inner: &Room, outer: &Room) -> bool
    requires same_ships { inner.now.ships ≡ outer.now.ships }
    ensures room { IsRoom inner.now }
    ensures within { IsTrue result ↔ RoomWithin inner.now outer.now }
{
    ranges_within(inner, outer) && orders_within(inner, outer)
}

fn ranges_within(inner: &Room, outer: &Room) -> bool
    requires same_ships { inner.now.ships ≡ outer.now.ships }
    ensures room { IsRoom inner.now }
    ensures ranges { IsTrue result
        ↔ ((ship : ℕ) → ship < outer.now.ships → (low_of outer.now ship ≤ low_of inner.now ship) × (high_of inner.now ship ≤ high_of outer.now ship)) }
{
    for ship in 0..inner.ships() {
        if inner.low(ship) < outer.low(ship) || outer.high(ship) < inner.high(ship) {
            return false;
        }
    }
    true
}

fn orders_within(inner: &Room, outer: &Room) -> bool
    requires same_ships { inner.now.ships ≡ outer.now.ships }
    ensures orders { IsTrue result
        ↔ ((v w : ℕ) → v < w → w < outer.now.ships → (order_of outer.now v w ≡ Unset) ⊎ (order_of inner.now v w ≡ order_of outer.now v w)) }
{
    for w in 0..outer.ships() {
        if !orders_within_of(inner, outer, w) {
            return false;
        }
    }
    true
}

// The orders of this ship with the lesser ones.
fn orders_within_of(inner: &Room, outer: &Room, w: ShipId) -> bool
    requires same_ships { inner.now.ships ≡ outer.now.ships }
    requires ship_in { w < outer.now.ships }
    ensures orders { IsTrue result
        ↔ ((v : ℕ) → v < w → (order_of outer.now v w ≡ Unset) ⊎ (order_of inner.now v w ≡ order_of outer.now v w)) }
{
    for v in 0..w {
        if !order_within(inner.order(v, w), outer.order(v, w)) {
            return false;
        }
    }
    true
}

// Whether the second order is open, or the same.
fn order_within(inner: Order, outer: Order) -> bool
    ensures value { IsTrue result ↔ ((outer ≡ Unset) ⊎ (inner ≡ outer)) }
{
    match (inner, outer) {
        (_, Order::Unset) => true,
        (Order::First, Order::First) => true,
        (Order::NotFirst, Order::NotFirst) => true,
        _ => false,
    }
}
