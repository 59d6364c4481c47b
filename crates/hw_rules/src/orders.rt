//! Orders of three ships: whether they contradict each other. Every timetable agrees with orders
//! that don't, so there is a test of rooms alone.
//!
//! Wrong body that is refused: `two_orders_are_enough`.
ghost use Rattle.std.specs.Prelude.{◌≡◌, ◌<◌};
ghost use Rattle.hw_model.specs.Rooms.{order_of};
ghost use Rattle.hw_model.specs.RefutingComputed.{orders_clash};

use hw_flat::{Order, Room, ShipId};

/// Whether the orders of three ships contradict each other. Three looks.
pub(crate) fn orders_refuted(v: ShipId, w: ShipId, x: ShipId, room: &Room) -> bool
    requires first { v < w }
    requires second { w < x }
    requires ship_in { x < room.now.ships }
    ensures value { result ≡ orders_clash (order_of room.now v w) (order_of room.now w x) (order_of room.now v x) }
{
    match (room.order(v, w), room.order(w, x), room.order(v, x)) {
        (Order::First, Order::First, Order::NotFirst) => true,
        (Order::NotFirst, Order::NotFirst, Order::First) => true,
        _ => false,
    }
}
