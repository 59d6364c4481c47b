//! Windows: whether a ship has a value in its slot. A room is refuted where its range has none.
//!
//! Wrong body that is refused: `value_of_zero_is_none`.
ghost use Rattle.std.specs.Prelude.{◌≡◌, ◌+◌, ◌<◌, ◌≤◌, is_none, is_some};
ghost use Rattle.std.specs.List.{list_all};
ghost use Rattle.hw_model.specs.Problem.{value_at};
ghost use Rattle.hw_model.specs.Rooms.{RoomFits};
ghost use Rattle.hw_model.specs.RefutingComputed.{slots_of};

use crate::spacing::sailing_slots;
use hw_flat::{Flat, Room, ShipId, Slot};

/// Whether a ship has a value in a slot. One look.
pub(crate) fn window_holds(flat: &Flat, ship: ShipId, slot: Slot) -> bool
    requires ship_in { ship < flat.now.ships }
    requires slot_in { slot < flat.now.slots }
    ensures value { result ≡ is_some (value_at flat.now ship slot) }
{
    flat.value(ship, slot).is_some()
}

/// Whether no slot of the ship's range has a value. It goes once through the range.
pub(crate) fn window_refuted(flat: &Flat, ship: ShipId, room: &Room) -> bool
    requires room { RoomFits flat.now room.now }
    requires ship_in { ship < flat.now.ships }
    ensures value { result ≡ list_all (λ slot. is_none (value_at flat.now ship slot)) (slots_of room.now ship) }
{
    for slot in room.low(ship)..slot_after(flat, room.high(ship)) {
        if flat.value(ship, slot).is_some() {
            return false;
        }
    }
    true
}

/// The number after a slot.
pub(crate) fn slot_after(flat: &Flat, slot: Slot) -> Slot
    requires slot_in { slot < flat.now.slots }
    ensures value { result ≡ slot + 1 }
    ensures in_slots { result ≤ flat.now.slots }
{
    let _slots = sailing_slots(flat);
    slot + 1
}
