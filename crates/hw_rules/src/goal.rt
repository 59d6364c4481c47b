//! The goal: more cargo than the best so far. Cargo and values are in tenths of a tonne.
//!
//! Wrong body that is refused: `no_best_is_best_zero`.
ghost use Rattle.std.specs.Prelude.{◌≡◌, ◌<◌, ◌≤◌, IfSome};
ghost use Rattle.hw_model.specs.Problem.{IsTimetable};
ghost use Rattle.hw_model.specs.Timetables.{cargo, beats};
ghost use Rattle.hw_model.specs.Rooms.{RoomFits, low_of, high_of};
ghost use Rattle.hw_model.specs.Refuting as refuting;
ghost use Rattle.hw_model.specs.RefutingComputed.{at_most_best};

use crate::window::slot_after;
use hw_flat::{Flat, Room, ShipId, Slot, Timetable};
use hw_model::{MOST_CARGO, MOST_VALUE};

/// Whether a cargo is above the best so far, or there is none yet. One comparison.
pub fn beats(cargo: u64, best: Option<u64>) -> bool
    ensures value { result ≡ beats cargo best }
{
    match best {
        None => true,
        Some(best) => best < cargo,
    }
}

/// The sum of the ships' values in their slots, in tenths of a tonne, or none where a ship has no
/// value in its slot. One look for each ship.
pub fn cargo(flat: &Flat, table: &Timetable) -> Option<u64>
    requires listed { IsTimetable flat.now table.now }
    ensures value { result ≡ cargo flat.now table.now }
    ensures small { IfSome result (λ c. c ≤ MOST_CARGO) }
{
    cargo_of(flat, table.as_slice())
}

pub(crate) fn cargo_of(flat: &Flat, table: &[Slot]) -> Option<u64>
    requires listed { IsTimetable flat.now table.now }
    ensures value { result ≡ cargo flat.now table.now }
    ensures small { IfSome result (λ c. c ≤ MOST_CARGO) }
{
    let mut sum: u64 = 0;
    for ship in 0..flat.shape().ships {
        match flat.value(ship, table[ship as usize]) {
            None => return None,
            Some(value) => sum += value,
        }
    }
    Some(sum)
}

/// Whether there is a best and the room holds nothing above it. It goes once through each range.
pub(crate) fn goal_refuted(flat: &Flat, best: Option<u64>, room: &Room) -> bool
    requires room { RoomFits flat.now room.now }
    ensures value { result ≡ at_most_best (refuting.greatest_sum flat.now room.now) best }
{
    match best {
        None => false,
        Some(best) => greatest_sum(flat, room) <= best,
    }
}

/// The greatest value of a ship in the slots from `low` to `high`, 0 where these have none. It
/// goes once through them.
pub fn greatest_value(flat: &Flat, ship: ShipId, low: Slot, high: Slot) -> u64
    requires ship_in { ship < flat.now.ships }
    requires slot_in { high < flat.now.slots }
    ensures value { result ≡ refuting.greatest_value flat.now ship low high }
    ensures small { result ≤ MOST_VALUE }
{
    let mut greatest: u64 = 0;
    for slot in low..slot_after(flat, high) {
        greatest = greatest.max(flat.value(ship, slot).unwrap_or(0));
    }
    greatest
}

/// The same in the ship's range.
fn greatest_of(flat: &Flat, ship: ShipId, room: &Room) -> u64
    requires room { RoomFits flat.now room.now }
    requires ship_in { ship < flat.now.ships }
    ensures value { result ≡ refuting.greatest_value flat.now ship (low_of room.now ship) (high_of room.now ship) }
    ensures small { result ≤ MOST_VALUE }
{
    greatest_value(flat, ship, room.low(ship), room.high(ship))
}

/// The sum of the ships' greatest values in their ranges. It goes once through each range.
pub fn greatest_sum(flat: &Flat, room: &Room) -> u64
    requires room { RoomFits flat.now room.now }
    ensures value { result ≡ refuting.greatest_sum flat.now room.now }
    ensures small { result ≤ MOST_CARGO }
{
    let mut sum: u64 = 0;
    for ship in 0..flat.shape().ships {
        sum += greatest_of(flat, ship, room);
    }
    sum
}
