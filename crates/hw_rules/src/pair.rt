//! Pairs: whether the difference of two ships' slots, the greater ship's less the lesser's, lies
//! in no hole. Such a rule holds where one of the two stays.
//!
//! Wrong body that is refused: `first_hole_only`.
ghost use Rattle.std.specs.Prelude.{◌≡◌, ◌<◌, pos, ◌-ℤ◌, ◌||◌};
ghost use Rattle.std.specs.List.{list_all};
ghost use Rattle.hw_model.specs.declared.rule.Rule.TheVariants as rules;
ghost use Rattle.hw_model.specs.Problem.{stays};
ghost use Rattle.hw_model.specs.Rules.{misses};
ghost use Rattle.hw_model.specs.Rooms.{RoomFits};
ghost use Rattle.hw_model.specs.RefutingComputed.{none_meets};

use crate::spacing::{Freeing, sailing_slots, two_of, two_refuted};
use hw_flat::{Flat, Hole, Room, ShipId, Slot};

/// Whether the rule with these holes holds of two slots. It looks at each hole once.
pub(crate) fn pair_holds(flat: &Flat, holes: &[Hole], x: Slot, y: Slot) -> bool
    ensures value { result ≡ (stays flat.now x || stays flat.now y || list_all (misses (pos y -ℤ pos x)) holes.now) }
{
    let horizon = flat.horizon();
    horizon <= x || horizon <= y || misses_all(holes, i64::from(y) - i64::from(x))
}

fn misses_all(holes: &[Hole], difference: i64) -> bool
    ensures value { result ≡ list_all (misses difference) holes.now }
{
    holes.iter().all(|hole| difference < i64::from(hole.lo) || i64::from(hole.hi) < difference)
}

/// Whether no slots of the two ranges agree with the order and keep out of the holes. Its cost
/// goes by the holes alone, squared, and not by the ranges.
pub(crate) fn pair_refuted(flat: &Flat, v: ShipId, w: ShipId, holes: &[Hole], room: &Room) -> bool
    requires room { RoomFits flat.now room.now }
    requires ascends { v < w }
    requires ship_in { w < flat.now.ships }
    ensures value { result ≡ none_meets flat.now room.now (rules.Pair v w holes.now) v w }
{
    let horizon = sailing_slots(flat);
    two_refuted(two_of(room, v, w), holes, Freeing::Either, horizon)
}
