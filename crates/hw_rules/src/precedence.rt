//! Precedences, `Rule::After`: whether the second ship sails at least a gap after the first. Such a
//! rule holds where the second ship stays, and not where the first alone does.
//!
//! Wrong body that is refused: `staying_first_ship_frees`.
ghost use Rattle.std.specs.Prelude.{◌≡◌, ◌≢◌, ◌<◌, ◌≤◌, ◌+◌, ◌||◌, ◌&&◌, not, nat_le, min, max};
ghost use Rattle.hw_model.specs.declared.rule.Rule.TheVariants as rules;
ghost use Rattle.hw_model.specs.Problem.{stays};
ghost use Rattle.hw_model.specs.Rooms.{RoomFits};
ghost use Rattle.hw_model.specs.RefutingComputed.{none_meets};
ghost use Rattle.hw_rules.specs.Differences.{hole_above, hole_below};
ghost use Rattle.hw_rules.specs.OneHole.{one_hole};

use crate::spacing::{Freeing, sailing_slots, two_of, two_refuted};
use hw_flat::{Flat, Hole, Room, ShipId, Slot};
use hw_model::{MOST_DIFFERENCE, MOST_SLOTS};

/// A precedence as a rule on the difference of two ships' slots, the greater ship's less the
/// lesser's, with one hole.
#[derive(Clone, Copy)]
pub struct OneHole {
    pub lesser: ShipId,
    pub greater: ShipId,
    pub hole: Hole,
    /// Whose staying frees the rule.
    pub freeing: Freeing,
}

/// Whether the rule with this gap, in slots, holds of two slots. Two comparisons.
pub(crate) fn precedence_holds(flat: &Flat, gap: u32, x: Slot, y: Slot) -> bool
    ensures value { result ≡ (stays flat.now y || (not (stays flat.now x) && nat_le (x + gap) y)) }
{
    let horizon = flat.horizon();
    horizon <= y || (x < horizon && u64::from(x) + u64::from(gap) <= u64::from(y))
}

/// Whether no slots of the two ranges agree with the order and have the gap from `v` to `w`. A few
/// comparisons, whatever the ranges are.
pub(crate) fn precedence_refuted(flat: &Flat, v: ShipId, w: ShipId, gap: u32, room: &Room) -> bool
    requires room { RoomFits flat.now room.now }
    requires first_in { v < flat.now.ships }
    requires second_in { w < flat.now.ships }
    requires two_ships { v ≢ w }
    requires short_gap { gap ≤ MOST_SLOTS }
    ensures value { result ≡ none_meets flat.now room.now (rules.After v w gap) v w }
{
    let horizon = sailing_slots(flat);
    let rule = one_hole(v, w, gap);
    let holes = [rule.hole];
    two_refuted(
        two_of(room, rule.lesser, rule.greater),
        &holes,
        rule.freeing,
        horizon,
    )
}

/// A precedence from `v` to `w` as a rule with one hole. It holds of the same slots, as long as
/// these are below `MOST_DIFFERENCE`.
pub fn one_hole(v: ShipId, w: ShipId, gap: u32) -> OneHole
    requires two_ships { v ≢ w }
    requires short_gap { gap ≤ MOST_SLOTS }
    ensures value { result ≡ one_hole v w gap }
    ensures lesser { result.lesser ≡ min v w }
    ensures greater { result.greater ≡ max v w }
    ensures ascends { result.lesser < result.greater }
{
    if v < w {
        OneHole {
            lesser: v,
            greater: w,
            hole: forbidden_above(gap),
            freeing: Freeing::Greater,
        }
    } else {
        OneHole {
            lesser: w,
            greater: v,
            hole: forbidden_below(gap),
            freeing: Freeing::Lesser,
        }
    }
}

/// The differences that a gap forbids, of the greater ship's slot less the lesser's, where the
/// lesser ship sails first.
pub fn forbidden_above(gap: u32) -> Hole
    requires short_gap { gap ≤ MOST_SLOTS }
    ensures value { result ≡ hole_above gap }
{
    Hole {
        lo: -(MOST_DIFFERENCE as i32),
        hi: gap as i32 - 1,
    }
}

/// The same where the greater ship sails first.
pub fn forbidden_below(gap: u32) -> Hole
    requires short_gap { gap ≤ MOST_SLOTS }
    ensures value { result ≡ hole_below gap }
{
    Hole {
        lo: 1 - gap as i32,
        hi: MOST_DIFFERENCE as i32,
    }
}
