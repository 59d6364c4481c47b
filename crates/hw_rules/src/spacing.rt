//! Rules on the difference of two ships' slots: which rooms they refute.
ghost use Rattle.std.specs.Prelude.{◌≡◌, ◌+◌, ◌<◌, ◌≤◌, ℕ, IsTrue, ◌↔◌, MatchOption, true, ◌+ℤ◌, pos};
ghost use Rattle.std.specs.List.{list_all};
ghost use Rattle.hw_model.specs.Problem.{horizon};
ghost use Rattle.hw_model.specs.Rules.{misses};
ghost use Rattle.hw_rules.specs.Differences.{HasSlots, AreSlots, NonePasses, frees, passes, least, greatest, Covered, HoleAt, two_at};

use hw_flat::{Flat, Hole, Order, Room, ShipId, Slot};
use hw_model::{MOST_DIFFERENCE, MOST_SLOTS};

/// The ranges of two ships and what is set of their order; `v` is the lesser ship, `w` the greater.
#[derive(Clone, Copy)]
pub struct Two {
    pub low_v: Slot,
    pub high_v: Slot,
    pub low_w: Slot,
    pub high_w: Slot,
    pub order: Order,
}

/// Whose staying frees a rule on two ships.
#[derive(Clone, Copy)]
pub enum Freeing {
    Either,
    Lesser,
    Greater,
}

/// The number of slots in which ships sail: all but the one that means staying.
pub fn sailing_slots(flat: &Flat) -> Slot
    ensures value { result ≡ horizon flat.now }
    ensures few { result ≤ MOST_SLOTS }
    ensures last { flat.now.slots ≤ result + 1 }
{
    flat.horizon()
}

/// What a room says of two of its ships, of a problem with at most `MOST_DIFFERENCE` slots.
pub fn two_of(room: &Room, v: ShipId, w: ShipId) -> Two
    requires ascends { v < w }
    requires ship_in { w < room.now.ships }
    requires few_slots { room.now.slots ≤ MOST_DIFFERENCE }
    ensures value { result ≡ two_at room.now v w }
    ensures slots { HasSlots result }
    ensures in_slots { result.high_w < room.now.slots }
{
    Two {
        low_v: room.low(v),
        high_v: room.high(v),
        low_w: room.low(w),
        high_w: room.high(w),
        order: room.order(v, w),
    }
}

/// A hole that holds the difference.
fn hole_at(holes: &[Hole], d: i64) -> Option<Hole>
    ensures { MatchOption result (list_all (misses d) holes.now ≡ true) (HoleAt holes.now d) }
{
    for hole in holes {
        if i64::from(hole.lo) <= d && d <= i64::from(hole.hi) {
            return Some(*hole);
        }
    }
    None
}

/// The difference right after a hole.
fn past_hole(hole: Hole) -> i64
    ensures { result ≡ hole.hi +ℤ pos 1 }
{
    i64::from(hole.hi) + 1
}

/// Whether each difference from `lo` to `hi` lies in a hole.
///
/// It looks for a hole at most once for each hole and once more.
pub fn covered(lo: i64, hi: i64, holes: &[Hole]) -> bool
    ensures { IsTrue result ↔ Covered lo hi holes.now }
{
    if hi < lo {
        return true;
    }
    match hole_at(holes, lo) {
        None => false,
        Some(hole) => covered(past_hole(hole), hi, holes),
    }
}

fn least_difference(two: Two) -> i64
    requires { HasSlots two }
    ensures { result ≡ least two }
{
    let least = i64::from(two.low_w) - i64::from(two.high_v);
    match two.order {
        Order::First => least.max(1),
        Order::Unset | Order::NotFirst => least,
    }
}

fn greatest_difference(two: Two) -> i64
    requires { HasSlots two }
    ensures { result ≡ greatest two }
{
    let greatest = i64::from(two.high_w) - i64::from(two.low_v);
    match two.order {
        Order::NotFirst => greatest.min(0),
        Order::Unset | Order::First => greatest,
    }
}

/// Whether the lesser ship may stay beside some slot of the greater.
fn lesser_may_stay(two: Two, horizon: Slot) -> bool
    requires slots { HasSlots two }
    requires last_w { two.high_w ≤ horizon }
    ensures { IsTrue result ↔ ((x : ℕ) × (y : ℕ) × (horizon ≤ x) × AreSlots two x y) }
{
    horizon <= two.high_v && two.order != Order::First
}

/// Whether the greater ship may stay beside some slot of the lesser.
fn greater_may_stay(two: Two, horizon: Slot) -> bool
    requires slots { HasSlots two }
    requires last_w { two.high_w ≤ horizon }
    ensures { IsTrue result ↔ ((x : ℕ) × (y : ℕ) × (horizon ≤ y) × AreSlots two x y) }
{
    horizon <= two.high_w
        && match two.order {
            Order::Unset => true,
            Order::First => two.low_v < two.high_w,
            Order::NotFirst => two.high_w <= two.high_v,
        }
}

/// Whether a ship whose staying frees the rule may stay beside some slot of the other.
fn may_be_free(two: Two, freeing: Freeing, horizon: Slot) -> bool
    requires slots { HasSlots two }
    requires last_w { two.high_w ≤ horizon }
    ensures { IsTrue result ↔ ((x : ℕ) × (y : ℕ) × (IsTrue (frees horizon freeing x y)) × AreSlots two x y) }
{
    match freeing {
        Freeing::Either => lesser_may_stay(two, horizon) || greater_may_stay(two, horizon),
        Freeing::Lesser => lesser_may_stay(two, horizon),
        Freeing::Greater => greater_may_stay(two, horizon),
    }
}

/// Whether no slots of the two ranges agree with the order and meet the rule with these holes.
///
/// It goes over the holes at most once for each hole and once more, whatever the ranges are: the
/// differences that the ranges and the order leave are all those from the least to the greatest.
pub fn two_refuted(two: Two, holes: &[Hole], freeing: Freeing, horizon: Slot) -> bool
    requires slots { HasSlots two }
    requires last_w { two.high_w ≤ horizon }
    ensures { IsTrue result ↔ NonePasses (passes horizon freeing holes.now) two }
{
    !may_be_free(two, freeing, horizon)
        && covered(least_difference(two), greatest_difference(two), holes)
}
