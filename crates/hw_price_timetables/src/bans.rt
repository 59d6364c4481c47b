//! What a ship's slot rules out for another ship.

use hw_model::{Hole, MOST_DIFFERENCE, Slot};

/// The greatest difference of two slots.
const FARTHEST: i64 = MOST_DIFFERENCE as i64;

/// Slots of another ship that a ship's slot rules out.
#[derive(Clone, Copy)]
pub(crate) struct Ban {
    /// The other ship's slot less this ship's, both ends taken in.
    low: i64,
    high: i64,
    /// It goes no further than the slot before this one.
    end: Slot,
    /// Whether the other ship has to stay where this one stays.
    staying: bool,
}

impl Ban {
    /// For the later ship of a pair, by a hole, in a problem with this many slots to sail in.
    pub(crate) fn above(hole: Hole, horizon: Slot) -> Ban {
        Ban {
            low: i64::from(hole.lo),
            high: i64::from(hole.hi),
            end: horizon,
            staying: false,
        }
    }

    /// For the earlier ship of a pair.
    pub(crate) fn below(hole: Hole, horizon: Slot) -> Ban {
        Ban {
            low: i64::from(hole.hi).wrapping_neg(),
            high: i64::from(hole.lo).wrapping_neg(),
            end: horizon,
            staying: false,
        }
    }

    /// For the ship that waits, by the one that it waits for.
    pub(crate) fn waits(gap: u32, horizon: Slot) -> Ban {
        Ban {
            low: -FARTHEST,
            high: i64::from(gap).wrapping_sub(1),
            end: horizon,
            staying: true,
        }
    }

    /// For the ship that goes first, by the one that waits for it; `slots` counts the one that means staying.
    pub(crate) fn precedes(gap: u32, slots: Slot) -> Ban {
        Ban {
            low: 1_i64.wrapping_sub(i64::from(gap)),
            high: FARTHEST,
            end: slots,
            staying: false,
        }
    }

    /// The slots that are ruled out where the ship has this one: the first, and the one after the last.
    pub(crate) fn span(self, slot: Slot, horizon: Slot) -> (Slot, Slot) {
        if slot < horizon {
            let at = i64::from(slot);
            let from = at.wrapping_add(self.low);
            let after = at.wrapping_add(self.high).wrapping_add(1);
            (clipped(from, self.end), clipped(after, self.end))
        } else if self.staying {
            (0, horizon)
        } else {
            (0, 0)
        }
    }
}

/// The slot of 0 to `end` that is nearest.
fn clipped(slot: i64, end: Slot) -> Slot {
    u32::try_from(slot.max(0)).unwrap_or(end).min(end)
}
