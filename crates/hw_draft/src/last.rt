//! The last pass of a route.

ghost use Rattle.std.specs.Prelude.{◌≡◌, ◌≤◌, pos, All};
ghost use Rattle.hw_port.specs.Kept.{PassKept};
ghost use Rattle.hw_draft.specs.LastPasses.{judging_slot, last_pass};

use crate::passage::natural;
use hw_model::{MOST_SLOTS, Slot};
use hw_port::{Pass, PortParts};

/// The last pass of a route: the place of its waypoint, and how many slots after sailing it is made.
#[derive(Clone, Copy)]
pub struct LastPass {
    pub waypoint: u32,
    pub offset: u32,
}

/// The last slot whose height judges the last pass of a ship that sails in the slot.
pub fn judging_slot(parts: &PortParts, slot: Slot, last: LastPass) -> Slot
    requires slot { slot ≤ MOST_SLOTS }
    requires offset { last.offset ≤ 1_023 }
    ensures { result ≡ judging_slot parts.now slot last }
{
    let passed = slot + last.offset;
    if parts.is_least() { passed + 1 } else { passed }
}

/// The last pass of a route.
pub fn last_pass(waypoints: usize, route: &[Pass]) -> LastPass
    requires few { waypoints ≤ 16 }
    requires route { All (PassKept (pos waypoints)) route.now }
    ensures value { result ≡ last_pass route.now }
    ensures few { result.offset ≤ 1_023 }
{
    let [pass, more @ ..] = route else {
        return LastPass {
            waypoint: 0,
            offset: 0,
        };
    };
    let last = last_pass(waypoints, more);
    let offset = natural(pass.offset);
    if offset < last.offset {
        return last;
    }
    LastPass {
        waypoint: natural(pass.waypoint),
        offset,
    }
}
