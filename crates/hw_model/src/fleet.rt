//! A fleet by the hour: how many tugs there are in each slot.
ghost use Rattle.std.specs.Prelude.{◌≡◌};
ghost use Rattle.hw_model.specs.Rules.{fleet_in};

use crate::rule::Step;
use crate::shape::Slot;

/// The tugs that a fleet has in a slot: those of the last step that doesn't begin after it, and where
/// there is none those that it begins with. The steps ascend; it looks at those up to the slot, and
/// one more.
pub fn fleet_in(fleet: u32, later: &[Step], slot: Slot) -> u32
    ensures value { result ≡ fleet_in fleet later.now slot }
{
    let mut now = fleet;
    for step in later {
        if slot < step.from {
            return now;
        }
        now = step.fleet;
    }
    now
}
