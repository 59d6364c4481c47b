//! The tugs that a fleet has in each slot of the horizon.
//!
//! Wrong body that is refused: `one_tug_over_the_fleet_is_quiet`.
ghost use Rattle.std.specs.Prelude.{◌≡◌, ℕ, ◌<◌, ◌≤◌, IfOk, nat_lt, slice_index, slice_index_or};
ghost use Rattle.hw_model.specs.Rules.{fleet_in};
ghost use Rattle.hw_tugs.specs.Fleets.{fleet_at, IsLeast, TellsFleet};

use hw_model::{NoMemory, Step};
use hw_rules::Fleet;
use std::alloc::Global;

/// The fleet of a rule on tugs, by the slot: one number where the rule has no steps.
#[derive(Drop)]
pub struct Fleets {
    /// The fleet of every slot of which `hours` say nothing.
    pub fleet: u32,
    /// For each slot of the horizon its fleet. There are none where the rule has no steps.
    pub hours: Vec<u32>,
    /// No slot has fewer tugs.
    pub least: u32,
}

/// The fleet of each slot of the horizon. It goes once through the slots and once through the steps.
fn hours_of(alloc: Global, fleet: u32, later: &[Step], horizon: u32) -> Result<Vec<u32>, NoMemory>
    ensures told { IfOk result (λ hours. (slot : ℕ) → slot < horizon → slice_index_or hours.items slot fleet ≡ fleet_in fleet later.now slot) }
{
    let mut hours = Vec::new(alloc);
    let mut tugs = Fleet::new(fleet, later);
    for slot in 0..horizon {
        hours.push(tugs.tugs_in(slot))?;
    }
    Ok(hours)
}

/// The least of a fleet and of those of the hours.
fn least_of(fleet: u32, hours: &[u32]) -> u32
    ensures least { (slot : ℕ) → result ≤ slice_index_or hours.now slot fleet }
{
    let mut least = fleet;
    for hour in hours {
        least = least.min(*hour);
    }
    least
}

impl Fleets {
    /// The fleets of a rule. Without steps it takes no memory.
    pub(crate) fn of_rule(
        alloc: Global,
        fleet: u32,
        later: &[Step],
        horizon: u32,
    ) -> Result<Fleets, NoMemory>
        ensures told { IfOk result (TellsFleet horizon fleet later.now) }
    {
        let hours = if later.is_empty() {
            Vec::new(alloc)
        } else {
            hours_of(alloc, fleet, later, horizon)?
        };
        let least = least_of(fleet, &hours);
        Ok(Fleets {
            fleet,
            hours,
            least,
        })
    }

    /// The fleet of a slot. One look.
    pub(crate) fn at(&self, slot: usize) -> u32
        ensures value { result ≡ fleet_at self.now slot }
    {
        match self.hours.get(slot) {
            Some(fleet) => *fleet,
            None => self.fleet,
        }
    }

    /// Whether so many tugs are more than the fleet of a slot has. It is one comparison where they
    /// aren't more than the least fleet.
    pub(crate) fn exceeded(&self, slot: usize, held: u64) -> bool
        requires least { IsLeast self.now }
        ensures value { result ≡ nat_lt (fleet_at self.now slot) held }
    {
        u64::from(self.least) < held && u64::from(self.at(slot)) < held
    }
}
