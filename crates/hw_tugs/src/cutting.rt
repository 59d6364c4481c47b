//! The reductions of a room that a rule on tugs refutes, by the load of the slots.
//!
//! Wrong bodies that are refused: `highest_slot_not_tried`, `quiet_by_the_fleet_of_the_first_slot`.
ghost use Rattle.std.specs.Prelude.{◌≡◌, ℕ, ◌<◌, ◌≤◌, All, AllPairs, MatchOption, length, slice_index};
ghost use Rattle.hw_model.specs.Limits.{JobFits};
ghost use Rattle.hw_tugs.specs.Fleets.{IsLeast};
ghost use Rattle.hw_tugs.specs.Held.{IsForced};
ghost use Rattle.hw_tugs.specs.Over.{IsOver, IsCalm, Overfills, ExceedsNone, CutsAt};

use crate::fleets::Fleets;
use hw_flat::{Job, Room, Slot};
use hw_model::MOST_SLOTS;
use hw_prop::Reduction;

/// A reduction of a room, and a slot in which it exceeds the fleet of that slot.
#[derive(Clone, Copy)]
pub struct Cut {
    pub reduction: Reduction,
    pub slot: Slot,
}

/// The first slot from `from` on, before `to`, in which `more` more tugs exceed its fleet, or none.
/// It takes a step for each slot up to it.
fn first_over(load: &[u64], fleets: &Fleets, more: u32, from: usize, to: usize) -> Option<usize>
    requires least { IsLeast fleets.now }
    requires small { (slot : ℕ) → slot < length load.now → slice_index load.now slot ≤ 10_000 }
    ensures found { MatchOption result ((slot : ℕ) → IsOver load.now fleets.now more from to slot → ⊥) (IsOver load.now fleets.now more from to) }
{
    let end = to.min(load.len());
    for slot in from..end {
        if fleets.exceeded(slot, load[slot] + u64::from(more)) {
            return Some(slot);
        }
    }
    None
}

/// The last one, or none. It takes a step for each slot down to it.
fn last_over(load: &[u64], fleets: &Fleets, more: u32, from: usize, to: usize) -> Option<usize>
    requires least { IsLeast fleets.now }
    requires small { (slot : ℕ) → slot < length load.now → slice_index load.now slot ≤ 10_000 }
    ensures found { MatchOption result ((slot : ℕ) → IsOver load.now fleets.now more from to slot → ⊥) (IsOver load.now fleets.now more from to) }
{
    let mut left = to.min(load.len());
    while from < left {
        left -= 1;
        if fleets.exceeded(left, load[left] + u64::from(more)) {
            return Some(left);
        }
    }
    None
}

/// Where a job exceeds the fleet: as it is, or at an end of its ship's range; or none.
///
/// At the low end it is the last such slot, at the high end the first, so that the ship is cut as
/// far as possible. It takes at most a step for each slot in which the job may hold its tugs.
fn job_cut(job: Job, fleets: &Fleets, room: &Room, load: &[u64]) -> Option<Cut>
    requires ship_in { job.ship < room.now.ships }
    requires short { length load.now ≤ MOST_SLOTS }
    requires least { IsLeast fleets.now }
    requires small { (slot : ℕ) → slot < length load.now → slice_index load.now slot ≤ 10_000 }
    ensures found { MatchOption result (IsCalm load.now fleets.now room.now job) (λ cut. Overfills load.now fleets.now room.now job cut.reduction cut.slot) }
{
    let ship = job.ship;
    let low = room.low(ship) as usize;
    let high = room.high(ship) as usize;
    let hold = job.hold as usize;
    if let Some(slot) = first_over(load, fleets, 0, high, low + hold) {
        return Some(Cut {
            reduction: Reduction::Here,
            slot: slot as Slot,
        });
    }
    if let Some(slot) = last_over(load, fleets, job.tugs, low, high.min(low + hold)) {
        return Some(Cut {
            reduction: Reduction::Lowest { ship },
            slot: slot as Slot,
        });
    }
    if let Some(slot) = first_over(load, fleets, job.tugs, high.max(low + hold), high + hold) {
        return Some(Cut {
            reduction: Reduction::Highest { ship },
            slot: slot as Slot,
        });
    }
    None
}

/// A reduction of the room that exceeds the fleet, or none where there is none.
///
/// It takes at most a step for each slot in which a job may hold its tugs.
pub(crate) fn tug_cut(jobs: &[Job], fleets: &Fleets, room: &Room, load: &[u64]) -> Option<Cut>
    requires fit { All (JobFits room.now.ships) jobs.now }
    requires ascends { AllPairs (λ a b. a.ship < b.ship) jobs.now }
    requires short { length load.now ≤ MOST_SLOTS }
    requires least { IsLeast fleets.now }
    requires small { (slot : ℕ) → slot < length load.now → slice_index load.now slot ≤ 10_000 }
    requires forced { IsForced jobs.now room.now load.now }
    ensures found { MatchOption result (ExceedsNone fleets.now jobs.now (length load.now) room.now) (CutsAt fleets.now jobs.now (length load.now) room.now) }
{
    let _ships = room.ships();
    for job in jobs {
        if let Some(cut) = job_cut(*job, fleets, room, load) {
            return Some(cut);
        }
    }
    None
}
