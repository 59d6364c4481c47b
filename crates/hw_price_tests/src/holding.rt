//! Whether jobs hold more tugs than their fleet has, asked only in slots in which a range ends, and at steps of the fleet.
//!
//! The tugs that are held wherever ships sail in their ranges become more only in a slot in which a range ends, and
//! a fleet becomes smaller only at a step. So a rule on tugs costs a look at each job for each range that is
//! narrowed, and for each step at which such a ship surely holds its tugs, and not for each slot of the horizon: each
//! two blocks of a line may have to ask all rules.
//!
//! Wrong bodies that are refused: `tugs_are_asked_in_the_first_end_alone`, `tugs_are_asked_at_no_step`.

ghost use Rattle.std.specs.Prelude.{◌≡◌, ◌↔◌, ◌≤◌, ◌<◌, length, All, AllPairs, Any, IsFalse, IsTrue};
ghost use Rattle.hw_model.specs.Limits.{JobFits};
ghost use Rattle.hw_model.specs.Refuting.{Exceeds};
ghost use Rattle.hw_price_tests.specs.Asked.{ExceedsIn, ExceedsAtNoEnd, HoldsIn, HoldsSomewhere};

use hw_flat::{Flat, Room, Slot};
use hw_model::{Job, MOST_SHIPS, Step, fleet_in};
use hw_rules::forced_tugs;

/// Whether these jobs hold more tugs than the fleet has in some slot of the horizon, wherever ships sail in
/// their ranges.
///
/// It looks at each job once, and at all in the last slot and wherever else a range ends whose ship holds tugs
/// there, but for a range that ends where the one before it did. In a room of two blocks that makes four
/// looks at each job at most. A fleet with steps costs a look at each job more, and one for each step at which a job
/// surely holds its tugs.
pub(crate) fn exceeded(flat: &Flat, fleet: u32, later: &[Step], jobs: &[Job], room: &Room) -> bool
    requires few { length jobs.now ≤ MOST_SHIPS }
    requires fit { All (JobFits room.now.ships) jobs.now }
    requires ascend { AllPairs (λ a b. a.from < b.from) later.now }
    ensures value { IsTrue result ↔ Exceeds flat.now room.now fleet later.now jobs.now }
{
    exceeded_at_end(flat, fleet, later, jobs, room)
        || (!later.is_empty() && exceeded_at_step(flat, later, jobs, room))
}

/// Whether they hold more tugs than the fleet has in the last slot, or where a range ends.
fn exceeded_at_end(flat: &Flat, fleet: u32, later: &[Step], jobs: &[Job], room: &Room) -> bool
    requires few { length jobs.now ≤ MOST_SHIPS }
    requires fit { All (JobFits room.now.ships) jobs.now }
    ensures sound { IsTrue result → Exceeds flat.now room.now fleet later.now jobs.now }
    ensures none { IsFalse result → ExceedsAtNoEnd flat.now room.now fleet later.now jobs.now }
{
    let last = room.slots().saturating_sub(1);
    if exceeded_in(flat, fleet_in(fleet, later, last), jobs, room, last) {
        return true;
    }
    let mut asked = last;
    for job in jobs {
        let end = room.high(job.ship);
        if end != last && end != asked && holds_somewhere(room, *job) {
            if exceeded_in(flat, fleet_in(fleet, later, end), jobs, room, end) {
                return true;
            }
            asked = end;
        }
    }
    false
}

/// Whether they hold more tugs than the fleet has from a step on, where it begins.
fn exceeded_at_step(flat: &Flat, later: &[Step], jobs: &[Job], room: &Room) -> bool
    requires few { length jobs.now ≤ MOST_SHIPS }
    requires fit { All (JobFits room.now.ships) jobs.now }
    ensures value { IsTrue result ↔ Any (λ step. ExceedsIn flat.now room.now step.fleet jobs.now step.from) later.now }
{
    for job in jobs {
        if holds_somewhere(room, *job) && exceeded_while(flat, later, jobs, room, *job) {
            return true;
        }
    }
    false
}

/// The same for the steps at which this job holds its tugs, wherever its ship sails in its range.
fn exceeded_while(flat: &Flat, later: &[Step], jobs: &[Job], room: &Room, job: Job) -> bool
    requires few { length jobs.now ≤ MOST_SHIPS }
    requires fit { All (JobFits room.now.ships) jobs.now }
    requires ship_in { job.ship < room.now.ships }
    ensures value { IsTrue result ↔ Any (λ step. HoldsIn room.now job step.from × ExceedsIn flat.now room.now step.fleet jobs.now step.from) later.now }
{
    for step in later {
        if holds_in(room, job, step.from) && exceeded_in(flat, step.fleet, jobs, room, step.from) {
            return true;
        }
    }
    false
}

/// Whether there is a slot in which the job holds its tugs wherever its ship sails in its range.
fn holds_somewhere(room: &Room, job: Job) -> bool
    requires ship_in { job.ship < room.now.ships }
    ensures value { IsTrue result ↔ HoldsSomewhere room.now job }
{
    u64::from(room.high(job.ship)) < u64::from(room.low(job.ship)) + u64::from(job.hold)
}

/// Whether the job holds its tugs in this slot wherever its ship sails in its range.
fn holds_in(room: &Room, job: Job, slot: Slot) -> bool
    requires ship_in { job.ship < room.now.ships }
    ensures value { IsTrue result ↔ HoldsIn room.now job slot }
{
    room.high(job.ship) <= slot
        && u64::from(slot) < u64::from(room.low(job.ship)) + u64::from(job.hold)
}

/// Whether they hold more tugs than this fleet has in this slot, if it is one of the horizon.
fn exceeded_in(flat: &Flat, fleet: u32, jobs: &[Job], room: &Room, slot: Slot) -> bool
    requires few { length jobs.now ≤ MOST_SHIPS }
    requires fit { All (JobFits room.now.ships) jobs.now }
    ensures value { IsTrue result ↔ ExceedsIn flat.now room.now fleet jobs.now slot }
{
    slot < flat.horizon() && u64::from(fleet) < forced_tugs(jobs, room, slot)
}
