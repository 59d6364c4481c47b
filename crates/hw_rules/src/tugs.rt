//! Tugs: whether the jobs hold no more tugs than a fleet has, in each slot of the horizon.
ghost use Rattle.std.specs.Prelude.{◌≡◌, ◌≤◌, ◌<◌, length, All, nat_lt, nat_le, find, sum_by};
ghost use Rattle.std.specs.List.{list_all, list_any, range_with_len};
ghost use Rattle.hw_model.specs.Problem.{horizon};
ghost use Rattle.hw_model.specs.Rules.{held_by, busy, fleet_in};
ghost use Rattle.hw_model.specs.Limits.{RuleFits, JobFits};
ghost use Rattle.hw_model.specs.Refuting.{forced_by};

use crate::fleets::Fleet;
use hw_flat::{Flat, Room, Timetable};
use hw_model::{Job, MOST_HELD, MOST_SHIPS, Rule, Slot, Step};

/// The tugs that a rule's jobs hold in a slot; none for a rule on two ships.
///
/// It looks at `MOST_SHIPS` jobs at most.
pub fn busy(rule: &Rule, table: &Timetable, slot: Slot) -> u64
    requires rule_fits { RuleFits (length table.now) rule.now }
    ensures value { result ≡ busy rule.now table.now slot }
{
    match rule {
        Rule::Pair { .. } | Rule::After { .. } => 0,
        Rule::Tugs { jobs, .. } => held(&jobs.items, table.as_slice(), slot),
    }
}

/// The tugs that jobs hold in a slot.
pub(crate) fn held(jobs: &[Job], table: &[Slot], slot: Slot) -> u64
    requires few { length jobs.now ≤ MOST_SHIPS }
    requires fit { All (JobFits (length table.now)) jobs.now }
    ensures value { result ≡ sum_by (held_by table.now slot) jobs.now }
    ensures small { result ≤ MOST_HELD }
{
    let mut sum: u64 = 0;
    for job in jobs {
        let from = u64::from(table[job.ship as usize]);
        let now = u64::from(slot);
        if from <= now && now < from + u64::from(job.hold) {
            sum += u64::from(job.tugs);
        }
    }
    sum
}

/// The first slot of the horizon in which jobs hold more tugs than there are.
pub(crate) fn overfull(
    flat: &Flat,
    fleet: u32,
    later: &[Step],
    jobs: &[Job],
    table: &[Slot],
) -> Option<Slot>
    requires few { length jobs.now ≤ MOST_SHIPS }
    requires fit { All (JobFits (length table.now)) jobs.now }
    ensures value { result ≡ find (λ slot. nat_lt (fleet_in fleet later.now slot) (sum_by (held_by table.now slot) jobs.now)) (range_with_len 0 (horizon flat.now)) }
{
    let mut tugs = Fleet::new(fleet, later);
    for slot in 0..flat.horizon() {
        if u64::from(tugs.tugs_in(slot)) < held(jobs, table, slot) {
            return Some(slot);
        }
    }
    None
}

/// Whether the jobs hold no more tugs than there are in each slot of the horizon.
pub(crate) fn fleet_holds(
    flat: &Flat,
    fleet: u32,
    later: &[Step],
    jobs: &[Job],
    table: &[Slot],
) -> bool
    requires few { length jobs.now ≤ MOST_SHIPS }
    requires fit { All (JobFits (length table.now)) jobs.now }
    ensures value { result ≡ list_all (λ slot. nat_le (sum_by (held_by table.now slot) jobs.now) (fleet_in fleet later.now slot)) (range_with_len 0 (horizon flat.now)) }
{
    overfull(flat, fleet, later, jobs, table).is_none()
}

/// The tugs that the jobs hold in a slot wherever their ships sail in their ranges. It looks at
/// `MOST_SHIPS` jobs at most.
pub fn forced_tugs(jobs: &[Job], room: &Room, slot: Slot) -> u64
    requires few { length jobs.now ≤ MOST_SHIPS }
    requires fit { All (JobFits room.now.ships) jobs.now }
    ensures value { result ≡ sum_by (forced_by room.now slot) jobs.now }
    ensures small { result ≤ MOST_HELD }
{
    let mut sum: u64 = 0;
    for job in jobs {
        let low = u64::from(room.low(job.ship));
        if room.high(job.ship) <= slot && u64::from(slot) < low + u64::from(job.hold) {
            sum += u64::from(job.tugs);
        }
    }
    sum
}

/// Whether these tugs exceed the fleet in some slot of the horizon. It takes at most as many
/// steps as the horizon has slots, times the jobs.
pub(crate) fn tugs_refuted(
    flat: &Flat,
    fleet: u32,
    later: &[Step],
    jobs: &[Job],
    room: &Room,
) -> bool
    requires few { length jobs.now ≤ MOST_SHIPS }
    requires fit { All (JobFits room.now.ships) jobs.now }
    ensures value { result ≡ list_any (λ slot. nat_lt (fleet_in fleet later.now slot) (sum_by (forced_by room.now slot) jobs.now)) (range_with_len 0 (horizon flat.now)) }
{
    let mut tugs = Fleet::new(fleet, later);
    for slot in 0..flat.horizon() {
        if u64::from(tugs.tugs_in(slot)) < forced_tugs(jobs, room, slot) {
            return true;
        }
    }
    false
}
