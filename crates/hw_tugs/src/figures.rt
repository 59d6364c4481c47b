//! The tugs that the jobs of a rule certainly hold in each slot, and the ranges that say so.
ghost use Rattle.std.specs.Prelude.{◌≡◌, ◌≢◌, ℕ, ◌<◌, ◌≤◌, All, IfOk, length, slice_set, slice_index_or};
ghost use Rattle.hw_model.specs.Limits.{JobFits};
ghost use Rattle.hw_tugs.specs.Held.{IsLoad, IsForced, Sees};

use crate::mending::{add, take_away};
use hw_flat::{Job, Room, Slot};
use hw_model::{MOST_SHIPS, MOST_TUGS, NoMemory};
use hw_rules::forced_tugs;
use std::alloc::Global;

/// For each job the range of its ship that was last seen, and for each slot of the horizon the tugs
/// that the jobs hold wherever in these ranges their ships sail.
#[derive(Drop)]
pub struct Figures {
    pub seen: Vec<(Slot, Slot)>,
    pub load: Vec<u64>,
}

/// The ranges of the jobs' ships.
fn ranges_of(alloc: Global, jobs: &[Job], room: &Room) -> Result<Vec<(Slot, Slot)>, NoMemory>
    requires fit { All (JobFits room.now.ships) jobs.now }
    ensures length { IfOk result (λ seen. length seen.items ≡ length jobs.now) }
    ensures sees { IfOk result (λ seen. Sees room.now jobs.now seen.items) }
{
    let mut seen = Vec::new(alloc);
    for job in jobs {
        seen.push((room.low(job.ship), room.high(job.ship)))?;
    }
    Ok(seen)
}

/// The tugs that the jobs certainly hold in each slot of the horizon.
fn loads(alloc: Global, jobs: &[Job], room: &Room, horizon: u32) -> Result<Vec<u64>, NoMemory>
    requires few { length jobs.now ≤ MOST_SHIPS }
    requires fit { All (JobFits room.now.ships) jobs.now }
    ensures length { IfOk result (λ load. length load.items ≡ horizon) }
    ensures forced { IfOk result (λ load. IsForced jobs.now room.now load.items) }
{
    let mut load = Vec::new(alloc);
    for slot in 0..horizon {
        load.push(forced_tugs(jobs, room, slot))?;
    }
    Ok(load)
}

/// Updates the load where the job at a place has another range than the one seen: a step for each
/// slot that the job certainly holds in either of the two.
fn mend(load: &mut [u64], jobs: &[Job], seen: &[(Slot, Slot)], place: usize, range: (Slot, Slot))
    requires few { length jobs.now ≤ MOST_SHIPS }
    requires few_tugs { All (λ job. job.tugs ≤ MOST_TUGS) jobs.now }
    requires inside { place < length jobs.now }
    requires load { IsLoad jobs.now seen.now load.old }
    ensures length { length load.new ≡ length load.old }
    ensures load { IsLoad jobs.now (slice_set seen.now place range) load.new }
{
    let job = jobs[place];
    let old = seen[place];
    let hold = job.hold as usize;
    take_away(load, old.1 as usize, old.0 as usize + hold, job.tugs);
    add(load, range.1 as usize, range.0 as usize + hold, job.tugs);
}

impl Figures {
    /// The figures of a room. It takes as many steps as the horizon has slots, times the jobs.
    pub(crate) fn of_room(
        alloc: Global,
        jobs: &[Job],
        room: &Room,
        horizon: u32,
    ) -> Result<Figures, NoMemory>
        requires few { length jobs.now ≤ MOST_SHIPS }
        requires fit { All (JobFits room.now.ships) jobs.now }
        ensures length { IfOk result (λ figures. length figures.load.items ≡ horizon) }
        ensures load { IfOk result (λ figures. IsLoad jobs.now figures.seen.items figures.load.items) }
        ensures sees { IfOk result (λ figures. Sees room.now jobs.now figures.seen.items) }
    {
        let seen = ranges_of(alloc, jobs, room)?;
        let load = loads(alloc, jobs, room, horizon)?;
        Ok(Figures { seen, load })
    }

    /// The ship of the job at a place has another range: a step for each slot that the job certainly
    /// holds in either range, and none where the two are the same.
    fn set(&mut self, jobs: &[Job], place: usize, range: (Slot, Slot))
        requires few { length jobs.now ≤ MOST_SHIPS }
        requires few_tugs { All (λ job. job.tugs ≤ MOST_TUGS) jobs.now }
        requires inside { place < length jobs.now }
        requires load { IsLoad jobs.now self.old.seen.items self.old.load.items }
        ensures length { length self.new.load.items ≡ length self.old.load.items }
        ensures load { IsLoad jobs.now self.new.seen.items self.new.load.items }
        ensures seen { self.new.seen.items ≡ slice_set self.old.seen.items place range }
    {
        let old = self.seen[place];
        if old.0 == range.0 && old.1 == range.1 {
            return;
        }
        mend(&mut self.load, jobs, &self.seen, place, range);
        self.seen[place] = range;
    }

    /// Makes them the figures of a room: a comparison for each job, and for each range that differs
    /// a step for each slot that its job certainly holds.
    pub(crate) fn follow(&mut self, jobs: &[Job], room: &Room)
        requires few { length jobs.now ≤ MOST_SHIPS }
        requires fit { All (JobFits room.now.ships) jobs.now }
        requires load { IsLoad jobs.now self.old.seen.items self.old.load.items }
        ensures length { length self.new.load.items ≡ length self.old.load.items }
        ensures load { IsLoad jobs.now self.new.seen.items self.new.load.items }
        ensures sees { Sees room.now jobs.now self.new.seen.items }
    {
        for (place, job) in jobs.iter().enumerate() {
            self.set(jobs, place, (room.low(job.ship), room.high(job.ship)));
        }
    }
}
