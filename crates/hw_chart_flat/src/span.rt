//! How many slots a picture shows.

ghost use Rattle.std.specs.Prelude.{◌≡◌, ◌≤◌, ◌<◌, All, Some, length};
ghost use Rattle.hw_model.specs.Problem.{IsTimetable, horizon};
ghost use Rattle.hw_model.specs.Limits.{JobFits, RuleFits};
ghost use Rattle.hw_chart_flat.specs.Fleets.{fleets_end, fleets_in, job_end, jobs_end, picture_span};

use crate::fleets::{Fleets, fleets_of, next};
use hw_flat::{Flat, Timetable};
use hw_model::{Job, MOST_SLOTS, Slot};
use hw_rules::rule_jobs;

/// The end of a job of a ship that sails.
fn job_end(slots: u32, table: &[Slot], job: &Job) -> u32
    requires fits { JobFits (length table.now) job.now }
    requires few { slots ≤ MOST_SLOTS }
    ensures value { result ≡ job_end slots table.now job.now }
    ensures small { result ≤ 1_535 }
{
    let slot = table[job.ship as usize];
    if slot < slots { slot + job.hold } else { 0 }
}

/// The last end of the jobs of ships that sail.
fn jobs_end(slots: u32, table: &[Slot], jobs: &[Job]) -> u32
    requires fit { All (JobFits (length table.now)) jobs.now }
    requires few { slots ≤ MOST_SLOTS }
    ensures value { result ≡ jobs_end slots table.now jobs.now }
    ensures small { result ≤ 1_535 }
{
    match jobs {
        [] => 0,
        [job, more @ ..] => job_end(slots, table, job).max(jobs_end(slots, table, more)),
    }
}

/// The last end of the jobs of some fleets, and at least the number of slots in which ships sail.
fn fleets_end(slots: u32, table: &Timetable, fleets: Fleets) -> u32
    requires fit { All (RuleFits (length table.now)) fleets.rules.now }
    requires few { slots ≤ MOST_SLOTS }
    ensures value { result ≡ fleets_end slots table.now (fleets_in fleets.entry) }
    ensures least { slots ≤ result }
    ensures small { result ≤ 1_535 }
{
    match next(fleets) {
        None => slots,
        Some(found) => {
            let end = jobs_end(slots, table.as_slice(), rule_jobs(found.rule));
            end.max(fleets_end(slots, table, found.rest))
        }
    }
}

/// How many slots the picture of a timetable shows.
#[tactic(auto, unfolding(crate::specs::Fleets::picture_span))]
pub(crate) fn span(flat: &Flat, table: &Timetable) -> u32
    requires { IsTimetable flat.now table.now }
    ensures value { result ≡ picture_span flat.now (Some table.now) }
    ensures least { horizon flat.now ≤ result }
    ensures some { 0 < result }
    ensures small { result ≤ 1_535 }
{
    fleets_end(flat.horizon(), table, fleets_of(flat))
}
