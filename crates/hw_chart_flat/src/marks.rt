//! Which marks are in a picture: those that its legend names.

ghost use Rattle.std.specs.Prelude.{◌≡◌, ◌<◌, ◌≤◌, All, IfSome, length, nat_lt, option_map, slice_index};
ghost use Rattle.std.specs.List.{list_any};
ghost use Rattle.hw_model.specs.Limits.{JobFits, RuleFits};
ghost use Rattle.hw_model.specs.Problem.{IsTimetable, horizon};
ghost use Rattle.hw_chart_flat.specs.Fleets.{fleets_in};
ghost use Rattle.hw_chart_flat.specs.Marks.{awaits_first, holds_some, is_flat_marked, is_held_whole as held_whole, planned_has, some_could_move as could_move_somewhere, some_has_value as value_somewhere, some_sails as sails_somewhere, unplanned_has};
ghost use Rattle.hw_chart_flat.specs.Moves.{IsPlan};

use crate::fleets::{Fleets, fleets_of, next};
use crate::panels::is_held_whole;
use crate::plan::Plan;
use crate::rows::could_move;
use crate::values::sails_nowhere;
use hw_flat::{Flat, Timetable};
use hw_model::{Job, Rule, Slot};
use hw_rules::rule_jobs;

/// A kind of mark that the legend names: a slot in which a ship has a value, one with its most, one to which it alone could
/// move, a sailing, its tugs, that it must wait for another ship, and a fleet of which all tugs are held.
#[derive(Clone, Copy)]
pub enum FlatMark {
    HasValue,
    HasMost,
    CouldMove,
    Sails,
    HoldsTugs,
    MustWait,
    WholeFleet,
}

/// Whether a ship has a value in some slot.
fn some_has_value(flat: &Flat) -> bool
    ensures { result ≡ value_somewhere flat.now }
{
    (0..flat.shape().ships).any(|ship| !sails_nowhere(flat, ship))
}

/// Whether a ship alone could move to some slot.
fn some_could_move(flat: &Flat, plan: &Plan) -> bool
    requires { IsPlan flat.now plan.now }
    ensures { result ≡ could_move_somewhere flat.now plan.now.table }
{
    (0..flat.shape().ships).any(|ship| could_move(flat, plan, ship))
}

/// Whether a ship sails.
fn some_sails(slots: u32, table: &[Slot]) -> bool
    ensures { result ≡ sails_somewhere slots table.now }
{
    table.iter().any(|slot| *slot < slots)
}

/// Whether one of these jobs is that of a ship that sails.
fn some_job_is_done(slots: u32, table: &[Slot], jobs: &[Job]) -> bool
    requires { All (JobFits (length table.now)) jobs.now }
    ensures { result ≡ list_any (λ job. nat_lt (slice_index table.now job.ship) slots) jobs.now }
{
    match jobs {
        [] => false,
        [job, more @ ..] => {
            table[job.ship as usize] < slots || some_job_is_done(slots, table, more)
        }
    }
}

/// Whether ships that sail hold tugs of these fleets.
fn some_hold_tugs(slots: u32, table: &Timetable, fleets: Fleets) -> bool
    requires { All (RuleFits (length table.now)) fleets.rules.now }
    ensures { result ≡ list_any (holds_some slots table.now) (fleets_in fleets.entry) }
{
    match next(fleets) {
        None => false,
        Some(found) => {
            some_job_is_done(slots, table.as_slice(), rule_jobs(found.rule))
                || some_hold_tugs(slots, table, found.rest)
        }
    }
}

/// Whether a rule's second ship sails and must wait for the first.
fn must_wait(slots: u32, table: &[Slot], rule: &Rule) -> bool
    requires { RuleFits (length table.now) rule.now }
    ensures { result ≡ awaits_first slots table.now rule.now }
{
    match rule {
        Rule::Pair { .. } | Rule::Tugs { .. } => false,
        Rule::After { w, gap, .. } => table[*w as usize] < slots && *gap > 0,
    }
}

/// Whether a ship that sails must wait for another by one of these rules.
fn some_must_wait(slots: u32, table: &[Slot], rules: &[Rule]) -> bool
    requires { All (RuleFits (length table.now)) rules.now }
    ensures { result ≡ list_any (awaits_first slots table.now) rules.now }
{
    match rules {
        [] => false,
        [rule, more @ ..] => must_wait(slots, table, rule) || some_must_wait(slots, table, more),
    }
}

/// Whether one of these fleets is held whole in some slot.
fn some_is_held_whole(slots: u32, table: &Timetable, fleets: Fleets) -> bool
    requires { All (RuleFits (length table.now)) fleets.rules.now }
    ensures { result ≡ list_any (held_whole slots table.now) (fleets_in fleets.entry) }
{
    match next(fleets) {
        None => false,
        Some(found) => {
            is_held_whole(slots, table, found.rule) || some_is_held_whole(slots, table, found.rest)
        }
    }
}

/// Whether a picture without a timetable has this mark.
fn unplanned_has(flat: &Flat, mark: FlatMark) -> bool
    ensures { result ≡ unplanned_has flat.now mark }
{
    match mark {
        FlatMark::HasValue | FlatMark::HasMost => some_has_value(flat),
        FlatMark::CouldMove | FlatMark::Sails | FlatMark::HoldsTugs => false,
        FlatMark::MustWait | FlatMark::WholeFleet => false,
    }
}

/// Whether the picture of a timetable has this mark.
fn planned_has(flat: &Flat, plan: &Plan, mark: FlatMark) -> bool
    requires { IsPlan flat.now plan.now }
    ensures { result ≡ planned_has flat.now plan.now.table mark }
{
    let slots = flat.horizon();
    let table = plan.table();
    match mark {
        FlatMark::HasValue | FlatMark::HasMost => some_has_value(flat),
        FlatMark::CouldMove => some_could_move(flat, plan),
        FlatMark::Sails => some_sails(slots, table.as_slice()),
        FlatMark::HoldsTugs => some_hold_tugs(slots, table, fleets_of(flat)),
        FlatMark::MustWait => some_must_wait(slots, table.as_slice(), flat.rules()),
        FlatMark::WholeFleet => some_is_held_whole(slots, table, fleets_of(flat)),
    }
}

/// Whether the picture has this mark.
pub(crate) fn is_marked(flat: &Flat, plan: Option<&Plan>, mark: FlatMark) -> bool
    requires { IfSome plan (λ p. IsPlan flat.now p.now) }
    ensures { result ≡ is_flat_marked flat.now (option_map (λ p. p.now.table) plan.entry) mark }
{
    match plan {
        None => unplanned_has(flat, mark),
        Some(plan) => planned_has(flat, plan, mark),
    }
}
