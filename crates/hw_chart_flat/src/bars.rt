//! The bars of a row: how long the ship must wait for others, and how long it holds tugs.

ghost use Rattle.std.specs.Prelude.{◌≡◌, ◌≤◌, ◌<◌, All, length};
ghost use Rattle.hw_model.specs.Limits.{RuleFits};
ghost use Rattle.hw_model.specs.Problem.{IsTimetable};
ghost use Rattle.hw_desk.specs.Writers.{Puts};
ghost use Rattle.hw_chart_flat.specs.Fleets.{fleets_in};
ghost use Rattle.hw_chart_flat.specs.Rows.{flat_bars, fleet_bars, job_bar, job_bars, wait_bar, flat_wait_bars};

use crate::fleets::{Fleets, fleets_of, next};
use crate::row::{Row, row_y};
use hw_chart::{put_bar, put_bars_begin};
use hw_chart_svg::put_svg_end;
use hw_desk::Writer;
use hw_flat::{Flat, Timetable};
use hw_model::{Job, MOST_SHIPS, Rule, ShipId, Slot};
use hw_rules::rule_jobs;

/// Puts how long a ship must wait for another by a rule.
fn put_wait_bar<W: Writer>(out: &mut W, table: &[Slot], ship: ShipId, rule: &Rule)
    requires { RuleFits (length table.now) rule.now }
    ensures { Puts (wait_bar table.now ship rule.now) (W.state out.old) (W.state out.new) }
{
    match rule {
        Rule::Pair { .. } | Rule::Tugs { .. } => out.put(b""),
        Rule::After { v, w, gap } => {
            if *w == ship {
                let from = u64::from(table[*v as usize]);
                put_bar(out, b"be", from, from + u64::from(*gap), 0);
            } else {
                out.put(b"");
            }
        }
    }
}

/// Puts how long a ship must wait for others.
fn put_wait_bars<W: Writer>(out: &mut W, table: &[Slot], ship: ShipId, rules: &[Rule])
    requires { All (RuleFits (length table.now)) rules.now }
    ensures { Puts (flat_wait_bars table.now ship rules.now) (W.state out.old) (W.state out.new) }
{
    for rule in rules {
        put_wait_bar(out, table, ship, rule);
    }
}

/// Puts how long a ship that sails in a slot holds the tugs of a job, where the job is its own.
fn put_job_bar<W: Writer>(out: &mut W, slot: Slot, ship: ShipId, job: Job)
    ensures { Puts (job_bar slot ship job) (W.state out.old) (W.state out.new) }
{
    if job.ship == ship {
        let from = u64::from(slot);
        put_bar(out, b"tu", from, from + u64::from(job.hold), 1);
    } else {
        out.put(b"");
    }
}

/// Puts how long a ship that sails in a slot holds the tugs of its jobs.
fn put_job_bars<W: Writer>(out: &mut W, slot: Slot, ship: ShipId, jobs: &[Job])
    ensures { Puts (job_bars slot ship jobs.now) (W.state out.old) (W.state out.new) }
{
    if let [job, more @ ..] = jobs {
        put_job_bar(out, slot, ship, *job);
        put_job_bars(out, slot, ship, more);
    }
}

/// Puts how long a ship that sails in a slot holds tugs of some fleets.
fn put_fleet_bars<W: Writer>(out: &mut W, slot: Slot, ship: ShipId, fleets: Fleets)
    ensures { Puts (fleet_bars slot ship (fleets_in fleets.entry)) (W.state out.old) (W.state out.new) }
{
    if let Some(found) = next(fleets) {
        put_job_bars(out, slot, ship, rule_jobs(found.rule));
        put_fleet_bars(out, slot, ship, found.rest);
    }
}

/// Puts the window of a ship's bars.
#[tactic(auto, unfolding(crate::specs::Rows::flat_bars))]
pub(crate) fn put_bars<W: Writer>(out: &mut W, flat: &Flat, table: &Timetable, row: Row, slot: Slot)
    requires listed { IsTimetable flat.now table.now }
    requires few { row.rank ≤ MOST_SHIPS }
    ensures { Puts (flat_bars flat.now table.now row slot) (W.state out.old) (W.state out.new) }
{
    put_bars_begin(out, row_y(row), row.span);
    put_wait_bars(out, table.as_slice(), row.ship, flat.rules());
    put_fleet_bars(out, slot, row.ship, fleets_of(flat));
    put_svg_end(out);
}
