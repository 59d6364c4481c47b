//! The whole report.

ghost use Rattle.std.specs.Prelude.{◌≡◌, ◌<◌, ◌≤◌, ◌+◌, length, All};
ghost use Rattle.hw_desk.specs.Writers.{Puts};
ghost use Rattle.hw_port.specs.Kept.{ShipKept};
ghost use Rattle.hw_port_model.specs.Numbers.{horizon_of};
ghost use Rattle.hw_port_windows.specs.Lines.{window_ship_line};
ghost use Rattle.hw_port_windows.specs.Runs.{runs_within};
ghost use Rattle.hw_port_windows.specs.Windows.{asked_text, ended_in, run_line, run_lines, sails_in, shallow_in, ship_windows_text, ships_from, span_of, statuses, windows_text};

use crate::asked::Asked;
use crate::lines::{
    put_closed_line, put_sails_line, put_shallow_line, put_ship_line, put_tides_line,
};
use crate::run::{Run, extremes_in, first_run};
use crate::status::Status;
use hw_desk::Writer;
use hw_draft::{judging_slot, last_pass, limit_name, waypoint_name};
use hw_model::{MOST_SHIPS, ShipId};
use hw_port::{Port, Ship};
use hw_tide::Tide;

/// Puts a run in which a ship may sail.
fn put_sails<W: Writer>(out: &mut W, asked: &Asked, run: Run)
    requires ordered { run.first ≤ run.last }
    requires inside { run.last < horizon_of asked.now.port }
    ensures { Puts (sails_in asked.now run) (W.state out.old) (W.state out.new) }
{
    let minutes = asked.slot_minutes();
    let slots = extremes_in(asked, run);
    let least = asked.draft(slots.light);
    let greatest = asked.draft(slots.deep);
    let full = asked.is_full(greatest);
    put_sails_line(out, run, minutes, least, greatest, full);
}

/// Puts a run in which the water is too shallow for a ship.
fn put_shallow<W: Writer>(out: &mut W, asked: &Asked, run: Run)
    requires ordered { run.first ≤ run.last }
    requires inside { run.last < horizon_of asked.now.port }
    ensures { Puts (shallow_in asked.now run) (W.state out.old) (W.state out.new) }
{
    let slot = extremes_in(asked, run).deep;
    let at_most = asked.draft(slot);
    let place = limit_name(asked.parts(), asked.limit(slot));
    put_shallow_line(out, run, asked.ship().light, at_most, place);
}

/// Puts a run in which a ship makes a pass whose height isn't in the tide table.
fn put_ended<W: Writer>(out: &mut W, asked: &Asked, run: Run)
    requires { run.last < horizon_of asked.now.port }
    ensures { Puts (ended_in asked.now run) (W.state out.old) (W.state out.new) }
{
    let parts = asked.parts();
    let last = last_pass(parts.waypoints.len(), &asked.ship().route);
    let needed = judging_slot(parts, run.last, last);
    put_tides_line(out, run, needed, waypoint_name(parts, last.waypoint));
}

/// Puts a run, by the status of its slots.
fn put_run<W: Writer>(out: &mut W, asked: &Asked, run: Run)
    requires ordered { run.first ≤ run.last }
    requires inside { run.last < horizon_of asked.now.port }
    ensures { Puts (run_line asked.now run) (W.state out.old) (W.state out.new) }
{
    match asked.status(run.first) {
        Status::Sails { .. } => put_sails(out, asked, run),
        Status::Closed => put_closed_line(out, run),
        Status::Shallow { .. } => put_shallow(out, asked, run),
        Status::TidesEnd => put_ended(out, asked, run),
    }
}

/// Puts the longest runs in a span, at most one for each slot.
fn put_runs<W: Writer>(out: &mut W, asked: &Asked, span: Run)
    requires ordered { span.first ≤ span.last }
    requires inside { span.last < horizon_of asked.now.port }
    ensures { Puts (run_lines asked.now (runs_within (statuses asked.now) span)) (W.state out.old) (W.state out.new) }
{
    let run = first_run(asked, span);
    put_run(out, asked, run);
    if run.last < span.last {
        let rest = Run {
            first: run.last + 1,
            last: span.last,
        };
        put_runs(out, asked, rest);
    }
}

/// Puts the line of a ship.
fn put_name<W: Writer>(out: &mut W, asked: &Asked)
    ensures { Puts (window_ship_line asked.now.number asked.now.ship.name) (W.state out.old) (W.state out.new) }
{
    put_ship_line(out, asked.number, &asked.ship().name.items);
}

/// Puts the longest runs of the slots for which a ship asks.
fn put_span<W: Writer>(out: &mut W, asked: &Asked)
    ensures { Puts (run_lines asked.now (runs_within (statuses asked.now) (span_of asked.now.ship))) (W.state out.old) (W.state out.new) }
{
    put_runs(out, asked, asked.span());
}

/// Puts a ship.
fn put_asked<W: Writer>(out: &mut W, asked: &Asked)
    ensures { Puts (asked_text asked.now) (W.state out.old) (W.state out.new) }
{
    put_name(out, asked);
    put_span(out, asked);
}

/// Puts the ships from a number on.
fn put_ships<W: Writer>(out: &mut W, port: &Port, tide: &Tide, first: ShipId, ships: &[Ship])
    requires few { first + length ships.now ≤ MOST_SHIPS }
    requires inside { first + length ships.now ≤ length port.now.ships }
    requires ships { All (ShipKept port.now) ships.now }
    requires columns { tide.now.columns ≡ length port.now.waypoints }
    ensures { Puts (ships_from port.now tide.now first ships.now) (W.state out.old) (W.state out.new) }
{
    if let [ship, more @ ..] = ships {
        put_ship(out, port, tide, first, ship);
        put_ships(out, port, tide, first + 1, more);
    }
}

/// Puts the ship of a number.
fn put_ship<W: Writer>(out: &mut W, port: &Port, tide: &Tide, number: ShipId, ship: &Ship)
    requires numbered { number < length port.now.ships }
    requires ship { ShipKept port.now ship.now }
    requires columns { tide.now.columns ≡ length port.now.waypoints }
    ensures { Puts (ship_windows_text port.now tide.now number ship.now) (W.state out.old) (W.state out.new) }
{
    let asked = Asked {
        port,
        tide,
        number,
        ship,
    };
    put_asked(out, &asked);
}

/// Puts the report of when each ship of a port may sail, and why not.
///
/// A ship's line is followed by one for each longest run of slots of one kind, from its earliest slot to its latest. It takes
/// no memory. Each slot is worked out about eight times, each time by all passes of the ship.
pub fn put_windows<W: Writer>(out: &mut W, port: &Port, tide: &Tide)
    requires { tide.now.columns ≡ length port.now.waypoints }
    ensures { Puts (windows_text port.now tide.now) (W.state out.old) (W.state out.new) }
{
    let parts = port.parts();
    put_ships(out, port, tide, 0, &parts.ships);
    out.put(b"end\n");
}
