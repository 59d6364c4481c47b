//! Reading a day: a port, a timetable of it, and the events, which are all tried.

ghost use Rattle.std.specs.Prelude.{◌≡◌, IfErr, IfOk};
ghost use Rattle.hw_desk.specs.State.{IsNewDesk};
ghost use Rattle.hw_report.specs.Printing.{CanPrint};
ghost use Rattle.hw_report.specs.Seen.{report_seen};
ghost use Rattle.hw_command_audit.specs.Days.{ReadsNamedDay, StopsAtNamedDay};

use crate::reading::{no_text, read_happened, read_plan};
use crate::trying::try_events;
use hw_audit::{Audit, Events};
use hw_command::{PortNames, read_port_problem};
use hw_desk::{Desk, Feed};
use hw_flat::Timetable;
use hw_report::Report;
use std::alloc::Global;

/// What was read of a day: a timetable of the port, the events, which can all be applied, and the
/// audit of the timetable before them.
#[derive(Drop)]
pub(crate) struct Day {
    pub table: Timetable,
    pub happened: Events,
    pub audit: Audit,
}

/// Reads the instance, its tide table, the timetable and the events, and tries all events. An error
/// is the report of the first input that gives nothing, or of the first refused event.
pub(crate) fn read_day<D: Desk>(
    alloc: Global,
    desk: &mut D,
    port: PortNames,
    plan: &str,
    events: &str,
) -> Result<Day, Report<'static>>
    requires fresh { IsNewDesk (D.state desk.old) }
    ensures read { IfOk result (λ day. ReadsNamedDay port.entry plan.now events.now (D.state desk.old) (D.state desk.new) day) }
    ensures stops { IfErr result (λ report. StopsAtNamedDay port.entry plan.now events.now (D.state desk.old) (D.state desk.new) (report_seen report)) }
    ensures printed { IfErr result (λ report. CanPrint (report_seen report)) }
{
    let problem = match read_port_problem(alloc, desk, port) {
        Ok(problem) => problem,
        Err(report) => return Err(report),
    };
    let table = match read_plan(alloc, desk, plan, problem.flat.shape()) {
        Ok(table) => table,
        Err(stop) => return Err(no_text(Feed::Plan, stop)),
    };
    let happened = match read_happened(alloc, desk, events) {
        Ok(happened) => happened,
        Err(stop) => return Err(no_text(Feed::Events, stop)),
    };
    match try_events(alloc, &problem, &table, &happened.items) {
        Ok(audit) => Ok(Day {
            table,
            happened,
            audit,
        }),
        Err(stop) => Err(no_text(Feed::Events, stop)),
    }
}
