//! `carry port INSTANCE TIDES PLAN EVENTS`: the plan of a repair that a day gives.

ghost use Rattle.std.specs.Prelude.{◌≡◌, ◌∷◌, [], None};
ghost use Rattle.hw_desk.specs.State.{IsNewDesk};
ghost use Rattle.hw_desk.specs.Whole.{SendsText};
ghost use Rattle.hw_audit.specs.Audits.{in_state};
ghost use Rattle.hw_audit.specs.Watching.{after_all, first_refused as refused_first};
ghost use Rattle.hw_repair.specs.Written.{written_plan};
ghost use Rattle.hw_audit.specs.Carried.{carried_plan};
ghost use Rattle.hw_report.specs.Reports.{whole_text};
ghost use Rattle.hw_command.specs.Carries.{Carries};
ghost use Rattle.hw_command.specs.Ends.{Ends};
ghost use Rattle.hw_command_audit.specs.CarryPort.{carry_port_task};

use crate::day::{Day, read_day};
use crate::trying::first_refused;
use hw_audit::{Audit, PortEvent, put_carried};
use hw_command::{PortNames, Status, finish};
use hw_desk::{Desk, DeskFailed, Tray, TrayWriter, Writer};
use hw_flat::Timetable;
use std::alloc::Global;

/// Applies events of which none is refused.
fn take_all(audit: &mut Audit, events: &[PortEvent])
    requires taken { refused_first audit.old.problem audit.old.fleet 2 audit.old.state events.now ≡ None }
    ensures { audit.new ≡ in_state audit.old (after_all audit.old.state events.now) }
{
    let _none = first_refused(audit, events);
}

/// Sends the plan of the timetable that was planned, and of its audit now. It takes no memory.
fn send_text<D: Desk>(desk: &mut D, table: &Timetable, audit: &Audit) -> Result<(), DeskFailed>
    ensures { SendsText Tray.Report (written_plan (carried_plan table.now audit.now.state)) (D.state desk.old) (D.state desk.new) result }
{
    let mut out = TrayWriter::new(desk, Tray::Report);
    put_carried(&mut out, table.as_slice(), audit);
    out.flush()
}

/// The same. Returns `Optimal`, or `WriteFault` if a write failed.
fn send_plan<D: Desk>(desk: &mut D, table: &Timetable, audit: &Audit) -> Status
    ensures { Ends (whole_text (written_plan (carried_plan table.now audit.now.state)) ∷ []) (D.state desk.old) (D.state desk.new) result }
{
    match send_text(desk, table, audit) {
        Ok(()) => Status::Optimal,
        Err(_) => Status::WriteFault,
    }
}

/// Reads the instance, its tide table, the timetable and the events, and tries all events. Then it
/// sends the plan of a repair that they give: ships that have sailed keep their slots, and each other
/// one may be given any slot that the events leave it.
///
/// Nothing is sent before all events were applied, and sending takes no memory. After `WriteFault` a
/// proper prefix of the plan was sent.
pub fn carry_port<D: Desk>(
    alloc: Global,
    desk: &mut D,
    port: PortNames,
    plan: &str,
    events: &str,
) -> Status
    requires fresh { IsNewDesk (D.state desk.old) }
    ensures { Carries (carry_port_task port.entry.instance.now port.entry.tides.now plan.now events.now) (D.state desk.old) (D.state desk.new) result }
{
    match read_day(alloc, desk, port, plan, events) {
        Ok(day) => {
            let Day {
                table,
                happened,
                mut audit,
            } = day;
            take_all(&mut audit, &happened.items);
            send_plan(desk, &table, &audit)
        }
        Err(report) => finish(desk, &report),
    }
}
