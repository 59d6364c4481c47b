//! `audit port INSTANCE TIDES PLAN EVENTS`: a port's plan is watched through events.

ghost use Rattle.hw_desk.specs.State.{IsNewDesk};
ghost use Rattle.hw_command.specs.Carries.{Carries};
ghost use Rattle.hw_command_audit.specs.AuditPort.{audit_port_task};

use crate::day::{Day, read_day};
use crate::sending::send_audit;
use hw_command::{PortNames, Status, finish};
use hw_desk::Desk;
use std::alloc::Global;

/// Reads the instance, its tide table, the plan and the events, and tries all events. Then it sends
/// which restrictions are broken before any event and after each one, by their numbers in the port's
/// flat problem.
///
/// The events are applied twice. Each time an event takes a step for each restriction and slot, and
/// one for each hole of the rules tested; no memory is taken once the first line is sent.
pub fn audit_port<D: Desk>(
    alloc: Global,
    desk: &mut D,
    port: PortNames,
    plan: &str,
    events: &str,
) -> Status
    requires fresh { IsNewDesk (D.state desk.old) }
    ensures { Carries (audit_port_task port.entry.instance.now port.entry.tides.now plan.now events.now) (D.state desk.old) (D.state desk.new) result }
{
    match read_day(alloc, desk, port, plan, events) {
        Ok(day) => {
            let Day {
                happened,
                audit,
                ..
            } = day;
            send_audit(desk, audit, &happened.items)
        }
        Err(report) => finish(desk, &report),
    }
}
