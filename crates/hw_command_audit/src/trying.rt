//! All events tried once, before anything is sent.

ghost use Rattle.std.specs.Prelude.{◌≡◌, IfOk, length, None};
ghost use Rattle.hw_audit.specs.Audits.{audited, in_state};
ghost use Rattle.hw_audit.specs.Watching.{after_all, first_refused};
ghost use Rattle.hw_port_model.specs.Timetables.{IsPortTimetable};
ghost use Rattle.hw_command_audit.specs.Trying.{TriesEvents};

use crate::reading::TextStop;
use hw_audit::{Audit, AuditWord, PortEvent};
use hw_command::PortProblem;
use hw_desk::ReadStop;
use hw_flat::Timetable;
use hw_model::NoMemory;
use std::alloc::Global;

/// Watches a copy of the timetable, before any event.
fn watch(alloc: Global, problem: &PortProblem, table: &Timetable) -> Result<Audit, NoMemory>
    requires columns { problem.now.tide.columns ≡ length problem.now.port.waypoints }
    requires listed { IsPortTimetable problem.now.port table.now }
    ensures { IfOk result (λ audit. audit ≡ audited problem.now.port problem.now.tide table.now) }
{
    // The call shows that it has at most 40 slots.
    let _ships = table.len();
    let copy = Timetable::from_slots(alloc, table.as_slice())?;
    Audit::new(alloc, &problem.port, &problem.tide, copy)
}

/// Applies the events up to the first one that is refused, and returns the line of that one and why;
/// none where all were taken. The first event is line 2. It takes no memory.
pub(crate) fn first_refused(audit: &mut Audit, events: &[PortEvent]) -> Option<(u64, AuditWord)>
    ensures refused { result ≡ first_refused audit.old.problem audit.old.fleet 2 audit.old.state events.now }
    ensures taken { result ≡ None → audit.new ≡ in_state audit.old (after_all audit.old.state events.now) }
{
    for place in 0..events.len() {
        if let Err(word) = audit.apply(events[place]) {
            return Some((place as u64 + 2, word));
        }
    }
    None
}

/// Checks that all events can be applied, and resets the audit to its state before them. Fails with
/// the line of the first event that is refused, or where memory runs out.
pub(crate) fn try_events(
    alloc: Global,
    problem: &PortProblem,
    table: &Timetable,
    events: &[PortEvent],
) -> Result<Audit, TextStop>
    requires columns { problem.now.tide.columns ≡ length problem.now.port.waypoints }
    requires listed { IsPortTimetable problem.now.port table.now }
    ensures { TriesEvents (audited problem.now.port problem.now.tide table.now) events.now result }
{
    let mut tried = match watch(alloc, problem, table) {
        Ok(audit) => audit,
        Err(_) => return Err(TextStop::Input(ReadStop::NoMemory)),
    };
    if let Some((number, word)) = first_refused(&mut tried, events) {
        return Err(TextStop::Line { number, word });
    }
    match watch(alloc, problem, table) {
        Ok(audit) => Ok(audit),
        Err(_) => Err(TextStop::Input(ReadStop::NoMemory)),
    }
}
