//! What is broken before any event and after each one, sent line by line.

ghost use Rattle.std.specs.Prelude.{◌≡◌, None};
ghost use Rattle.hw_audit.specs.Audits.{in_state};
ghost use Rattle.hw_audit.specs.Watching.{watched_after as state_after, broken_now, first_refused, refused_event};
ghost use Rattle.hw_command.specs.Ends.{Ends};
ghost use Rattle.hw_desk.specs.Whole.{SendsText};
ghost use Rattle.hw_report.specs.Reports.{after};
ghost use Rattle.hw_report.specs.Texts.{report_text};
ghost use Rattle.hw_command_audit.specs.AuditPort.{audit_reports, broken_after};

use hw_audit::{Audit, PortEvent};
use hw_command::{Status, status_of};
use hw_desk::{Desk, DeskFailed, Tray};
use hw_report::{Report, print_report};

/// Sends what is broken now, after this many events. It takes no memory.
fn send_broken<D: Desk>(desk: &mut D, number: u64, audit: &Audit) -> Result<(), DeskFailed>
    ensures { SendsText Tray.Report (report_text (after number (broken_now audit.now.problem audit.now.state))) (D.state desk.old) (D.state desk.new) result }
{
    let broken = audit.broken();
    print_report(desk, &Report::After { number, broken })
}

/// Applies an event that isn't refused.
fn take(audit: &mut Audit, event: PortEvent)
    requires taken { refused_event audit.old.problem audit.old.fleet audit.old.state event ≡ None }
    ensures { audit.new ≡ in_state audit.old (state_after audit.old.state event) }
{
    match audit.apply(event) {
        Ok(()) => {}
        Err(_) => unreachable!(),
    }
}

/// Applies an event that isn't refused, and sends what is broken after it, the event of this number.
fn send_next<D: Desk>(
    desk: &mut D,
    number: u64,
    audit: &mut Audit,
    event: PortEvent,
) -> Result<(), DeskFailed>
    requires taken { refused_event audit.old.problem audit.old.fleet audit.old.state event ≡ None }
    ensures stands { audit.new ≡ in_state audit.old (state_after audit.old.state event) }
    ensures sends { SendsText Tray.Report (report_text (after number (broken_after audit.old event))) (D.state desk.old) (D.state desk.new) result }
{
    take(audit, event);
    send_broken(desk, number, audit)
}

/// Sends what is broken before any event and after each one, and the end. The status is `Optimal`, or
/// `WriteFault` if a write failed, after which nothing more is sent. It takes no memory.
pub(crate) fn send_audit<D: Desk>(desk: &mut D, mut audit: Audit, events: &[PortEvent]) -> Status
    requires taken { first_refused audit.problem audit.fleet 2 audit.state events.now ≡ None }
    ensures { Ends (audit_reports audit.problem audit.state events.now) (D.state desk.old) (D.state desk.new) result }
{
    if send_broken(desk, 0, &audit).is_err() {
        return Status::WriteFault;
    }
    for place in 0..events.len() {
        if send_next(desk, place as u64 + 1, &mut audit, events[place]).is_err() {
            return Status::WriteFault;
        }
    }
    match print_report(desk, &Report::AuditEnd) {
        Ok(()) => status_of(&Report::AuditEnd),
        Err(_) => Status::WriteFault,
    }
}
