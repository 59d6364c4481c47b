//! A certificate that is read for what it shows, and drawn.

ghost use Rattle.hw_desk.specs.State.{IsNewDesk};
ghost use Rattle.hw_command.specs.Carries.{Carries};
ghost use Rattle.hw_subject.specs.Subjects.{subject_of};
ghost use Rattle.hw_command_chart.specs.Charts.{chart_task};

use crate::drawing::draw;
use hw_cert::Version;
use hw_chart::Outcome;
use hw_command::{CertOutcome, LastTable, ReadCert, Status, check_report, finish, read_cert};
use hw_desk::Desk;
use hw_report::Names;
use hw_subject::{Subject, read_subject};
use std::alloc::Global;

/// Reads a flat text or a port, and its plan, if a repair is drawn, checks a certificate of it, of any
/// version, to its end, and sends the picture of what it shows and of its last timetable: up to
/// 1,000,000 bytes of a flat text, and up to 1,700,000 of a port. A certificate that shows nothing is
/// reported as by `verify`.
///
/// Each slot to which a ship alone could move is tried before the first byte is sent; the picture
/// itself takes no memory. After `WriteFault` a proper prefix of it was sent.
pub fn chart<D: Desk>(alloc: Global, desk: &mut D, subject: Subject, cert: &str) -> Status
    requires fresh { IsNewDesk (D.state desk.old) }
    ensures { Carries (chart_task (subject_of subject.entry) cert.now) (D.state desk.old) (D.state desk.new) result }
{
    let given = match read_subject(alloc, desk, subject) {
        Ok(given) => given,
        Err(report) => return finish(desk, &report),
    };
    let flat = given.searched();
    let ReadCert {
        outcome,
        bound,
        kept,
        ..
    } = match read_cert(alloc, desk, flat, cert, Version::Three, LastTable(None)) {
        Ok(read) => read,
        Err(stop) => return finish(desk, &check_report(Err(stop), None, None, Names::Flat)),
    };
    let CertOutcome::Shows(verdict) = outcome else {
        return finish(desk, &check_report(Ok(outcome), None, None, Names::Flat));
    };
    draw(alloc, desk, &given, kept.0, Outcome { verdict, bound })
}
