//! A certificate of a plan's repair that is read for its timetable, which is told against the plan.

ghost use Rattle.hw_desk.specs.State.{IsNewDesk};
ghost use Rattle.hw_command.specs.Carries.{Carries};
ghost use Rattle.hw_subject.specs.Subjects.{repair_of, subject_of_source};
ghost use Rattle.hw_command_texts.specs.Explains.{explain_repair_task};

use crate::telling::tell;
use hw_cert::Version;
use hw_command::{CertOutcome, LastTable, ReadCert, Status, check_report, finish, read_cert};
use hw_desk::Desk;
use hw_report::Names;
use hw_subject::{Source, Subject, read_subject};
use std::alloc::Global;

/// Reads a flat text or a port and a plan of it, checks a certificate of the plan's repair, of any
/// version, to its end, and sends what its last timetable makes of each ship of the plan. A
/// certificate that shows nothing, or no timetable, is reported as by `verify repair`.
///
/// Sending takes no memory. After `WriteFault` a proper prefix of the text was sent.
pub fn explain_repair<D: Desk>(
    alloc: Global,
    desk: &mut D,
    source: Source,
    plan: &str,
    cert: &str,
) -> Status
    requires fresh { IsNewDesk (D.state desk.old) }
    ensures { Carries (explain_repair_task (repair_of (subject_of_source source.entry) plan.now) cert.now) (D.state desk.old) (D.state desk.new) result }
{
    let subject = Subject {
        of: source,
        plan: Some(plan),
    };
    let given = match read_subject(alloc, desk, subject) {
        Ok(given) => given,
        Err(report) => return finish(desk, &report),
    };
    let flat = given.searched();
    let ReadCert {
        outcome,
        bound,
        kept,
        ..
    } = match read_cert(alloc, desk, flat, cert, Version::Three, LastTable(None)) {
        Ok(read) => read,
        Err(stop) => return finish(desk, &check_report(Err(stop), None, None, Names::Flat)),
    };
    let CertOutcome::Shows(verdict) = outcome else {
        return finish(desk, &check_report(Ok(outcome), None, None, Names::Flat));
    };
    tell(desk, &given, kept.0, verdict, bound)
}
