//! A certificate that is read for what it shows, and the table of its plan.

ghost use Rattle.std.specs.Prelude.{◌∷◌, [], option_map};
ghost use Rattle.hw_desk.specs.State.{IsNewDesk};
ghost use Rattle.hw_report.specs.Reports.{picture};
ghost use Rattle.hw_command.specs.Carries.{Carries};
ghost use Rattle.hw_command.specs.Ends.{Ends};
ghost use Rattle.hw_subject.specs.Reading.{naming_of};
ghost use Rattle.hw_subject.specs.Subjects.{subject_of};
ghost use Rattle.hw_command_texts.specs.Listed.{HasTable};
ghost use Rattle.hw_command_texts.specs.Tables.{listing_table, table_task};

use crate::listing::{Listing, send_listing};
use hw_cert::{Verdict, Version};
use hw_command::{
    CertOutcome, LastTable, ReadCert, Status, check_report, finish, read_cert, status_of_verdict,
};
use hw_desk::Desk;
use hw_flat::Timetable;
use hw_report::Names;
use hw_subject::{Named, Subject, read_subject};
use std::alloc::Global;

/// Reads a port, and its plan if it is repaired, checks a certificate of it, of any version, to its end, and sends the table of
/// the last timetable. A certificate that shows nothing is reported as by `verify`.
///
/// Where no timetable is shown the table is its header alone. It takes no memory. After `WriteFault` a proper prefix of it was
/// sent. Of a flat text nothing is sent.
pub fn list_table<D: Desk>(alloc: Global, desk: &mut D, subject: Subject, cert: &str) -> Status
    requires fresh { IsNewDesk (D.state desk.old) }
    ensures { Carries (table_task (subject_of subject.entry) cert.now) (D.state desk.old) (D.state desk.new) result }
{
    let given = match read_subject(alloc, desk, subject) {
        Ok(given) => given,
        Err(report) => return finish(desk, &report),
    };
    let ReadCert { outcome, kept, .. } = match read_cert(
        alloc,
        desk,
        given.searched(),
        cert,
        Version::Three,
        LastTable(None),
    ) {
        Ok(read) => read,
        Err(stop) => return finish(desk, &check_report(Err(stop), None, None, Names::Flat)),
    };
    let CertOutcome::Shows(verdict) = outcome else {
        return finish(desk, &check_report(Ok(outcome), None, None, Names::Flat));
    };
    send_table(desk, &given.named, kept.0.as_ref(), verdict)
}

/// Sends the table. Returns the status of the verdict, or `WriteFault` if a write failed.
fn send_table<D: Desk>(
    desk: &mut D,
    named: &Named,
    table: Option<&Timetable>,
    verdict: Verdict,
) -> Status
    requires { HasTable named.now }
    ensures { Ends (picture verdict (listing_table (naming_of named.now) (option_map (λ t. t.now) table.entry)) ∷ []) (D.state desk.old) (D.state desk.new) result }
{
    match send_listing(desk, Listing::Table { named, table }) {
        Ok(()) => status_of_verdict(verdict),
        Err(_) => Status::WriteFault,
    }
}
