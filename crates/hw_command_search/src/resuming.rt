//! `resume` of any subject: a search that goes on from the lines of a certificate.

ghost use Rattle.std.specs.Prelude.{◌≡◌, ◌≤◌, false};
ghost use Rattle.hw_desk.specs.State.{IsNewDesk};
ghost use Rattle.hw_desk.specs.declared.desk.Feed.TheVariants.{Certificate};
ghost use Rattle.hw_desk.specs.declared.desk.Tray.TheVariants.{Proof};
ghost use Rattle.hw_command.specs.Carries.{Carries};
ghost use Rattle.hw_subject.specs.Subjects.{subject_of};
ghost use Rattle.hw_command_search.specs.Resumes.{resume_task};
ghost use Rattle.hw_command_search.specs.Resuming.{ResumesTo, resumed_found};

use crate::finding::Found;
use crate::reporting::found_report;
use hw_cert::{Verdict, Version};
use hw_command::{Ending, Status, check_report, finish, read_start, send_lines, stop_outcome};
use hw_desk::Desk;
use hw_flat::Flat;
use hw_price_adviser::PricingAdviser;
use hw_report::Head;
use hw_search_laws::MOST_BUDGET;
use hw_search_resumed::{Resumed, resume};
use hw_subject::{Given, Subject, read_subject};
use std::alloc::Global;

/// Reads the subject, checks a certificate of any version, searches on from its lines until `budget` new
/// lemmas (1 to 100000) are found, sends all lines to Proof and reports what they show. Proof isn't made
/// if a line is refused or memory runs out.
pub fn resume_subject<D: Desk>(
    alloc: Global,
    desk: &mut D,
    subject: Subject,
    cert: &str,
    budget: u32,
    proof: &str,
) -> Status
    requires least { 1 ≤ budget }
    requires most { budget ≤ MOST_BUDGET }
    requires fresh { IsNewDesk (D.state desk.old) }
    ensures { Carries (resume_task (subject_of subject.entry) cert.now budget proof.now) (D.state desk.old) (D.state desk.new) result }
{
    let given = match read_subject(alloc, desk, subject) {
        Ok(given) => given,
        Err(report) => return finish(desk, &report),
    };
    match resume_to(alloc, desk, given.searched(), cert, budget, proof) {
        Ending::Stopped(stopped) => {
            finish(desk, &check_report(stopped, None, None, given.names()))
        }
        Ending::Sent(found) => finish(desk, &found_report(&given, &found)),
        Ending::WriteFailed => Status::WriteFault,
    }
}

/// Begins the certificate under its name and checks it, searches on, and then makes Proof under its name
/// and sends all lines there.
fn resume_to<D: Desk>(
    alloc: Global,
    desk: &mut D,
    flat: &Flat,
    cert: &str,
    budget: u32,
    proof: &str,
) -> Ending<Found>
    requires least { 1 ≤ budget }
    requires most { budget ≤ MOST_BUDGET }
    requires unread { ((D.state desk.old).feeds Certificate).begun ≡ false }
    requires unmade { ((D.state desk.old).trays Proof).made ≡ false }
    ensures { ResumesTo flat.now cert.now budget proof.now (D.state desk.old) (D.state desk.new) result }
{
    let start = match read_start(alloc, desk, flat, cert) {
        Ok(start) => start,
        Err(stopped) => return Ending::Stopped(stopped),
    };
    let resumed = match resume(alloc, start, budget, PricingAdviser::new(budget, 0)) {
        Ok(resumed) => resumed,
        Err(stop) => return Ending::Stopped(stop_outcome(stop)),
    };
    match send_lines(desk, Version::Three, &resumed.lines, proof) {
        Ok(()) => Ending::Sent(resumed_found(budget, resumed)),
        Err(_) => Ending::WriteFailed,
    }
}

/// What was found, by what the lines show.
fn resumed_found(budget: u32, resumed: Resumed) -> Found
    ensures { result ≡ resumed_found budget resumed }
{
    let head = match resumed.verdict {
        Verdict::Optimal(cargo) => Head::Optimal { cargo },
        Verdict::Infeasible => Head::Infeasible,
        Verdict::Unfinished(_) if resumed.is_spent => Head::Unfinished { budget },
        Verdict::Unfinished(_) => Head::Memory,
    };
    Found {
        head,
        table: resumed.table,
        bound: resumed.bound,
    }
}
