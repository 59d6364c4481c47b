//! `check clash` of any subject: a clash, and its certificate.

ghost use Rattle.std.specs.Prelude.{◌≡◌, IfErr, IfOk};
ghost use Rattle.hw_desk.specs.State.{IsNewDesk};
ghost use Rattle.hw_report.specs.Printing.{CanPrint};
ghost use Rattle.hw_report.specs.Seen.{report_seen};
ghost use Rattle.hw_command.specs.Carries.{Carries};
ghost use Rattle.hw_subject.specs.Subjects.{subject_of};
ghost use Rattle.hw_command_clash.specs.CheckClash.{check_clash_task};
ghost use Rattle.hw_command_clash.specs.Checked.{ReadsChecked, StopsAtClash};
ghost use Rattle.hw_command_clash.specs.Inputs.{clash_feed};
ghost use Rattle.hw_command_clash.specs.Texts.{report_of_part};

use crate::asking::wished_of;
use crate::part_input::read_part;
use hw_cert::{Verdict, Version};
use hw_clash::ClashText;
use hw_command::{CertOutcome, Status, check_report, finish, read_cert};
use hw_desk::{Desk, Feed};
use hw_report::{Names, Report};
use hw_subject::{Given, Subject, read_subject};
use std::alloc::Global;

/// A clash that was read, of what was given, and the outcome of its certificate.
#[derive(Drop)]
pub struct CheckedClash {
    pub given: Given,
    pub clash: ClashText,
    pub outcome: CertOutcome,
}

/// Reads a flat text or a port, the plan, if one is to be repaired, and the clash text, and checks the
/// certificate of the part of the kept restrictions and wishes. In the certificate a restriction has
/// its number in the part. An error is the report of why there is no outcome.
pub fn read_checked<D: Desk>(
    alloc: Global,
    desk: &mut D,
    subject: Subject,
    clash: &str,
    cert: &str,
) -> Result<CheckedClash, Report<'static>>
    requires fresh { IsNewDesk (D.state desk.old) }
    ensures checked { IfOk result (λ checked. ReadsChecked (subject_of subject.entry) clash.now cert.now (D.state desk.old) (D.state desk.new) checked) }
    ensures stops { IfErr result (λ report. StopsAtClash (subject_of subject.entry) clash.now cert.now (D.state desk.old) (D.state desk.new) (report_seen report)) }
    ensures printed { IfErr result (λ report. CanPrint (report_seen report)) }
{
    let feed = clash_feed(subject);
    let given = match read_subject(alloc, desk, subject) {
        Ok(given) => given,
        Err(report) => return Err(report),
    };
    let wished = wished_of(&given);
    let made = match read_part(alloc, desk, &wished, feed, clash) {
        Ok(made) => made,
        Err(report) => return Err(report),
    };
    let outcome = match read_cert(alloc, desk, &made.flat, cert, Version::Two, ()) {
        Ok(read) => read.outcome,
        Err(stop) => return Err(check_report(Err(stop), None, None, Names::Flat)),
    };
    Ok(CheckedClash {
        given,
        clash: made.clash,
        outcome,
    })
}

/// Reads and checks a clash and its certificate, and reports.
pub fn check_clash<D: Desk>(
    alloc: Global,
    desk: &mut D,
    subject: Subject,
    clash: &str,
    cert: &str,
) -> Status
    requires fresh { IsNewDesk (D.state desk.old) }
    ensures { Carries (check_clash_task (subject_of subject.entry) clash.now cert.now) (D.state desk.old) (D.state desk.new) result }
{
    match read_checked(alloc, desk, subject, clash, cert) {
        Ok(checked) => finish(desk, &part_report(checked.outcome)),
        Err(report) => finish(desk, &report),
    }
}

/// As which input the clash text is begun: as a plan, or beside the one that is repaired.
fn clash_feed(subject: Subject) -> Feed
    ensures { result ≡ clash_feed (subject_of subject.entry) }
{
    match subject.plan {
        Some(_) => Feed::Clash,
        None => Feed::Plan,
    }
}

/// The report of the outcome of a certificate of the kept restrictions: that the clash holds, if they
/// can't be met together, and otherwise that of any check, with numbers for names.
pub fn part_report(outcome: CertOutcome) -> Report<'static>
    ensures value { report_seen result ≡ report_of_part outcome }
    ensures printed { CanPrint (report_seen result) }
{
    match outcome {
        CertOutcome::Shows(Verdict::Infeasible) => Report::ClashHolds,
        CertOutcome::Shows(Verdict::Optimal(_) | Verdict::Unfinished(_))
        | CertOutcome::Wrong { .. }
        | CertOutcome::TooLong => check_report(Ok(outcome), None, None, Names::Flat),
    }
}
