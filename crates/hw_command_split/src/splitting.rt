//! `split` of any subject: a split into parts, by the best timetable of a certificate.

ghost use Rattle.std.specs.Prelude.{◌≡◌, ◌≤◌, ◌<◌, IfOk, false, length};
ghost use Rattle.hw_desk.specs.State.{IsNewDesk};
ghost use Rattle.hw_desk.specs.declared.desk.Feed.TheVariants.{Certificate};
ghost use Rattle.hw_desk.specs.declared.desk.Tray.TheVariants.{Proof};
ghost use Rattle.hw_command.specs.Carries.{Carries};
ghost use Rattle.hw_command.specs.Sending.{SendsTo};
ghost use Rattle.hw_subject.specs.Subjects.{subject_of};
ghost use Rattle.hw_command_split.specs.MadeSplits.{IsChosenBy, SplitsTo, open_best};
ghost use Rattle.hw_command_split.specs.Splitting.{split_task};

use hw_cert::{Verdict, Version};
use hw_command::{
    CertOutcome, CertStop, Ending, ReadCert, Status, check_report, finish, read_cert, shows_nothing,
};
use hw_desk::{Desk, DeskFailed, Tray, write_all};
use hw_flat::{Flat, NoMemory};
use hw_report::Report;
use hw_split_choice::{ChosenSplit, MOST_PARTS, choose_split, undivided};
use hw_split_text::count_parts;
use hw_subject::{Subject, read_subject};
use std::alloc::Global;

/// The names of the certificate whose best timetable is known, and of the split that is made.
#[derive(Clone, Copy)]
pub struct SplitWords<'w> {
    pub start: &'w str,
    pub split: &'w str,
}

/// How many parts the split has that was sent, and how many tolls are expected of them.
#[derive(Clone, Copy)]
struct Sizes {
    parts: u64,
    tolls: u64,
}

/// Reads the subject, checks a certificate of any version, and makes a split of at most `parts` parts (1 to
/// 1024), of one part if the certificate leaves nothing open. Says how many they are, and how many
/// different tolls their certificates are expected to declare together; nothing is promised of the second
/// number. No split is made if a line is refused or memory runs out.
pub fn split_subject<D: Desk>(
    alloc: Global,
    desk: &mut D,
    subject: Subject,
    words: SplitWords<'_>,
    parts: u32,
) -> Status
    requires least { 1 ≤ parts }
    requires most { parts ≤ MOST_PARTS }
    requires fresh { IsNewDesk (D.state desk.old) }
    ensures { Carries (split_task (subject_of subject.entry) parts words.entry.start.now words.entry.split.now) (D.state desk.old) (D.state desk.new) result }
{
    let given = match read_subject(alloc, desk, subject) {
        Ok(given) => given,
        Err(report) => return finish(desk, &report),
    };
    match split_to(alloc, desk, given.searched(), words, parts) {
        Ending::Stopped(stopped) => {
            finish(desk, &check_report(stopped, None, None, given.names()))
        }
        Ending::Sent(sizes) => finish(
            desk,
            &Report::Parts {
                number: sizes.parts,
                tolls: sizes.tolls,
            },
        ),
        Ending::WriteFailed => Status::WriteFault,
    }
}

/// Begins the certificate under its name and checks it, chooses a split, and then makes it under its
/// name and sends its text there.
fn split_to<D: Desk>(
    alloc: Global,
    desk: &mut D,
    flat: &Flat,
    words: SplitWords<'_>,
    parts: u32,
) -> Ending<Sizes>
    requires least { 1 ≤ parts }
    requires unread { ((D.state desk.old).feeds Certificate).begun ≡ false }
    requires unmade { ((D.state desk.old).trays Proof).made ≡ false }
    ensures { SplitsTo flat.now words.entry.start.now parts words.entry.split.now (D.state desk.old) (D.state desk.new) result }
{
    let ReadCert { outcome, .. } = match read_cert(
        alloc,
        desk,
        flat,
        words.start,
        Version::Three,
        (),
    ) {
        Ok(read) => read,
        Err(stop) => return Ending::Stopped(Err(stop)),
    };
    if shows_nothing(outcome) {
        return Ending::Stopped(Ok(outcome));
    }
    let chosen = match chosen_by(alloc, flat, outcome, parts) {
        Ok(chosen) => chosen,
        Err(_) => return Ending::Stopped(Err(CertStop::NoMemory)),
    };
    match send_split(desk, &chosen.text, words.split) {
        Ok(()) => Ending::Sent(Sizes {
            parts: count_parts(&chosen.split) as u64,
            tolls: chosen.tolls,
        }),
        Err(_) => Ending::WriteFailed,
    }
}

/// A split by what a certificate knows, of one part where it leaves nothing open.
fn chosen_by(
    alloc: Global,
    flat: &Flat,
    outcome: CertOutcome,
    parts: u32,
) -> Result<ChosenSplit, NoMemory>
    requires least { 1 ≤ parts }
    ensures { IfOk result (IsChosenBy flat.now outcome parts) }
{
    match open_best(outcome) {
        Some(best) => choose_split(alloc, flat, best, parts),
        None => undivided(alloc, flat, 1),
    }
}

/// Makes Proof under a name, and sends a text there.
fn send_split<D: Desk>(desk: &mut D, text: &[u8], name: &str) -> Result<(), DeskFailed>
    requires some { 0 < length text.now }
    requires unmade { ((D.state desk.old).trays Proof).made ≡ false }
    ensures { SendsTo name.now text.now (D.state desk.old) (D.state desk.new) result }
{
    match desk.make(Tray::Proof, name) {
        Ok(()) => write_all(desk, Tray::Proof, text),
        Err(failed) => Err(failed),
    }
}

/// The best cargo known of a problem that is still open, or none; none at all where it isn't open.
fn open_best(outcome: CertOutcome) -> Option<Option<u64>>
    ensures { result ≡ open_best outcome }
{
    match outcome {
        CertOutcome::Shows(Verdict::Unfinished(best)) => Some(best),
        CertOutcome::Shows(Verdict::Optimal(_) | Verdict::Infeasible)
        | CertOutcome::Wrong { .. }
        | CertOutcome::TooLong => None,
    }
}
