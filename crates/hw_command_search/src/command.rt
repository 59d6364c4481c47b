//! `solve`, `prove` and `crew` of any subject.

ghost use Rattle.std.specs.Prelude.{◌≤◌};
ghost use Rattle.hw_desk.specs.State.{IsNewDesk};
ghost use Rattle.hw_command.specs.Carries.{Carries};
ghost use Rattle.hw_subject.specs.Subjects.{subject_of};
ghost use Rattle.hw_command_search.specs.Searchers.{searcher_of};
ghost use Rattle.hw_command_search.specs.Searches.{search_task};

use crate::reporting::found_report;
use crate::searcher::Search;
use crate::searching::search_to;
use hw_command::{Status, finish};
use hw_desk::Desk;
use hw_search_laws::MOST_BUDGET;
use hw_subject::{Subject, read_subject};
use std::alloc::Global;

/// Reads all inputs of the subject, searches with its lines sent to Proof until `budget` lemmas (1 to
/// 100000) are written, and reports by the subject's names and its own values. Proof is made only once
/// all inputs were read.
pub fn search_subject<D: Desk>(
    alloc: Global,
    desk: &mut D,
    subject: Subject,
    how: &Search,
    budget: u32,
    proof: &str,
) -> Status
    requires least { 1 ≤ budget }
    requires most { budget ≤ MOST_BUDGET }
    requires fresh { IsNewDesk (D.state desk.old) }
    ensures { Carries (search_task (subject_of subject.entry) (searcher_of how.now) budget proof.now) (D.state desk.old) (D.state desk.new) result }
{
    let given = match read_subject(alloc, desk, subject) {
        Ok(given) => given,
        Err(report) => return finish(desk, &report),
    };
    match search_to(alloc, desk, given.searched(), how, budget, proof) {
        Some(found) => finish(desk, &found_report(&given, &found)),
        None => Status::WriteFault,
    }
}
