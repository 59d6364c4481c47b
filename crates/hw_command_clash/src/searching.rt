//! `clash` of any subject: why it permits nothing.

ghost use Rattle.std.specs.Prelude.{◌≤◌};
ghost use Rattle.hw_desk.specs.State.{IsNewDesk};
ghost use Rattle.hw_command.specs.Carries.{Carries};
ghost use Rattle.hw_subject.specs.Subjects.{subject_of};
ghost use Rattle.hw_command_clash.specs.Clashes.{clash_task};

use crate::asking::wished_of;
use crate::sending::send_found;
use hw_command::{Status, finish};
use hw_desk::Desk;
use hw_search_laws::MOST_BUDGET;
use hw_subject::{Subject, read_subject};
use std::alloc::Global;

/// Reads a flat text or a port, and the plan, if one is to be repaired; searches in memory for
/// restrictions, and wishes of the plan, that can't be met together; sends the certificate of what was
/// found to Proof, and reports. Restrictions have their numbers in the flat problem, wishes the next
/// ones in the order of the ships, and ships their places. The budget, in lemmas, is for each step of the search. Proof isn't
/// made if memory runs out.
pub fn clash<D: Desk>(
    alloc: Global,
    desk: &mut D,
    subject: Subject,
    budget: u32,
    proof: &str,
) -> Status
    requires least { 1 ≤ budget }
    requires most { budget ≤ MOST_BUDGET }
    requires fresh { IsNewDesk (D.state desk.old) }
    ensures { Carries (clash_task (subject_of subject.entry) budget proof.now) (D.state desk.old) (D.state desk.new) result }
{
    let given = match read_subject(alloc, desk, subject) {
        Ok(given) => given,
        Err(report) => return finish(desk, &report),
    };
    let wished = wished_of(&given);
    let clashed = hw_clash::clash(alloc, &wished, budget);
    send_found(desk, &clashed, budget, proof)
}
