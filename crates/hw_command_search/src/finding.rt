//! What a search found.

ghost use Rattle.std.specs.Prelude.{◌≡◌};
ghost use Rattle.hw_command_search.specs.Finding.{found_by_crew, found_of};

use hw_flat::Timetable;
use hw_report::Head;
use hw_search::Solved;
use hw_turns::Crewed;

/// What a search found of its problem: the head of its answer, the best timetable if there is one, and
/// the last bound of its certificate. Cargo is in tenths of a tonne.
#[derive(Drop)]
pub struct Found {
    pub head: Head,
    pub table: Option<Timetable>,
    pub bound: Option<u64>,
}

/// What was found by a search that ended so, within a budget of lemmas and with this bound, or none if
/// its log failed.
pub(crate) fn found_of(budget: u32, solved: Solved, bound: Option<u64>) -> Option<Found>
    ensures { result ≡ found_of budget solved bound }
{
    let (head, table) = match solved {
        Solved::Optimal { table, cargo } => (Head::Optimal { cargo }, Some(table)),
        Solved::Infeasible => (Head::Infeasible, None),
        Solved::Unfinished { table } => (Head::Unfinished { budget }, table),
        Solved::NoMemory { table } => (Head::Memory, table),
        Solved::LogFailed => return None,
    };
    Some(Found { head, table, bound })
}

/// The same of a crew, whose certificate has no bound.
pub(crate) fn found_by_crew(budget: u32, crewed: Crewed) -> Option<Found>
    ensures { result ≡ found_by_crew budget crewed }
{
    let (head, table) = match crewed {
        Crewed::Optimal { table, cargo } => (Head::Optimal { cargo }, Some(table)),
        Crewed::Infeasible => (Head::Infeasible, None),
        Crewed::Spent { table } => (Head::Unfinished { budget }, table),
        Crewed::NoMemory { table } => (Head::Memory, table),
        Crewed::LogFailed => return None,
    };
    Some(Found {
        head,
        table,
        bound: None,
    })
}
