//! The report of what a search found: the head and the bound of a repair have the subject's own cargo,
//! and the ships that are moved are counted by the plan.

ghost use Rattle.std.specs.Prelude.{◌≡◌};
ghost use Rattle.hw_report.specs.Seen.{report_seen, table_seen};
ghost use Rattle.hw_subject.specs.Meanings.{own_worth};
ghost use Rattle.hw_subject.specs.Reading.{plan_in};
ghost use Rattle.hw_command_search.specs.Certified.{own_bound};
ghost use Rattle.hw_command_search.specs.Finding.{PlanHasSlots, moved_told, own_head, report_of_finding};

use crate::finding::Found;
use hw_flat::Timetable;
use hw_repair::moved;
use hw_report::{Head, Report};
use hw_subject::Given;

/// The subject's own cargo for which a cargo of the problem that was searched stands, both in tenths of
/// a tonne.
fn own_cargo(given: &Given, cargo: u64) -> u64
    ensures { result ≡ own_worth (plan_in given.now.repair) given.now.flat.ships cargo }
{
    match &given.repair {
        None => cargo,
        Some(_) => cargo / (u64::from(given.flat.shape().ships) + 1),
    }
}

/// The head that is printed.
fn own_head(given: &Given, head: Head) -> Head
    ensures { result ≡ own_head (plan_in given.now.repair) given.now.flat.ships head }
{
    match head {
        Head::Optimal { cargo } => Head::Optimal {
            cargo: own_cargo(given, cargo),
        },
        _ => head,
    }
}

/// The bound that is printed, in tenths of a tonne.
fn own_bound(given: &Given, bound: Option<u64>) -> Option<u64>
    ensures { result ≡ own_bound (plan_in given.now.repair) given.now.flat.ships bound }
{
    match bound {
        None => None,
        Some(bound) => Some(own_cargo(given, bound)),
    }
}

/// How many ships the timetable of a repair moves, and 0 where there is none.
fn moved_ships(given: &Given, table: Option<&Timetable>) -> Option<u32>
    requires { PlanHasSlots (plan_in given.now.repair) (table_seen table) }
    ensures { result ≡ moved_told (plan_in given.now.repair) (table_seen table.entry) }
{
    match (&given.repair, table) {
        (None, _) => None,
        (Some(_), None) => Some(0),
        (Some(repair), Some(table)) => Some(moved(&repair.plan, table)),
    }
}

/// The report of what was found. If memory ran out, it has the best timetable so far.
pub(crate) fn found_report<'a>(given: &'a Given, found: &'a Found) -> Report<'a>
    requires { PlanHasSlots (plan_in given.now.repair) found.now.table }
    ensures { report_seen result ≡ report_of_finding given.now found.now }
{
    let table = found.table.as_ref();
    Report::Solved {
        head: own_head(given, found.head),
        flat: &given.flat,
        names: given.names(),
        table,
        moved: moved_ships(given, table),
        bound: own_bound(given, found.bound),
    }
}
