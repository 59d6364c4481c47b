//! Solving a part for its restrictions alone.

ghost use Rattle.std.specs.Prelude.{◌≡◌, ◌<◌, ◌≤◌, [], All};
ghost use Rattle.std.specs.List.Sorted.{IsStrictlyIncreasing};
ghost use Rattle.hw_cert.specs.Logs.{memory_log};
ghost use Rattle.hw_search_laws.specs.Solving.{SolveMeets};
ghost use Rattle.hw_clash.specs.Asking.{ClashAskMeets};
ghost use Rattle.hw_clash.specs.Parts.{part};
ghost use Rattle.hw_clash.specs.Wished.{wished_count};

use crate::parting::part;
use crate::wished::WishedFlat;
use hw_cert::MemoryLog;
use hw_flat::{Flat, Timetable};
use hw_search::{Solved, solve};
use hw_search_laws::MOST_BUDGET;
use std::alloc::Global;

/// The outcome of solving a part, with its certificate.
#[derive(Drop)]
pub(crate) enum Asked {
    /// A timetable that the part permits.
    Fits { table: Timetable, proof: MemoryLog },
    /// It permits none.
    NoneFits { proof: MemoryLog },
    /// The budget was spent.
    Spent { proof: MemoryLog },
    NoMemory,
}

/// The outcome by what `solve` answered. A log in memory never fails.
fn asked_of(solved: Solved, proof: MemoryLog, flat: &Flat, budget: u32) -> Asked
    requires solved { SolveMeets flat.now budget (memory_log []) solved (memory_log proof) }
    ensures { ClashAskMeets flat.now budget result }
{
    match solved {
        Solved::Optimal { table, .. } => Asked::Fits { table, proof },
        Solved::Infeasible => Asked::NoneFits { proof },
        Solved::Unfinished { .. } => Asked::Spent { proof },
        Solved::NoMemory { .. } | Solved::LogFailed => Asked::NoMemory,
    }
}

/// Solves the part of these restrictions with the budget.
pub(crate) fn ask(alloc: Global, wished: &WishedFlat, kept: &[u32], budget: u32) -> Asked
    requires numbered { All (λ n. n < wished_count wished.now) kept.now }
    requires ascending { IsStrictlyIncreasing kept.now }
    requires least { 1 ≤ budget }
    requires most { budget ≤ MOST_BUDGET }
    ensures { ClashAskMeets (part wished.now kept.now) budget result }
{
    let Ok(made) = part(alloc, wished, kept) else {
        return Asked::NoMemory;
    };
    let mut proof = MemoryLog::new(alloc);
    let solved = solve(alloc, &made, budget, &mut proof);
    asked_of(solved, proof, &made, budget)
}
