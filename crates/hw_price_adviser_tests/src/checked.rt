//! What a plan answers, and what a checker says of its lines.

ghost use Rattle.std.specs.Prelude.{All};
ghost use Rattle.hw_cert_lines.specs.Valid.{LineFits};

use hw_cert::{Line, Verdict};
use hw_check::{CheckStop, Checker};
use hw_flat::{Flat, Timetable};
use hw_rules::cargo;
use hw_search::Solved;
use hw_search_advised::Proved;
use std::alloc::Global;

/// A verdict, and a bound of what any permitted timetable carries.
#[derive(Clone, Copy, Debug, PartialEq, Eq)]
pub struct Shown {
    pub verdict: Verdict,
    pub bound: Option<u64>,
}

/// What a checker says of lines, all of which it has to take.
pub fn checked(alloc: Global, flat: &Flat, lines: &[Line]) -> Result<Shown, CheckStop>
    requires fit { All (LineFits flat.now) lines.now }
{
    let mut checker = Checker::new(alloc, flat)?;
    for line in lines {
        checker = checker.borrowed_line(line)?;
    }
    Ok(Shown {
        verdict: checker.verdict(),
        bound: checker.bound(),
    })
}

/// The cargo of a timetable of the problem, none where there is no timetable.
fn cargo_of(flat: &Flat, table: Option<&Timetable>) -> Option<u64> {
    let table = table?;
    let shape = flat.shape();
    let slots = table.as_slice();
    if slots.len() != shape.ships as usize || slots.iter().any(|slot| *slot >= shape.slots) {
        return None;
    }
    cargo(flat, table)
}

/// What a plan answers, none where it was stopped.
pub fn answered(flat: &Flat, proved: &Proved) -> Option<Shown> {
    let verdict = match &proved.solved {
        Solved::Optimal { cargo, .. } => Verdict::Optimal(*cargo),
        Solved::Infeasible => Verdict::Infeasible,
        Solved::Unfinished { table } => Verdict::Unfinished(cargo_of(flat, table.as_ref())),
        Solved::NoMemory { .. } | Solved::LogFailed => return None,
    };
    Some(Shown {
        verdict,
        bound: proved.bound,
    })
}
