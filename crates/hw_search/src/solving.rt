//! A whole solution: turn after turn of a search, until it ended or the budget is spent.
ghost use Rattle.std.specs.Prelude.{◌≡◌, ◌≤◌, ◌<◌, true, false, IfOk, IfSome};
ghost use Rattle.hw_cert.specs.Logs.{IsEmpty};
ghost use Rattle.hw_model.specs.Timetables.{Permits};
ghost use Rattle.hw_search_laws.specs.Proving.{IsEndOf};
ghost use Rattle.hw_search_laws.specs.Searches.{new_search};
ghost use Rattle.hw_search_laws.specs.Solving.{SolveMeets};
ghost use Rattle.hw_search.specs.Faults.{SolvedKeepsFaults};

use crate::search::Search;
use hw_cert::Log;
use hw_flat::{Flat, Timetable};
use hw_model::NoMemory;
use hw_rules::cargo;
use hw_search_laws::{Branching, MOST_BUDGET, Solved, Turn};
use hw_search_sources::{AnyPropagator, propagators};
use hw_store::WatchStore;
use std::alloc::Global;

// A search that has done nothing, of which a solution is made.
fn start<'f>(
    alloc: Global,
    flat: &'f Flat,
) -> Result<Search<'f, WatchStore, AnyPropagator>, NoMemory>
    ensures value { IfOk result (λ search. search ≡ new_search flat.now Branching.Greatest) }
{
    let store = WatchStore::new(alloc, flat)?;
    let props = propagators(alloc, flat)?;
    Search::new(alloc, flat, store, props, Branching::Greatest)
}

/// What a search that ended proved: its best timetable is a best one, or none is permitted.
pub fn proved(flat: &Flat, best: Option<Timetable>) -> Solved
    requires permitted { IfSome best (Permits flat.now) }
    ensures value { IsEndOf flat.now best result }
{
    match best {
        None => Solved::Infeasible,
        Some(table) => {
            let cargo = cargo(flat, &table).unwrap();
            Solved::Optimal { table, cargo }
        }
    }
}

fn run<'f, L: Log>(
    flat: &'f Flat,
    budget: u32,
    mut search: Search<'f, WatchStore, AnyPropagator>,
    log: &mut L,
) -> Solved
    requires new { search ≡ new_search flat.now Branching.Greatest }
    requires most { budget ≤ MOST_BUDGET }
    requires empty { IsEmpty (L.state log.old) }
    ensures solves { SolveMeets flat.now budget (L.state log.old) result (L.state log.new) }
    ensures kept { SolvedKeepsFaults result (L.state log.old) (L.state log.new) }
    ensures same_reference { L.anchor log.new ≡ L.anchor log.old }
{
    let _shape = flat.shape();
    'turns: while search.lemmas() < budget {
        match search.turn(log) {
            Turn::Decided | Turn::Better | Turn::Lemma => {}
            Turn::Ended => return proved(flat, search.into_best()),
            Turn::NoMemory => {
                return Solved::NoMemory {
                    table: search.into_best(),
                };
            }
            Turn::LogFailed => return Solved::LogFailed,
        }
    }
    Solved::Unfinished {
        table: search.into_best(),
    }
}

/// Finds a best timetable, or shows that none is permitted, or finds as many lemmas as the budget
/// says. All lines go to the log, whose lines alone prove the answer.
///
/// If memory runs out, even before the first turn, it answers `NoMemory` with the best timetable
/// so far; then the lines that were written stay.
pub fn solve<L: Log>(alloc: Global, flat: &Flat, budget: u32, log: &mut L) -> Solved
    requires least { 1 ≤ budget }
    requires most { budget ≤ MOST_BUDGET }
    requires empty { IsEmpty (L.state log.old) }
    ensures solves { SolveMeets flat.now budget (L.state log.old) result (L.state log.new) }
    ensures kept { SolvedKeepsFaults result (L.state log.old) (L.state log.new) }
    ensures same_reference { L.anchor log.new ≡ L.anchor log.old }
{
    match start(alloc, flat) {
        Ok(search) => run(flat, budget, search, log),
        Err(_stop) => Solved::NoMemory { table: None },
    }
}
