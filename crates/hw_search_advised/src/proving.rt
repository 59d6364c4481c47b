//! A whole solution with advice: turn after turn of a search with an adviser, whom it asks for a timetable
//! before each turn and for a bound after each lemma, until it ended or the budget is spent.
ghost use Rattle.std.specs.Prelude.{◌≡◌, ◌≤◌, IfOk, IfSome};
ghost use Rattle.hw_cert.specs.Logs.{IsEmpty};
ghost use Rattle.hw_model.specs.Timetables.{Permits};
ghost use Rattle.hw_search_laws.specs.Proving.{IsEndOf, ProveMeets};
ghost use Rattle.hw_search_laws.specs.Searches.{new_search};
ghost use Rattle.hw_search.specs.Faults.{SolvedKeepsFaults};

use crate::advised::Advised;
use crate::stepping::{Prover, Step, look, proceed};
use hw_cert::Log;
use hw_flat::Flat;
use hw_model::NoMemory;
use hw_search::proved;
use hw_search_advice::Adviser;
use hw_search_laws::{Branching, MOST_BUDGET, Proved, Solved};
use hw_search_sources::propagators;
use hw_store::WatchStore;
use std::alloc::Global;

// A search that has done nothing.
fn start<'f, A: Adviser + Drop>(
    alloc: Global,
    flat: &'f Flat,
    adviser: A,
) -> Result<Prover<'f, A>, NoMemory>
    ensures value { IfOk result (λ search. search ≡ new_search flat.now Branching.Greatest) }
{
    let store = WatchStore::new(alloc, flat)?;
    let props = propagators(alloc, flat)?;
    Advised::new(alloc, flat, store, props, Branching::Greatest, adviser)
}

// The answer of a search that ended.
fn ended<A: Adviser + Drop>(flat: &Flat, search: Prover<'_, A>) -> Proved
    requires permitted { IfSome search.best (Permits flat.now) }
    ensures solved { IsEndOf flat.now search.entry.best result.solved }
    ensures bound { result.bound ≡ search.entry.prices.bound }
{
    let bound = search.told_bound();
    Proved {
        solved: proved(flat, search.into_best()),
        bound,
    }
}

// The answer where the budget is spent.
fn unfinished<A: Adviser + Drop>(search: Prover<'_, A>) -> Proved
    ensures { result ≡ record { solved = Solved.Unfinished search.entry.best; bound = search.entry.prices.bound } }
{
    let bound = search.told_bound();
    let table = search.into_best();
    Proved {
        solved: Solved::Unfinished { table },
        bound,
    }
}

// The answer where memory ran out.
fn out_of_memory<A: Adviser + Drop>(search: Prover<'_, A>) -> Proved
    ensures { result ≡ record { solved = Solved.NoMemory search.entry.best; bound = search.entry.prices.bound } }
{
    let bound = search.told_bound();
    let table = search.into_best();
    Proved {
        solved: Solved::NoMemory { table },
        bound,
    }
}

// The answer where the log didn't take a line.
fn log_failed<A: Adviser + Drop>(search: Prover<'_, A>) -> Proved
    ensures { result ≡ record { solved = Solved.LogFailed; bound = search.entry.prices.bound } }
{
    Proved {
        solved: Solved::LogFailed,
        bound: search.told_bound(),
    }
}

fn run<'f, A: Adviser + Drop, L: Log>(
    flat: &'f Flat,
    budget: u32,
    mut search: Prover<'f, A>,
    log: &mut L,
) -> Proved
    requires new { search ≡ new_search flat.now Branching.Greatest }
    requires most { budget ≤ MOST_BUDGET }
    requires empty { IsEmpty (L.state log.old) }
    ensures proves { ProveMeets flat.now budget (L.state log.old) result.solved result.bound (L.state log.new) }
    ensures kept { SolvedKeepsFaults result.solved (L.state log.old) (L.state log.new) }
    ensures same_reference { L.anchor log.new ≡ L.anchor log.old }
{
    let _shape = flat.shape();
    'turns: while search.lemmas() < budget {
        match proceed(&mut search, log) {
            Step::GoesOn => {}
            Step::Ended => return ended(flat, search),
            Step::NoMemory => return out_of_memory(search),
            Step::LogFailed => return log_failed(search),
        }
    }
    match look(&mut search, log) {
        Step::GoesOn => unfinished(search),
        Step::Ended => ended(flat, search),
        Step::NoMemory => out_of_memory(search),
        Step::LogFailed => log_failed(search),
    }
}

/// Finds a best timetable, or shows that none is permitted, or finds as many lemmas as the budget
/// says, with an adviser who may know prices and timetables. Before each turn it asks the adviser for a
/// timetable, which it tests. After each lemma, and where the budget is spent, it asks for a bound. As
/// soon as the best timetable reaches the last bound, that ends the search. All lines go to the log,
/// whose lines alone prove the answer and the bound.
///
/// If memory runs out, even before the first turn, it answers `NoMemory` with the best timetable and
/// the bound so far; then the lines that were written stay.
pub fn prove<A: Adviser + Drop, L: Log>(
    alloc: Global,
    flat: &Flat,
    budget: u32,
    adviser: A,
    log: &mut L,
) -> Proved
    requires least { 1 ≤ budget }
    requires most { budget ≤ MOST_BUDGET }
    requires empty { IsEmpty (L.state log.old) }
    ensures proves { ProveMeets flat.now budget (L.state log.old) result.solved result.bound (L.state log.new) }
    ensures kept { SolvedKeepsFaults result.solved (L.state log.old) (L.state log.new) }
    ensures same_reference { L.anchor log.new ≡ L.anchor log.old }
{
    match start(alloc, flat, adviser) {
        Ok(search) => run(flat, budget, search, log),
        Err(_stop) => Proved {
            solved: Solved::NoMemory { table: None },
            bound: None,
        },
    }
}
