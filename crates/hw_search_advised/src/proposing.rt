//! Timetables that an adviser proposes: each is tested by the problem's own rules, and taken where it
//! is permitted and beats the best.

ghost use Rattle.std.specs.Prelude.{◌≡◌, IsTrue, false};
ghost use Rattle.hw_cert.specs.Logs.{WhereTold};
ghost use Rattle.hw_model.specs.Timetables.{Permits};
ghost use Rattle.hw_search_laws.specs.Offers.{IsBetter};
ghost use Rattle.hw_search_laws.specs.Proposing.{ProposeMeets};
ghost use Rattle.hw_search_laws.specs.Searches.{LogFits};
ghost use Rattle.hw_search_advised.specs.Proposing.{ProposeKeepsFaults, proposed_by};

use hw_cert::{Log, LogStop};
use hw_flat::{Timetable, is_timetable};
use hw_prop::Propagator;
use hw_rules::{broken, cargo};
use hw_search::Search;
use hw_search_advice::Adviser;
use hw_search_laws::{Proposed, Turn};
use hw_store::Store;

/// The answer to an offer. It takes no memory.
fn proposed_by(turn: Turn) -> Proposed
    ensures value { result ≡ proposed_by turn }
{
    match turn {
        Turn::Better => Proposed::Better,
        Turn::LogFailed => Proposed::LogFailed,
        Turn::NoMemory | Turn::Decided | Turn::Lemma | Turn::Ended => Proposed::NoMemory,
    }
}

// Whether a timetable is permitted and beats the best.
fn is_better<S: Store + Drop, P: Propagator + Drop>(
    search: &Search<'_, S, P>,
    table: &Timetable,
) -> bool
    ensures permitted { IsTrue result → Permits search.now.problem table.now }
    ensures better { IsTrue result → IsBetter search.now table.now }
{
    let scene = search.scene();
    if !is_timetable(scene.flat, table) || broken(scene.flat, table).is_some() {
        return false;
    }
    match (cargo(scene.flat, table), scene.best) {
        (None, _) => false,
        (Some(_), None) => true,
        (Some(worth), Some(best)) => best < worth,
    }
}

// Takes a timetable where it is permitted and beats the best.
fn consider<S: Store + Drop, P: Propagator + Drop, L: Log>(
    search: &mut Search<'_, S, P>,
    table: &Timetable,
    log: &mut L,
) -> Proposed
    requires going { search.old.over ≡ false }
    requires fits { WhereTold (L.state log.old) (λ told. LogFits told search.old) }
    ensures meets { ProposeMeets search.old (L.state log.old) result search.new (L.state log.new) }
    ensures kept { ProposeKeepsFaults result (L.state log.old) (L.state log.new) }
    ensures same_reference { L.anchor log.new ≡ L.anchor log.old }
{
    let _lemmas = search.lemmas();
    if !is_better(search, table) {
        return Proposed::Same;
    }
    proposed_by(search.offer(table, log))
}

/// Asks an adviser for a timetable, and takes it where it is permitted and beats the best. Where
/// its line isn't taken the search is over.
pub fn propose<S: Store + Drop, P: Propagator + Drop, A: Adviser, L: Log>(
    search: &mut Search<'_, S, P>,
    adviser: &mut A,
    log: &mut L,
) -> Proposed
    requires going { search.old.over ≡ false }
    requires fits { WhereTold (L.state log.old) (λ told. LogFits told search.old) }
    ensures meets { ProposeMeets search.old (L.state log.old) result search.new (L.state log.new) }
    ensures kept { ProposeKeepsFaults result (L.state log.old) (L.state log.new) }
    ensures same_reference { L.anchor log.new ≡ L.anchor log.old }
{
    match adviser.propose(search.allocator(), &search.scene()) {
        Ok(None) => Proposed::Same,
        Ok(Some(table)) => consider(search, &table, log),
        Err(_stop) => {
            let _turn = search.halt(LogStop::NoMemory);
            Proposed::NoMemory
        }
    }
}
