//! A turn with advice: whenever all is quiet an adviser is asked.

ghost use Rattle.std.specs.Prelude.{◌≡◌, ◌<◌, false, IfSome};
ghost use Rattle.hw_search_advice.specs.Advisers.{IsOpenIn};
ghost use Rattle.hw_cert.specs.Logs.{WhereTold};
ghost use Rattle.hw_search_laws.specs.Searches.{room_in, LogFits};
ghost use Rattle.hw_search_laws.specs.Settling.{AllQuiet};
ghost use Rattle.hw_search_advised.specs.Heeding.{AdvisedTurn, ConsultHeeds, RoundMeets};

use crate::heeding::heed;
use hw_cert::{Log, LogStop};
use hw_model::Lit;
use hw_prop::Propagator;
use hw_search::{Asked, Search};
use hw_search_advice::Adviser;
use hw_search_laws::{MOST_BUDGET, MOST_PRICED, Settled, Turn};
use hw_store::Store;

// Asks an adviser once, and heeds what it says. Where the adviser stops, the search ends as if memory had run out.
fn consult<S: Store + Drop, P: Propagator + Drop, A: Adviser, L: Log>(
    search: &mut Search<'_, S, P>,
    adviser: &mut A,
    log: &mut L,
) -> Result<Asked, LogStop>
    requires going { search.old.over ≡ false }
    requires few { search.old.lemmas < MOST_BUDGET }
    requires fits { WhereTold (L.state log.old) (λ told. LogFits told search.old) }
    ensures meets { ConsultHeeds search.old search.new (L.state log.old) (L.state log.new) result }
    ensures same_reference { L.anchor log.new ≡ L.anchor log.old }
{
    if search.priced() >= MOST_PRICED {
        return Ok(Asked::Quiet);
    }
    match adviser.advise(search.allocator(), &search.scene()) {
        Ok(None) => Ok(Asked::Quiet),
        Ok(Some(advice)) => heed(search, advice, log),
        Err(_stop) => Err(LogStop::NoMemory),
    }
}

// The literal by which an adviser wants to decide, if it prefers one.
fn preferred<S: Store + Drop, P: Propagator + Drop, A: Adviser>(
    search: &Search<'_, S, P>,
    adviser: &mut A,
) -> Option<Lit>
    ensures open { IfSome result (IsOpenIn search.now.problem (room_in search.now)) }
{
    adviser.prefer(&search.scene())
}

// Writes a better table, or decides as the adviser prefers, or else by the branching rule.
fn go_on<S: Store + Drop, P: Propagator + Drop, A: Adviser, L: Log>(
    search: &mut Search<'_, S, P>,
    adviser: &mut A,
    log: &mut L,
) -> Turn
    requires quiet { AllQuiet search.old }
    requires going { search.old.over ≡ false }
    requires few { search.old.lemmas < MOST_BUDGET }
    requires fits { WhereTold (L.state log.old) (λ told. LogFits told search.old) }
    ensures turns { AdvisedTurn search.old (L.state log.old) result search.new (L.state log.new) }
    ensures same_reference { L.anchor log.new ≡ L.anchor log.old }
{
    if search.room().is_point() {
        return search.improve(log);
    }
    match preferred(search, adviser) {
        Some(lit) => {
            search.decide_by(lit);
            Turn::Decided
        }
        None => {
            search.decide();
            Turn::Decided
        }
    }
}

// Asks an adviser, where all is quiet. None where a literal was implied.
fn advise<S: Store + Drop, P: Propagator + Drop, A: Adviser, L: Log>(
    search: &mut Search<'_, S, P>,
    adviser: &mut A,
    log: &mut L,
) -> Option<Turn>
    requires quiet { AllQuiet search.old }
    requires going { search.old.over ≡ false }
    requires few { search.old.lemmas < MOST_BUDGET }
    requires fits { WhereTold (L.state log.old) (λ told. LogFits told search.old) }
    ensures round { RoundMeets search.old search.new (L.state log.old) (L.state log.new) result }
    ensures same_reference { L.anchor log.new ≡ L.anchor log.old }
{
    match consult(search, adviser, log) {
        Ok(Asked::Quiet) => Some(go_on(search, adviser, log)),
        Ok(Asked::Cut) => None,
        Ok(Asked::Conflict(why)) => Some(search.meet_conflict(&why, log)),
        Err(stop) => Some(search.halt(stop)),
    }
}

// Settles, and then asks an adviser or learns from a conflict. None where a literal was implied.
fn round<S: Store + Drop, P: Propagator + Drop, A: Adviser, L: Log>(
    search: &mut Search<'_, S, P>,
    adviser: &mut A,
    log: &mut L,
) -> Option<Turn>
    requires going { search.old.over ≡ false }
    requires few { search.old.lemmas < MOST_BUDGET }
    requires fits { WhereTold (L.state log.old) (λ told. LogFits told search.old) }
    ensures round { RoundMeets search.old search.new (L.state log.old) (L.state log.new) result }
    ensures same_reference { L.anchor log.new ≡ L.anchor log.old }
{
    let _lemmas = search.lemmas();
    match search.settle() {
        Ok(Settled::Quiet) => advise(search, adviser, log),
        Ok(Settled::Conflict(why)) => Some(search.meet_conflict(&why, log)),
        Err(_stop) => {
            let _lemmas = search.lemmas();
            Some(search.halt(LogStop::NoMemory))
        }
    }
}

/// Rounds, until one is the last of the turn.
pub fn advised_turn<S: Store + Drop, P: Propagator + Drop, A: Adviser, L: Log>(
    search: &mut Search<'_, S, P>,
    adviser: &mut A,
    log: &mut L,
) -> Turn
    requires going { search.old.over ≡ false }
    requires few { search.old.lemmas < MOST_BUDGET }
    requires fits { WhereTold (L.state log.old) (λ told. LogFits told search.old) }
    ensures turns { AdvisedTurn search.old (L.state log.old) result search.new (L.state log.new) }
    ensures same_reference { L.anchor log.new ≡ L.anchor log.old }
{
    let _lemmas = search.lemmas();
    'rounds: loop {
        if let Some(turn) = round(search, adviser, log) {
            return turn;
        }
    }
}
