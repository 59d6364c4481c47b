//! A search that its own bound closes: where the best timetable reaches the last bound, the tariff that
//! shows the bound leaves nothing of the whole problem.

ghost use Rattle.std.specs.Prelude.{◌≡◌, ◌≤◌, ◌↔◌, [], false, IfErr, IfOk, IsTrue, OnOk};
ghost use Rattle.hw_cert.specs.Logs.{WhereTold};
ghost use Rattle.hw_search_laws.specs.Closing.{CloseMeets, IsReached};
ghost use Rattle.hw_search_laws.specs.Searches.{LogFits, PricesShow};
ghost use Rattle.hw_search_advised.specs.Closing.{CloseDoes, CloseKeepsFaults, LastMeets, closed_by};
ghost use Rattle.hw_search.specs.Pricing.{HeedMeets};

use hw_cert::{Log, LogStop};
use hw_lits::Clause;
use hw_price_laws::Tariff;
use hw_prop::Propagator;
use hw_search::Search;
use hw_search_laws::{Closed, MOST_BUDGET};
use hw_search_ledger::hand_priced;
use hw_store::Store;
use std::alloc::Global;

/// The answer where a line wasn't taken. It takes no memory.
fn closed_by(stop: LogStop) -> Closed
    ensures value { result ≡ closed_by stop }
{
    match stop {
        LogStop::Failed => Closed::LogFailed,
        LogStop::NoMemory => Closed::NoMemory,
    }
}

// The same tariff.
fn copy(alloc: Global, tariff: &Tariff) -> Result<Tariff, LogStop>
    ensures value { IfOk result (λ copied. copied ≡ tariff.now) }
    ensures stop { IfErr result (λ stop. stop ≡ LogStop.NoMemory) }
{
    let Ok(copied) = tariff.copy(alloc) else {
        return Err(LogStop::NoMemory);
    };
    Ok(copied)
}

// Whether the best timetable reaches the last bound.
fn is_reached<S: Store + Drop, P: Propagator + Drop>(search: &Search<'_, S, P>) -> bool
    ensures value { IsTrue result ↔ IsReached search.now }
{
    match (search.scene().best, search.told_bound()) {
        (Some(best), Some(bound)) => bound <= best,
        _ => false,
    }
}

// Puts the tariff that shows the last bound in force, unless it is.
fn return_to_bound<S: Store + Drop, P: Propagator + Drop, L: Log>(
    search: &mut Search<'_, S, P>,
    log: &mut L,
) -> Result<(), LogStop>
    requires reached { IsReached search.old }
    requires fits { WhereTold (L.state log.old) (λ told. LogFits told search.old) }
    ensures shows { OnOk result (PricesShow search.new []) }
    ensures heeds { HeedMeets search.old search.new (L.state log.old) (L.state log.new) result }
    ensures same_reference { L.anchor log.new ≡ L.anchor log.old }
{
    match search.older_tariff() {
        None => Ok(()),
        Some(older) => {
            let tariff = copy(search.allocator(), older)?;
            search.put_in_force(tariff, log)
        }
    }
}

// Writes a clause of prices without literals.
fn write_last<S: Store + Drop, P: Propagator + Drop, L: Log>(
    search: &Search<'_, S, P>,
    log: &mut L,
) -> Result<(), LogStop>
    requires shows { PricesShow search.now [] }
    requires going { search.now.over ≡ false }
    requires few { search.now.lemmas ≤ MOST_BUDGET }
    requires fits { WhereTold (L.state log.old) (λ told. LogFits told search.now) }
    ensures writes { LastMeets search.now (L.state log.old) (L.state log.new) result }
    ensures same_reference { L.anchor log.new ≡ L.anchor log.old }
{
    let _lemmas = search.lemmas();
    let clause = Clause::of_normal(Vec::new(search.allocator()));
    hand_priced(search.allocator(), &clause, log)
}

// Closes the search, whose best timetable reaches the last bound.
fn close_reached<S: Store + Drop, P: Propagator + Drop, L: Log>(
    search: &mut Search<'_, S, P>,
    log: &mut L,
) -> Result<(), LogStop>
    requires reached { IsReached search.old }
    requires going { search.old.over ≡ false }
    requires few { search.old.lemmas ≤ MOST_BUDGET }
    requires fits { WhereTold (L.state log.old) (λ told. LogFits told search.old) }
    ensures closes { CloseDoes search.old search.new (L.state log.old) (L.state log.new) result }
    ensures same_reference { L.anchor log.new ≡ L.anchor log.old }
{
    return_to_bound(search, log)?;
    write_last(search, log)?;
    search.finish();
    Ok(())
}

/// Closes the search where the best timetable reaches the last bound: the tariff that shows the
/// bound comes into force again, and a clause of prices without literals ends the certificate.
pub fn close<S: Store + Drop, P: Propagator + Drop, L: Log>(
    search: &mut Search<'_, S, P>,
    log: &mut L,
) -> Closed
    requires going { search.old.over ≡ false }
    requires few { search.old.lemmas ≤ MOST_BUDGET }
    requires fits { WhereTold (L.state log.old) (λ told. LogFits told search.old) }
    ensures meets { CloseMeets search.old (L.state log.old) result search.new (L.state log.new) }
    ensures kept { CloseKeepsFaults result (L.state log.old) (L.state log.new) }
    ensures same_reference { L.anchor log.new ≡ L.anchor log.old }
{
    if !is_reached(search) {
        return Closed::Open;
    }
    match close_reached(search, log) {
        Ok(()) => Closed::Ended,
        Err(stop) => {
            let _turn = search.halt(stop);
            closed_by(stop)
        }
    }
}
