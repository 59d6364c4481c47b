//! Bounds of what any permitted timetable carries, which an adviser knows by prices.

ghost use Rattle.std.specs.Prelude.{◌≡◌, ◌↔◌, false, IsTrue};
ghost use Rattle.hw_cert.specs.Logs.{WhereTold};
ghost use Rattle.hw_search_laws.specs.Searches.{LogFits};
ghost use Rattle.hw_search_laws.specs.Advised.{BoundMeets};
ghost use Rattle.hw_search_advised.specs.Bounding.{BoundHeeds, BoundKeepsFaults, IsBoundFor, bounded_by};
ghost use Rattle.hw_search.specs.Pricing.{IsBelow};

use crate::heeding::{change_tariff, declare_all};
use hw_cert::{Log, LogStop};
use hw_prop::Propagator;
use hw_search::Search;
use hw_search_advice::{Adviser, Bounding};
use hw_search_laws::Bounded;
use hw_store::Store;

/// The answer where a line wasn't taken. It takes no memory.
fn bounded_by(stop: LogStop) -> Bounded
    ensures value { result ≡ bounded_by stop }
{
    match stop {
        LogStop::Failed => Bounded::LogFailed,
        LogStop::NoMemory => Bounded::NoMemory,
    }
}

// Whether a bound is below the last one that was told.
fn is_below<S: Store + Drop, P: Propagator + Drop>(search: &Search<'_, S, P>, bound: u64) -> bool
    ensures value { IsTrue result ↔ IsBelow search.now bound }
{
    match search.told_bound() {
        None => true,
        Some(last) => bound < last,
    }
}

// Declares the tolls of a bound, puts its tariff in force, and writes it.
fn take_bound<S: Store + Drop, P: Propagator + Drop, L: Log>(
    search: &mut Search<'_, S, P>,
    bounding: Bounding,
    log: &mut L,
) -> Result<Option<u64>, LogStop>
    requires advice { IsBoundFor search.old bounding }
    requires below { IsBelow search.old bounding.bound }
    requires fits { WhereTold (L.state log.old) (λ told. LogFits told search.old) }
    ensures heeds { BoundHeeds search.old search.new (L.state log.old) (L.state log.new) result }
    ensures same_reference { L.anchor log.new ≡ L.anchor log.old }
{
    let Bounding {
        tolls,
        tariff,
        bound,
    } = bounding;
    declare_all(search, tolls, log)?;
    change_tariff(search, tariff, log)?;
    search.tell_bound(bound, log)?;
    Ok(Some(bound))
}

// Asks an adviser for a bound, and writes it where it is below the last one.
fn ask_bound<S: Store + Drop, P: Propagator + Drop, A: Adviser, L: Log>(
    search: &mut Search<'_, S, P>,
    adviser: &mut A,
    log: &mut L,
) -> Result<Option<u64>, LogStop>
    requires fits { WhereTold (L.state log.old) (λ told. LogFits told search.old) }
    ensures heeds { BoundHeeds search.old search.new (L.state log.old) (L.state log.new) result }
    ensures same_reference { L.anchor log.new ≡ L.anchor log.old }
{
    match adviser.bound(search.allocator(), &search.scene()) {
        Ok(None) => Ok(None),
        Ok(Some(bounding)) => {
            if is_below(search, bounding.bound) {
                take_bound(search, bounding, log)
            } else {
                Ok(None)
            }
        }
        Err(_stop) => Err(LogStop::NoMemory),
    }
}

/// Asks an adviser for a bound, and writes it where it is below the last one. Where a line isn't
/// taken the search is over.
pub fn advised_bound<S: Store + Drop, P: Propagator + Drop, A: Adviser, L: Log>(
    search: &mut Search<'_, S, P>,
    adviser: &mut A,
    log: &mut L,
) -> Bounded
    requires going { search.old.over ≡ false }
    requires fits { WhereTold (L.state log.old) (λ told. LogFits told search.old) }
    ensures meets { BoundMeets search.old (L.state log.old) result search.new (L.state log.new) }
    ensures kept { BoundKeepsFaults result (L.state log.old) (L.state log.new) }
    ensures same_reference { L.anchor log.new ≡ L.anchor log.old }
{
    match ask_bound(search, adviser, log) {
        Ok(Some(_)) => Bounded::Lower,
        Ok(None) => Bounded::Same,
        Err(stop) => {
            let _turn = search.halt(stop);
            bounded_by(stop)
        }
    }
}
