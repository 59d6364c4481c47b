//! Advice heeded: tolls are declared, a tariff comes into force, and a clause of prices cuts the room
//! or has no literal left.

ghost use Rattle.std.specs.Prelude.{◌≡◌, ◌<◌, ◌≤◌, ◌+◌, ◌++◌, false, All, IfSome, OnOk, length};
ghost use Rattle.hw_model.specs.Lits.{IsClause};
ghost use Rattle.hw_model.specs.Problem.{shape_of};
ghost use Rattle.hw_model.specs.Replay.{narrowing};
ghost use Rattle.hw_lits.specs.Active.{IsActive};
ghost use Rattle.hw_price_laws.specs.Tolls.{IsToll};
ghost use Rattle.hw_price_laws.specs.Prices.{TariffFits};
ghost use Rattle.hw_cert.specs.Logs.{WhereTold};
ghost use Rattle.hw_search_laws.specs.Prices.{DuesAscend};
ghost use Rattle.hw_search_laws.specs.Searches.{room_in, LogFits, PricesShow};
ghost use Rattle.hw_search.specs.Pricing.{with_other_prices, HeedMeets};
ghost use Rattle.hw_search_advised.specs.Heeding.{with_given, with_tolls, ConsultMeets, IsAdviceFor};

use hw_cert::{Log, LogStop};
use hw_lits::{Clause, narrowing};
use hw_model::Narrowed;
use hw_price_laws::{MOST_TOLLS, Tariff, Toll};
use hw_prop::Propagator;
use hw_search::{Asked, Search};
use hw_search_advice::Advice;
use hw_search_laws::{MOST_BUDGET, MOST_PRICED};
use hw_store::Store;
use hw_trail_laws::Why;

/// Declares tolls in order.
pub fn declare_all<S: Store + Drop, P: Propagator + Drop, L: Log>(
    search: &mut Search<'_, S, P>,
    tolls: Vec<Toll>,
    log: &mut L,
) -> Result<(), LogStop>
    requires tolls { All (IsToll search.old.problem) tolls.items }
    requires few { length (search.old.prices.tolls ++ tolls.items) ≤ MOST_TOLLS }
    requires fits { WhereTold (L.state log.old) (λ told. LogFits told search.old) }
    ensures search { OnOk result (search.new ≡ with_other_prices search.old (with_tolls search.old.prices tolls.items)) }
    ensures heeds { HeedMeets search.old search.new (L.state log.old) (L.state log.new) result }
    ensures same_reference { L.anchor log.new ≡ L.anchor log.old }
{
    let _lemmas = search.lemmas();
    for toll in tolls {
        search.declare(toll, log)?;
    }
    Ok(())
}

/// Puts a tariff on the declared tolls in force, where one is given.
pub fn change_tariff<S: Store + Drop, P: Propagator + Drop, L: Log>(
    search: &mut Search<'_, S, P>,
    tariff: Option<Tariff>,
    log: &mut L,
) -> Result<(), LogStop>
    requires tariff { IfSome tariff (TariffFits (length search.old.prices.tolls)) }
    requires ascend { IfSome tariff DuesAscend }
    requires fits { WhereTold (L.state log.old) (λ told. LogFits told search.old) }
    ensures search { OnOk result (search.new ≡ with_other_prices search.old (with_given search.old.prices tariff)) }
    ensures heeds { HeedMeets search.old search.new (L.state log.old) (L.state log.new) result }
    ensures same_reference { L.anchor log.new ≡ L.anchor log.old }
{
    let _lemmas = search.lemmas();
    match tariff {
        None => Ok(()),
        Some(tariff) => search.put_in_force(tariff, log),
    }
}

// Takes the literal that a clause of the prices in force has left, or tells that it has none.
fn obey<S: Store + Drop, P: Propagator + Drop, L: Log>(
    search: &mut Search<'_, S, P>,
    clause: Clause,
    log: &mut L,
) -> Result<Asked, LogStop>
    requires clause { IsClause (shape_of search.old.problem) clause }
    requires active { IsActive clause (room_in search.old) }
    requires shows { PricesShow search.old clause }
    requires going { search.old.over ≡ false }
    requires few { search.old.lemmas < MOST_BUDGET }
    requires few_priced { search.old.priced < MOST_PRICED }
    requires fits { WhereTold (L.state log.old) (λ told. LogFits told search.old) }
    ensures meets { ConsultMeets ⊥ search.old search.new (L.state log.old) (L.state log.new) result }
    ensures same_reference { L.anchor log.new ≡ L.anchor log.old }
{
    match narrowing(&clause, search.room()) {
        Narrowed::Cut(lit) => {
            search.imply_priced(lit, clause, log)?;
            Ok(Asked::Cut)
        }
        Narrowed::Conflict => Ok(Asked::Conflict(Why::Priced { clause })),
        Narrowed::Same | Narrowed::Loose { .. } => unreachable!(),
    }
}

/// Declares the tolls of advice, puts its tariff in force, and implies the clause's last free
/// literal, or returns the clause as a conflict.
pub fn heed<S: Store + Drop, P: Propagator + Drop, L: Log>(
    search: &mut Search<'_, S, P>,
    advice: Advice,
    log: &mut L,
) -> Result<Asked, LogStop>
    requires advice { IsAdviceFor search.old advice }
    requires going { search.old.over ≡ false }
    requires few { search.old.lemmas < MOST_BUDGET }
    requires few_priced { search.old.priced < MOST_PRICED }
    requires fits { WhereTold (L.state log.old) (λ told. LogFits told search.old) }
    ensures meets { ConsultMeets ⊥ search.old search.new (L.state log.old) (L.state log.new) result }
    ensures same_reference { L.anchor log.new ≡ L.anchor log.old }
{
    let Advice {
        tolls,
        tariff,
        clause,
    } = advice;
    declare_all(search, tolls, log)?;
    change_tariff(search, tariff, log)?;
    obey(search, clause, log)
}
