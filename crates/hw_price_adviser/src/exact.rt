//! The exact tests that each answer passes.

ghost use Rattle.std.specs.Prelude.{◌≡◌, ◌≤◌, ◌++◌, Some, length, map, All, IfOk, IfSome, IsTrue};
ghost use Rattle.std.specs.List.Sorted.{IsStrictlyIncreasing};
ghost use Rattle.hw_model.specs.declared.source.Source.TheVariants.{Goal};
ghost use Rattle.hw_model.specs.Lits.{IsClause};
ghost use Rattle.hw_model.specs.Problem.{shape_of};
ghost use Rattle.hw_model.specs.Quiet.{SpeaksOnlyOf, names_lit};
ghost use Rattle.hw_model.specs.Rooms.{RoomFits};
ghost use Rattle.hw_lits.specs.Active.{IsActive};
ghost use Rattle.hw_price_laws.specs.Tolls.{IsToll, capacity};
ghost use Rattle.hw_price_laws.specs.Prices.{PricesRefute, TariffFits};
ghost use Rattle.hw_price_tests.specs.InForce.{IsCharged};
ghost use Rattle.hw_search_advice.specs.Advisers.{AreFurtherPrices};
ghost use Rattle.hw_price_adviser.specs.Exact.{IsTariffBound, IsTested};

use hw_flat::{Flat, Room};
use hw_lits::{Clause, deny, narrowing};
use hw_model::{Lit, MOST_CARGO, MOST_HELD, Narrowed, NoMemory};
use hw_price_laws::{Balance, Due, MOST_TOLLS, Tariff, Toll};
use hw_price_tests::{
    InForce, RulesByPair, allowance_of, charged_balances, charged_refute, is_toll_by, tariff_fits,
};
use hw_search_advice::Scene;
use std::alloc::Global;

/// The declared tolls and those that come after them.
pub(crate) fn joined(alloc: Global, declared: &[Toll], more: &[Toll]) -> Result<Vec<Toll>, NoMemory>
    ensures value { IfOk result (λ all. all.items ≡ declared.now ++ more.now) }
{
    let mut all = Vec::new(alloc);
    add_copies(alloc, declared, &mut all)?;
    add_copies(alloc, more, &mut all)?;
    Ok(all)
}

fn add_copies(alloc: Global, tolls: &[Toll], all: &mut Vec<Toll>) -> Result<(), NoMemory>
    ensures value { IfOk result (λ _. all.new.items ≡ all.old.items ++ tolls.now) }
{
    for toll in tolls {
        let toll = toll.copy(alloc)?;
        all.push(toll)?;
    }
    Ok(())
}

/// Whether these are tolls of the problem that may come after the declared ones, and the tariff is
/// one on all of them whose dues are on ascending tolls.
pub(crate) fn are_priced(
    alloc: Global,
    scene: &Scene<'_>,
    rules: &mut RulesByPair,
    more: &[Toll],
    tariff: &Tariff,
) -> Result<bool, NoMemory>
    requires few { length scene.now.tolls.now ≤ MOST_TOLLS }
    ensures value { IfOk result (λ yes. IsTrue yes → AreFurtherPrices scene.now.flat.now scene.now.tolls.now more.now (Some tariff.now)) }
{
    let declared = scene.tolls.len();
    if MOST_TOLLS - declared < more.len() {
        return Ok(false);
    }
    if !tariff_fits(declared + more.len(), tariff) || !ascend(&tariff.dues.items) {
        return Ok(false);
    }
    are_tolls(alloc, scene.flat, rules, more)
}

/// Whether dues are on ascending tolls.
fn ascend(dues: &[Due]) -> bool
    ensures value { IsTrue result → IsStrictlyIncreasing (map (λ due. due.toll) dues.now) }
{
    for place in 1..dues.len() {
        if dues[place].toll <= dues[place - 1].toll {
            return false;
        }
    }
    true
}

/// Whether each of these is a toll of the problem.
fn are_tolls(
    alloc: Global,
    flat: &Flat,
    rules: &mut RulesByPair,
    tolls: &[Toll],
) -> Result<bool, NoMemory>
    ensures value { IfOk result (λ yes. IsTrue yes → All (IsToll flat.now) tolls.now) }
{
    for toll in tolls {
        if !is_toll_by(alloc, flat, rules, toll)? {
            return Ok(false);
        }
    }
    Ok(true)
}

/// The clause of these literals, if it passes all tests under a tariff that was charged on these
/// tolls.
pub(crate) fn tested(
    alloc: Global,
    scene: &Scene<'_>,
    tolls: &[Toll],
    prices: &InForce,
    lits: Vec<Lit>,
) -> Result<Option<Clause>, NoMemory>
    requires room { RoomFits scene.now.flat.now scene.now.room.now }
    requires tolls { All (IsToll scene.now.flat.now) tolls.now }
    requires charged { IsCharged scene.now.flat.now tolls.now prices.now }
    ensures value { IfOk result (λ found. IfSome found (IsTested scene.now.flat.now tolls.now prices.now.tariff scene.now.best scene.now.room.now)) }
{
    let shape = scene.flat.shape();
    let Ok(clause) = Clause::from_list(shape, lits) else {
        return Ok(None);
    };
    let mut denied = Room::whole(alloc, shape)?;
    deny(&clause, &mut denied);
    if prices.refutes(scene.flat, tolls, scene.best, &denied)
        && is_active(scene.flat, &clause, scene.room)
        && names_no_order(scene.flat, &clause)
    {
        Ok(Some(clause))
    } else {
        Ok(None)
    }
}

/// Whether the clause cuts the room, or has no literal left there.
fn is_active(flat: &Flat, clause: &Clause, room: &Room) -> bool
    requires room { RoomFits flat.now room.now }
    requires normal { IsClause (shape_of flat.now) clause.now }
    ensures value { IsTrue result → IsActive clause.now room.now }
{
    let _ships = flat.shape();
    match narrowing(clause, room) {
        Narrowed::Cut(_) | Narrowed::Conflict => true,
        Narrowed::Same | Narrowed::Loose { .. } => false,
    }
}

/// Whether each literal of the clause is a bound of one of the ships.
fn names_no_order(flat: &Flat, clause: &Clause) -> bool
    ensures value { IsTrue result → SpeaksOnlyOf flat.now Goal clause.now }
{
    for lit in clause.as_slice() {
        if !is_bound(flat, *lit) {
            return false;
        }
    }
    true
}

/// Whether a literal is a bound of one of the ships.
fn is_bound(flat: &Flat, lit: Lit) -> bool
    ensures value { result ≡ names_lit flat.now Goal lit }
{
    match lit {
        Lit::AtOrAfter { ship, .. } | Lit::Before { ship, .. } => ship < flat.shape().ships,
        Lit::First { .. } | Lit::NotFirst { .. } => false,
    }
}

/// The least bound of what any permitted timetable carries under the prices, in tenths of a tonne,
/// if it passes the test.
pub(crate) fn bound_of(
    alloc: Global,
    flat: &Flat,
    tolls: &[Toll],
    tariff: &Tariff,
) -> Result<Option<u64>, NoMemory>
    requires tolls { All (IsToll flat.now) tolls.now }
    requires fits { TariffFits (length tolls.now) tariff.now }
    ensures value { IfOk result (λ found. IfSome found (IsTariffBound flat.now tolls.now tariff.now)) }
{
    let shape = flat.shape();
    let whole = Room::whole(alloc, shape)?;
    let mut costs = vec![in alloc; 0; shape.slots as usize]?;
    let bound = match charged_balances(flat, tolls, tariff, &whole, &mut costs) {
        None => 0,
        Some(balance) => least_bound(tolls, tariff, balance),
    };
    if 0 < tariff.scale
        && bound <= MOST_CARGO
        && charged_refute(flat, tolls, tariff, Some(bound), &whole, &mut costs)
    {
        Ok(Some(bound))
    } else {
        Ok(None)
    }
}

/// What a balance earns with what the prices give back, in whole tenths of a tonne.
fn least_bound(tolls: &[Toll], tariff: &Tariff, balance: Balance) -> u64
    requires small { All (λ toll. capacity toll ≤ MOST_HELD) tolls.now }
    requires fits { TariffFits (length tolls.now) tariff.now }
{
    let allowed = allowance_of(tolls, &tariff.dues.items);
    let earned = balance
        .gain
        .saturating_add(allowed)
        .saturating_sub(balance.cost);
    let scale = u128::from(tariff.scale.max(1));
    u64::try_from(earned / scale).unwrap_or(u64::MAX)
}
