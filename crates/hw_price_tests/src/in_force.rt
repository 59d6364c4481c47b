//! A tariff in force: what it makes each ship pay in each slot, charged once.

ghost use Rattle.std.specs.Prelude.{◌≡◌, ◌↔◌, ◌-◌, ◌<◌, length, All, IfOk, IfSome, IsTrue};
ghost use Rattle.hw_model.specs.Limits.{IsFlat};
ghost use Rattle.hw_model.specs.Rooms.{RoomFits};
ghost use Rattle.hw_price_laws.specs.Tolls.{IsToll};
ghost use Rattle.hw_price_laws.specs.Prices.{TariffFits, PricesRefute};
ghost use Rattle.hw_price_laws.specs.Computed as computed;
ghost use Rattle.hw_price_laws.specs.Computed.{BalanceFits};
ghost use Rattle.hw_price_tests.specs.InForce.{IsCharged, AreCosts, AreTops, ShipCosts};

use crate::balancing::{best_by_costs, together};
use crate::costs::{Costs, costs_of};
use crate::refuting::{aim, falls_short};
use crate::taking::allowance_of;
use hw_flat::{Flat, Room};
use hw_model::{MOST_SHIPS, NoMemory};
use hw_price_laws::{Balance, Block, Tariff, Toll};
use std::alloc::Global;
use std::marker::Model;

/// A tariff with its allowance, what each ship pays in each slot, and each ship's best balance, all
/// in parts.
#[derive(Drop)]
pub struct InForce {
    tariff: Tariff,
    allowed: u128,
    /// A row for each ship.
    costs: Vec<Costs>,
    /// The best balance of each ship over all its slots.
    tops: Vec<Option<Balance>>,
}

impl Model for InForce {
    ghost use Rattle.hw_price_tests.specs.InForce.{Charged, AreSmall};

    ghost Value = { Charged };

    ghost view = { λ c. record { tariff = c.tariff; allowed = c.allowed; costs = c.costs.items; tops = c.tops.items } };

    ghost invariant = { λ c. AreSmall c.allowed c.tops.items };
}

impl InForce {
    /// Charges a tariff on tolls of the problem.
    ///
    /// It takes the memory of a number for each ship and slot, and a step for each. Each due costs one
    /// look at its toll's blocks or jobs, and a step for each slot that they charge. An error says
    /// that memory ran out.
    pub fn new(
        alloc: Global,
        flat: &Flat,
        tolls: &[Toll],
        tariff: Tariff,
    ) -> Result<InForce, NoMemory>
        requires tolls { All (IsToll flat.now) tolls.now }
        requires fits { TariffFits (length tolls.now) tariff }
        ensures tariff { IfOk result (λ c. c.tariff ≡ tariff) }
        ensures charged { IfOk result (λ c. IsCharged flat.now tolls.now c) }
    {
        let allowed = allowance_of(tolls, &tariff.dues.items);
        let costs = costs_of(alloc, flat, tolls, &tariff.dues.items)?;
        let tops = tops_of(alloc, flat, tolls, &tariff, &costs)?;
        Ok(InForce {
            tariff,
            allowed,
            costs,
            tops,
        })
    }

    /// The tariff.
    pub fn tariff(&self) -> &Tariff
        ensures value { result.now ≡ self.now.tariff }
    {
        &self.tariff
    }

    /// The tariff alone.
    pub fn into_tariff(self) -> Tariff
        ensures value { result ≡ self.tariff }
    {
        let InForce { tariff, .. } = self;
        tariff
    }

    /// Whether the prices refute the room under the best, in tenths of a tonne, exactly as
    /// [`charged_refute`](crate::charged_refute) says. The tolls are those for which the tariff was
    /// charged, or these and more after them.
    ///
    /// It takes no memory, a step for each ship, and one for each slot of the ranges that aren't
    /// whole, however many dues there are.
    pub fn refutes(&self, flat: &Flat, tolls: &[Toll], best: Option<u64>, room: &Room) -> bool
        requires tolls { All (IsToll flat.now) tolls.now }
        requires charged { IsCharged flat.now tolls.now self.now }
        requires room { RoomFits flat.now room.now }
        ensures computed { result ≡ computed.prices_refute flat.now tolls.now self.now.tariff best room.now }
        ensures means { IsTrue result ↔ PricesRefute flat.now tolls.now self.now.tariff best room.now }
    {
        let aimed = aim(self.tariff.scale, best);
        let balance = costed_balances(flat, tolls, &self.tariff, room, &self.costs, &self.tops);
        falls_short(self.allowed, aimed, balance)
    }
}

/// Each ship's best balance over all its slots, by what it pays.
fn tops_of(
    alloc: Global,
    flat: &Flat,
    tolls: &[Toll],
    tariff: &Tariff,
    costs: &[Costs],
) -> Result<Vec<Option<Balance>>, NoMemory>
    requires fits { TariffFits (length tolls.now) tariff.now }
    requires costs { AreCosts flat.now tolls.now tariff.now.dues costs.now }
    ensures value { IfOk result (λ tops. AreTops flat.now tolls.now tariff.now tops.items) }
    ensures small { IfOk result (λ tops. All (λ top. IfSome top (BalanceFits 1)) tops.items) }
{
    let mut tops = Vec::new(alloc);
    for ship in 0..flat.shape().ships {
        let range = Block {
            ship,
            low: 0,
            high: flat.shape().slots - 1,
        };
        let row = &costs[ship as usize];
        tops.push(best_by_costs(flat, tolls, tariff, range, row.as_slice()))?;
    }
    Ok(tops)
}

/// The ships' best balances in their ranges together by what they pay, or none where a ship has no
/// value in its range.
fn costed_balances(
    flat: &Flat,
    tolls: &[Toll],
    tariff: &Tariff,
    room: &Room,
    costs: &[Costs],
    tops: &[Option<Balance>],
) -> Option<Balance>
    requires fits { TariffFits (length tolls.now) tariff.now }
    requires room { RoomFits flat.now room.now }
    requires costs { AreCosts flat.now tolls.now tariff.now.dues costs.now }
    requires tops { AreTops flat.now tolls.now tariff.now tops.now }
    requires small { All (λ top. IfSome top (BalanceFits 1)) tops.now }
    ensures value { result ≡ computed.best_balances flat.now tolls.now tariff.now room.now }
    ensures small { IfSome result (BalanceFits MOST_SHIPS) }
    ensures limits { IsFlat flat.now }
{
    let mut sum: Option<Balance> = Some(Balance { gain: 0, cost: 0 });
    for ship in 0..flat.shape().ships {
        let range = Block {
            ship,
            low: room.low(ship),
            high: room.high(ship),
        };
        let row = &costs[ship as usize];
        let top = tops[ship as usize];
        sum = together(sum, costed_best(flat, tolls, tariff, range, row, top));
    }
    sum
}

/// A ship's best balance in a range by what it pays, where that over all its slots is known.
fn costed_best(
    flat: &Flat,
    tolls: &[Toll],
    tariff: &Tariff,
    range: Block,
    row: &Costs,
    top: Option<Balance>,
) -> Option<Balance>
    requires fits { TariffFits (length tolls.now) tariff.now }
    requires ship_in { range.ship < flat.now.ships }
    requires slot_in { range.high < flat.now.slots }
    requires costs { ShipCosts flat.now tolls.now tariff.now.dues range.ship row.now }
    requires top { top ≡ computed.best_balance flat.now tolls.now tariff.now range.ship 0 (flat.now.slots - 1) }
    requires small { IfSome top (BalanceFits 1) }
    ensures value { result ≡ computed.best_balance flat.now tolls.now tariff.now range.ship range.low range.high }
    ensures small { IfSome result (BalanceFits 1) }
{
    if range.low == 0 && range.high == flat.shape().slots - 1 {
        top
    } else {
        best_by_costs(flat, tolls, tariff, range, row.as_slice())
    }
}
