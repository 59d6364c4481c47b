//! The tolls that were declared one after another, the tariff in force and the last bound.

ghost use Rattle.std.specs.Prelude.{◌≡◌, ◌↔◌, ◌∷◌, ◌++◌, [], ◌<◌, Some, length, option_map, IfOk, IfSome, OnOk, OnErr, IsTrue, IsSomeAnd};
ghost use Rattle.hw_model.specs.Problem.{Problem};
ghost use Rattle.hw_model.specs.Rooms.{RoomFits};
ghost use Rattle.hw_price_laws.specs.Tolls.{IsToll};
ghost use Rattle.hw_price_laws.specs.Prices.{TariffFits, PricesRefute};
ghost use Rattle.hw_price_laws.specs.Computed as computed;
ghost use Rattle.hw_price_laws.specs.Judged as judged;
ghost use Rattle.hw_price_tests.specs.PriceStates.{AreGood, no_prices, tariff_in_force};

use crate::by_pair::RulesByPair;
use crate::in_force::InForce;
use crate::judging::is_toll_by;
use hw_flat::{Flat, Room};
use hw_model::NoMemory;
use hw_price_laws::{MOST_TOLLS, Tariff, Toll};
use std::alloc::Global;
use std::marker::Model;

/// All tolls so far of a problem, the tariff in force or none, and the last bound or none.
///
/// Seen as these; the tariff with what was charged for it.
#[derive(Drop)]
pub struct PriceBook {
    rules: RulesByPair,
    tolls: Vec<Toll>,
    in_force: Option<InForce>,
    bound: Option<u64>,
}

impl Model for PriceBook {
    ghost use Rattle.hw_price_tests.specs.PriceStates.{PriceState};

    ghost Value = { PriceState };

    ghost view = { λ b. record { tolls = b.tolls.items; charged = b.in_force; bound = b.bound } };
}

impl PriceBook {
    /// No tolls, no tariff and no bound. It takes a pass through the problem's rules, and memory
    /// for a place of each. An error says that memory ran out.
    pub fn new(alloc: Global, flat: &Flat) -> Result<PriceBook, NoMemory>
        ensures none { IfOk result (λ book. book ≡ no_prices) }
        ensures good { IfOk result (λ book. AreGood flat.now book) }
    {
        Ok(PriceBook {
            rules: RulesByPair::new(alloc, flat)?,
            tolls: Vec::new(alloc),
            in_force: None,
            bound: None,
        })
    }

    /// Whether the toll is one of the problem. It costs what [`is_toll_by`](crate::is_toll_by)
    /// does, and nothing that is seen changes. An error says that memory ran out.
    pub fn is_toll(&mut self, alloc: Global, flat: &Flat, toll: &Toll) -> Result<bool, NoMemory>
        ensures same { self.new ≡ self.old }
        ensures computed { IfOk result (λ yes. yes ≡ judged.is_toll flat.now toll.now) }
        ensures means { IfOk result (λ yes. IsTrue yes ↔ IsToll flat.now toll.now) }
    {
        is_toll_by(alloc, flat, &mut self.rules, toll)
    }

    /// Adds a toll after those that are there. Below 10,000 of them the book stays good. An error
    /// says that memory ran out, and nothing has changed.
    pub fn declare(&mut self, toll: Toll) -> Result<(), NoMemory>
        ensures added { OnOk result (self.new ≡ record self.old { tolls = self.old.tolls ++ toll ∷ [] }) }
        ensures kept { OnErr result (self.new ≡ self.old) }
        ensures good { (f : Problem) → AreGood f self.old → IsToll f toll → length self.old.tolls < MOST_TOLLS → AreGood f self.new }
    {
        self.tolls.push(toll)?;
        Ok(())
    }

    /// Puts a tariff on the tolls so far in force, instead of any other. It costs what
    /// [`InForce::new`] does. An error says that memory ran out, and nothing has changed.
    pub fn put_in_force(
        &mut self,
        alloc: Global,
        flat: &Flat,
        tariff: Tariff,
    ) -> Result<(), NoMemory>
        requires good { AreGood flat.now self.old }
        requires fits { TariffFits (length self.old.tolls) tariff }
        ensures tariff { OnOk result (tariff_in_force self.new ≡ Some tariff) }
        ensures tolls { self.new.tolls ≡ self.old.tolls }
        ensures bound { self.new.bound ≡ self.old.bound }
        ensures kept { OnErr result (self.new ≡ self.old) }
        ensures good { AreGood flat.now self.new }
    {
        let prices = InForce::new(alloc, flat, &self.tolls, tariff)?;
        self.in_force = Some(prices);
        Ok(())
    }

    /// Whether the tariff in force refutes the room under the best, in tenths of a tonne; none
    /// where no tariff is in force. It costs what [`InForce::refutes`] does.
    pub fn refutes(&self, flat: &Flat, best: Option<u64>, room: &Room) -> Option<bool>
        requires good { AreGood flat.now self.now }
        requires room { RoomFits flat.now room.now }
        ensures computed { result ≡ option_map (λ t. computed.prices_refute flat.now self.now.tolls t best room.now) (tariff_in_force self.now) }
        ensures means { IfSome result (λ yes. IsTrue yes ↔ IsSomeAnd (tariff_in_force self.now) (λ t. PricesRefute flat.now self.now.tolls t best room.now)) }
    {
        match &self.in_force {
            None => None,
            Some(prices) => Some(prices.refutes(flat, &self.tolls, best, room)),
        }
    }

    /// How many parts make a tenth of a tonne under the tariff in force; none where there is none.
    pub fn scale(&self) -> Option<u32>
        ensures value { result ≡ option_map (λ t. t.scale) (tariff_in_force self.now) }
    {
        match &self.in_force {
            None => None,
            Some(prices) => Some(prices.tariff().scale),
        }
    }

    /// Sets the last bound, in tenths of a tonne.
    pub fn set_bound(&mut self, bound: u64)
        ensures bound { self.new ≡ record self.old { bound = Some bound } }
        ensures good { (f : Problem) → AreGood f self.old → AreGood f self.new }
    {
        self.bound = Some(bound);
    }

    /// The last bound, in tenths of a tonne, or none.
    pub fn bound(&self) -> Option<u64>
        ensures value { result ≡ self.now.bound }
    {
        self.bound
    }

    /// The number of tolls.
    pub fn count(&self) -> usize
        ensures value { result ≡ length self.now.tolls }
    {
        self.tolls.len()
    }
}
