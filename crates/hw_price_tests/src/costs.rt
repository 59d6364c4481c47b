//! What all ships pay in each slot: each due charges its toll's blocks or jobs once.

ghost use Rattle.std.specs.Prelude.{◌≡◌, ℕ, ◌+◌, ◌*◌, ◌<◌, ◌≤◌, ◌&&◌, nat_le, nat_lt, if◌then◌else◌, Some, length, map, All, IfOk, slice_index};
ghost use Rattle.hw_model.specs.Limits.{RuleFits};
ghost use Rattle.hw_price_laws.specs.Tolls.{IsToll, WeighsUpTo, block_charge, job_charges, rule_charges};
ghost use Rattle.hw_price_laws.specs.Prices.{DueFits};
ghost use Rattle.hw_price_laws.specs.Computed as computed;
ghost use Rattle.hw_price_tests.specs.Charging.{AllPayMore, AreRows, CanPay, HasCost, cost_at, most_paid, pays_for};
ghost use Rattle.hw_price_tests.specs.InForce.{AreCosts};

use crate::charging::{add, charge_for, charge_of};
use crate::taking::toll_at;
use hw_flat::{Flat, Slot};
use hw_model::{Job, MOST_HELD, MOST_SLOTS, MOST_TUGS, NoMemory, Rule};
use hw_price_laws::{Block, Charge, Due, MOST_DUES, MOST_PRICE, Toll};
use std::alloc::Global;
use std::marker::Model;

/// What a ship pays in each slot, in parts, seen as their list.
#[derive(Drop)]
pub(crate) struct Costs {
    items: Vec<u128>,
}

impl Model for Costs {
    ghost use Rattle.std.specs.Prelude.{List, ℕ, ◌≤◌, All};
    ghost use Rattle.hw_price_tests.specs.Charging.{most_paid};

    ghost Value = { List ℕ };

    ghost view = { λ c. c.items.items };

    ghost invariant = { λ c. All (λ cost. cost ≤ most_paid) c.items.items };
}

impl Costs {
    /// Nothing in each of this many slots. An error says that memory ran out.
    fn none(alloc: Global, slots: u32) -> Result<Costs, NoMemory>
        ensures long { IfOk result (λ costs. length costs ≡ slots) }
        ensures none { IfOk result (λ costs. (k : ℕ) → slice_index costs k ≡ 0) }
    {
        Ok(Costs {
            items: vec![in alloc; 0; slots as usize]?,
        })
    }

    /// The costs, in the order of the slots.
    pub(crate) fn as_slice(&self) -> &[u128]
        ensures value { result.now ≡ self.now }
        ensures small { All (λ cost. cost ≤ most_paid) self.now }
    {
        &self.items
    }

    /// Adds an amount to the cost of each slot from `from` on and below `to`.
    fn add(&mut self, from: usize, to: usize, amount: u128)
        requires inside { to ≤ length self.old }
        requires small_amount { amount ≤ MOST_TUGS * MOST_PRICE }
        requires room { (k : ℕ) → from ≤ k → k < to → slice_index self.old k + amount ≤ most_paid }
        ensures long { length self.new ≡ length self.old }
        ensures value { (k : ℕ) → slice_index self.new k ≡ slice_index self.old k + (if nat_le from k && nat_lt k to then amount else 0) }
    {
        add(&mut self.items, from, to, amount);
    }
}

/// What each ship pays in each slot: a row for each ship.
///
/// It takes the memory of a number for each ship and slot. Each due costs one look at its toll's
/// blocks or jobs, and a step for each slot that they charge. An error says that memory ran out.
pub(crate) fn costs_of(
    alloc: Global,
    flat: &Flat,
    tolls: &[Toll],
    dues: &[Due],
) -> Result<Vec<Costs>, NoMemory>
    requires tolls { All (IsToll flat.now) tolls.now }
    requires few { length dues.now ≤ MOST_DUES }
    requires fit { All (DueFits (length tolls.now)) dues.now }
    ensures value { IfOk result (λ costs. AreCosts flat.now tolls.now dues.now costs.items) }
{
    let mut rows = no_costs(alloc, flat)?;
    charge_dues(&mut rows, flat, tolls, dues);
    Ok(rows)
}

/// A row for each ship, with nothing in each slot.
fn no_costs(alloc: Global, flat: &Flat) -> Result<Vec<Costs>, NoMemory>
    ensures rows { IfOk result (λ rows. AreRows flat.now.ships flat.now.slots rows.items) }
    ensures none { IfOk result (λ rows. (ship slot : ℕ) → cost_at rows.items ship slot ≡ 0) }
{
    let shape = flat.shape();
    let mut rows = Vec::new(alloc);
    for _ship in 0..shape.ships {
        let row = Costs::none(alloc, shape.slots)?;
        rows.push(row)?;
    }
    Ok(rows)
}

/// Adds what the ships pay for each due.
fn charge_dues(rows: &mut [Costs], flat: &Flat, tolls: &[Toll], dues: &[Due])
    requires rows { AreRows flat.now.ships flat.now.slots rows.old }
    requires none { (ship slot : ℕ) → cost_at rows.old ship slot ≡ 0 }
    requires tolls { All (IsToll flat.now) tolls.now }
    requires few { length dues.now ≤ MOST_DUES }
    requires fit { All (DueFits (length tolls.now)) dues.now }
    ensures charged { AllPayMore (computed.pays flat.now tolls.now dues.now) rows.old rows.new }
{
    let _shape = flat.shape();
    for due in dues {
        charge_ships(rows, flat, due.price, toll_at(tolls, due.toll));
    }
}

/// Adds what the ships pay for a toll at this price.
fn charge_ships(rows: &mut [Costs], flat: &Flat, price: u64, toll: &Toll)
    requires rows { AreRows flat.now.ships flat.now.slots rows.old }
    requires small_price { price ≤ MOST_PRICE }
    requires toll { IsToll flat.now toll.now }
    requires room { CanPay (λ ship slot. price * computed.takes_at flat.now (Some toll.now) ship slot) rows.old }
    ensures charged { AllPayMore (λ ship slot. price * computed.takes_at flat.now (Some toll.now) ship slot) rows.old rows.new }
{
    match toll {
        Toll::Narrows { blocks } => charge_each_block(rows, price, &blocks.items),
        Toll::Tugs {
            restriction,
            slot,
            weights,
            ..
        } => charge_each_of_rule(
            rows,
            price,
            &flat.rules()[(*restriction - flat.shape().ships) as usize],
            &weights.items,
            *slot,
        ),
    }
}

/// Adds what the ships pay for blocks.
fn charge_each_block(rows: &mut [Costs], price: u64, blocks: &[Block])
    requires inside { All (λ block. HasCost rows.old block.ship block.high) blocks.now }
    requires small_price { price ≤ MOST_PRICE }
    requires room { CanPay (pays_for price (map block_charge blocks.now)) rows.old }
    ensures charged { AllPayMore (pays_for price (map block_charge blocks.now)) rows.old rows.new }
{
    for block in blocks {
        charge_row(rows, price, charge_of(*block));
    }
}

/// Adds what the ships pay for a rule's jobs; other rules have none.
fn charge_each_of_rule(rows: &mut [Costs], price: u64, rule: &Rule, weights: &[u32], busy: Slot)
    requires fits { RuleFits (length rows.old) rule.now }
    requires inside { All (λ row. busy < length row) rows.old }
    requires weighed { WeighsUpTo busy weights.now MOST_HELD rule.now }
    requires small_weights { All (λ weight. weight ≤ MOST_TUGS) weights.now }
    requires small_price { price ≤ MOST_PRICE }
    requires in_slots { busy ≤ MOST_SLOTS }
    requires room { CanPay (pays_for price (rule_charges busy weights.now (Some rule.now))) rows.old }
    ensures charged { AllPayMore (pays_for price (rule_charges busy weights.now (Some rule.now))) rows.old rows.new }
{
    match rule {
        Rule::Pair { .. } | Rule::After { .. } => {}
        Rule::Tugs { jobs, .. } => charge_each_job(rows, price, &jobs.items, weights, busy),
    }
}

/// Adds what the ships pay for jobs with their weights.
fn charge_each_job(rows: &mut [Costs], price: u64, jobs: &[Job], weights: &[u32], busy: Slot)
    requires inside { All (λ job. HasCost rows.old job.ship busy) jobs.now }
    requires each_job { length weights.now ≡ length jobs.now }
    requires small_weights { All (λ weight. weight ≤ MOST_TUGS) weights.now }
    requires small_price { price ≤ MOST_PRICE }
    requires in_slots { busy ≤ MOST_SLOTS }
    requires room { CanPay (pays_for price (job_charges busy weights.now jobs.now)) rows.old }
    ensures charged { AllPayMore (pays_for price (job_charges busy weights.now jobs.now)) rows.old rows.new }
{
    for (place, job) in jobs.iter().enumerate() {
        charge_row(rows, price, charge_for(*job, weights[place], busy));
    }
}

/// Adds what the charged ship pays in its slots for a charge.
fn charge_row(rows: &mut [Costs], price: u64, charge: Charge)
    requires inside { HasCost rows.old charge.ship charge.high }
    requires small_price { price ≤ MOST_PRICE }
    requires small_amount { charge.amount ≤ MOST_TUGS }
    requires room { CanPay (λ ship slot. price * computed.takes ship slot charge) rows.old }
    ensures charged { AllPayMore (λ ship slot. price * computed.takes ship slot charge) rows.old rows.new }
{
    let amount = u128::from(price) * u128::from(charge.amount);
    rows[charge.ship as usize].add(charge.low as usize, charge.high as usize + 1, amount);
}
