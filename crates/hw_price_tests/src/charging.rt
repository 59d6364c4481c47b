//! What a ship pays in each slot of a range, for all of these slots at once.
ghost use Rattle.std.specs.Prelude.{◌≡◌, ℕ, ◌+◌, ◌*◌, ◌<◌, ◌≤◌, ◌&&◌, nat_le, nat_lt, if◌then◌else◌, length, map, All, Some, slice_index};
ghost use Rattle.hw_model.specs.Limits.{RuleFits, JobFits};
ghost use Rattle.hw_price_laws.specs.Tolls.{IsToll, WeighsUpTo, lies_in, block_charge, job_charge, job_charges, rule_charges};
ghost use Rattle.hw_price_laws.specs.Prices.{DueFits};
ghost use Rattle.hw_price_laws.specs.Computed as computed;
ghost use Rattle.hw_price_tests.specs.Charging.{PaysMore, pays_for};

use crate::taking::toll_at;
use hw_flat::{Flat, Slot};
use hw_model::{Job, MOST_HELD, MOST_SHIPS, MOST_SLOTS, MOST_TUGS, Rule};
use hw_price_laws::{Block, Charge, Due, MOST_COST, MOST_DUES, MOST_PRICE, Toll};

/// A ship's slots that are charged, and the price of a unit.
#[derive(Clone, Copy)]
struct Span {
    range: Block,
    price: u64,
}

/// Adds an amount to the cost of each slot from `from` on and below `to`.
pub(crate) fn add(costs: &mut [u128], from: usize, to: usize, amount: u128)
    requires inside { to ≤ length costs.old }
    requires small { All (λ c. c ≤ 1_000_000_000_000_000_000_000_000_000) costs.old }
    requires small_amount { amount ≤ MOST_TUGS * MOST_PRICE }
    ensures value { (k : ℕ) → slice_index costs.new k ≡ slice_index costs.old k + (if nat_le from k && nat_lt k to then amount else 0) }
{
    for k in from..to {
        costs[k] += amount;
    }
}

/// Adds what the ship pays in its slots for a charge.
fn charge_one(costs: &mut [u128], span: Span, charge: Charge)
    requires inside { span.range.high < length costs.old }
    requires small { All (λ c. c ≤ 1_000_000_000_000_000_000_000_000_000) costs.old }
    requires small_price { span.price ≤ MOST_PRICE }
    requires small_amount { charge.amount ≤ MOST_TUGS }
    ensures value { PaysMore span.range (λ k. span.price * computed.takes span.range.ship k charge) costs.old costs.new }
{
    if charge.ship == span.range.ship {
        let from = span.range.low.max(charge.low);
        let to = span.range.high.min(charge.high);
        let amount = u128::from(span.price) * u128::from(charge.amount);
        add(costs, from as usize, to as usize + 1, amount);
    }
}

/// Adds what the ship pays in its slots for blocks.
fn charge_blocks(costs: &mut [u128], span: Span, blocks: &[Block])
    requires inside { span.range.high < length costs.old }
    requires small { All (λ c. c ≤ MOST_COST) costs.old }
    requires small_price { span.price ≤ MOST_PRICE }
    requires few { length blocks.now ≤ MOST_SHIPS }
    ensures value { PaysMore span.range (pays_for span.price (map block_charge blocks.now) span.range.ship) costs.old costs.new }
{
    for block in blocks {
        charge_one(costs, span, charge_of(*block));
    }
}

/// The charge of a block.
pub(crate) fn charge_of(block: Block) -> Charge
    ensures value { result ≡ block_charge block }
{
    Charge {
        ship: block.ship,
        low: block.low,
        high: block.high,
        amount: 1,
    }
}

/// Adds what the ship pays in its slots for jobs with their weights.
fn charge_jobs(costs: &mut [u128], span: Span, jobs: &[Job], weights: &[u32], busy: Slot)
    requires inside { span.range.high < length costs.old }
    requires small { All (λ c. c ≤ MOST_COST) costs.old }
    requires small_price { span.price ≤ MOST_PRICE }
    requires few { length jobs.now ≤ MOST_SHIPS }
    requires each_job { length weights.now ≡ length jobs.now }
    requires fit { All (JobFits MOST_SHIPS) jobs.now }
    requires small_weights { All (λ weight. weight ≤ MOST_TUGS) weights.now }
    requires in_slots { busy ≤ MOST_SLOTS }
    ensures value { PaysMore span.range (pays_for span.price (job_charges busy weights.now jobs.now) span.range.ship) costs.old costs.new }
{
    for (place, job) in jobs.iter().enumerate() {
        charge_one(costs, span, charge_for(*job, weights[place], busy));
    }
}

/// The charge of a job with its weight, in a slot.
pub(crate) fn charge_for(job: Job, weight: u32, busy: Slot) -> Charge
    requires in_slots { busy ≤ MOST_SLOTS }
    ensures value { result ≡ job_charge busy weight job }
{
    Charge {
        ship: job.ship,
        low: (busy + 1).saturating_sub(job.hold),
        high: busy,
        amount: weight,
    }
}

/// Adds what the ship pays in its slots for a rule's jobs; other rules have none.
fn charge_rule(costs: &mut [u128], span: Span, rule: &Rule, weights: &[u32], busy: Slot)
    requires inside { span.range.high < length costs.old }
    requires small { All (λ c. c ≤ MOST_COST) costs.old }
    requires small_price { span.price ≤ MOST_PRICE }
    requires fits { RuleFits MOST_SHIPS rule.now }
    requires weighed { WeighsUpTo busy weights.now MOST_HELD rule.now }
    requires small_weights { All (λ weight. weight ≤ MOST_TUGS) weights.now }
    requires in_slots { busy ≤ MOST_SLOTS }
    ensures value { PaysMore span.range (pays_for span.price (rule_charges busy weights.now (Some rule.now)) span.range.ship) costs.old costs.new }
{
    match rule {
        Rule::Pair { .. } | Rule::After { .. } => {}
        Rule::Tugs { jobs, .. } => charge_jobs(costs, span, &jobs.items, weights, busy),
    }
}

/// Adds what the ship pays in its slots for a toll.
fn charge_toll(costs: &mut [u128], span: Span, flat: &Flat, toll: &Toll)
    requires inside { span.range.high < length costs.old }
    requires small { All (λ c. c ≤ MOST_COST) costs.old }
    requires small_price { span.price ≤ MOST_PRICE }
    requires toll { IsToll flat.now toll.now }
    ensures value { PaysMore span.range (λ k. span.price * computed.takes_at flat.now (Some toll.now) span.range.ship k) costs.old costs.new }
{
    match toll {
        Toll::Narrows { blocks } => charge_blocks(costs, span, &blocks.items),
        Toll::Tugs {
            restriction,
            slot,
            weights,
            ..
        } => charge_rule(
            costs,
            span,
            &flat.rules()[(*restriction - flat.shape().ships) as usize],
            &weights.items,
            *slot,
        ),
    }
}

/// Writes what a ship pays in each slot of a range into that slot's cost, and 0 into all others.
///
/// Each due costs one look at its toll's blocks or jobs, and a step for each slot of the range that
/// they charge.
pub fn charge(costs: &mut [u128], flat: &Flat, tolls: &[Toll], dues: &[Due], range: Block)
    requires inside { range.high < length costs.old }
    requires tolls { All (IsToll flat.now) tolls.now }
    requires few { length dues.now ≤ MOST_DUES }
    requires fit { All (DueFits (length tolls.now)) dues.now }
    ensures value { (k : ℕ) → slice_index costs.new k ≡ (if lies_in range.low range.high k then computed.pays flat.now tolls.now dues.now range.ship k else 0) }
    ensures small { All (λ c. c ≤ MOST_COST) costs.new }
{
    let _shape = flat.shape();
    clear(costs);
    for due in dues {
        let span = Span {
            range,
            price: due.price,
        };
        charge_toll(costs, span, flat, toll_at(tolls, due.toll));
    }
}

/// Sets each cost to 0.
fn clear(costs: &mut [u128])
    ensures value { (k : ℕ) → slice_index costs.new k ≡ 0 }
{
    for cost in costs.iter_mut() {
        *cost = 0;
    }
}
