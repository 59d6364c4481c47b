//! Problems for demonstrations, drawn from the words of a generator.
//!
//! What is drawn is appended, and the words are taken in the order of the draws.

ghost use Rattle.std.specs.Prelude.{◌≡◌, ℕ, ◌+◌, ◌<◌, ◌≤◌, OnOk, IfOk};
ghost use Rattle.hw_flat.specs.TextWritten.{IsWritable};
ghost use Rattle.hw_flat.specs.Demonstration.{generator, draw, and_then, in_turn, from_to, rise, value_drawn, row_drawn, values_drawn, pair_drawn, pairs_of_drawn, pairs_drawn, job_drawn, jobs_drawn, rules_drawn, demonstration};

use crate::flat::Flat;
use hw_model::{
    Hole, Holes, Job, Jobs, MOST_SHIPS, MOST_SLOTS, NoMemory, Rule, ShipId, Slot, Steps,
};
use rand_pcg::Lcg64Xsh32;
use rand_pcg::rand_core::utils::NextWord;
use std::alloc::{AllocError, Global};

/// How many tugs a demonstration has.
const FLEET: u32 = 4;

/// The generator of the demonstration of this number.
#[tactic(auto, unfolding(crate::specs::Demonstration::generator))]
fn words_of(number: u32) -> Lcg64Xsh32
    ensures { result ≡ generator number }
{
    Lcg64Xsh32::new(u64::from(number), 1)
}

/// The next word, modulo `n`.
#[tactic(auto, unfolding(crate::specs::Demonstration::draw))]
fn draw(words: &mut Lcg64Xsh32, n: u32) -> u32
    requires some { 0 < n }
    ensures drawn { (result, words.new) ≡ draw n words.old }
    ensures below { result < n }
{
    words.next_word() % n
}

/// How far the water has risen in a slot, at most 25.
fn rise(slot: Slot) -> u32
    ensures value { result ≡ rise slot }
    ensures few { result ≤ 25 }
{
    let part = slot % 50;
    part.min(50 - part)
}

/// Appends a ship's value in a slot.
fn put_value(
    values: &mut Vec<Option<u64>>,
    words: &mut Lcg64Xsh32,
    tpc: u32,
    slot: Slot,
) -> Result<(), AllocError>
    requires small { tpc < 100 }
    ensures { OnOk result ((values.new.items, words.new) ≡ and_then (values.old.items, words.old) (value_drawn tpc slot)) }
{
    let value = if draw(words, 20) == 0 {
        None
    } else {
        Some(u64::from(tpc * (10 + rise(slot))))
    };
    values.push(value)?;
    Ok(())
}

/// Appends a ship's values.
fn put_row(
    values: &mut Vec<Option<u64>>,
    words: &mut Lcg64Xsh32,
    slots: u32,
    ship: ShipId,
) -> Result<(), AllocError>
    ensures { OnOk result ((values.new.items, words.new) ≡ and_then (values.old.items, words.old) (row_drawn slots ship)) }
{
    let tpc = 50 + draw(words, 50);
    for slot in 0..slots {
        put_value(values, words, tpc, slot)?;
    }
    Ok(())
}

/// The values, row by row.
fn draw_values(
    alloc: Global,
    words: &mut Lcg64Xsh32,
    ships: u32,
    slots: u32,
) -> Result<Vec<Option<u64>>, AllocError>
    requires few_ships { ships ≤ MOST_SHIPS }
    requires few_slots { slots ≤ MOST_SLOTS }
    ensures { IfOk result (λ values. (values.items, words.new) ≡ values_drawn ships slots words.old) }
{
    let mut values = Vec::with_capacity(alloc, (ships * slots) as usize)?;
    for ship in 0..ships {
        put_row(&mut values, words, slots, ship)?;
    }
    Ok(values)
}

/// Appends a rule of two ships.
fn put_pair(
    alloc: Global,
    rules: &mut Vec<Rule>,
    words: &mut Lcg64Xsh32,
    v: ShipId,
    w: ShipId,
) -> Result<(), AllocError>
    ensures { OnOk result ((rules.new.items, words.new) ≡ and_then (rules.old.items, words.old) (pair_drawn v w)) }
{
    let before = 1 + draw(words, 3) as i32;
    let after = 1 + draw(words, 3) as i32;
    let hole = Hole {
        lo: -before,
        hi: after,
    };
    let holes = Holes {
        items: Vec::from_slice(alloc, &[hole])?,
    };
    rules.push(Rule::Pair { v, w, holes })?;
    Ok(())
}

/// Appends the rules of a ship with those after it.
fn put_pairs_of(
    alloc: Global,
    rules: &mut Vec<Rule>,
    words: &mut Lcg64Xsh32,
    ships: u32,
    v: ShipId,
) -> Result<(), AllocError>
    requires ship_in { v < ships }
    ensures { OnOk result ((rules.new.items, words.new) ≡ and_then (rules.old.items, words.old) (pairs_of_drawn ships v)) }
{
    for w in v + 1..ships {
        put_pair(alloc, rules, words, v, w)?;
    }
    Ok(())
}

/// Appends the rules of each two ships.
fn put_pairs(
    alloc: Global,
    rules: &mut Vec<Rule>,
    words: &mut Lcg64Xsh32,
    ships: u32,
) -> Result<(), AllocError>
    ensures { OnOk result ((rules.new.items, words.new) ≡ and_then (rules.old.items, words.old) (pairs_drawn ships)) }
{
    for v in 0..ships {
        put_pairs_of(alloc, rules, words, ships, v)?;
    }
    Ok(())
}

/// Appends a ship's job.
fn put_job(jobs: &mut Vec<Job>, words: &mut Lcg64Xsh32, ship: ShipId) -> Result<(), AllocError>
    ensures { OnOk result ((jobs.new.items, words.new) ≡ and_then (jobs.old.items, words.old) (job_drawn ship)) }
{
    let tugs = 1 + draw(words, 2);
    let hold = 2 + draw(words, 4);
    jobs.push(Job { ship, tugs, hold })?;
    Ok(())
}

/// The jobs of all ships.
fn draw_jobs(alloc: Global, words: &mut Lcg64Xsh32, ships: u32) -> Result<Vec<Job>, AllocError>
    ensures { IfOk result (λ jobs. (jobs.items, words.new) ≡ jobs_drawn ships words.old) }
{
    let mut jobs = Vec::with_capacity(alloc, ships as usize)?;
    for ship in 0..ships {
        put_job(&mut jobs, words, ship)?;
    }
    Ok(jobs)
}

/// The rules of each two ships, and after them the rule on tugs.
fn draw_rules(alloc: Global, words: &mut Lcg64Xsh32, ships: u32) -> Result<Vec<Rule>, AllocError>
    requires few { ships ≤ MOST_SHIPS }
    ensures { IfOk result (λ rules. rules.items ≡ rules_drawn ships words.old) }
{
    let pairs = ships * ships / 2;
    let mut rules = Vec::with_capacity(alloc, pairs as usize + 1)?;
    put_pairs(alloc, &mut rules, words, ships)?;
    let jobs = Jobs {
        items: draw_jobs(alloc, words, ships)?,
    };
    let later = Steps {
        items: Vec::new(alloc),
    };
    rules.push(Rule::Tugs {
        fleet: FLEET,
        later,
        jobs,
    })?;
    Ok(rules)
}

/// The demonstration of this number, with 1 to `MOST_SHIPS` ships and 1 to `MOST_SLOTS` slots:
/// values that rise and fall with the tide, a rule of each two ships, and one on four tugs. The same
/// number gives the same problem.
pub fn make_demo(alloc: Global, number: u32, ships: u32, slots: u32) -> Result<Flat, NoMemory>
    requires some_ship { 1 ≤ ships }
    requires few_ships { ships ≤ MOST_SHIPS }
    requires some_slot { 1 ≤ slots }
    requires few_slots { slots ≤ MOST_SLOTS }
    ensures problem { IfOk result (λ flat. flat ≡ demonstration number ships slots) }
    ensures writable { IfOk result (λ flat. IsWritable flat) }
{
    let mut words = words_of(number);
    let values = draw_values(alloc, &mut words, ships, slots)?;
    let rules = draw_rules(alloc, &mut words, ships)?;
    Ok(Flat {
        ships,
        slots,
        stay: false,
        values,
        rules,
    })
}
