//! Whether a toll is one of a problem.
ghost use Rattle.std.specs.Prelude.{◌≡◌, ◌↔◌, ◌≤◌, length, All, AllPairs, IfOk, IsTrue};
ghost use Rattle.hw_model.specs.Limits.{RuleFits};
ghost use Rattle.hw_price_laws.specs.Tolls.{IsToll, WeighsUpTo, Weigh, BlockFits, Apart, NarrowsFit, TugsTollFits, two_blocks};
ghost use Rattle.hw_price_laws.specs.Judged as judged;

use crate::by_pair::RulesByPair;
use crate::weighing::heaviest;
use hw_flat::{Flat, Room, Slot};
use hw_model::{Job, MOST_FLEET, MOST_HELD, MOST_SHIPS, MOST_TUGS, NoMemory, Rule, fleet_in};
use hw_price_laws::{Block, Toll, are_light};
use std::alloc::Global;

/// Blocks of a toll, which are of different ships.
const MOST_BLOCKS: usize = MOST_SHIPS as usize;

/// Whether the toll is one of the problem: narrows of which each two blocks are apart, or tugs of a
/// rule on tugs in a slot of the horizon, with a weight for each job, so that jobs which the fleet
/// of that slot can serve together weigh no more than is said.
///
/// For narrows each rule may be asked about each two blocks, and a room's memory is taken. For tugs
/// it costs what [`heaviest`] does. An error says that memory ran out.
pub fn is_toll(alloc: Global, flat: &Flat, toll: &Toll) -> Result<bool, NoMemory>
    ensures computed { IfOk result (λ yes. yes ≡ judged.is_toll flat.now toll.now) }
    ensures value { IfOk result (λ yes. IsTrue yes ↔ IsToll flat.now toll.now) }
{
    is_toll_by(alloc, flat, &mut RulesByPair::none(alloc), toll)
}

/// The same by an index of the problem's rules, for many tolls of one problem.
///
/// Asks the rules on the two blocks' ships first, then those that separated a pair last, then those
/// on tugs, then all: that once for each block at most, and once for a toll that is refused. A room's
/// memory is taken. An error says that memory ran out.
pub fn is_toll_by(
    alloc: Global,
    flat: &Flat,
    rules: &mut RulesByPair,
    toll: &Toll,
) -> Result<bool, NoMemory>
    ensures computed { IfOk result (λ yes. yes ≡ judged.is_toll flat.now toll.now) }
    ensures value { IfOk result (λ yes. IsTrue yes ↔ IsToll flat.now toll.now) }
{
    match toll {
        Toll::Narrows { blocks } => narrows_fit(alloc, flat, &blocks.items, rules),
        Toll::Tugs {
            restriction,
            slot,
            weights,
            most,
        } => tugs_fit(alloc, flat, *restriction, *slot, &weights.items, *most),
    }
}

/// Whether these weights of the rule with this number are a toll in a slot. The number counts the ships first.
fn tugs_fit(
    alloc: Global,
    flat: &Flat,
    restriction: u32,
    slot: Slot,
    weights: &[u32],
    most: u32,
) -> Result<bool, NoMemory>
    ensures value { IfOk result (λ yes. IsTrue yes ↔ TugsTollFits flat.now restriction slot weights.now most) }
{
    let shape = flat.shape();
    if restriction < shape.ships || shape.rules <= restriction - shape.ships {
        return Ok(false);
    }
    if flat.horizon() <= slot || MOST_HELD < most || !are_light(weights) {
        return Ok(false);
    }
    let rule = &flat.rules()[(restriction - shape.ships) as usize];
    weighs_up_to(alloc, rule, slot, weights, most)
}

/// Whether the rule is one on tugs, and the jobs that its fleet of the slot can serve together weigh
/// at most `most`.
fn weighs_up_to(
    alloc: Global,
    rule: &Rule,
    slot: Slot,
    weights: &[u32],
    most: u32,
) -> Result<bool, NoMemory>
    requires fits { RuleFits MOST_SHIPS rule.now }
    requires small { All (λ weight. weight ≤ MOST_TUGS) weights.now }
    ensures value { IfOk result (λ yes. IsTrue yes ↔ WeighsUpTo slot weights.now most rule.now) }
{
    match rule {
        Rule::Pair { .. } | Rule::After { .. } => Ok(false),
        Rule::Tugs { fleet, later, jobs } => jobs_weigh(
            alloc,
            fleet_in(*fleet, &later.items, slot),
            &jobs.items,
            weights,
            most,
        ),
    }
}

/// Whether there is a weight for each job, and jobs that the fleet can serve together weigh at most
/// `most`.
fn jobs_weigh(
    alloc: Global,
    fleet: u32,
    jobs: &[Job],
    weights: &[u32],
    most: u32,
) -> Result<bool, NoMemory>
    requires few { length jobs.now ≤ MOST_SHIPS }
    requires small { All (λ weight. weight ≤ MOST_TUGS) weights.now }
    requires small_fleet { fleet ≤ MOST_FLEET }
    ensures value { IfOk result (λ yes. IsTrue yes ↔ Weigh fleet jobs.now weights.now most) }
{
    if weights.len() != jobs.len() {
        return Ok(false);
    }
    let heaviest = heaviest(alloc, weights, jobs, fleet)?;
    Ok(heaviest <= most)
}

/// Whether there are 1 to `MOST_SHIPS` blocks, each two of them apart.
fn narrows_fit(
    alloc: Global,
    flat: &Flat,
    blocks: &[Block],
    rules: &mut RulesByPair,
) -> Result<bool, NoMemory>
    ensures value { IfOk result (λ yes. IsTrue yes ↔ NarrowsFit flat.now blocks.now) }
{
    let mut room = Room::whole(alloc, flat.shape())?;
    Ok(blocks_fit(flat, blocks, &mut room, rules))
}

/// The same by a room of the problem's size, which serves to try them.
fn blocks_fit(flat: &Flat, blocks: &[Block], room: &mut Room, rules: &mut RulesByPair) -> bool
    requires ships { room.old.ships ≡ flat.now.ships }
    requires slots { room.old.slots ≡ flat.now.slots }
    ensures value { IsTrue result ↔ NarrowsFit flat.now blocks.now }
{
    if blocks.is_empty() {
        return false;
    }
    if blocks.len() > MOST_BLOCKS {
        return false;
    }
    if !each_fits(flat, blocks) {
        return false;
    }
    all_apart(flat, blocks, room, rules)
}

/// Whether each block is one of the problem.
fn each_fits(flat: &Flat, blocks: &[Block]) -> bool
    ensures value { IsTrue result ↔ All (BlockFits flat.now) blocks.now }
{
    for block in blocks {
        if !block_fits(flat, *block) {
            return false;
        }
    }
    true
}

/// Whether a block is of one of the ships, not empty, and of the problem's slots.
fn block_fits(flat: &Flat, block: Block) -> bool
    ensures value { IsTrue result ↔ BlockFits flat.now block }
{
    let shape = flat.shape();
    block.ship < shape.ships && block.low <= block.high && block.high < shape.slots
}

/// Whether each two of these blocks are apart. The room serves to try them.
fn all_apart(flat: &Flat, blocks: &[Block], room: &mut Room, rules: &mut RulesByPair) -> bool
    requires fit { All (BlockFits flat.now) blocks.now }
    requires ships { room.old.ships ≡ flat.now.ships }
    requires slots { room.old.slots ≡ flat.now.slots }
    ensures value { IsTrue result ↔ AllPairs (Apart flat.now) blocks.now }
{
    for (place, block) in blocks.iter().enumerate() {
        if !apart_from_earlier(flat, &blocks[..place], *block, room, rules) {
            return false;
        }
    }
    true
}

/// Whether each of the blocks is apart from a later one.
fn apart_from_earlier(
    flat: &Flat,
    earlier: &[Block],
    block: Block,
    room: &mut Room,
    rules: &mut RulesByPair,
) -> bool
    requires fit { All (BlockFits flat.now) earlier.now }
    requires block_fits { BlockFits flat.now block }
    requires ships { room.old.ships ≡ flat.now.ships }
    requires slots { room.old.slots ≡ flat.now.slots }
    ensures value { IsTrue result ↔ All (λ first. Apart flat.now first block) earlier.now }
    ensures ships { room.new.ships ≡ flat.now.ships }
    ensures slots { room.new.slots ≡ flat.now.slots }
{
    for first in earlier {
        if !apart(flat, *first, block, room, rules) {
            return false;
        }
    }
    true
}

/// Whether two blocks are of ascending ships, and some rule refutes that both ships lie in theirs.
fn apart(flat: &Flat, first: Block, second: Block, room: &mut Room, rules: &mut RulesByPair) -> bool
    requires first_fits { BlockFits flat.now first }
    requires second_fits { BlockFits flat.now second }
    requires ships { room.old.ships ≡ flat.now.ships }
    requires slots { room.old.slots ≡ flat.now.slots }
    ensures value { IsTrue result ↔ Apart flat.now first second }
    ensures ships { room.new.ships ≡ flat.now.ships }
    ensures slots { room.new.slots ≡ flat.now.slots }
{
    set_blocks(flat, first, second, room);
    first.ship < second.ship && rules.refute(flat, room, first.ship, second.ship)
}

/// Leaves all open but the two blocks.
fn set_blocks(flat: &Flat, first: Block, second: Block, room: &mut Room)
    requires first_fits { BlockFits flat.now first }
    requires second_fits { BlockFits flat.now second }
    requires ships { room.old.ships ≡ flat.now.ships }
    requires slots { room.old.slots ≡ flat.now.slots }
    ensures value { room.new ≡ two_blocks flat.now first second }
{
    let _shape = flat.shape();
    room.reset();
    room.put(first.ship, first.low, first.high);
    room.put(second.ship, second.low, second.high);
}
