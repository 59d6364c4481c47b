//! Narrows that ships overfill with the slots that they chose in the last steps: clique inequalities, grown
//! greedily. See M. W. Padberg, "On the Facial Structure of Set Packing Polyhedra", Mathematical Programming 5,
//! 1973.

ghost use Rattle.std.specs.Prelude.{◌<◌, length};

use crate::counts::Counts;
use crate::distances::Distances;
use crate::finds::Finds;
use crate::settings::{OFTEN, OVERFILLED, REACH};
use hw_flat::{Flat, ShipId, Slot};
use hw_model::NoMemory;
use hw_price_laws::{Block, Blocks, Toll};
use std::alloc::Global;

/// How often a ship chose a slot.
#[derive(Clone, Copy)]
struct Spot {
    count: i64,
    ship: ShipId,
    slot: Slot,
}

impl Spot {
    fn block(self) -> Block {
        Block {
            ship: self.ship,
            low: self.slot,
            high: self.slot,
        }
    }

    fn is(self, other: Spot) -> bool {
        self.ship == other.ship && self.slot == other.slot
    }

    /// The more often chosen first, then the higher ship and slot.
    fn rank(self) -> (i64, u32, u32) {
        (
            self.count.wrapping_neg(),
            u32::MAX - self.ship,
            u32::MAX - self.slot,
        )
    }
}

/// What is sought in: what the ships chose, and how far rules keep them apart.
#[derive(Clone, Copy)]
pub(crate) struct Choices<'c> {
    pub(crate) flat: &'c Flat,
    pub(crate) counts: &'c Counts,
    pub(crate) distances: &'c Distances,
}

/// Adds narrows, grown from each slot that was chosen often, with those that were chosen most and
/// with those that are nearest.
pub(crate) fn find_narrows(
    alloc: Global,
    choices: &Choices<'_>,
    finds: &mut Finds,
) -> Result<(), NoMemory> {
    let spots = spots(alloc, choices)?;
    for seed in &spots {
        let mut near = near(alloc, choices.distances, *seed, &spots)?;
        let most = grown(alloc, choices.distances, *seed, &near)?;
        add_narrows(choices, *seed, most, finds)?;
        sort_by_nearness(&mut near, seed.slot)?;
        let nearest = grown(alloc, choices.distances, *seed, &near)?;
        add_narrows(choices, *seed, nearest, finds)?;
    }
    Ok(())
}

/// The slots that ships chose often, the most chosen first.
fn spots(alloc: Global, choices: &Choices<'_>) -> Result<Vec<Spot>, NoMemory> {
    let mut spots = Vec::new(alloc);
    let shape = choices.flat.shape();
    for ship in 0..shape.ships {
        for slot in 0..choices.flat.horizon() {
            let count = choices.counts.count(ship, slot);
            if choices.counts.steps.saturating_mul(OFTEN) < count.saturating_mul(100) {
                spots.push(Spot { count, ship, slot })?;
            }
        }
    }
    spots.sort_by_key(|spot| spot.rank())?;
    Ok(spots)
}

/// The spots that are apart from one, or its own ship's, in their order.
fn near(
    alloc: Global,
    distances: &Distances,
    seed: Spot,
    spots: &[Spot],
) -> Result<Vec<Spot>, NoMemory> {
    let mut out = Vec::new(alloc);
    for spot in spots {
        let goes = spot.ship == seed.ship || distances.apart(spot.block(), seed.block());
        if goes && !spot.is(seed) {
            out.push(*spot)?;
        }
    }
    Ok(out)
}

fn sort_by_nearness(spots: &mut Vec<Spot>, slot: Slot) -> Result<(), NoMemory> {
    spots.sort_by_key(|spot| (spot.slot.abs_diff(slot), spot.count.wrapping_neg()))?;
    Ok(())
}

/// The blocks that take in one spot after another, as far as they stay apart.
fn grown(
    alloc: Global,
    distances: &Distances,
    seed: Spot,
    near: &[Spot],
) -> Result<Vec<Block>, NoMemory> {
    let mut blocks = Vec::new(alloc);
    blocks.push(seed.block())?;
    for spot in near {
        let wide = block_with(&blocks, *spot);
        if distances.apart_from_all(wide, &blocks) {
            put_block(&mut blocks, wide)?;
        }
    }
    Ok(blocks)
}

/// The ship's block with one more slot.
fn block_with(blocks: &[Block], spot: Spot) -> Block {
    for block in blocks {
        if block.ship == spot.ship {
            return Block {
                ship: spot.ship,
                low: block.low.min(spot.slot),
                high: block.high.max(spot.slot),
            };
        }
    }
    spot.block()
}

/// Replaces the ship's own block, or adds this one.
fn put_block(blocks: &mut Vec<Block>, wide: Block) -> Result<(), NoMemory> {
    for block in blocks.iter_mut() {
        if block.ship == wide.ship {
            *block = wide;
            return Ok(());
        }
    }
    blocks.push(wide)?;
    Ok(())
}

/// Adds the narrows of these blocks, as wide as they go, where they are overfilled.
fn add_narrows(
    choices: &Choices<'_>,
    seed: Spot,
    blocks: Vec<Block>,
    finds: &mut Finds,
) -> Result<(), NoMemory> {
    let steps = choices.counts.steps;
    let over = chosen_in(choices.counts, &blocks).wrapping_sub(steps);
    if over.saturating_mul(100) <= steps.saturating_mul(OVERFILLED) {
        return Ok(());
    }
    let mut items = blocks;
    add_ships(choices, seed.slot, &mut items)?;
    widen(choices, &mut items);
    items.sort_by_key(|block| block.ship)?;
    finds.add(
        over,
        Toll::Narrows {
            blocks: Blocks { items },
        },
    )
}

/// How often ships chose slots in their blocks.
fn chosen_in(counts: &Counts, blocks: &[Block]) -> i64 {
    let mut sum: i64 = 0;
    for block in blocks {
        sum = sum.wrapping_add(counts.within(block.ship, block.low, block.high));
    }
    sum
}

/// Adds a slot of each other ship that has one apart from all blocks, the nearest to a slot.
fn add_ships(choices: &Choices<'_>, slot: Slot, blocks: &mut Vec<Block>) -> Result<(), NoMemory> {
    for ship in 0..choices.flat.shape().ships {
        if blocks.iter().all(|block| block.ship != ship) {
            if let Some(at) = nearest_apart(choices, ship, slot, blocks) {
                blocks.push(Block {
                    ship,
                    low: at,
                    high: at,
                })?;
            }
        }
    }
    Ok(())
}

/// The slot of a ship that is apart from all blocks and nearest to a slot, the earlier one of two.
fn nearest_apart(
    choices: &Choices<'_>,
    ship: ShipId,
    slot: Slot,
    blocks: &[Block],
) -> Option<Slot> {
    for away in 0..REACH {
        let before = slot.saturating_sub(away);
        if is_apart(choices, ship, before, blocks) {
            return Some(before);
        }
        let after = slot.saturating_add(away);
        if is_apart(choices, ship, after, blocks) {
            return Some(after);
        }
    }
    None
}

/// Whether a ship's slot is apart from all blocks.
fn is_apart(choices: &Choices<'_>, ship: ShipId, at: Slot, blocks: &[Block]) -> bool {
    let block = Block {
        ship,
        low: at,
        high: at,
    };
    at < choices.flat.horizon() && choices.distances.apart_from_all(block, blocks)
}

/// Widens blocks by a slot at a time, as far as they stay apart.
fn widen(choices: &Choices<'_>, blocks: &mut [Block]) {
    for _round in 0..choices.flat.horizon() {
        let mut moved = false;
        for place in 0..blocks.len() {
            let earlier = widen_one(choices, blocks, place, true);
            let later = widen_one(choices, blocks, place, false);
            moved = moved || earlier || later;
        }
        if !moved {
            break;
        }
    }
}

/// Widens a block by the slot before or after it, where it stays apart. Whether it does.
fn widen_one(choices: &Choices<'_>, blocks: &mut [Block], place: usize, before: bool) -> bool
    requires inside { place < length blocks.old }
{
    let old = blocks[place];
    let wide = if before {
        Block {
            low: old.low.saturating_sub(1),
            ..old
        }
    } else {
        Block {
            high: old
                .high
                .saturating_add(1)
                .min(choices.flat.horizon().saturating_sub(1)),
            ..old
        }
    };
    if wide == old || !choices.distances.apart_from_all(wide, blocks) {
        return false;
    }
    blocks[place] = wide;
    true
}
