//! Tolls that may be worth a price: the tugs of each slot, and narrows of groups of ships that rules
//! keep apart.

ghost use Rattle.std.specs.Prelude.{◌<◌, length};

use crate::distances::Distances;
use hw_flat::{Flat, ShipId, Slot};
use hw_model::{Job, NoMemory, Rule};
use hw_price_laws::{Block, Blocks, Toll, Weights};
use hw_rules::Fleet;
use std::alloc::Global;

/// The candidates of a problem, in a fixed order.
pub(crate) fn candidates(
    alloc: Global,
    flat: &Flat,
    distances: &Distances,
) -> Result<Vec<Toll>, NoMemory> {
    let mut out = Vec::new(alloc);
    for place in 0..flat.shape().rules {
        add_tugs(alloc, flat, place, &mut out)?;
    }
    let groups = groups(alloc, distances, flat.shape().ships)?;
    for group in &groups {
        add_narrows(alloc, flat, distances, group, &mut out)?;
    }
    Ok(out)
}

/// Adds the tugs of the rule at a place in each slot, of which there are those of its fleet in that slot; other rules have none.
fn add_tugs(alloc: Global, flat: &Flat, place: u32, out: &mut Vec<Toll>) -> Result<(), NoMemory>
    requires inside { place < length flat.now.rules }
{
    let restriction = flat.shape().ships + place;
    match &flat.rules()[place as usize] {
        Rule::Tugs { fleet, later, jobs } => {
            let mut fleet = Fleet::new(*fleet, &later.items);
            for slot in 0..flat.horizon() {
                let weights = weights_of(alloc, &jobs.items)?;
                out.push(Toll::Tugs {
                    restriction,
                    slot,
                    weights,
                    most: fleet.tugs_in(slot),
                })?;
            }
            Ok(())
        }
        Rule::Pair { .. } | Rule::After { .. } => Ok(()),
    }
}

fn weights_of(alloc: Global, jobs: &[Job]) -> Result<Weights, NoMemory> {
    let mut items = Vec::new(alloc);
    for job in jobs {
        items.push(job.tugs)?;
    }
    Ok(Weights { items })
}

/// Adds the narrows of a group from each slot on: each ship's block as long as the next ship of the
/// group may come after it.
fn add_narrows(
    alloc: Global,
    flat: &Flat,
    distances: &Distances,
    group: &[ShipId],
    out: &mut Vec<Toll>,
) -> Result<(), NoMemory> {
    let horizon = flat.horizon();
    for slot in 0..horizon {
        let items = blocks_from(alloc, distances, group, slot, horizon)?;
        if all_apart(distances, &items) {
            out.push(Toll::Narrows {
                blocks: Blocks { items },
            })?;
        }
    }
    Ok(())
}

fn blocks_from(
    alloc: Global,
    distances: &Distances,
    group: &[ShipId],
    slot: Slot,
    horizon: u32,
) -> Result<Vec<Block>, NoMemory> {
    let mut blocks = Vec::new(alloc);
    for ship in group {
        let end = slot.saturating_add(room_for(distances, group, *ship));
        blocks.push(Block {
            ship: *ship,
            low: slot,
            high: end.min(horizon).saturating_sub(1),
        })?;
    }
    Ok(blocks)
}

/// How many slots a block of the ship may have, if the others' blocks begin with it.
fn room_for(distances: &Distances, group: &[ShipId], ship: ShipId) -> u32 {
    let mut least = u32::MAX;
    for other in group {
        if *other != ship {
            least = least.min(distances.after(*other, ship));
        }
    }
    least
}

/// Whether each two of these blocks are apart.
fn all_apart(distances: &Distances, blocks: &[Block]) -> bool {
    blocks
        .iter()
        .all(|block| distances.apart_from_all(*block, blocks))
}

/// Groups of several ships that are the same distance apart or farther, the farthest first. None
/// is a part of one before it.
fn groups(alloc: Global, distances: &Distances, ships: u32) -> Result<Vec<Vec<ShipId>>, NoMemory> {
    let mut groups = Vec::new(alloc);
    for gap in (1..farthest(distances, ships).saturating_add(1)).rev() {
        if is_a_distance(distances, ships, gap) {
            add_groups(alloc, distances, ships, gap, &mut groups)?;
        }
    }
    Ok(groups)
}

/// The greatest distance that rules keep between two ships.
fn farthest(distances: &Distances, ships: u32) -> u32 {
    let mut most = 0;
    for v in 0..ships {
        for w in 0..v {
            most = most.max(distances.both_ways(v, w));
        }
    }
    most
}

/// Whether rules keep some two ships just so far apart.
fn is_a_distance(distances: &Distances, ships: u32, gap: u32) -> bool {
    for v in 0..ships {
        for w in 0..v {
            if distances.both_ways(v, w) == gap {
                return true;
            }
        }
    }
    false
}

/// Adds the groups that are this far apart: each takes the first ship that is left, and all that go
/// with it.
fn add_groups(
    alloc: Global,
    distances: &Distances,
    ships: u32,
    gap: u32,
    groups: &mut Vec<Vec<ShipId>>,
) -> Result<(), NoMemory> {
    let mut left = Vec::new(alloc);
    for ship in 0..ships {
        left.push(ship)?;
    }
    for _group in 0..ships {
        let (group, rest) = one_group(alloc, distances, gap, &left)?;
        if group.len() > 1 && is_new(groups, &group) {
            groups.push(group)?;
        }
        left = rest;
    }
    Ok(())
}

/// The first ship and those that are so far apart from all of the group, and the others.
fn one_group(
    alloc: Global,
    distances: &Distances,
    gap: u32,
    ships: &[ShipId],
) -> Result<(Vec<ShipId>, Vec<ShipId>), NoMemory> {
    let mut group: Vec<ShipId> = Vec::new(alloc);
    let mut rest = Vec::new(alloc);
    for ship in ships {
        if group
            .iter()
            .all(|other| gap <= distances.both_ways(*ship, *other))
        {
            group.push(*ship)?;
        } else {
            rest.push(*ship)?;
        }
    }
    Ok((group, rest))
}

/// Whether the group is a part of none of these.
fn is_new(groups: &[Vec<ShipId>], group: &[ShipId]) -> bool {
    !groups
        .iter()
        .any(|old| group.iter().all(|ship| old.contains(ship)))
}
