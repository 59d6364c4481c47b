//! How far apart rules keep two ships.

use hw_flat::{Flat, ShipId};
use hw_model::{Hole, MOST_DIFFERENCE, NoMemory, Rule};
use hw_price_laws::{Block, pair_number};
use std::alloc::Global;

/// The greatest difference of two slots that a hole can name.
const FARTHEST: i32 = MOST_DIFFERENCE as i32;

/// For each two ships the differences of their slots that one rule alone rules out.
#[derive(Drop)]
pub(crate) struct Distances {
    ships: u32,
    /// Whole ranges of the later ship's slot less the earlier ship's, by the pair's number.
    ruled_out: Vec<Vec<Hole>>,
}

impl Distances {
    /// Those of a problem. It looks once at each rule.
    pub(crate) fn new(alloc: Global, flat: &Flat) -> Result<Distances, NoMemory> {
        let shape = flat.shape();
        let mut ruled_out = Vec::new(alloc);
        for _pair in 0..shape.ships * shape.ships {
            ruled_out.push(Vec::new(alloc))?;
        }
        let mut distances = Distances {
            ships: shape.ships,
            ruled_out,
        };
        for rule in flat.rules() {
            distances.add(rule)?;
        }
        Ok(distances)
    }

    fn add(&mut self, rule: &Rule) -> Result<(), NoMemory> {
        match rule {
            Rule::Pair { v, w, holes } => self.add_holes(*v, *w, &holes.items),
            Rule::After { v, w, gap } => self.add_hole(*v, *w, hole_before(*v, *w, *gap)),
            Rule::Tugs { .. } => Ok(()),
        }
    }

    fn add_holes(&mut self, v: ShipId, w: ShipId, holes: &[Hole]) -> Result<(), NoMemory> {
        for hole in holes {
            self.add_hole(v, w, widened(*hole, holes))?;
        }
        Ok(())
    }

    fn add_hole(&mut self, v: ShipId, w: ShipId, hole: Hole) -> Result<(), NoMemory> {
        if let Some(holes) = self.ruled_out.get_mut(pair_number(self.ships, v, w)) {
            if !holes.contains(&hole) {
                holes.push(hole)?;
            }
        }
        Ok(())
    }

    /// The ranges of differences that rules on two ships rule out.
    fn between(&self, v: ShipId, w: ShipId) -> &[Hole] {
        match self.ruled_out.get(pair_number(self.ships, v, w)) {
            None => &[],
            Some(holes) => holes,
        }
    }

    /// Whether one rule keeps two ships apart that lie in these blocks.
    pub(crate) fn apart(&self, a: Block, b: Block) -> bool {
        if a.ship < b.ship {
            self.ascending_apart(a, b)
        } else {
            self.ascending_apart(b, a)
        }
    }

    fn ascending_apart(&self, first: Block, second: Block) -> bool {
        let lo = difference(second.low, first.high);
        let hi = difference(second.high, first.low);
        self.between(first.ship, second.ship).iter().any(|hole| i64::from(hole.lo) <= lo
            && hi <= i64::from(hole.hi))
    }

    /// Whether a block is apart from each of these that is another ship's.
    pub(crate) fn apart_from_all(&self, block: Block, others: &[Block]) -> bool {
        others.iter().all(|other| other.ship == block.ship || self.apart(block, *other))
    }

    /// How many slots after `v` the next free slot of `w` is, as far as single rules tell; 0 where
    /// both may have one slot.
    pub(crate) fn after(&self, v: ShipId, w: ShipId) -> u32 {
        let mut most = 0;
        for hole in self.between(v, w) {
            most = most.max(free_after(*hole, v < w));
        }
        most
    }

    /// How many slots two ships must be apart, whichever comes first.
    pub(crate) fn both_ways(&self, v: ShipId, w: ShipId) -> u32 {
        self.after(v, w).min(self.after(w, v))
    }
}

/// One slot less another.
fn difference(slot: u32, other: u32) -> i64 {
    i64::from(slot) - i64::from(other)
}

/// The differences that a precedence of `v` before `w` rules out, of the greater ship's slot less
/// the lesser one's.
fn hole_before(v: ShipId, w: ShipId, gap: u32) -> Hole {
    let gap = i32::try_from(gap).unwrap_or(FARTHEST);
    if v < w {
        Hole {
            lo: -FARTHEST,
            hi: gap.saturating_sub(1),
        }
    } else {
        Hole {
            lo: 1_i32.saturating_sub(gap),
            hi: FARTHEST,
        }
    }
}

/// A hole with all those of its rule that touch it.
fn widened(hole: Hole, holes: &[Hole]) -> Hole {
    let mut wide = hole;
    for _pass in holes {
        for other in holes {
            wide = joined(wide, *other);
        }
    }
    wide
}

/// A hole, with another one where the two touch.
fn joined(hole: Hole, other: Hole) -> Hole {
    let touches = other.lo <= hole.hi.saturating_add(1) && hole.lo <= other.hi.saturating_add(1);
    if touches {
        Hole {
            lo: hole.lo.min(other.lo),
            hi: hole.hi.max(other.hi),
        }
    } else {
        hole
    }
}

/// The least difference from 0 on that a hole leaves free, upwards or downwards.
fn free_after(hole: Hole, upwards: bool) -> u32 {
    if 0 < hole.lo || hole.hi < 0 {
        0
    } else if upwards {
        hole.hi.unsigned_abs() + 1
    } else {
        hole.lo.unsigned_abs() + 1
    }
}
