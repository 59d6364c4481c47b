//! Where a room is best split: by the fork both of whose sides earn much less than the room.
//!
//! Nothing is promised of it: a split is good or bad, but not wrong.

use crate::settings::{COUNTED, FORKS, SIDE_STEPS};
use hw_flat::{Flat, Room, ShipId, Slot};
use hw_model::NoMemory;
use hw_price_dual::{Course, Pricer, ROOM_PACE, Workshop, find_prices, goal, near};
use std::alloc::Global;

/// A room with its prices.
#[derive(Drop)]
pub(crate) struct Side {
    room: Room,
    /// What ships earn in it under the prices, with what these give back, in parts.
    pub(crate) earns: i64,
    /// The prices of the tolls, each in the place that it has in every room.
    pub(crate) prices: Vec<i64>,
}

/// A room that is split: the ship's slot is before this one, or it is this or a later one.
#[derive(Drop)]
pub(crate) struct Halves {
    pub(crate) ship: ShipId,
    pub(crate) slot: Slot,
    pub(crate) earlier: Side,
    pub(crate) later: Side,
}

/// Splits the rooms of a problem by prices.
#[derive(Drop)]
pub(crate) struct Splitter {
    pricer: Pricer,
    /// A room that earns no more than this is not worth splitting, in parts; none without a best.
    goal: Option<i64>,
    /// How often each ship chose each slot.
    counts: Vec<Vec<u32>>,
}

/// A fork, and how many choices there were of other slots than the one that the ship chose most.
#[derive(Clone, Copy)]
struct Candidate {
    ship: ShipId,
    slot: Slot,
    spread: u32,
}

impl Splitter {
    /// A splitter of a problem, whose best timetable known carries this, in tenths of a tonne.
    pub(crate) fn new(alloc: Global, flat: &Flat, best: Option<u64>) -> Result<Splitter, NoMemory> {
        Ok(Splitter {
            pricer: Pricer::new(alloc, flat)?,
            goal: best.map(goal),
            counts: no_counts(alloc, flat)?,
        })
    }

    /// The whole room, with its prices and the tolls that these take.
    pub(crate) fn whole(
        &mut self,
        alloc: Global,
        flat: &Flat,
        best: Option<u64>,
    ) -> Result<Side, NoMemory> {
        let mut shop = Workshop::new(alloc, flat)?;
        let room = Room::whole(alloc, flat.shape())?;
        let earns = find_prices(alloc, flat, &mut self.pricer, &room, best, &mut shop)?;
        let prices = Vec::from_slice(alloc, &self.pricer.prices)?;
        Ok(Side {
            room,
            earns,
            prices,
        })
    }

    /// Whether a room may hold something better than the best known.
    pub(crate) fn is_open(&self, side: &Side) -> bool {
        match self.goal {
            Some(goal) => goal < side.earns,
            None => true,
        }
    }

    /// Splits a room at one of a few forks, that for which the product of what each side earns less is
    /// greatest. None where each ship has one slot.
    pub(crate) fn halve(&mut self, alloc: Global, side: &Side) -> Result<Option<Halves>, NoMemory> {
        self.count(side)?;
        let candidates = candidates(alloc, &self.counts, &side.room)?;
        let mut best: Option<Halves> = None;
        let mut most: u128 = 0;
        for candidate in &candidates {
            let halves = self.halves(alloc, side, *candidate)?;
            let worth = fall(side, &halves.earlier).saturating_mul(fall(side, &halves.later));
            if most < worth {
                most = worth;
                best = Some(halves);
            }
        }
        Ok(best)
    }

    /// Counts which slots ships choose while prices are moved in a room.
    fn count(&mut self, side: &Side) -> Result<(), NoMemory> {
        for slots in self.counts.iter_mut() {
            for count in slots.iter_mut() {
                *count = 0;
            }
        }
        self.pricer.take_prices(&side.prices);
        let near = near(side.earns);
        let target = self.goal.unwrap_or(near).max(near);
        let counting = Course::counting(self.goal, COUNTED, target);
        self.pricer
            .improve_counted(&side.room, counting, &mut self.counts)?;
        Ok(())
    }

    /// The sides of a fork.
    fn halves(
        &mut self,
        alloc: Global,
        side: &Side,
        candidate: Candidate,
    ) -> Result<Halves, NoMemory> {
        let Candidate {
            ship,
            slot,
            spread: _,
        } = candidate;
        let mut earlier = side.room.copy(alloc)?;
        let mut later = side.room.copy(alloc)?;
        if ship < side.room.ships() {
            let low = side.room.low(ship);
            let high = side.room.high(ship);
            if low < slot && slot <= high {
                earlier.put(ship, low, slot - 1);
                later.put(ship, slot, high);
            }
        }
        Ok(Halves {
            ship,
            slot,
            earlier: self.priced(alloc, side, earlier)?,
            later: self.priced(alloc, side, later)?,
        })
    }

    /// A room within another one, by whose prices it begins.
    fn priced(&mut self, alloc: Global, side: &Side, room: Room) -> Result<Side, NoMemory> {
        self.pricer.take_prices(&side.prices);
        let course = Course::towards(self.goal, SIDE_STEPS, ROOM_PACE);
        let earns = self.pricer.improve(&room, course)?;
        let prices = Vec::from_slice(alloc, &self.pricer.prices)?;
        Ok(Side {
            room,
            earns: earns.min(side.earns),
            prices,
        })
    }
}

/// By how much a side earns less than its room, and 1 more.
fn fall(room: &Side, side: &Side) -> u128 {
    let less = room.earns.saturating_sub(side.earns);
    u128::from(u64::try_from(less).unwrap_or(0)).saturating_add(1)
}

fn no_counts(alloc: Global, flat: &Flat) -> Result<Vec<Vec<u32>>, NoMemory> {
    let shape = flat.shape();
    let mut counts = Vec::new(alloc);
    for _ship in 0..shape.ships {
        counts.push(vec![in alloc; 0; shape.slots as usize]?)?;
    }
    Ok(counts)
}

/// The forks of those ships whose choices are spread most, a few of them; of equal ones the lower ship.
fn candidates(alloc: Global, counts: &[Vec<u32>], room: &Room) -> Result<Vec<Candidate>, NoMemory> {
    let mut out: Vec<Candidate> = Vec::new(alloc);
    for ship in 0..room.ships() {
        if let Some(slots) = counts.get(ship as usize) {
            if let Some(candidate) = fork_of(slots, ship, room.low(ship), room.high(ship)) {
                put_candidate(&mut out, candidate)?;
            }
        }
    }
    Ok(out)
}

/// Puts a candidate among the most spread ones, and drops the least one if these are too many.
fn put_candidate(out: &mut Vec<Candidate>, candidate: Candidate) -> Result<(), NoMemory> {
    let mut next = candidate;
    for other in out.iter_mut() {
        if other.spread < next.spread {
            let less = *other;
            *other = next;
            next = less;
        }
    }
    if out.len() < FORKS {
        out.push(next)?;
    }
    Ok(())
}

/// The fork of a ship's range: as nearly as may be, half of its choices are on each side.
fn fork_of(counts: &[u32], ship: ShipId, low: Slot, high: Slot) -> Option<Candidate> {
    let total = sum(counts, low, high.saturating_add(1));
    let mut most: u32 = 0;
    let mut before: u32 = 0;
    let mut best: Option<(Slot, u32)> = None;
    for slot in low..high {
        let count = counts.get(slot as usize).copied().unwrap_or(0);
        most = most.max(count);
        before = before.saturating_add(count);
        let gap = total.abs_diff(before.saturating_mul(2));
        if is_less(gap, best) {
            best = Some((slot.saturating_add(1), gap));
        }
    }
    most = most.max(counts.get(high as usize).copied().unwrap_or(0));
    match best {
        Some((slot, _gap)) => Some(Candidate {
            ship,
            slot,
            spread: total.saturating_sub(most),
        }),
        None => None,
    }
}

fn is_less(gap: u32, best: Option<(Slot, u32)>) -> bool {
    match best {
        Some((_slot, least)) => gap < least,
        None => true,
    }
}

/// How many choices there are in a range of slots.
fn sum(counts: &[u32], from: Slot, end: Slot) -> u32 {
    let mut sum: u32 = 0;
    for slot in from..end {
        sum = sum.saturating_add(counts.get(slot as usize).copied().unwrap_or(0));
    }
    sum
}
