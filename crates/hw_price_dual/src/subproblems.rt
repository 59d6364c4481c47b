//! The subproblem of a ship: what its slots earn, what is paid there, and which one is chosen.

ghost use Rattle.std.specs.Prelude.{◌≤◌, unwrap_or};

use crate::settings::SCALE;
use hw_flat::{Flat, Room, ShipId};
use hw_model::{MOST_VALUE, NoMemory};
use std::alloc::Global;

/// What a slot without a value earns: less than any other.
pub(crate) const NOTHING: i64 = -(1 << 56);

/// Units of the row at a place.
#[derive(Clone, Copy)]
pub(crate) struct Share {
    pub(crate) row: usize,
    pub(crate) units: i64,
}

/// A ship's slots, of which it chooses the one that earns most less what is paid there. All amounts are in parts.
#[derive(Drop)]
pub(crate) struct Subproblem {
    pub(crate) ship: ShipId,
    /// What the ship gains in each slot.
    pub(crate) gains: Vec<i64>,
    /// The place of its first slot among the slots of all ships.
    start: u32,
    /// What it takes of each row in a slot.
    shares: Vec<Vec<Share>>,
    /// Its range in the present room.
    pub(crate) low: u32,
    pub(crate) high: u32,
    /// The slot that earns most.
    pub(crate) chosen: u32,
    /// The slot in which the rows count what the ship takes.
    taken: Option<u32>,
}

impl Subproblem {
    pub(crate) fn new(alloc: Global, flat: &Flat, ship: ShipId) -> Result<Subproblem, NoMemory> {
        let slots = flat.shape().slots;
        let mut shares = Vec::new(alloc);
        for _slot in 0..slots {
            shares.push(Vec::new(alloc))?;
        }
        Ok(Subproblem {
            ship,
            gains: gains(alloc, flat, ship)?,
            start: ship.saturating_mul(slots.saturating_add(1)),
            shares,
            low: 0,
            high: slots.saturating_sub(1),
            chosen: 0,
            taken: None,
        })
    }

    /// The place of a slot among the slots of all ships.
    pub(crate) fn place(&self, slot: u32) -> u32 {
        self.start.saturating_add(slot)
    }

    /// Adds what the ship takes of a row from one slot to another.
    pub(crate) fn add_share(&mut self, low: u32, high: u32, share: Share) -> Result<(), NoMemory> {
        for slot in low..high.saturating_add(1) {
            if let Some(shares) = self.shares.get_mut(slot as usize) {
                shares.push(share)?;
            }
        }
        Ok(())
    }

    /// Forgets all rows.
    pub(crate) fn forget_shares(&mut self) {
        self.taken = None;
        for shares in self.shares.iter_mut() {
            shares.clear();
        }
    }

    /// Chooses the slot of the range that earns most, the first of several, and returns what it earns.
    ///
    /// `rises` says for each slot of all ships how much more is paid there than in the slot before.
    pub(crate) fn choose(&mut self, rises: &[i64]) -> i64 {
        let paid = within(rises, self.place(self.low), self.place(self.high));
        let (slot, earned) = best_slot(within(&self.gains, self.low, self.high), paid, self.low);
        self.chosen = slot;
        earned
    }

    /// Whether the choice changed since its usage was counted.
    pub(crate) fn is_elsewhere(&self) -> bool {
        self.taken != Some(self.chosen)
    }

    /// The ship takes in the slot that it chose.
    pub(crate) fn move_there(&mut self) {
        self.taken = Some(self.chosen);
    }

    /// What the ship takes in its slot.
    pub(crate) fn taken_shares(&self) -> &[Share] {
        match self.taken {
            None => &[],
            Some(slot) => self.shares_in(slot),
        }
    }

    fn shares_in(&self, slot: u32) -> &[Share] {
        match self.shares.get(slot as usize) {
            None => &[],
            Some(shares) => shares,
        }
    }
}

/// What a ship gains in each slot.
fn gains(alloc: Global, flat: &Flat, ship: ShipId) -> Result<Vec<i64>, NoMemory> {
    let shape = flat.shape();
    let mut out = Vec::new(alloc);
    if ship < shape.ships {
        for slot in 0..shape.slots {
            out.push(gain(flat.value(ship, slot)))?;
        }
    }
    Ok(out)
}

fn gain(value: Option<u64>) -> i64
    requires small { unwrap_or value 0 ≤ MOST_VALUE }
{
    match value {
        None => NOTHING,
        Some(value) => value as i64 * SCALE,
    }
}

/// The amounts from one place to another; none where there are fewer.
fn within(amounts: &[i64], low: u32, high: u32) -> &[i64] {
    amounts.get(low as usize..high as usize + 1).unwrap_or(&[])
}

/// The first slot of a range that earns most, and how much. The range begins with this one.
fn best_slot(gains: &[i64], rises: &[i64], low: u32) -> (u32, i64) {
    let mut paid: i64 = 0;
    let mut at = low;
    let mut slot = low;
    let mut most = i64::MIN;
    for (gain, rise) in gains.iter().zip(rises) {
        paid = paid.wrapping_add(*rise);
        let earned = gain.wrapping_sub(paid);
        if most < earned {
            most = earned;
            slot = at;
        }
        at = at.wrapping_add(1);
    }
    (slot, most)
}

/// Those of all ships.
pub(crate) fn subproblems(alloc: Global, flat: &Flat) -> Result<Vec<Subproblem>, NoMemory> {
    let mut subproblems = Vec::new(alloc);
    for ship in 0..flat.shape().ships {
        subproblems.push(Subproblem::new(alloc, flat, ship)?)?;
    }
    Ok(subproblems)
}

/// Starts in the ranges of a room, with nothing taken.
pub(crate) fn begin_subproblems(subproblems: &mut [Subproblem], room: &Room) {
    for ship in 0..room.ships() {
        if let Some(subproblem) = subproblems.get_mut(ship as usize) {
            subproblem.low = room.low(ship);
            subproblem.high = room.high(ship);
            subproblem.taken = None;
        }
    }
}
