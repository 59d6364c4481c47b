//! What a problem gives: what ships carry, and what one ship's slot rules out for another.

use crate::bans::Ban;
use hw_flat::{Flat, ShipId};
use hw_model::{Hole, NoMemory, Rule, Slot};
use std::alloc::Global;

/// What a ship gains in a slot in which it may not sail: less than any other.
const NOTHING: i64 = -1;

/// Values, and bans by two ships.
#[derive(Drop)]
pub(crate) struct Given {
    pub(crate) ships: u32,
    pub(crate) slots: Slot,
    /// In how many slots ships sail.
    pub(crate) horizon: Slot,
    /// By ship and slot, in tenths of a tonne.
    pub(crate) gains: Vec<Vec<i64>>,
    /// What the first ship's slot rules out for the second, by the pair's number.
    bans: Vec<Vec<Ban>>,
}

impl Given {
    /// That of a problem. It looks once at each rule.
    pub(crate) fn new(alloc: Global, flat: &Flat) -> Result<Given, NoMemory> {
        let shape = flat.shape();
        let mut bans = Vec::new(alloc);
        for _pair in 0..shape.ships * shape.ships {
            bans.push(Vec::new(alloc))?;
        }
        let mut given = Given {
            ships: shape.ships,
            slots: shape.slots,
            horizon: flat.horizon(),
            gains: gains(alloc, flat)?,
            bans,
        };
        for rule in flat.rules() {
            given.add(rule)?;
        }
        Ok(given)
    }

    fn add(&mut self, rule: &Rule) -> Result<(), NoMemory> {
        match rule {
            Rule::Pair { v, w, holes } => self.add_holes(*v, *w, &holes.items),
            Rule::After { v, w, gap } => {
                self.add_ban(*v, *w, Ban::waits(*gap, self.horizon))?;
                self.add_ban(*w, *v, Ban::precedes(*gap, self.slots))
            }
            Rule::Tugs { .. } => Ok(()),
        }
    }

    fn add_holes(&mut self, v: ShipId, w: ShipId, holes: &[Hole]) -> Result<(), NoMemory> {
        for hole in holes {
            self.add_ban(v, w, Ban::above(*hole, self.horizon))?;
            self.add_ban(w, v, Ban::below(*hole, self.horizon))?;
        }
        Ok(())
    }

    fn add_ban(&mut self, ship: ShipId, other: ShipId, ban: Ban) -> Result<(), NoMemory> {
        if let Some(bans) = self.bans.get_mut(pair_number(self.ships, ship, other)) {
            bans.push(ban)?;
        }
        Ok(())
    }

    /// What a ship's slot rules out for another ship.
    pub(crate) fn bans(&self, ship: ShipId, other: ShipId) -> &[Ban] {
        match self.bans.get(pair_number(self.ships, ship, other)) {
            None => &[],
            Some(bans) => bans,
        }
    }

    /// What a ship carries in each slot.
    pub(crate) fn row(&self, ship: ShipId) -> &[i64] {
        match self.gains.get(ship as usize) {
            None => &[],
            Some(row) => row,
        }
    }

    /// What a ship carries in a slot.
    pub(crate) fn gain(&self, ship: ShipId, slot: Slot) -> i64 {
        self.row(ship)
            .get(slot as usize)
            .copied()
            .unwrap_or(NOTHING)
    }

    /// Whether a ship's slot rules out another ship's slot.
    pub(crate) fn forbids(&self, ship: ShipId, slot: Slot, other: ShipId, at: Slot) -> bool {
        self.bans(ship, other)
            .iter()
            .any(|ban| holds(ban.span(slot, self.horizon), at))
    }
}

fn holds(span: (Slot, Slot), slot: Slot) -> bool {
    span.0 <= slot && slot < span.1
}

fn pair_number(ships: u32, ship: ShipId, other: ShipId) -> usize {
    ship as usize * ships as usize + other as usize
}

fn gains(alloc: Global, flat: &Flat) -> Result<Vec<Vec<i64>>, NoMemory> {
    let mut out = Vec::new(alloc);
    for ship in 0..flat.shape().ships {
        out.push(row_of(alloc, flat, ship)?)?;
    }
    Ok(out)
}

/// What a ship carries in each slot.
fn row_of(alloc: Global, flat: &Flat, ship: ShipId) -> Result<Vec<i64>, NoMemory> {
    let shape = flat.shape();
    let mut out = Vec::new(alloc);
    if ship < shape.ships {
        for slot in 0..shape.slots {
            out.push(gain(flat.value(ship, slot)))?;
        }
    }
    Ok(out)
}

fn gain(value: Option<u64>) -> i64 {
    match value {
        None => NOTHING,
        Some(value) => i64::try_from(value).unwrap_or(NOTHING),
    }
}
