//! A timetable on the way: some ships have slots, and the others see which slots these leave them.

use crate::given::Given;
use crate::holds::{Holds, tugs_by_slot};
use hw_flat::{Flat, ShipId};
use hw_model::{NoMemory, Rule, Slot};
use std::alloc::Global;

/// Slots of some ships.
#[derive(Drop)]
pub(crate) struct Draft {
    pub(crate) slots: Vec<Option<Slot>>,
    /// How often the ships with a slot rule out each slot of each ship.
    banned: Vec<Vec<i64>>,
    holds: Holds,
}

impl Draft {
    /// No ship has a slot.
    pub(crate) fn new(alloc: Global, flat: &Flat) -> Result<Draft, NoMemory> {
        let shape = flat.shape();
        let mut banned = Vec::new(alloc);
        for _ship in 0..shape.ships {
            banned.push(vec![in alloc; 0; shape.slots as usize]?)?;
        }
        let mut holds = Holds::new(alloc, shape.ships)?;
        for rule in flat.rules() {
            if let Rule::Tugs { fleet, later, jobs } = rule {
                let tugs = tugs_by_slot(alloc, *fleet, &later.items, flat.horizon())?;
                holds.add(tugs, &jobs.items)?;
            }
        }
        Ok(Draft {
            slots: vec![in alloc; None; shape.ships as usize]?,
            banned,
            holds,
        })
    }

    pub(crate) fn slot(&self, ship: ShipId) -> Option<Slot> {
        self.slots.get(ship as usize).copied().unwrap_or(None)
    }

    fn set(&mut self, ship: ShipId, slot: Option<Slot>) {
        if let Some(place) = self.slots.get_mut(ship as usize) {
            *place = slot;
        }
    }

    /// Gives a ship that has none a slot.
    pub(crate) fn put(&mut self, given: &Given, ship: ShipId, slot: Slot) {
        self.set(ship, Some(slot));
        self.count(given, ship, slot, 1);
    }

    /// Takes a ship's slot, if it has one.
    pub(crate) fn take(&mut self, given: &Given, ship: ShipId) {
        if let Some(slot) = self.slot(ship) {
            self.set(ship, None);
            self.count(given, ship, slot, -1);
        }
    }

    /// Gives a ship this slot, or none, instead of the one that it has.
    pub(crate) fn give(&mut self, given: &Given, ship: ShipId, slot: Option<Slot>) {
        self.take(given, ship);
        if let Some(slot) = slot {
            self.put(given, ship, slot);
        }
    }

    /// Takes all slots.
    pub(crate) fn clear(&mut self, given: &Given) {
        for ship in 0..given.ships {
            self.take(given, ship);
        }
    }

    /// Counts what a ship's slot rules out this many times.
    fn count(&mut self, given: &Given, ship: ShipId, slot: Slot, times: i64) {
        for other in 0..given.ships {
            if let Some(banned) = self.banned.get_mut(other as usize) {
                for ban in given.bans(ship, other) {
                    let (from, end) = ban.span(slot, given.horizon);
                    raise(banned, from, end, times);
                }
            }
        }
        self.holds.take(ship, slot, times);
    }

    /// How often other ships rule out a slot of a ship.
    pub(crate) fn bans(&self, ship: ShipId, slot: Slot) -> i64 {
        match self.banned.get(ship as usize) {
            None => 0,
            Some(banned) => banned.get(slot as usize).copied().unwrap_or(0),
        }
    }

    /// Whether enough tugs are left for a ship in a slot.
    pub(crate) fn has_tugs(&self, ship: ShipId, slot: Slot) -> bool {
        self.holds.suffice(ship, slot)
    }

    /// The free slot of a ship with the most of something, among these; the first of several.
    pub(crate) fn best_free(
        &self,
        given: &Given,
        ship: ShipId,
        amounts: &[i64],
        range: (Slot, Slot),
    ) -> Option<Slot> {
        let mut best: Option<(i64, Slot)> = None;
        for slot in range.0..range.1.saturating_add(1) {
            let amount = amounts.get(slot as usize).copied().unwrap_or(i64::MIN);
            if is_more(best, amount) && self.is_free(given, ship, slot) {
                best = Some((amount, slot));
            }
        }
        match best {
            None => None,
            Some((_amount, slot)) => Some(slot),
        }
    }

    /// Whether a ship may sail in a slot beside those that have slots.
    fn is_free(&self, given: &Given, ship: ShipId, slot: Slot) -> bool {
        self.bans(ship, slot) <= 0 && 0 <= given.gain(ship, slot) && self.has_tugs(ship, slot)
    }

    /// The free slot in which a ship carries most.
    pub(crate) fn best_gain(&self, given: &Given, ship: ShipId) -> Option<Slot> {
        self.best_free(
            given,
            ship,
            given.row(ship),
            (0, given.slots.saturating_sub(1)),
        )
    }

    /// What a ship carries in its slot; nothing without one.
    pub(crate) fn carried(&self, given: &Given, ship: ShipId) -> i64 {
        match self.slot(ship) {
            None => 0,
            Some(slot) => given.gain(ship, slot),
        }
    }

    /// What all carry together.
    pub(crate) fn cargo(&self, given: &Given) -> i64 {
        let mut sum: i64 = 0;
        for ship in 0..given.ships {
            sum = sum.wrapping_add(self.carried(given, ship));
        }
        sum
    }
}

fn is_more(best: Option<(i64, Slot)>, amount: i64) -> bool {
    match best {
        None => true,
        Some((most, _slot)) => most < amount,
    }
}

/// Raises the counts from one slot to the one before another.
fn raise(counts: &mut [i64], from: Slot, end: Slot, by: i64) {
    for slot in from..end {
        if let Some(count) = counts.get_mut(slot as usize) {
            *count = count.wrapping_add(by);
        }
    }
}
