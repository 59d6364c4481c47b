//! How often each ship chose each slot.

use hw_flat::{Flat, ShipId, Slot};
use hw_model::NoMemory;
use std::alloc::Global;

/// What ships chose in some steps.
#[derive(Drop)]
pub(crate) struct Counts {
    /// How often each slot was chosen, by ship and slot.
    chosen: Vec<Vec<i64>>,
    /// How many steps there were.
    pub(crate) steps: i64,
}

impl Counts {
    /// Nothing was chosen, in no step.
    pub(crate) fn new(alloc: Global, flat: &Flat) -> Result<Counts, NoMemory> {
        let shape = flat.shape();
        let mut chosen = Vec::new(alloc);
        for _ship in 0..shape.ships {
            chosen.push(vec![in alloc; 0; shape.slots as usize]?)?;
        }
        Ok(Counts { chosen, steps: 0 })
    }

    /// Forgets all steps.
    pub(crate) fn forget(&mut self) {
        self.steps = 0;
        for slots in self.chosen.iter_mut() {
            for count in slots.iter_mut() {
                *count = 0;
            }
        }
    }

    /// Begins another step.
    pub(crate) fn begin_step(&mut self) {
        self.steps = self.steps.wrapping_add(1);
    }

    /// A ship chose a slot.
    pub(crate) fn add(&mut self, ship: ShipId, slot: Slot) {
        if let Some(slots) = self.chosen.get_mut(ship as usize) {
            if let Some(count) = slots.get_mut(slot as usize) {
                *count = count.wrapping_add(1);
            }
        }
    }

    /// How often a ship chose a slot.
    pub(crate) fn count(&self, ship: ShipId, slot: Slot) -> i64 {
        count_at(self.slots(ship), slot)
    }

    /// How often a ship chose a slot from one to another.
    pub(crate) fn within(&self, ship: ShipId, low: Slot, high: Slot) -> i64 {
        let slots = self.slots(ship);
        let mut sum: i64 = 0;
        for slot in low..high.saturating_add(1) {
            sum = sum.wrapping_add(count_at(slots, slot));
        }
        sum
    }

    fn slots(&self, ship: ShipId) -> &[i64] {
        match self.chosen.get(ship as usize) {
            None => &[],
            Some(slots) => slots,
        }
    }
}

fn count_at(slots: &[i64], slot: Slot) -> i64 {
    slots.get(slot as usize).copied().unwrap_or(0)
}
