//! The tugs that are left in each slot.

use hw_flat::ShipId;
use hw_model::{Job, NoMemory, Slot, Step};
use hw_rules::Fleet;
use std::alloc::Global;

/// Tugs of a fleet that a ship holds from its slot on.
#[derive(Clone, Copy)]
struct Hold {
    /// The fleet's place.
    fleet: u32,
    tugs: i64,
    slots: u32,
}

/// The tugs that ships hold, and those that are left.
#[derive(Drop)]
pub(crate) struct Holds {
    /// By ship.
    holds: Vec<Vec<Hold>>,
    /// By fleet and slot.
    left: Vec<Vec<i64>>,
}

impl Holds {
    pub(crate) fn new(alloc: Global, ships: u32) -> Result<Holds, NoMemory> {
        let mut holds = Vec::new(alloc);
        for _ship in 0..ships {
            holds.push(Vec::new(alloc))?;
        }
        Ok(Holds {
            holds,
            left: Vec::new(alloc),
        })
    }

    /// Adds a fleet by the tugs that it has in each slot, with its jobs.
    pub(crate) fn add(&mut self, tugs: Vec<i64>, jobs: &[Job]) -> Result<(), NoMemory> {
        let fleet = u32::try_from(self.left.len()).unwrap_or(u32::MAX);
        self.left.push(tugs)?;
        for job in jobs {
            if let Some(holds) = self.holds.get_mut(job.ship as usize) {
                holds.push(Hold {
                    fleet,
                    tugs: i64::from(job.tugs),
                    slots: job.hold,
                })?;
            }
        }
        Ok(())
    }

    fn of(&self, ship: ShipId) -> &[Hold] {
        match self.holds.get(ship as usize) {
            None => &[],
            Some(holds) => holds,
        }
    }

    /// Whether enough tugs are left for a ship in a slot.
    pub(crate) fn suffice(&self, ship: ShipId, slot: Slot) -> bool {
        self.of(ship).iter().all(|hold| self.spares(*hold, slot))
    }

    fn spares(&self, hold: Hold, slot: Slot) -> bool {
        let Some(left) = self.left.get(hold.fleet as usize) else {
            return true;
        };
        for at in slot..slot.saturating_add(hold.slots) {
            match left.get(at as usize) {
                None => return true,
                Some(tugs) if *tugs < hold.tugs => return false,
                Some(_tugs) => {}
            }
        }
        true
    }

    /// Takes the tugs of a ship in a slot this many times, or gives them back.
    pub(crate) fn take(&mut self, ship: ShipId, slot: Slot, times: i64) {
        if let Some(holds) = self.holds.get(ship as usize) {
            for hold in holds {
                if let Some(left) = self.left.get_mut(hold.fleet as usize) {
                    take_from(left, *hold, slot, times);
                }
            }
        }
    }
}

/// The tugs that a fleet has in each of this many slots.
pub(crate) fn tugs_by_slot(
    alloc: Global,
    fleet: u32,
    later: &[Step],
    horizon: Slot,
) -> Result<Vec<i64>, NoMemory> {
    let mut fleet = Fleet::new(fleet, later);
    let mut tugs = Vec::new(alloc);
    for slot in 0..horizon {
        tugs.push(i64::from(fleet.tugs_in(slot)))?;
    }
    Ok(tugs)
}

fn take_from(left: &mut [i64], hold: Hold, slot: Slot, times: i64) {
    let taken = hold.tugs.wrapping_mul(times);
    for at in slot..slot.saturating_add(hold.slots) {
        match left.get_mut(at as usize) {
            None => return,
            Some(tugs) => *tugs = tugs.wrapping_sub(taken),
        }
    }
}
