//! The separator of a problem: its candidates, and cuts that the chosen slots violate.

use crate::candidates::candidates;
use crate::counts::Counts;
use crate::covers::find_covers;
use crate::distances::Distances;
use crate::finds::Finds;
use crate::separation::{Choices, find_narrows};
use hw_flat::{Flat, ShipId, Slot};
use hw_model::NoMemory;
use hw_price_laws::Toll;
use std::alloc::Global;

/// Finds cuts of a problem. It is told which slot each ship chooses in each step of a relaxation.
#[derive(Drop)]
pub struct Separator {
    distances: Distances,
    counts: Counts,
}

impl Separator {
    /// Of a problem, without any step. It looks once at each rule.
    pub fn new(alloc: Global, flat: &Flat) -> Result<Separator, NoMemory> {
        Ok(Separator {
            distances: Distances::new(alloc, flat)?,
            counts: Counts::new(alloc, flat)?,
        })
    }

    /// The tolls to begin with, in a fixed order: the tugs of each rule in each slot, and narrows of groups of
    /// ships that rules keep apart.
    pub fn candidates(&self, alloc: Global, flat: &Flat) -> Result<Vec<Toll>, NoMemory> {
        candidates(alloc, flat, &self.distances)
    }

    /// Forgets what ships chose.
    pub fn forget(&mut self) {
        self.counts.forget();
    }

    /// Begins another step, in which each ship chooses a slot.
    pub fn begin_step(&mut self) {
        self.counts.begin_step();
    }

    /// A ship chooses a slot.
    pub fn choose(&mut self, ship: ShipId, slot: Slot) {
        self.counts.add(ship, slot);
    }

    /// Narrows and covers that are overfilled by what ships chose since it was forgotten, those first that are
    /// overfilled most. The same one may come several times.
    pub fn violated(&self, alloc: Global, flat: &Flat) -> Result<Vec<Toll>, NoMemory> {
        let choices = Choices {
            flat,
            counts: &self.counts,
            distances: &self.distances,
        };
        let mut finds = Finds::new(alloc);
        find_narrows(alloc, &choices, &mut finds)?;
        find_covers(alloc, &choices, &mut finds)?;
        finds.sorted(alloc)
    }
}
