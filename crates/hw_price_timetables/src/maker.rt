//! The maker of timetables.

use crate::climbing::{climb, exchange};
use crate::draft::Draft;
use crate::given::Given;
use crate::ranking::{Chooser, Ranking, choosers};
use hw_flat::{Flat, Room, Timetable};
use hw_model::{MOST_SHIPS, NoMemory, Slot};
use std::alloc::Global;

/// Others are pushed away where the cargo is below the best by less than this part of it.
const NEAR: i64 = 400;

/// Makes timetables of a problem, and keeps the best one.
#[derive(Drop)]
pub struct Maker {
    given: Given,
    draft: Draft,
    /// The cargo of the timetable that is kept, in tenths of a tonne; less than 0 before there is one.
    cargo: i64,
    /// Its slots.
    kept: Vec<u32>,
}

impl Maker {
    /// A maker that has made none.
    pub fn new(alloc: Global, flat: &Flat) -> Result<Maker, NoMemory> {
        Ok(Maker {
            given: Given::new(alloc, flat)?,
            draft: Draft::new(alloc, flat)?,
            cargo: -1,
            kept: Vec::new(alloc),
        })
    }

    /// Makes a timetable by what ships earn in each slot of their ranges, or by what they carry there, and
    /// then by what they carry. Keeps it where it carries more than the one before, and than `best`.
    pub fn make(
        &mut self,
        alloc: Global,
        room: &Room,
        earnings: Option<&[Vec<i64>]>,
        ranking: Ranking,
        best: Option<u64>,
    ) -> Result<(), NoMemory> {
        let given = &self.given;
        let amounts = either(&given.gains, earnings);
        let choosers = choosers(alloc, room, amounts, ranking)?;
        if !fill(given, &mut self.draft, &choosers, amounts) {
            return Ok(());
        }
        climb(&self.given, &mut self.draft);
        let bar = self.bar(best);
        if bar.saturating_sub(bar / NEAR) < self.draft.cargo(&self.given) {
            exchange(&self.given, &mut self.draft);
        }
        let cargo = self.draft.cargo(&self.given);
        if bar < cargo {
            self.keep(cargo)?;
        }
        Ok(())
    }

    /// The greatest cargo that is known; less than 0 if there is none.
    fn bar(&self, best: Option<u64>) -> i64 {
        match best {
            None => self.cargo,
            Some(best) => self.cargo.max(i64::try_from(best).unwrap_or(i64::MAX)),
        }
    }

    fn keep(&mut self, cargo: i64) -> Result<(), NoMemory> {
        self.cargo = cargo;
        self.kept.clear();
        for slot in self.draft.slots.iter() {
            self.kept.push(slot.unwrap_or(0))?;
        }
        Ok(())
    }

    /// What the timetable that is kept carries, in tenths of a tonne.
    pub fn cargo(&self) -> Option<u64> {
        u64::try_from(self.cargo).ok()
    }

    /// A copy of the timetable that is kept, if it carries more than `best`.
    pub fn better(&self, alloc: Global, best: Option<u64>) -> Result<Option<Timetable>, NoMemory> {
        let known = best
            .map(|best| i64::try_from(best).unwrap_or(i64::MAX))
            .unwrap_or(-1);
        if self.cargo <= known || (MOST_SHIPS as usize) < self.kept.len() {
            return Ok(None);
        }
        Ok(Some(Timetable::from_slots(alloc, &self.kept)?))
    }
}

/// Gives each ship its best free slot, in its range if there is one, else anywhere. Whether all have
/// one.
fn fill(given: &Given, draft: &mut Draft, choosers: &[Chooser], amounts: &[Vec<i64>]) -> bool {
    draft.clear(given);
    for chooser in choosers {
        match best_for(given, draft, *chooser, amounts) {
            None => return false,
            Some(slot) => draft.put(given, chooser.ship, slot),
        }
    }
    true
}

fn best_for(given: &Given, draft: &Draft, chooser: Chooser, amounts: &[Vec<i64>]) -> Option<Slot> {
    let inside = match amounts.get(chooser.ship as usize) {
        None => None,
        Some(row) => draft.best_free(given, chooser.ship, row, chooser.range),
    };
    match inside {
        None => draft.best_gain(given, chooser.ship),
        Some(slot) => Some(slot),
    }
}

/// The second one, if it is there.
fn either<'r>(rows: &'r [Vec<i64>], others: Option<&'r [Vec<i64>]>) -> &'r [Vec<i64>] {
    match others {
        None => rows,
        Some(others) => others,
    }
}
