//! Where timetables are made.

use crate::settings::{MOST_EFFORT, TUGS};
use crate::table::Table;
use hw_flat::{Flat, Room, Timetable};
use hw_model::{Hole, Job, NoMemory, Rule};
use hw_price_timetables::{Maker, Ranking};
use std::alloc::Global;

/// Makes timetables, where that doesn't take too long, and keeps the best.
#[derive(Drop)]
pub struct Workshop {
    maker: Option<Maker>,
}

impl Workshop {
    /// Of a problem, without a timetable yet.
    pub fn new(alloc: Global, flat: &Flat) -> Result<Workshop, NoMemory> {
        if MOST_EFFORT < effort(flat) {
            return Ok(Workshop { maker: None });
        }
        Ok(Workshop {
            maker: Some(Maker::new(alloc, flat)?),
        })
    }

    /// Makes a timetable in a room by what ships carry.
    pub fn make(&mut self, alloc: Global, room: &Room) -> Result<(), NoMemory> {
        match &mut self.maker {
            None => Ok(()),
            Some(maker) => maker.make(alloc, room, None, Ranking::Regret, None),
        }
    }

    /// Makes timetables in a room by what ships earn. Keeps one that carries more than the one before, and than `best`, in
    /// tenths of a tonne.
    pub fn make_by(
        &mut self,
        alloc: Global,
        room: &Room,
        table: &Table,
        best: Option<u64>,
    ) -> Result<(), NoMemory> {
        match &mut self.maker {
            None => Ok(()),
            Some(maker) => {
                maker.make(alloc, room, Some(table.rows()), Ranking::Regret, best)?;
                maker.make(alloc, room, Some(table.rows()), Ranking::Earnings, best)
            }
        }
    }

    /// What the best timetable that was made carries, in tenths of a tonne.
    pub(crate) fn cargo(&self) -> Option<u64> {
        match &self.maker {
            None => None,
            Some(maker) => maker.cargo(),
        }
    }

    /// A copy of the best timetable that was made, if it carries more than `best`, in tenths of a tonne.
    pub fn better(&self, alloc: Global, best: Option<u64>) -> Result<Option<Timetable>, NoMemory> {
        match &self.maker {
            None => Ok(None),
            Some(maker) => maker.better(alloc, best),
        }
    }
}

/// How many slots ships rule out for each other, counted once for each rule.
fn effort(flat: &Flat) -> u64 {
    let mut sum: u64 = 0;
    for rule in flat.rules() {
        let more = match rule {
            Rule::Pair { holes, .. } => width(&holes.items),
            Rule::After { .. } => u64::from(flat.horizon()),
            Rule::Tugs { jobs, .. } => held(&jobs.items).saturating_mul(TUGS),
        };
        sum = sum.saturating_add(more);
    }
    sum
}

fn width(holes: &[Hole]) -> u64 {
    let mut sum: u64 = 0;
    for hole in holes {
        sum = sum.saturating_add(u64::from(hole.hi.abs_diff(hole.lo)));
    }
    sum
}

fn held(jobs: &[Job]) -> u64 {
    let mut sum: u64 = 0;
    for job in jobs {
        sum = sum.saturating_add(u64::from(job.hold));
    }
    sum
}
