//! Candidates with their prices, and how the prices are moved so that a room earns less.

use crate::course::{Course, StepRule};
use crate::row_states::{RowState, aimed, take_up};
use crate::rows::{Part, Row, capacity};
use crate::settings::FULL_PACE;
use crate::subproblems::{Share, Subproblem, begin_subproblems, subproblems};
use crate::table::Table;
use hw_flat::{Flat, Room};
use hw_model::NoMemory;
use hw_price_cuts::Separator;
use hw_price_laws::Toll;
use std::alloc::Global;
use std::mem;

/// No price is greater, in parts: a limit that keeps sums small, and no setting.
const DEAREST: i64 = 1_000_000_000_000_000;

/// Candidates with prices, and what moving these takes.
#[derive(Drop)]
pub struct Pricer {
    pub(crate) separator: Separator,
    subproblems: Vec<Subproblem>,
    /// By how much what is paid in a slot exceeds what is paid in the slot before: for each slot of
    /// each ship, and after its last one.
    rises: Vec<i64>,
    /// The candidates, in the order in which they were added.
    pub rows: Vec<Row>,
    /// The price of each row's unit, in parts.
    pub prices: Vec<i64>,
    /// The best prices of a course.
    best: Vec<i64>,
    row_states: Vec<RowState>,
    /// Rows with a price or a direction, and those that were overfilled last.
    live: Vec<usize>,
    spare: Vec<usize>,
    /// Prices that the last room had no use for.
    held: Vec<(usize, i64)>,
    /// What all prices give back.
    allowance: i64,
    /// Prices that were met on the way, where they are kept.
    pub(crate) samples: Vec<Vec<i64>>,
}

impl Pricer {
    /// The candidates of a problem, without prices.
    pub fn new(alloc: Global, flat: &Flat) -> Result<Pricer, NoMemory> {
        let separator = Separator::new(alloc, flat)?;
        let tolls = separator.candidates(alloc, flat)?;
        let shape = flat.shape();
        let places = shape.ships * (shape.slots + 1);
        let mut pricer = Pricer {
            separator,
            subproblems: subproblems(alloc, flat)?,
            rises: vec![in alloc; 0; places as usize]?,
            rows: Vec::new(alloc),
            prices: Vec::new(alloc),
            best: Vec::new(alloc),
            row_states: Vec::new(alloc),
            live: Vec::new(alloc),
            spare: Vec::new(alloc),
            held: Vec::new(alloc),
            allowance: 0,
            samples: Vec::new(alloc),
        };
        for toll in tolls {
            pricer.add(alloc, flat, toll)?;
        }
        Ok(pricer)
    }

    /// Adds a candidate without a price.
    pub(crate) fn add(&mut self, alloc: Global, flat: &Flat, toll: Toll) -> Result<(), NoMemory> {
        let row = Row::new(alloc, flat, toll)?;
        self.put(row, 0)
    }

    /// Puts a row with its price after the others.
    fn put(&mut self, row: Row, price: i64) -> Result<(), NoMemory> {
        let place = self.rows.len();
        for charge in &row.charges {
            let share = Share {
                row: place,
                units: i64::from(charge.amount),
            };
            if let Some(subproblem) = self.subproblems.get_mut(charge.ship as usize) {
                subproblem.add_share(charge.low, charge.high, share)?;
            }
        }
        self.row_states.push(RowState::new(capacity(&row.toll)))?;
        self.rows.push(row)?;
        self.prices.push(price)?;
        self.best.push(0)?;
        Ok(())
    }

    /// Counts a room in which rows had a price or none. One that was held back is a price.
    pub fn count_idle(&mut self) {
        for (row, price) in self.rows.iter_mut().zip(&self.prices) {
            row.idle = if 0 < *price {
                0
            } else {
                row.idle.saturating_add(1)
            };
        }
        for (row, _price) in &self.held {
            if let Some(row) = self.rows.get_mut(*row) {
                row.idle = 0;
            }
        }
    }

    /// Drops each row unpriced in the last `rooms` rooms, unless `kept` prices it. Returns the new
    /// place of each row, none where it was dropped.
    ///
    /// It takes a step for each slot of each row that stays.
    pub fn drop_idle(
        &mut self,
        alloc: Global,
        rooms: u32,
        kept: &[i64],
    ) -> Result<Vec<Option<usize>>, NoMemory> {
        self.release();
        for subproblem in self.subproblems.iter_mut() {
            subproblem.forget_shares();
        }
        self.row_states.clear();
        self.best.clear();
        self.live.clear();
        let rows = mem::replace(&mut self.rows, Vec::new(alloc));
        let prices = mem::replace(&mut self.prices, Vec::new(alloc));
        let mut places = Vec::new(alloc);
        for (place, row) in rows.into_iter().enumerate() {
            if row.idle < rooms || 0 < price_at(kept, place) {
                places.push(Some(self.rows.len()))?;
                self.put(row, price_at(&prices, place))?;
            } else {
                places.push(None)?;
            }
        }
        Ok(places)
    }

    /// Runs the subgradient method in a room. Leaves the best prices met and returns their bound, in
    /// parts.
    pub fn improve(&mut self, room: &Room, course: Course) -> Result<i64, NoMemory> {
        self.begin(room)?;
        let mut step_rule = StepRule::new(course);
        for _step in 0..course.steps {
            let goes_on = self.step(&mut step_rule)?;
            if !goes_on {
                break;
            }
        }
        copy_prices(&mut self.prices, &self.best);
        Ok(step_rule.best)
    }

    /// Like `improve`, and keeps the prices of one step in each this many as samples.
    pub(crate) fn improve_sampled(
        &mut self,
        alloc: Global,
        room: &Room,
        course: Course,
        each: u32,
    ) -> Result<i64, NoMemory> {
        self.samples.clear();
        self.begin(room)?;
        let mut step_rule = StepRule::new(course);
        for step in 1..course.steps.saturating_add(1) {
            let goes_on = self.step(&mut step_rule)?;
            if step % each.max(1) == 0 {
                self.samples.push(Vec::from_slice(alloc, &self.prices)?)?;
            }
            if !goes_on {
                break;
            }
        }
        copy_prices(&mut self.prices, &self.best);
        Ok(step_rule.best)
    }

    /// Like `improve`, and counts, by ship and slot, how often each slot is chosen.
    pub fn improve_counted(
        &mut self,
        room: &Room,
        course: Course,
        counts: &mut [Vec<u32>],
    ) -> Result<i64, NoMemory> {
        self.begin(room)?;
        let mut step_rule = StepRule::new(course);
        for _counted in 0..course.steps {
            let goes_on = self.step(&mut step_rule)?;
            count_choices(counts, &self.subproblems);
            if !goes_on {
                break;
            }
        }
        copy_prices(&mut self.prices, &self.best);
        Ok(step_rule.best)
    }

    /// Takes a step. Whether more of them are worth it.
    fn step(&mut self, step_rule: &mut StepRule) -> Result<bool, NoMemory> {
        self.separator.begin_step();
        let total = self.choose()?;
        if total < step_rule.best {
            copy_prices(&mut self.best, &self.prices);
        }
        let goes_on = step_rule.goes_on(total);
        let norm = if goes_on { self.aim() } else { 0 };
        if norm <= 0 {
            return Ok(false);
        }
        self.move_prices(step_rule.unit(total, norm))?;
        Ok(true)
    }

    /// Takes other prices, with none for rows that were added since, and forgets those that were held
    /// back.
    pub fn take_prices(&mut self, prices: &[i64]) {
        self.held.clear();
        for (place, price) in self.prices.iter_mut().enumerate() {
            *price = price_at(prices, place);
        }
    }

    /// What ships earn under a price for each row, in parts.
    pub fn table(&self, alloc: Global, prices: &[i64]) -> Result<Table, NoMemory> {
        Table::new(alloc, &self.subproblems, &self.rows, prices)
    }

    /// Starts in a room with the prices that stand, those that were held back among them.
    fn begin(&mut self, room: &Room) -> Result<(), NoMemory> {
        begin_subproblems(&mut self.subproblems, room);
        for rise in self.rises.iter_mut() {
            *rise = 0;
        }
        self.live.clear();
        self.allowance = 0;
        self.release();
        for row in 0..self.rows.len() {
            self.begin_row(row)?;
        }
        copy_prices(&mut self.best, &self.prices);
        Ok(())
    }

    /// Gives rows without a price the one that was held back.
    fn release(&mut self) {
        for (row, price) in &self.held {
            if let Some(now) = self.prices.get_mut(*row) {
                if *now == 0 {
                    *now = *price;
                }
            }
        }
        self.held.clear();
    }

    /// Charges a row's price, or holds it back where the room can't overfill the row.
    fn begin_row(&mut self, row: usize) -> Result<(), NoMemory> {
        let price = price_at(&self.prices, row);
        let Some(state) = self.row_states.get_mut(row) else {
            return Ok(());
        };
        state.reset();
        if price <= 0 {
            return Ok(());
        }
        state.clipped = true;
        let capacity = state.capacity;
        if self.clip(row)? <= capacity {
            self.held.push((row, price))?;
            self.set_price(row, 0);
        } else {
            self.wake(row);
            self.live.push(row)?;
            self.charge(row, price);
        }
        Ok(())
    }

    fn set_price(&mut self, row: usize, price: i64) {
        if let Some(now) = self.prices.get_mut(row) {
            *now = price;
        }
    }

    fn wake(&mut self, row: usize) {
        if let Some(state) = self.row_states.get_mut(row) {
            state.live = true;
        }
    }

    /// Finds what ships can take of a row in their ranges, and how much that is in all.
    fn clip(&mut self, row: usize) -> Result<i64, NoMemory> {
        match self.rows.get_mut(row) {
            None => Ok(0),
            Some(row) => clip(row, &self.subproblems),
        }
    }

    /// Charges a change of a row's price to the ships that can take of it.
    fn charge(&mut self, row: usize, change: i64) {
        let capacity = match self.row_states.get(row) {
            None => 0,
            Some(state) => state.capacity,
        };
        self.allowance = self.allowance.wrapping_add(change.wrapping_mul(capacity));
        if let Some(row) = self.rows.get(row) {
            charge_parts(&mut self.rises, &row.parts, change);
        }
    }

    /// Lets each ship choose its best slot, and says what all earn, with what the prices give back.
    fn choose(&mut self) -> Result<i64, NoMemory> {
        let known = self.live.len();
        let mut total = self.allowance;
        for subproblem in self.subproblems.iter_mut() {
            total = total.wrapping_add(subproblem.choose(&self.rises));
            self.separator.choose(subproblem.ship, subproblem.chosen);
        }
        take_up(&mut self.subproblems, &mut self.row_states, &mut self.live)?;
        self.clip_live(known)?;
        Ok(total)
    }

    /// Clips those of the live rows from a place on that weren't clipped in the room before.
    fn clip_live(&mut self, known: usize) -> Result<(), NoMemory> {
        for row in self.live.iter().skip(known) {
            if let (Some(state), Some(row)) = (
                self.row_states.get_mut(*row),
                self.rows.get_mut(*row),
            ) {
                if !state.clipped {
                    state.clipped = true;
                    clip(row, &self.subproblems)?;
                }
            }
        }
        Ok(())
    }

    /// Turns each live row's direction by how far it is overfilled. Gives the square of their
    /// length.
    fn aim(&mut self) -> i64 {
        let mut norm: i64 = 0;
        for row in &self.live {
            if let (Some(state), Some(price)) = (
                self.row_states.get_mut(*row),
                self.prices.get(*row),
            ) {
                state.direction = aimed(state, *price);
                norm = norm.wrapping_add(state.direction.wrapping_mul(state.direction));
            }
        }
        norm
    }

    /// Moves each live row's price along its direction. A row stays alive with a price, with a direction
    /// or overfilled.
    fn move_prices(&mut self, unit: i64) -> Result<(), NoMemory> {
        for place in 0..self.live.len() {
            if let Some(row) = self.live.get(place).copied() {
                if self.move_price(row, unit) {
                    self.spare.push(row)?;
                }
            }
        }
        mem::swap(&mut self.live, &mut self.spare);
        self.spare.clear();
        Ok(())
    }

    /// Moves a row's price, and whether it stays alive.
    fn move_price(&mut self, row: usize, unit: i64) -> bool {
        let Some(state) = self.row_states.get_mut(row) else {
            return false;
        };
        let direction = state.direction;
        let old = price_at(&self.prices, row);
        let step = unit.saturating_mul(direction) / FULL_PACE;
        let new = old.saturating_add(step).max(0).min(DEAREST);
        let live = new != 0 || direction != 0 || state.is_overfilled();
        state.live = live;
        if new != old {
            self.set_price(row, new);
            self.charge(row, new.wrapping_sub(old));
        }
        live
    }
}

/// A row's price among these, 0 where it has none.
pub fn price_at(prices: &[i64], row: usize) -> i64 {
    prices.get(row).copied().unwrap_or(0)
}

/// Copies prices over others.
fn copy_prices(to: &mut [i64], from: &[i64]) {
    if to.len() == from.len() {
        to.copy_from_slice(from);
    }
}

/// Counts the slots that ships chose.
fn count_choices(counts: &mut [Vec<u32>], subproblems: &[Subproblem]) {
    for subproblem in subproblems {
        if let Some(slots) = counts.get_mut(subproblem.ship as usize) {
            if let Some(count) = slots.get_mut(subproblem.chosen as usize) {
                *count = count.saturating_add(1);
            }
        }
    }
}

/// Finds what ships can take of a row in their ranges, and how much that is in all.
fn clip(row: &mut Row, subproblems: &[Subproblem]) -> Result<i64, NoMemory> {
    row.parts.clear();
    let mut sum: i64 = 0;
    for charge in &row.charges {
        if let Some(subproblem) = subproblems.get(charge.ship as usize) {
            let from = charge.low.max(subproblem.low);
            let high = charge.high.min(subproblem.high);
            if from <= high {
                let units = i64::from(charge.amount);
                row.parts.push(Part {
                    from: subproblem.place(from),
                    end: subproblem.place(high.saturating_add(1)),
                    units,
                })?;
                sum = sum.wrapping_add(units);
            }
        }
    }
    Ok(sum)
}

/// Charges a change of a price to the slots in which ships take of its row.
fn charge_parts(rises: &mut [i64], parts: &[Part], change: i64) {
    for part in parts {
        let amount = change.wrapping_mul(part.units);
        if let Some(rise) = rises.get_mut(part.from as usize) {
            *rise = rise.wrapping_add(amount);
        }
        if let Some(rise) = rises.get_mut(part.end as usize) {
            *rise = rise.wrapping_sub(amount);
        }
    }
}
