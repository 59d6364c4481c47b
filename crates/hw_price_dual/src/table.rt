//! What each ship earns in each slot under prices that stand.

use crate::course::goal;
use crate::rows::{Row, capacity};
use crate::subproblems::Subproblem;
use hw_flat::{Room, ShipId, Slot};
use hw_model::NoMemory;
use std::alloc::Global;

/// What ships earn under some prices, in parts.
#[derive(Drop)]
pub struct Table {
    /// By ship and slot.
    earnings: Vec<Vec<i64>>,
    /// What the prices give back.
    allowance: i64,
}

impl Table {
    /// Under a price for each row.
    pub(crate) fn new(
        alloc: Global,
        subproblems: &[Subproblem],
        rows: &[Row],
        prices: &[i64],
    ) -> Result<Table, NoMemory> {
        let mut table = Table {
            earnings: gains(alloc, subproblems)?,
            allowance: 0,
        };
        for (row, price) in rows.iter().zip(prices) {
            if 0 < *price {
                table.charge(row, *price);
            }
        }
        Ok(table)
    }

    fn charge(&mut self, row: &Row, price: i64) {
        let returned = price.wrapping_mul(capacity(&row.toll));
        self.allowance = self.allowance.wrapping_add(returned);
        for charge in &row.charges {
            if let Some(earnings) = self.earnings.get_mut(charge.ship as usize) {
                let paid = price.wrapping_mul(i64::from(charge.amount));
                pay(earnings, charge.low, charge.high, paid);
            }
        }
    }

    /// What a ship earns in each slot, in parts; nothing where there is no such ship.
    pub fn row(&self, ship: ShipId) -> &[i64] {
        match self.earnings.get(ship as usize) {
            None => &[],
            Some(row) => row,
        }
    }

    /// What ships earn, by ship and slot.
    pub(crate) fn rows(&self) -> &[Vec<i64>] {
        &self.earnings
    }

    /// In a room where the ships' greatest earnings in their ranges are at most this together, in parts, nothing carries
    /// more than `best`, in tenths of a tonne.
    pub fn limit(&self, best: u64) -> i64 {
        goal(best).saturating_sub(self.allowance)
    }

    /// The sum of the ships' greatest earnings in their ranges of a room, in parts.
    pub fn total(&self, room: &Room) -> i64 {
        let mut total: i64 = 0;
        for ship in 0..room.ships() {
            let most = self.greatest(ship, room.low(ship), room.high(ship));
            total = total.wrapping_add(most);
        }
        total
    }

    /// The greatest earnings of a ship in a range of slots, from the first to the last, in parts; less than any where there are
    /// none.
    pub fn greatest(&self, ship: ShipId, low: Slot, high: Slot) -> i64 {
        let row = self.row(ship);
        let mut most = i64::MIN;
        for slot in low..high.saturating_add(1) {
            if let Some(earned) = row.get(slot as usize) {
                most = most.max(*earned);
            }
        }
        most
    }
}

fn gains(alloc: Global, subproblems: &[Subproblem]) -> Result<Vec<Vec<i64>>, NoMemory> {
    let mut out = Vec::new(alloc);
    for subproblem in subproblems {
        out.push(Vec::from_slice(alloc, &subproblem.gains)?)?;
    }
    Ok(out)
}

fn pay(earnings: &mut [i64], low: u32, high: u32, paid: i64) {
    for slot in low..high.saturating_add(1) {
        if let Some(earned) = earnings.get_mut(slot as usize) {
            *earned = earned.wrapping_sub(paid);
        }
    }
}
