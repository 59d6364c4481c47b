//! In which order ships choose.

use hw_flat::{Room, ShipId};
use hw_model::{NoMemory, Slot};
use std::alloc::Global;

/// Who chooses first; of equals the lower ship.
#[derive(Clone, Copy)]
pub enum Ranking {
    /// Whose best slot is furthest above the next best one.
    Regret,
    /// Who earns most in a slot.
    Earnings,
}

/// A ship that chooses in its range.
#[derive(Clone, Copy)]
pub(crate) struct Chooser {
    pub(crate) ship: ShipId,
    pub(crate) range: (Slot, Slot),
    /// The lesser ones choose first.
    rank: i64,
}

/// The ships of a room, in the order in which they choose.
pub(crate) fn choosers(
    alloc: Global,
    room: &Room,
    earnings: &[Vec<i64>],
    ranking: Ranking,
) -> Result<Vec<Chooser>, NoMemory> {
    let mut out = Vec::new(alloc);
    for ship in 0..room.ships() {
        let range = (room.low(ship), room.high(ship));
        let rank = match earnings.get(ship as usize) {
            None => 0,
            Some(row) => rank_of(row, range, ranking),
        };
        out.push(Chooser { ship, range, rank })?;
    }
    out.sort_by_key(|chooser| (chooser.rank, chooser.ship))?;
    Ok(out)
}

fn rank_of(row: &[i64], range: (Slot, Slot), ranking: Ranking) -> i64 {
    let mut most = i64::MIN;
    let mut next = i64::MIN;
    for slot in range.0..range.1.saturating_add(1) {
        let earned = row.get(slot as usize).copied().unwrap_or(i64::MIN);
        next = next.max(earned.min(most));
        most = most.max(earned);
    }
    match ranking {
        Ranking::Regret => next.saturating_sub(most),
        Ranking::Earnings => most.saturating_neg(),
    }
}
