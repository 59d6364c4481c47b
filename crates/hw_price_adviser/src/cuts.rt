//! The ends of ranges that prices cut: bounds of slots, tightened by reduced profits.

use hw_flat::{Room, ShipId, Slot};
use hw_model::NoMemory;
use hw_price_dual::Table;
use std::alloc::Global;

/// An end of a ship's range in which no list of slots earns enough.
#[derive(Clone, Copy)]
pub(crate) struct Cut {
    pub(crate) ship: ShipId,
    /// The first and the last slot of the end.
    pub(crate) low: Slot,
    pub(crate) high: Slot,
    /// Whether it is the range's lower end.
    pub(crate) lower: bool,
}

/// The cuts of a room that isn't refuted itself, by ascending ships.
pub(crate) fn cuts(
    alloc: Global,
    table: &Table,
    room: &Room,
    limit: i64,
) -> Result<Vec<Cut>, NoMemory> {
    let total = table.total(room);
    let mut out = Vec::new(alloc);
    for ship in 0..room.ships() {
        let (low, high) = (room.low(ship), room.high(ship));
        let row = table.row(ship);
        // What a slot must earn more than, beside the best slots of the others.
        let least = limit
            .wrapping_sub(total)
            .wrapping_add(table.greatest(ship, low, high));
        if let Some(last) = lower_end(row, low, high, least) {
            out.push(Cut {
                ship,
                low,
                high: last,
                lower: true,
            })?;
        }
        if let Some(first) = upper_end(row, low, high, least) {
            out.push(Cut {
                ship,
                low: first,
                high,
                lower: false,
            })?;
        }
    }
    Ok(out)
}

/// The last of the lowest slots that earn no more than this; none where already the first earns more,
/// or no slot does.
fn lower_end(row: &[i64], low: Slot, high: Slot, least: i64) -> Option<Slot> {
    let mut last: Option<Slot> = None;
    for slot in low..high {
        if earns_more(row, slot, least) {
            return last;
        }
        last = Some(slot);
    }
    last
}

/// The first of the highest slots that earn no more than this; none where already the last earns
/// more, or no slot does.
fn upper_end(row: &[i64], low: Slot, high: Slot, least: i64) -> Option<Slot> {
    let mut first: Option<Slot> = None;
    for slot in (low.saturating_add(1)..high.saturating_add(1)).rev() {
        if earns_more(row, slot, least) {
            return first;
        }
        first = Some(slot);
    }
    first
}

fn earns_more(row: &[i64], slot: Slot, least: i64) -> bool {
    match row.get(slot as usize) {
        None => true,
        Some(earned) => least < *earned,
    }
}
