//! Widens a refuted room as far as it stays refuted by the same prices, so that its clause says more: an
//! explanation made general.

use crate::cuts::Cut;
use hw_flat::{Room, ShipId, Slot};
use hw_model::{Lit, NoMemory};
use hw_price_dual::Table;
use std::alloc::Global;

/// A ship's range in the refuted room, how far it may be widened, and its greatest earnings.
#[derive(Clone, Copy)]
struct Reach {
    ship: ShipId,
    low: Slot,
    high: Slot,
    lowest: Slot,
    highest: Slot,
    most: i64,
}

/// The literals that deny a room, or an end of one of its ranges, loosened. The greatest earnings in
/// the room's ranges are at most the limit together.
pub(crate) fn loosened(
    alloc: Global,
    table: &Table,
    room: &Room,
    cut: Option<Cut>,
    limit: i64,
) -> Result<Vec<Lit>, NoMemory> {
    let mut reaches = reaches(alloc, table, room, cut)?;
    let mut slack = limit.saturating_sub(sum(&reaches));
    for reach in reaches.iter_mut() {
        *reach = widened(table, *reach, 0);
    }
    slack = open_cheapest(alloc, table, &mut reaches, slack)?;
    for reach in reaches.iter_mut() {
        let old = reach.most;
        *reach = widened(table, *reach, slack);
        slack = slack.saturating_sub(reach.most.saturating_sub(old));
    }
    literals(alloc, room.slots(), &reaches)
}

fn reaches(
    alloc: Global,
    table: &Table,
    room: &Room,
    cut: Option<Cut>,
) -> Result<Vec<Reach>, NoMemory> {
    let mut out = Vec::new(alloc);
    for ship in 0..room.ships() {
        let reach = Reach {
            ship,
            low: room.low(ship),
            high: room.high(ship),
            lowest: 0,
            highest: room.slots().saturating_sub(1),
            most: 0,
        };
        out.push(measured(table, cut_to(reach, cut)))?;
    }
    Ok(out)
}

/// A ship's range cut to an end that is to be denied, whose inner edge stays.
fn cut_to(reach: Reach, cut: Option<Cut>) -> Reach {
    match cut {
        Some(cut) if cut.ship == reach.ship => {
            if cut.lower {
                Reach {
                    high: cut.high,
                    highest: cut.high,
                    ..reach
                }
            } else {
                Reach {
                    low: cut.low,
                    lowest: cut.low,
                    ..reach
                }
            }
        }
        _ => reach,
    }
}

fn measured(table: &Table, reach: Reach) -> Reach {
    Reach {
        most: table.greatest(reach.ship, reach.low, reach.high),
        ..reach
    }
}

fn sum(reaches: &[Reach]) -> i64 {
    let mut sum: i64 = 0;
    for reach in reaches {
        sum = sum.wrapping_add(reach.most);
    }
    sum
}

/// Widens a range by slots in a row that earn no more than its best one and this more.
fn widened(table: &Table, reach: Reach, more: i64) -> Reach {
    let row = table.row(reach.ship);
    let enough = reach.most.saturating_add(more);
    let mut wide = reach;
    for slot in (reach.lowest..reach.low).rev() {
        if !earns_at_most(row, slot, enough) {
            break;
        }
        wide.low = slot;
    }
    for slot in reach.high.saturating_add(1)..reach.highest.saturating_add(1) {
        if !earns_at_most(row, slot, enough) {
            break;
        }
        wide.high = slot;
    }
    measured(table, wide)
}

fn earns_at_most(row: &[i64], slot: Slot, enough: i64) -> bool {
    match row.get(slot as usize) {
        None => false,
        Some(earned) => *earned <= enough,
    }
}

/// Opens ranges as far as they go, those first that cost least. Gives the slack that is left.
fn open_cheapest(
    alloc: Global,
    table: &Table,
    reaches: &mut [Reach],
    slack: i64,
) -> Result<i64, NoMemory> {
    let mut costs = Vec::new(alloc);
    for (place, reach) in reaches.iter().enumerate() {
        costs.push((opened(table, *reach).most.saturating_sub(reach.most), place))?;
    }
    costs.sort()?;
    let mut left = slack;
    for (cost, place) in costs {
        if left < cost {
            break;
        }
        if let Some(reach) = reaches.get_mut(place) {
            left = left.saturating_sub(cost);
            *reach = opened(table, *reach);
        }
    }
    Ok(left)
}

fn opened(table: &Table, reach: Reach) -> Reach {
    measured(
        table,
        Reach {
            low: reach.lowest,
            high: reach.highest,
            ..reach
        },
    )
}

/// The literals that are false in these ranges alone.
fn literals(alloc: Global, slots: u32, reaches: &[Reach]) -> Result<Vec<Lit>, NoMemory> {
    let mut out = Vec::new(alloc);
    for reach in reaches {
        let end = reach.high.saturating_add(1);
        if end < slots {
            out.push(Lit::AtOrAfter {
                ship: reach.ship,
                slot: end,
            })?;
        }
        if 0 < reach.low {
            out.push(Lit::Before {
                ship: reach.ship,
                slot: reach.low,
            })?;
        }
    }
    Ok(out)
}
