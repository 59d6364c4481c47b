//! The literal by which to decide.

use crate::variation::Variation;
use hw_flat::{Flat, Room, ShipId, Slot};
use hw_model::Lit;
use hw_price_dual::Table;

/// The best slot of a ship's range, and by how much.
#[derive(Clone, Copy)]
struct Peak {
    ship: ShipId,
    slot: Slot,
    most: i64,
    /// The greatest of the other slots.
    next: i64,
}

impl Peak {
    fn regret(self) -> i64 {
        self.most.saturating_sub(self.next)
    }
}

/// What speaks for deciding a ship first.
#[derive(Clone, Copy)]
struct Claim {
    peak: Peak,
    /// What it is worth to decide it first.
    worth: i64,
    /// The same, where that is equal.
    next_worth: i64,
    /// The lower one is first where all is equal.
    place: u32,
}

impl Claim {
    fn is_above(self, other: Claim) -> bool {
        if self.worth != other.worth {
            return other.worth < self.worth;
        }
        if self.next_worth != other.next_worth {
            return other.next_worth < self.next_worth;
        }
        self.place < other.place
    }
}

/// By the ship whose best slot is furthest above the next best one; then the one of greatest value,
/// then the lower one. The variation moves what these count.
pub(crate) fn by_regret(flat: &Flat, room: &Room, variation: Variation) -> Option<Lit> {
    let mut best: Option<Claim> = None;
    for ship in 0..room.ships() {
        if room.low(ship) < room.high(ship) {
            let peak = peak_of_values(flat, room, ship);
            let claim = Claim {
                peak,
                worth: variation.worth(ship, peak.regret()),
                next_worth: variation.worth(ship, peak.most),
                place: variation.place(ship),
            };
            best = Some(above(best, claim));
        }
    }
    decided(room, best)
}

fn above(best: Option<Claim>, claim: Claim) -> Claim {
    match best {
        Some(old) if !claim.is_above(old) => old,
        _ => claim,
    }
}

fn peak_of_values(flat: &Flat, room: &Room, ship: ShipId) -> Peak {
    let mut peak = start(ship, 0);
    let shape = flat.shape();
    if ship < shape.ships && ship < room.ships() {
        peak.slot = room.low(ship);
        for slot in room.low(ship)..room.high(ship).saturating_add(1).min(shape.slots) {
            let value = flat.value(ship, slot).unwrap_or(0);
            peak = higher(peak, slot, value as i64);
        }
    }
    peak
}

fn start(ship: ShipId, slot: Slot) -> Peak {
    Peak {
        ship,
        slot,
        most: i64::MIN,
        next: i64::MIN,
    }
}

fn higher(peak: Peak, slot: Slot, value: i64) -> Peak {
    if peak.most < value {
        Peak {
            slot,
            most: value,
            next: peak.most,
            ..peak
        }
    } else {
        Peak {
            next: peak.next.max(value),
            ..peak
        }
    }
}

/// By the ship that earns most in a slot of its range, then the lower one. The variation moves what these
/// count.
pub(crate) fn by_earnings(table: &Table, room: &Room, variation: Variation) -> Option<Lit> {
    let mut best: Option<Claim> = None;
    for ship in 0..room.ships() {
        let (low, high) = (room.low(ship), room.high(ship));
        if low < high {
            let peak = peak_of_earnings(table.row(ship), ship, low, high);
            let claim = Claim {
                peak,
                worth: variation.worth(ship, peak.most),
                next_worth: 0,
                place: variation.place(ship),
            };
            best = Some(above(best, claim));
        }
    }
    decided(room, best)
}

fn peak_of_earnings(row: &[i64], ship: ShipId, low: Slot, high: Slot) -> Peak {
    let mut peak = start(ship, low);
    for slot in low..high.saturating_add(1) {
        if let Some(earned) = row.get(slot as usize) {
            peak = higher(peak, slot, *earned);
        }
    }
    peak
}

/// From the best slot on, where it isn't the lowest of its range, else the lowest alone.
fn decided(room: &Room, best: Option<Claim>) -> Option<Lit> {
    match best {
        None => None,
        Some(claim) => decide(room, claim.peak.ship, claim.peak.slot),
    }
}

fn decide(room: &Room, ship: ShipId, slot: Slot) -> Option<Lit> {
    if room.ships() <= ship {
        return None;
    }
    let low = room.low(ship);
    if low < slot {
        Some(Lit::AtOrAfter { ship, slot })
    } else {
        Some(Lit::Before {
            ship,
            slot: low.saturating_add(1),
        })
    }
}
