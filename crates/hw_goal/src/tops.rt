//! The greatest value of each ship in the range that it was last seen with, and their sum.
ghost use Rattle.std.specs.Prelude.{◌≡◌, ◌≢◌, ◌≤◌, ◌<◌, ℕ, IfOk};
ghost use Rattle.hw_model.specs.Problem.{shape_of};
ghost use Rattle.hw_model.specs.Rooms.{RoomFits, low_of, high_of, whole_room};
ghost use Rattle.hw_goal.specs.Kept.{IsPeak, IsHigher, IsTop, top_at, AreKept, SeenAt, SeenIn};

use hw_flat::{Flat, Room, ShipId, Slot};
use hw_model::{MOST_VALUE, NoMemory};
use std::alloc::Global;

/// A slot and its value, in tenths of a tonne; none counts 0.
#[derive(Clone, Copy)]
pub struct Peak {
    pub slot: Slot,
    pub value: u64,
}

/// Cached for a ship: its last range, the best slot in it, and its best value anywhere.
#[derive(Clone, Copy)]
pub struct Top {
    pub low: Slot,
    pub high: Slot,
    pub peak: Peak,
    pub row: u64,
}

/// What is kept of each ship, and the sum of the greatest values in their ranges.
#[derive(Drop)]
pub struct Figures {
    pub tops: Vec<Top>,
    pub sum: u64,
}

fn higher(one: Peak, other: Peak) -> Peak
    ensures { IsHigher one other result }
{
    if other.value <= one.value { one } else { other }
}

/// The greatest value in a range and a slot that has it. It looks once at each slot.
fn peak_of(flat: &Flat, ship: ShipId, low: Slot, high: Slot) -> Peak
    requires ship_in { ship < flat.now.ships }
    requires ordered { low ≤ high }
    requires slot_in { high < flat.now.slots }
    ensures peak { IsPeak flat.now ship low high result }
    ensures small { result.value ≤ MOST_VALUE }
{
    let mut at = high;
    let mut peak = Peak {
        slot: at,
        value: flat.worth(ship, at),
    };
    while low < at {
        at -= 1;
        let here = Peak {
            slot: at,
            value: flat.worth(ship, at),
        };
        peak = higher(here, peak);
    }
    peak
}

/// What to keep of a ship with another range. If the range is narrower and still has the kept slot,
/// that slot stays; otherwise it looks at each slot.
fn moved(flat: &Flat, ship: ShipId, top: Top, low: Slot, high: Slot) -> Top
    requires ship_in { ship < flat.now.ships }
    requires top { IsTop flat.now ship top }
    requires ordered { low ≤ high }
    requires slot_in { high < flat.now.slots }
    ensures top { IsTop flat.now ship result }
    ensures low { result.low ≡ low }
    ensures high { result.high ≡ high }
{
    let slot = top.peak.slot;
    if top.low <= low && low <= slot && slot <= high && high <= top.high {
        return Top {
            low,
            high,
            peak: top.peak,
            row: top.row,
        };
    }
    Top {
        low,
        high,
        peak: peak_of(flat, ship, low, high),
        row: top.row,
    }
}

/// Sees a ship with a range. It costs two comparisons where this is the range last seen. Otherwise
/// it brings what is kept of this ship, and the sum, up to date.
pub(crate) fn see(figures: &mut Figures, flat: &Flat, ship: ShipId, low: Slot, high: Slot)
    requires kept { AreKept flat.now flat.now.ships figures.old }
    requires ship_in { ship < flat.now.ships }
    requires ordered { low ≤ high }
    requires slot_in { high < flat.now.slots }
    ensures kept { AreKept flat.now flat.now.ships figures.new }
    ensures here { SeenAt figures.new ship low high }
    ensures others { (u : ℕ) → u ≢ ship → top_at figures.new.tops.items u ≡ top_at figures.old.tops.items u }
{
    let old = figures.tops[ship as usize];
    if old.low == low && old.high == high {
        return;
    }
    let _shape = flat.shape();
    let new = moved(flat, ship, old, low, high);
    figures.sum = figures.sum - old.peak.value + new.peak.value;
    figures.tops[ship as usize] = new;
}

/// Sees each ship with its range in a room.
pub(crate) fn see_all(figures: &mut Figures, flat: &Flat, room: &Room)
    requires kept { AreKept flat.now flat.now.ships figures.old }
    requires room { RoomFits flat.now room.now }
    ensures kept { AreKept flat.now flat.now.ships figures.new }
    ensures seen { SeenIn room.now flat.now.ships figures.new }
{
    for ship in 0..flat.shape().ships {
        see(figures, flat, ship, room.low(ship), room.high(ship));
    }
}

/// The figures of the whole room.
pub(crate) fn whole_figures(alloc: Global, flat: &Flat) -> Result<Figures, NoMemory>
    ensures kept { IfOk result (AreKept flat.now flat.now.ships) }
    ensures seen { IfOk result (SeenIn (whole_room (shape_of flat.now)) flat.now.ships) }
{
    let shape = flat.shape();
    let mut figures = Figures {
        tops: Vec::new(alloc),
        sum: 0,
    };
    for ship in 0..shape.ships {
        let peak = peak_of(flat, ship, 0, shape.slots - 1);
        figures.tops.push(Top {
            low: 0,
            high: shape.slots - 1,
            peak,
            row: peak.value,
        })?;
        figures.sum += peak.value;
    }
    Ok(figures)
}
