//! Widens a room that has nothing above the best, ship by ship, as long as this stays so. It goes
//! through a ship's slots a few times at most, and never through those of all ships for one try.
ghost use Rattle.std.specs.Prelude.{◌≡◌, ◌≤◌, ◌<◌, ◌+◌, ℕ};
ghost use Rattle.hw_model.specs.Rooms.{low_of, high_of};
ghost use Rattle.hw_model.specs.Refuting as refuting;
ghost use Rattle.hw_prop.specs.Explains.{Explains};
ghost use Rattle.hw_prop.specs.Reductions.{IsReduction, edge_of};
ghost use Rattle.hw_goal.specs.Kept.{IsTop, AreKept};
ghost use Rattle.hw_flat.specs.Carried.{worth};

use crate::tops::{Figures, Top};
use hw_flat::{Flat, Room, ShipId, Slot};
use hw_model::{MOST_CARGO, MOST_VALUE};
use hw_prop::Reduction;
use hw_rules::greatest_value;

/// The greatest value of a ship in its range in a room. It is the kept one if the ship was last seen
/// with this range. Otherwise it looks at each slot.
fn current(flat: &Flat, top: Top, room: &Room, ship: ShipId) -> u64
    requires ship_in { ship < flat.now.ships }
    requires top { IsTop flat.now ship top }
    requires ships { room.now.ships ≡ flat.now.ships }
    requires slots { room.now.slots ≡ flat.now.slots }
    ensures value { result ≡ refuting.greatest_value flat.now ship (low_of room.now ship) (high_of room.now ship) }
    ensures small { result ≤ MOST_VALUE }
    ensures row { result ≤ top.row }
{
    let low = room.low(ship);
    let high = room.high(ship);
    if top.low == low && top.high == high {
        return top.peak.value;
    }
    greatest_value(flat, ship, low, high)
}

/// The sum of the greatest values in a room. Most of its ranges are those that were last seen.
fn sum_in(flat: &Flat, figures: &Figures, room: &Room) -> u64
    requires kept { AreKept flat.now flat.now.ships figures.now }
    requires ships { room.now.ships ≡ flat.now.ships }
    requires slots { room.now.slots ≡ flat.now.slots }
    ensures value { result ≡ refuting.greatest_sum flat.now room.now }
    ensures small { result ≤ MOST_CARGO }
{
    let mut sum: u64 = 0;
    for ship in 0..flat.shape().ships {
        sum += current(flat, figures.tops[ship as usize], room, ship);
    }
    sum
}

/// A ship, and what is kept of it.
#[derive(Clone, Copy)]
struct KeptShip {
    ship: ShipId,
    top: Top,
}

/// Gives a ship its whole range where `spare` covers the rise of the greatest sum. Returns what is
/// left of `spare`, in tenths of a tonne.
fn open_ship(
    flat: &Flat,
    one: KeptShip,
    c: Reduction,
    room: &Room,
    denied: &mut Room,
    spare: u64,
) -> u64
    requires ship_in { one.ship < flat.now.ships }
    requires top { IsTop flat.now one.ship one.top }
    requires ships { denied.old.ships ≡ flat.now.ships }
    requires slots { denied.old.slots ≡ flat.now.slots }
    requires small { spare ≤ MOST_CARGO }
    requires explains { Explains (edge_of c) room.now denied.old }
    ensures ships { denied.new.ships ≡ flat.now.ships }
    ensures slots { denied.new.slots ≡ flat.now.slots }
    ensures spared { result ≤ spare }
    ensures sum { refuting.greatest_sum flat.now denied.new + result ≤ refuting.greatest_sum flat.now denied.old + spare }
    ensures explains { Explains (edge_of c) room.now denied.new }
{
    let ship = one.ship;
    let top = one.top;
    let _ships = denied.ships();
    let last = flat.shape().slots - 1;
    let now = current(flat, top, denied, ship);
    if now + spare < top.row {
        return spare;
    }
    denied.put(ship, 0, last);
    now + spare - top.row
}

/// The lowest slot from which on all values below a range are within a bound.
fn lowest_within(flat: &Flat, ship: ShipId, low: Slot, most: u64) -> Slot
    requires ship_in { ship < flat.now.ships }
    requires slot_in { low < flat.now.slots }
    ensures below { result ≤ low }
    ensures within { (slot : ℕ) → result ≤ slot → slot < low → worth flat.now ship slot ≤ most }
{
    let mut at = low;
    while 0 < at {
        if most < flat.worth(ship, at - 1) {
            return at;
        }
        at -= 1;
    }
    at
}

/// The highest slot up to which all values above a range are within a bound.
fn highest_within(flat: &Flat, ship: ShipId, high: Slot, most: u64) -> Slot
    requires ship_in { ship < flat.now.ships }
    requires slot_in { high < flat.now.slots }
    ensures above { high ≤ result }
    ensures slot_in { result < flat.now.slots }
    ensures within { (slot : ℕ) → high < slot → slot ≤ result → worth flat.now ship slot ≤ most }
{
    let last = flat.shape().slots - 1;
    let mut at = high;
    while at < last {
        if most < flat.worth(ship, at + 1) {
            return at;
        }
        at += 1;
    }
    at
}

/// Moves the ends of a ship's range outwards as long as `spare` covers the rise of the greatest sum.
/// Returns what is left of `spare`.
fn widen_ship(
    flat: &Flat,
    one: KeptShip,
    c: Reduction,
    room: &Room,
    denied: &mut Room,
    spare: u64,
) -> u64
    requires ship_in { one.ship < flat.now.ships }
    requires top { IsTop flat.now one.ship one.top }
    requires ships { denied.old.ships ≡ flat.now.ships }
    requires slots { denied.old.slots ≡ flat.now.slots }
    requires small { spare ≤ MOST_CARGO }
    requires explains { Explains (edge_of c) room.now denied.old }
    ensures ships { denied.new.ships ≡ flat.now.ships }
    ensures slots { denied.new.slots ≡ flat.now.slots }
    ensures spared { result ≤ spare }
    ensures sum { refuting.greatest_sum flat.now denied.new + result ≤ refuting.greatest_sum flat.now denied.old + spare }
    ensures explains { Explains (edge_of c) room.now denied.new }
{
    let ship = one.ship;
    let top = one.top;
    let _ships = denied.ships();
    let low = denied.low(ship);
    let high = denied.high(ship);
    if low == 0 && high + 1 == denied.slots() {
        return spare;
    }
    let most = current(flat, top, denied, ship) + spare;
    let lowest = lowest_within(flat, ship, low, most);
    let highest = highest_within(flat, ship, high, most);
    denied.put(ship, lowest, highest);
    most - greatest_value(flat, ship, lowest, highest)
}

/// Widens the range that is reduced, if there is one, so that the cut gets as long as it can. Returns
/// what is left of `spare`.
fn widen_cut(
    flat: &Flat,
    figures: &Figures,
    c: Reduction,
    room: &Room,
    denied: &mut Room,
    spare: u64,
) -> u64
    requires kept { AreKept flat.now flat.now.ships figures.now }
    requires may { IsReduction c room.now }
    requires room { room.now.ships ≡ flat.now.ships }
    requires ships { denied.old.ships ≡ flat.now.ships }
    requires slots { denied.old.slots ≡ flat.now.slots }
    requires small { spare ≤ MOST_CARGO }
    requires explains { Explains (edge_of c) room.now denied.old }
    ensures ships { denied.new.ships ≡ flat.now.ships }
    ensures slots { denied.new.slots ≡ flat.now.slots }
    ensures spared { result ≤ spare }
    ensures sum { refuting.greatest_sum flat.now denied.new + result ≤ refuting.greatest_sum flat.now denied.old + spare }
    ensures explains { Explains (edge_of c) room.now denied.new }
{
    match c {
        Reduction::Lowest { ship } | Reduction::Highest { ship } => {
            let top = figures.tops[ship as usize];
            widen_ship(flat, KeptShip { ship, top }, c, room, denied, spare)
        }
        Reduction::Here | Reduction::First { .. } | Reduction::NotFirst { .. } => spare,
    }
}

/// Widens a reduced room as long as it has nothing above the best. First comes the range that is
/// reduced. Then ships get their whole range where that can be spared, and the other ranges are
/// widened.
pub(crate) fn widen(
    flat: &Flat,
    figures: &Figures,
    best: u64,
    c: Reduction,
    room: &Room,
    denied: &mut Room,
)
    requires kept { AreKept flat.now flat.now.ships figures.now }
    requires may { IsReduction c room.now }
    requires room { room.now.ships ≡ flat.now.ships }
    requires ships { denied.old.ships ≡ flat.now.ships }
    requires slots { denied.old.slots ≡ flat.now.slots }
    requires sum { refuting.greatest_sum flat.now denied.old ≤ best }
    requires explains { Explains (edge_of c) room.now denied.old }
    ensures ships { denied.new.ships ≡ flat.now.ships }
    ensures slots { denied.new.slots ≡ flat.now.slots }
    ensures sum { refuting.greatest_sum flat.now denied.new ≤ best }
    ensures explains { Explains (edge_of c) room.now denied.new }
{
    let ships = flat.shape().ships;
    let all = (best - sum_in(flat, figures, denied)).min(MOST_CARGO);
    let mut spare = widen_cut(flat, figures, c, room, denied, all);
    for ship in 0..ships {
        let top = figures.tops[ship as usize];
        spare = open_ship(flat, KeptShip { ship, top }, c, room, denied, spare);
    }
    for ship in 0..ships {
        let top = figures.tops[ship as usize];
        spare = widen_ship(flat, KeptShip { ship, top }, c, room, denied, spare);
    }
}
