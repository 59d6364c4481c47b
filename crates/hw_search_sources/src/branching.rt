//! The literal by which a search decides.
ghost use Rattle.std.specs.Prelude.{◌≡◌, ◌++◌, ◌+◌, ◌<◌, ◌≤◌, [], ◌∷◌, List, ℕ, Some, find, cond, nat_lt, MatchOption, option_map, ⊤};
ghost use Rattle.std.specs.List.{range_with_len};
ghost use Rattle.hw_model.specs.Rooms.{RoomFits, IsPoint, low_of, high_of};
ghost use Rattle.hw_search_laws.specs.Branches as rules;
ghost use Rattle.hw_search_sources.specs.Branching.{first_wide, with_wide, BestAmong};

use hw_flat::{Flat, Room, ShipId, Slot};
use hw_model::Lit;
use hw_rules::greatest_value;
use hw_search_laws::Branching;

// The first ship whose range has several slots.
fn first_wide(room: &Room) -> Option<ShipId>
    ensures value { result ≡ first_wide room.now }
    ensures wide { MatchOption result ⊤ (λ ship. (ship < room.now.ships) × (low_of room.now ship < high_of room.now ship)) }
{
    for ship in 0..room.ships() {
        if room.low(ship) < room.high(ship) {
            return Some(ship);
        }
    }
    None
}

// The best ship so far and its greatest value, or the next ship and its own, if that has several
// slots and a greater value.
fn better(
    flat: &Flat,
    room: &Room,
    best: Option<(ShipId, u64)>,
    ship: ShipId,
) -> Option<(ShipId, u64)>
    requires room { RoomFits flat.now room.now }
    requires ship_in { ship < flat.now.ships }
    ensures best { (ships : List ℕ) → BestAmong flat.now room.now ships best → BestAmong flat.now room.now (with_wide room.now ships ship) result }
{
    let low = room.low(ship);
    let high = room.high(ship);
    if high <= low {
        return best;
    }
    let value = greatest_value(flat, ship, low, high);
    match best {
        None => Some((ship, value)),
        Some((_ship, most)) => {
            if value <= most {
                best
            } else {
                Some((ship, value))
            }
        }
    }
}

// The first ship of greatest value among those with several slots, and that value.
fn greatest_ship(flat: &Flat, room: &Room) -> Option<(ShipId, u64)>
    requires room { RoomFits flat.now room.now }
    ensures best { BestAmong flat.now room.now (rules.wide_ships room.now) result }
{
    let mut best = None;
    for ship in 0..room.ships() {
        best = better(flat, room, best, ship);
    }
    best
}

// The first slot of a ship's range with its greatest value.
fn greatest_slot(flat: &Flat, room: &Room, ship: ShipId, most: u64) -> Option<Slot>
    requires room { RoomFits flat.now room.now }
    requires ship_in { ship < flat.now.ships }
    requires most { most ≡ rules.greatest_in flat.now room.now ship }
    ensures value { result ≡ rules.greatest_slot flat.now room.now ship }
    ensures in_range { MatchOption result ⊤ (λ slot. slot ≤ high_of room.now ship) }
{
    let low = room.low(ship);
    let high = room.high(ship);
    for slot in low..high + 1 {
        if flat.value(ship, slot).unwrap_or(0) == most {
            return Some(slot);
        }
    }
    None
}

// From this slot on, where it isn't the lowest, else only the lowest.
fn from_slot(room: &Room, ship: ShipId, slot: Slot) -> Lit
    requires ship_in { ship < room.now.ships }
    ensures value { result ≡ rules.from_slot room.now ship slot }
{
    let _slots = room.slots();
    let low = room.low(ship);
    if low < slot {
        Lit::AtOrAfter { ship, slot }
    } else {
        Lit::Before {
            ship,
            slot: low + 1,
        }
    }
}

fn greatest(flat: &Flat, room: &Room) -> Option<Lit>
    requires room { RoomFits flat.now room.now }
    ensures value { result ≡ rules.branch_literal Branching.Greatest flat.now room.now }
{
    match greatest_ship(flat, room) {
        None => None,
        Some((ship, most)) => match greatest_slot(flat, room, ship, most) {
            None => None,
            Some(slot) => Some(from_slot(room, ship, slot)),
        },
    }
}

fn earliest(room: &Room) -> Option<Lit>
    ensures value { result ≡ option_map (λ ship. Lit.Before ship (low_of room.now ship + 1)) (first_wide room.now) }
{
    let _slots = room.slots();
    match first_wide(room) {
        None => None,
        Some(ship) => Some(Lit::Before {
            ship,
            slot: room.low(ship) + 1,
        }),
    }
}

fn latest(room: &Room) -> Option<Lit>
    ensures value { result ≡ option_map (λ ship. Lit.AtOrAfter ship (high_of room.now ship)) (first_wide room.now) }
{
    match first_wide(room) {
        None => None,
        Some(ship) => Some(Lit::AtOrAfter {
            ship,
            slot: room.high(ship),
        }),
    }
}

fn literal(branching: Branching, flat: &Flat, room: &Room) -> Option<Lit>
    requires room { RoomFits flat.now room.now }
    ensures value { result ≡ rules.branch_literal branching flat.now room.now }
{
    match branching {
        Branching::Greatest => greatest(flat, room),
        Branching::Earliest => earliest(room),
        Branching::Latest => latest(room),
    }
}

/// The literal by which a rule decides in a room that isn't a point. It goes at most twice through
/// each range, and takes no memory.
pub fn branch(branching: Branching, flat: &Flat, room: &Room) -> Lit
    requires room { RoomFits flat.now room.now }
    requires open { IsPoint room.now → ⊥ }
    ensures value { rules.branch_literal branching flat.now room.now ≡ Some result }
{
    literal(branching, flat, room).unwrap()
}
