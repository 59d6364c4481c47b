//! Widens a denied room as far as it stays refuted, so that its clause says more.

ghost use Rattle.std.specs.Prelude.{◌≡◌, ◌≤◌, ◌<◌, ℕ, All, IsTrue, ◌↔◌, IfOk};
ghost use Rattle.hw_model.specs.Rooms.{RoomModel};
ghost use Rattle.hw_model.specs.Rooms.{low_of, high_of};
ghost use Rattle.hw_prop.specs.Reductions.{IsQuiet};
ghost use Rattle.hw_prop.specs.Explains.{Explains};
ghost use Rattle.hw_prop.specs.Speaks.{IsLocal, IsExplanation};
ghost use Rattle.hw_prop.specs.Plain.{Climb, ClimbPairs};

use crate::reduction::Edge;
use crate::refuter::{Refuter, Spoken};
use crate::writing::plain;
use hw_flat::{Order, Room, ShipId, Slot};
use hw_lits::Clause;
use hw_model::{MOST_SHIPS, NoMemory};
use std::alloc::Global;

/// The farthest that one test moves a bound, in slots: the greatest power of two that is at most 512,
/// the distance from the first of 513 slots to the last.
const FARTHEST: u32 = 512;

fn lower<R: Refuter>(
    refuter: &R,
    edge: Edge,
    room: &Room,
    denied: &mut Room,
    ship: ShipId,
    low: Slot,
)
    requires inside { ship < denied.old.ships }
    requires lower { low ≤ low_of denied.old ship }
    requires serves { R.serves refuter.now denied.old.ships denied.old.slots }
    requires refuted { R.refutes refuter.now denied.old }
    requires explains { Explains edge room.now denied.old }
    ensures refuted { R.refutes refuter.now denied.new }
    ensures ships { denied.new.ships ≡ denied.old.ships }
    ensures slots { denied.new.slots ≡ denied.old.slots }
    ensures explains { Explains edge room.now denied.new }
{
    let old = denied.low(ship);
    let high = denied.high(ship);
    denied.put(ship, low, high);
    if !refuter.refuted(denied) {
        denied.put(ship, old, high);
    }
}

fn raise<R: Refuter>(
    refuter: &R,
    edge: Edge,
    room: &Room,
    denied: &mut Room,
    ship: ShipId,
    high: Slot,
)
    requires inside { ship < denied.old.ships }
    requires higher { high_of denied.old ship ≤ high }
    requires slots { high < denied.old.slots }
    requires serves { R.serves refuter.now denied.old.ships denied.old.slots }
    requires refuted { R.refutes refuter.now denied.old }
    requires explains { Explains edge room.now denied.old }
    ensures refuted { R.refutes refuter.now denied.new }
    ensures ships { denied.new.ships ≡ denied.old.ships }
    ensures slots { denied.new.slots ≡ denied.old.slots }
    ensures explains { Explains edge room.now denied.new }
{
    let low = denied.low(ship);
    let old = denied.high(ship);
    denied.put(ship, low, high);
    if !refuter.refuted(denied) {
        denied.put(ship, low, old);
    }
}

fn release<R: Refuter>(
    refuter: &R,
    edge: Edge,
    room: &Room,
    denied: &mut Room,
    v: ShipId,
    w: ShipId,
)
    requires ordered { v < w }
    requires inside { w < denied.old.ships }
    requires serves { R.serves refuter.now denied.old.ships denied.old.slots }
    requires refuted { R.refutes refuter.now denied.old }
    requires explains { Explains edge room.now denied.old }
    ensures refuted { R.refutes refuter.now denied.new }
    ensures ships { denied.new.ships ≡ denied.old.ships }
    ensures slots { denied.new.slots ≡ denied.old.slots }
    ensures explains { Explains edge room.now denied.new }
{
    let _ships = denied.ships();
    let old = denied.order(v, w);
    denied.put_order(v, w, Order::Unset);
    if !refuter.refuted(denied) {
        denied.put_order(v, w, old);
    }
}

fn lower_far<R: Refuter>(refuter: &R, edge: Edge, room: &Room, denied: &mut Room, ship: ShipId)
    requires inside { ship < denied.old.ships }
    requires serves { R.serves refuter.now denied.old.ships denied.old.slots }
    requires refuted { R.refutes refuter.now denied.old }
    requires explains { Explains edge room.now denied.old }
    ensures refuted { R.refutes refuter.now denied.new }
    ensures ships { denied.new.ships ≡ denied.old.ships }
    ensures slots { denied.new.slots ≡ denied.old.slots }
    ensures explains { Explains edge room.now denied.new }
{
    let mut step = FARTHEST;
    while step > 0 {
        let low = denied.low(ship);
        if step <= low {
            lower(refuter, edge, room, denied, ship, low - step);
        }
        step /= 2;
    }
}

fn raise_far<R: Refuter>(refuter: &R, edge: Edge, room: &Room, denied: &mut Room, ship: ShipId)
    requires inside { ship < denied.old.ships }
    requires serves { R.serves refuter.now denied.old.ships denied.old.slots }
    requires refuted { R.refutes refuter.now denied.old }
    requires explains { Explains edge room.now denied.old }
    ensures refuted { R.refutes refuter.now denied.new }
    ensures ships { denied.new.ships ≡ denied.old.ships }
    ensures slots { denied.new.slots ≡ denied.old.slots }
    ensures explains { Explains edge room.now denied.new }
{
    let mut step = FARTHEST;
    while step > 0 {
        let high = denied.high(ship);
        if step < denied.slots() - high {
            raise(refuter, edge, room, denied, ship, high + step);
        }
        step /= 2;
    }
}

fn loosen_ship<R: Refuter>(refuter: &R, edge: Edge, room: &Room, denied: &mut Room, ship: ShipId)
    requires inside { ship < denied.old.ships }
    requires serves { R.serves refuter.now denied.old.ships denied.old.slots }
    requires refuted { R.refutes refuter.now denied.old }
    requires explains { Explains edge room.now denied.old }
    ensures refuted { R.refutes refuter.now denied.new }
    ensures ships { denied.new.ships ≡ denied.old.ships }
    ensures slots { denied.new.slots ≡ denied.old.slots }
    ensures explains { Explains edge room.now denied.new }
{
    lower_far(refuter, edge, room, denied, ship);
    raise_far(refuter, edge, room, denied, ship);
}

/// Widens the denied room as far as it stays refuted: the bounds of these ships and the orders of
/// these pairs.
///
/// Moves each bound by powers of two from 512 slots down, so a ship takes up to 20 tests of a room.
/// A pair takes one. It takes no memory.
pub fn loosen<R: Refuter>(
    refuter: &R,
    edge: Edge,
    room: &Room,
    denied: &mut Room,
    ships: &[ShipId],
    pairs: &[(ShipId, ShipId)],
)
    requires ships { All (λ v. v < denied.old.ships) ships.now }
    requires pairs { All (λ p. (p.0 < p.1) × (p.1 < denied.old.ships)) pairs.now }
    requires serves { R.serves refuter.now denied.old.ships denied.old.slots }
    requires refuted { R.refutes refuter.now denied.old }
    requires explains { Explains edge room.now denied.old }
    ensures refuted { R.refutes refuter.now denied.new }
    ensures ships { denied.new.ships ≡ denied.old.ships }
    ensures slots { denied.new.slots ≡ denied.old.slots }
    ensures explains { Explains edge room.now denied.new }
{
    for ship in ships {
        loosen_ship(refuter, edge, room, denied, *ship);
    }
    for pair in pairs {
        release(refuter, edge, room, denied, pair.0, pair.1);
    }
}

/// The clause of a refuted room that explains a cut at one edge, loosened. It costs up to 20 tests
/// of a room for each ship that is spoken of and one for each pair, and memory for the clause alone.
/// When memory runs out, the denied room is loosened all the same.
pub fn explain<R: Refuter>(
    alloc: Global,
    refuter: &R,
    spoken: &Spoken<'_>,
    edge: Edge,
    room: &Room,
    denied: &mut Room,
) -> Result<Clause, NoMemory>
    requires few_ships { spoken.now.shape.ships ≤ MOST_SHIPS }
    requires same_ships { denied.old.ships ≡ spoken.now.shape.ships }
    requires same_slots { denied.old.slots ≡ spoken.now.shape.slots }
    requires all_ships { All (λ v. v < denied.old.ships) spoken.now.ships.now }
    requires all_pairs { All (λ p. (p.0 < p.1) × (p.1 < denied.old.ships)) spoken.now.pairs.now }
    requires ships { Climb 0 denied.old.ships spoken.now.ships.now }
    requires pairs { ClimbPairs 0 0 denied.old.ships spoken.now.pairs.now }
    requires local { IsLocal (R.refutes refuter.now) spoken.now.ships.now spoken.now.pairs.now }
    requires serves { R.serves refuter.now denied.old.ships denied.old.slots }
    requires refuted { R.refutes refuter.now denied.old }
    requires explains { Explains edge room.now denied.old }
    requires loud { IsQuiet (R.refutes refuter.now) room.now → ⊥ }
    ensures worth { IfOk result (λ clause. IsExplanation (R.refutes refuter.now) spoken.now.shape spoken.now.ships.now spoken.now.pairs.now room.now clause) }
    ensures ships { denied.new.ships ≡ denied.old.ships }
    ensures slots { denied.new.slots ≡ denied.old.slots }
{
    loosen(refuter, edge, room, denied, spoken.ships, spoken.pairs);
    let _ships = denied.ships();
    plain(alloc, denied, spoken.ships, spoken.pairs)
}
