//! The clause that denies the ranges of some ships and the orders of some pairs.

ghost use Rattle.std.specs.Prelude.{◌≡◌, ◌+◌, ◌<◌, ◌≤◌, ◌++◌, All, IfOk, OnOk, length};
ghost use Rattle.hw_prop.specs.Plain.{range_lits, order_lits, plain, Climb, ClimbPairs};

use hw_flat::{Order, Room, ShipId, Slot};
use hw_lits::Clause;
use hw_model::{Lit, NoMemory};
use std::alloc::Global;

// Adds the literals that rule out the slots of a range.
fn push_range(
    out: &mut Vec<Lit>,
    slots: u32,
    ship: ShipId,
    low: Slot,
    high: Slot,
) -> Result<(), NoMemory>
    requires in_slots { high < slots }
    ensures added { OnOk result (out.new.items ≡ out.old.items ++ range_lits slots ship low high) }
{
    if high + 1 < slots {
        out.push(Lit::AtOrAfter {
            ship,
            slot: high + 1,
        })?;
    }
    if 0 < low {
        out.push(Lit::Before { ship, slot: low })?;
    }
    Ok(())
}

// Adds the literal that a set order makes false.
fn push_order(out: &mut Vec<Lit>, v: ShipId, w: ShipId, order: Order) -> Result<(), NoMemory>
    ensures added { OnOk result (out.new.items ≡ out.old.items ++ order_lits v w order) }
{
    match order {
        Order::Unset => {}
        Order::First => out.push(Lit::NotFirst { v, w })?,
        Order::NotFirst => out.push(Lit::First { v, w })?,
    }
    Ok(())
}

fn plain_lits(
    alloc: Global,
    room: &Room,
    ships: &[ShipId],
    pairs: &[(ShipId, ShipId)],
) -> Result<Vec<Lit>, NoMemory>
    requires ships { All (λ v. v < room.now.ships) ships.now }
    requires pairs { All (λ p. (p.0 < p.1) × (p.1 < room.now.ships)) pairs.now }
    ensures value { IfOk result (λ c. c.items ≡ plain room.now ships.now pairs.now) }
{
    let mut out = Vec::new(alloc);
    for ship in ships {
        push_range(
            &mut out,
            room.slots(),
            *ship,
            room.low(*ship),
            room.high(*ship),
        )?;
    }
    for pair in pairs {
        push_order(&mut out, pair.0, pair.1, room.order(pair.0, pair.1))?;
    }
    Ok(out)
}

/// The clause whose denied room has the ranges of these ships and the orders of these pairs.
pub fn plain(
    alloc: Global,
    room: &Room,
    ships: &[ShipId],
    pairs: &[(ShipId, ShipId)],
) -> Result<Clause, NoMemory>
    requires all_ships { All (λ v. v < room.now.ships) ships.now }
    requires all_pairs { All (λ p. (p.0 < p.1) × (p.1 < room.now.ships)) pairs.now }
    requires ships { Climb 0 room.now.ships ships.now }
    requires pairs { ClimbPairs 0 0 room.now.ships pairs.now }
    ensures value { IfOk result (λ clause. clause ≡ plain room.now ships.now pairs.now) }
{
    let _ships = room.ships();
    let lits = plain_lits(alloc, room, ships, pairs)?;
    Ok(Clause::of_normal(lits))
}
