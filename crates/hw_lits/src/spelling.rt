//! The clause that says what a room leaves open: its denial is that room.

ghost use Rattle.std.specs.Prelude.{◌≡◌, ◌<◌, ◌++◌, IfOk, OnOk};
ghost use Rattle.hw_model.specs.Lits.{IsClause};
ghost use Rattle.hw_model.specs.Narrowing.{denied};
ghost use Rattle.hw_flat.specs.Opened.{shape_in};
ghost use Rattle.hw_lits.specs.Said.{above_said, below_said, turned_said, one_or_none};

use crate::clause::Clause;
use hw_flat::{Order, Room};
use hw_model::{Lit, NoMemory};
use std::alloc::{AllocFailed, Global};

/// The normal clause whose denied room is a given room. It negates, for each ship, the bounds that
/// are not those of all slots, and for each pair the order that is set.
pub fn clause_of_room(alloc: Global, room: &Room) -> Result<Clause, NoMemory>
    ensures denies { IfOk result (λ clause. denied (shape_in room.now) clause ≡ room.now) }
    ensures normal { IfOk result (λ clause. IsClause (shape_in room.now) clause) }
{
    let _ = room.ships();
    let lits = lits_of(alloc, room)?;
    Ok(Clause::of_normal(lits))
}

fn lits_of(alloc: Global, room: &Room) -> Result<Vec<Lit>, AllocFailed<Lit>>
    ensures denies { IfOk result (λ out. denied (shape_in room.now) out.items ≡ room.now) }
    ensures normal { IfOk result (λ out. IsClause (shape_in room.now) out.items) }
{
    let ships = room.ships();
    let mut out = Vec::new(alloc);
    for ship in 0..ships {
        push_some(&mut out, above(room, ship))?;
        push_some(&mut out, below(room, ship))?;
    }
    for v in 0..ships {
        for w in v + 1..ships {
            push_some(&mut out, order_turned(room, v, w))?;
        }
    }
    Ok(out)
}

fn push_some(out: &mut Vec<Lit>, lit: Option<Lit>) -> Result<(), AllocFailed<Lit>>
    ensures { OnOk result (out.new.items ≡ out.old.items ++ one_or_none lit) }
{
    match lit {
        None => Ok(()),
        Some(lit) => {
            out.push(lit)?;
            Ok(())
        }
    }
}

fn above(room: &Room, ship: u32) -> Option<Lit>
    requires ship_in { ship < room.now.ships }
    ensures { result ≡ above_said room.now ship }
{
    let slots = room.slots();
    let slot = room.high(ship) + 1;
    if slot < slots {
        Some(Lit::AtOrAfter { ship, slot })
    } else {
        None
    }
}

fn below(room: &Room, ship: u32) -> Option<Lit>
    requires ship_in { ship < room.now.ships }
    ensures { result ≡ below_said room.now ship }
{
    let slot = room.low(ship);
    if 0 < slot {
        Some(Lit::Before { ship, slot })
    } else {
        None
    }
}

fn order_turned(room: &Room, v: u32, w: u32) -> Option<Lit>
    requires ascends { v < w }
    requires ship_in { w < room.now.ships }
    ensures { result ≡ turned_said room.now v w }
{
    match room.order(v, w) {
        Order::Unset => None,
        Order::First => Some(Lit::NotFirst { v, w }),
        Order::NotFirst => Some(Lit::First { v, w }),
    }
}
