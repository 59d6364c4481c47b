//! The room in which a clause is denied.

ghost use Rattle.std.specs.Prelude.{◌≡◌};
ghost use Rattle.hw_model.specs.Lits.{negation, IsClause, IsLitOf};
ghost use Rattle.hw_model.specs.Narrowing.{cut, denied};
ghost use Rattle.hw_flat.specs.Opened.{shape_in};
ghost use Rattle.hw_lits.specs.Cuts.{LeavesSlots};

use crate::clause::Clause;
use hw_flat::{Order, Room};
use hw_model::Lit;

/// Makes a room the denied room of a clause: the whole room cut by the negation of each literal.
/// One pass over the room and one over the clause.
pub fn deny(clause: &Clause, room: &mut Room)
    requires fits { IsClause (shape_in room.old) clause.now }
    ensures room { room.new ≡ denied (shape_in room.old) clause.now }
    ensures ships { room.new.ships ≡ room.old.ships }
    ensures slots { room.new.slots ≡ room.old.slots }
{
    room.reset();
    for lit in clause.as_slice() {
        exclude(*lit, room);
    }
}

// Cuts a room by the negation of a literal.
fn exclude(lit: Lit, room: &mut Room)
    requires fits { IsLitOf room.old.ships lit }
    requires leaves { LeavesSlots room.old lit }
    ensures room { room.new ≡ cut (negation lit) room.old }
{
    match lit {
        Lit::AtOrAfter { ship, slot } => {
            let low = room.low(ship);
            let high = room.high(ship).min(slot - 1);
            room.put(ship, low, high);
        }
        Lit::Before { ship, slot } => {
            let low = room.low(ship).max(slot);
            let high = room.high(ship);
            room.put(ship, low, high);
        }
        Lit::First { v, w } => room.put_order(v, w, Order::NotFirst),
        Lit::NotFirst { v, w } => room.put_order(v, w, Order::First),
    }
}
