//! What a room knows of one side: one bound of a ship, or the order of a pair.

ghost use Rattle.std.specs.Prelude.{◌≡◌, MatchOption, IfSome, true};
ghost use Rattle.hw_model.specs.Rooms.{IsRoom};
ghost use Rattle.hw_model.specs.Lits.{lit_fits};
ghost use Rattle.hw_model.specs.Lits.{IsLitOf};
ghost use Rattle.hw_flat.specs.Opened.{shape_in};
ghost use Rattle.hw_trail_laws.specs.Knowing.{knows, always, widened};
ghost use Rattle.hw_trail_laws.specs.Passes.{DeniesOne, MostOf, NothingOf};
ghost use Rattle.hw_learn.specs.Sames.{SameShape};
ghost use Rattle.hw_learn.specs.Steps.{IsMost};

use hw_flat::{Order, Room};
use hw_lits::cut;
use hw_model::Lit;

/// Whether a room makes a literal true.
pub fn sees(room: &Room, lit: Lit) -> bool
    requires fits { IsLitOf room.now.ships lit }
    ensures value { result ≡ knows room.now lit }
{
    match lit {
        Lit::AtOrAfter { ship, slot } => slot <= room.low(ship),
        Lit::Before { ship, slot } => room.high(ship) < slot,
        Lit::First { v, w } => room.order(v, w) == Order::First,
        Lit::NotFirst { v, w } => room.order(v, w) == Order::NotFirst,
    }
}

/// Denies a literal that is open, and else does nothing.
pub fn deny(room: &mut Room, lit: Lit)
    requires fits { IsLitOf room.old.ships lit }
    ensures shape { SameShape room.new room.old }
    ensures room { IsRoom room.new }
    ensures denies { DeniesOne (knows room.old) (knows room.new) lit }
{
    let _ = room.ships();
    let denied = lit.not();
    if sees(room, denied) {
        return;
    }
    if sees(room, lit) {
        return;
    }
    cut(denied, room);
    let _ = room.ships();
}

/// The greatest literal that a room knows of a literal's side, none where it knows what every room does.
pub fn most(room: &Room, lit: Lit) -> Option<Lit>
    requires fits { IsLitOf room.now.ships lit }
    ensures most { IsMost room.now lit result }
    ensures fits { IfSome result (λ x. lit_fits (shape_in room.now) x ≡ true) }
{
    match lit {
        Lit::AtOrAfter { ship, .. } => {
            let slot = room.low(ship);
            if slot == 0 {
                None
            } else {
                Some(Lit::AtOrAfter { ship, slot })
            }
        }
        Lit::Before { ship, .. } => {
            let slots = room.slots();
            let slot = room.high(ship) + 1;
            if slot == slots {
                None
            } else {
                Some(Lit::Before { ship, slot })
            }
        }
        Lit::First { v, w } => if room.order(v, w) == Order::First {
            Some(lit)
        } else {
            None
        },
        Lit::NotFirst { v, w } => if room.order(v, w) == Order::NotFirst {
            Some(lit)
        } else {
            None
        },
    }
}

/// Takes back what a room knows of a literal's side.
pub fn widen(room: &mut Room, lit: Lit)
    requires fits { IsLitOf room.old.ships lit }
    ensures value { room.new ≡ widened lit room.old }
    ensures shape { SameShape room.new room.old }
    ensures before { IsRoom room.old }
    ensures room { IsRoom room.new }
{
    let _ = room.ships();
    take_back(room, lit);
    let _ = room.ships();
}

fn take_back(room: &mut Room, lit: Lit)
    requires fits { IsLitOf room.old.ships lit }
    ensures value { room.new ≡ widened lit room.old }
    ensures shape { SameShape room.new room.old }
{
    match lit {
        Lit::AtOrAfter { ship, .. } => {
            let high = room.high(ship);
            room.put(ship, 0, high);
        }
        Lit::Before { ship, .. } => {
            let low = room.low(ship);
            let high = room.slots() - 1;
            room.put(ship, low, high);
        }
        Lit::First { v, w } => room.put_order(v, w, Order::Unset),
        Lit::NotFirst { v, w } => room.put_order(v, w, Order::Unset),
    }
}
