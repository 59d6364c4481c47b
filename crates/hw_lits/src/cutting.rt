//! What a room says of a literal, and a room cut by one.

ghost use Rattle.std.specs.Prelude.{◌≡◌, ◌↔◌, IsTrue};
ghost use Rattle.hw_model.specs.Narrowing.{truth, cut, first_truth, not_first_truth, set_by};
ghost use Rattle.hw_model.specs.Lits.{IsLitOf};

use hw_flat::{Order, Room};
use hw_model::{Lit, LitTruth};

/// Whether the literal is one of a problem of this many ships, which may have any number of slots.
pub fn is_lit_of(ships: u32, lit: Lit) -> bool
    ensures { IsTrue result ↔ IsLitOf ships lit }
{
    match lit {
        Lit::AtOrAfter { ship, slot } | Lit::Before { ship, slot } => ship < ships && slot >= 1,
        Lit::First { v, w } | Lit::NotFirst { v, w } => v < w && w < ships,
    }
}

/// What a room says of a literal, by the one range or order that it names.
pub fn truth(lit: Lit, room: &Room) -> LitTruth
    requires fits { IsLitOf room.now.ships lit }
    ensures value { result ≡ truth room.now lit }
{
    match lit {
        Lit::AtOrAfter { ship, slot } => if slot <= room.low(ship) {
            LitTruth::True
        } else if room.high(ship) < slot {
            LitTruth::False
        } else {
            LitTruth::Free
        },
        Lit::Before { ship, slot } => if room.high(ship) < slot {
            LitTruth::True
        } else if slot <= room.low(ship) {
            LitTruth::False
        } else {
            LitTruth::Free
        },
        Lit::First { v, w } => truth_of_first(room.order(v, w)),
        Lit::NotFirst { v, w } => truth_of_not_first(room.order(v, w)),
    }
}

fn truth_of_first(order: Order) -> LitTruth
    ensures { result ≡ first_truth order }
{
    match order {
        Order::Unset => LitTruth::Free,
        Order::First => LitTruth::True,
        Order::NotFirst => LitTruth::False,
    }
}

fn truth_of_not_first(order: Order) -> LitTruth
    ensures { result ≡ not_first_truth order }
{
    match order {
        Order::Unset => LitTruth::Free,
        Order::First => LitTruth::False,
        Order::NotFirst => LitTruth::True,
    }
}

/// Cuts a room by a literal that it leaves open: the ship's bound or the pair's order becomes the
/// literal's own, and nothing else changes.
pub fn cut(lit: Lit, room: &mut Room)
    requires fits { IsLitOf room.old.ships lit }
    requires free { truth room.old lit ≡ LitTruth.Free }
    ensures room { room.new ≡ cut lit room.old }
    ensures own { room.new ≡ set_by lit room.old }
    ensures ships { room.new.ships ≡ room.old.ships }
    ensures slots { room.new.slots ≡ room.old.slots }
{
    match lit {
        Lit::AtOrAfter { ship, slot } => {
            let high = room.high(ship);
            room.put(ship, slot, high);
        }
        Lit::Before { ship, slot } => {
            let low = room.low(ship);
            room.put(ship, low, slot - 1);
        }
        Lit::First { v, w } => room.put_order(v, w, Order::First),
        Lit::NotFirst { v, w } => room.put_order(v, w, Order::NotFirst),
    }
}
