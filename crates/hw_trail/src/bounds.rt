//! The bound that an event moved, and what it made known.

ghost use Rattle.std.specs.Prelude.{◌≡◌};
ghost use Rattle.hw_model.specs.Lits.{IsLitOf};
ghost use Rattle.hw_trail.specs.Bounds.{range_end, knew, makes};

use crate::implied::implied;
use hw_flat::Room;
use hw_model::Lit;

/// The bound that a literal moves, as the room has it; 0 for an order.
pub fn range_end(lit: Lit, room: &Room) -> u32
    requires fits { IsLitOf room.now.ships lit }
    ensures value { result ≡ range_end room.now lit }
{
    match lit {
        Lit::AtOrAfter { ship, .. } => room.low(ship),
        Lit::Before { ship, .. } => room.high(ship),
        Lit::First { .. } | Lit::NotFirst { .. } => 0,
    }
}

// Whether a literal was true under its side's bound.
fn knew(bound: u32, lit: Lit) -> bool
    ensures value { result ≡ knew bound lit }
{
    match lit {
        Lit::AtOrAfter { slot, .. } => slot <= bound,
        Lit::Before { slot, .. } => bound < slot,
        Lit::First { .. } | Lit::NotFirst { .. } => false,
    }
}

/// Whether an event made a literal true that wasn't true under the bound before it.
pub fn makes(event: Lit, bound: u32, lit: Lit) -> bool
    ensures value { result ≡ makes event bound lit }
{
    implied(event, lit) && !knew(bound, lit)
}
