//! What is seen of a clause in a room.

ghost use Rattle.std.specs.Prelude.{◌≡◌, All};
ghost use Rattle.hw_model.specs.Lits.{IsLitOf};
ghost use Rattle.hw_store.specs.Looks.{Looks, look_more};
ghost use Rattle.hw_store.specs.Stores.{WhetherQuiet};

use hw_flat::Room;
use hw_lits::{Clause, truth};
use hw_model::{Lit, LitTruth};

/// What is seen of a clause in a room.
#[derive(Clone, Copy)]
pub enum Look {
    /// Every literal is False.
    Dead,
    /// One literal is Free, the others are False.
    Unit { lit: Lit },
    /// One literal is True, the others are False.
    Sure { lit: Lit },
    /// Two literals aren't False.
    Two { first: Lit, second: Lit },
}

/// Looks through the literals from the left, up to the second one that isn't False.
pub fn look_at(lits: &[Lit], room: &Room) -> Look
    requires fits { All (IsLitOf room.now.ships) lits.now }
    ensures seen { Looks room.now lits.now result }
{
    let mut seen = Look::Dead;
    for one in lits {
        let lit = *one;
        seen = more(seen, lit, truth(lit, room));
        if let Look::Two { .. } = seen {
            return seen;
        }
    }
    seen
}

// What is seen with one more literal.
fn more(seen: Look, lit: Lit, truth: LitTruth) -> Look
    ensures value { result ≡ look_more seen lit truth }
{
    match truth {
        LitTruth::False => seen,
        LitTruth::True => match seen {
            Look::Dead => Look::Sure { lit },
            Look::Unit { lit: first } | Look::Sure { lit: first } => Look::Two {
                first,
                second: lit,
            },
            Look::Two { first, second } => Look::Two { first, second },
        },
        LitTruth::Free => match seen {
            Look::Dead => Look::Unit { lit },
            Look::Unit { lit: first } | Look::Sure { lit: first } => Look::Two {
                first,
                second: lit,
            },
            Look::Two { first, second } => Look::Two { first, second },
        },
    }
}

/// Whether a clause has a True literal or two Free ones.
pub fn is_quiet(clause: &Clause, room: &Room) -> bool
    requires fits { All (IsLitOf room.now.ships) clause.now }
    ensures exactly { WhetherQuiet clause.now room.now result }
{
    match look_at(clause.as_slice(), room) {
        Look::Dead => false,
        Look::Unit { lit: _lit } => false,
        Look::Sure { lit: _lit } => true,
        Look::Two {
            first: _first,
            second: _second,
        } => true,
    }
}
