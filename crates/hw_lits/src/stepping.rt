//! One step of a replay.

ghost use Rattle.std.specs.Prelude.{◌≡◌, All};
ghost use Rattle.hw_model.specs.Replay.{narrowing, room_after};
ghost use Rattle.hw_model.specs.Lits.{IsLitOf};
ghost use Rattle.hw_lits.specs.Steps.{NarrowingTells, with_free};

use crate::clause::Clause;
use crate::cutting::{cut, truth};
use hw_flat::Room;
use hw_model::{Lit, LitTruth, Narrowed};

/// What one step of a replay finds in a clause, on a room that is only read: one pass over the
/// clause at most, which ends at the first True literal.
pub fn narrowing(clause: &Clause, room: &Room) -> Narrowed
    requires fits { All (IsLitOf room.now.ships) clause.now }
    ensures value { result ≡ narrowing clause.now room.now }
    ensures tells { NarrowingTells room.now clause.now result }
{
    narrowing_lits(clause.as_slice(), room)
}

/// The same by literals that stand in a longer list.
pub fn narrowing_lits(lits: &[Lit], room: &Room) -> Narrowed
    requires fits { All (IsLitOf room.now.ships) lits.now }
    ensures value { result ≡ narrowing lits.now room.now }
    ensures tells { NarrowingTells room.now lits.now result }
{
    let mut step = Narrowed::Conflict;
    for lit in lits {
        match truth(*lit, room) {
            LitTruth::True => return Narrowed::Same,
            LitTruth::False => {}
            LitTruth::Free => step = with_free_lit(step, *lit),
        }
    }
    step
}

/// One step of a replay: one pass over the clause, which takes no memory. Only a cut changes the
/// room.
pub fn narrow(clause: &Clause, room: &mut Room) -> Narrowed
    requires fits { All (IsLitOf room.old.ships) clause.now }
    ensures value { result ≡ narrowing clause.now room.old }
    ensures tells { NarrowingTells room.old clause.now result }
    ensures room { room.new ≡ room_after result room.old }
    ensures ships { room.new.ships ≡ room.old.ships }
    ensures slots { room.new.slots ≡ room.old.slots }
{
    narrow_lits(clause.as_slice(), room)
}

/// The same step by literals that stand in a longer list.
pub fn narrow_lits(lits: &[Lit], room: &mut Room) -> Narrowed
    requires fits { All (IsLitOf room.old.ships) lits.now }
    ensures value { result ≡ narrowing lits.now room.old }
    ensures tells { NarrowingTells room.old lits.now result }
    ensures room { room.new ≡ room_after result room.old }
    ensures ships { room.new.ships ≡ room.old.ships }
    ensures slots { room.new.slots ≡ room.old.slots }
{
    let step = narrowing_lits(lits, room);
    if let Narrowed::Cut(lit) = step {
        cut(lit, room);
    }
    step
}

// The step of the literals so far and one more that is open.
fn with_free_lit(step: Narrowed, lit: Lit) -> Narrowed
    ensures { result ≡ with_free step lit }
{
    match step {
        Narrowed::Same => Narrowed::Same,
        Narrowed::Conflict => Narrowed::Cut(lit),
        Narrowed::Cut(first) => Narrowed::Loose { first, second: lit },
        Narrowed::Loose { first, second } => Narrowed::Loose { first, second },
    }
}
