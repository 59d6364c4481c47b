//! The room of a branch.

ghost use Rattle.std.specs.Prelude.{◌≡◌, IfOk};
ghost use Rattle.hw_model.specs.Limits.{ShapeFits};
ghost use Rattle.hw_model.specs.Rooms.{whole_room};
ghost use Rattle.hw_split_text.specs.Splits.{branch_room};
ghost use Rattle.hw_split_text.specs.Rooms.{OpenInTurn};

use hw_flat::Room;
use hw_lits::cut;
use hw_model::{Lit, NoMemory, Shape};
use std::alloc::Global;

/// The room of a branch: the whole room, cut by each of its literals in turn. Those of a part of a split
/// are open in turn.
pub fn room_of(alloc: Global, shape: Shape, literals: &[Lit]) -> Result<Room, NoMemory>
    requires fits { ShapeFits shape }
    requires in_turn { OpenInTurn (whole_room shape) literals.now }
    ensures { IfOk result (λ room. room ≡ branch_room shape literals.now) }
{
    let mut room = Room::whole(alloc, shape)?;
    for lit in literals {
        cut(*lit, &mut room);
    }
    Ok(room)
}
