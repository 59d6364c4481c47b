//! A step of the goal by the kept figures.
ghost use Rattle.std.specs.Prelude.{◌≡◌, Some, IfOk};
ghost use Rattle.std.specs.List.{range_with_len};
ghost use Rattle.hw_model.specs.declared.source.Source.TheVariants.{Goal};
ghost use Rattle.hw_model.specs.Rooms.{RoomFits};
ghost use Rattle.hw_model.specs.Refuting.{Refutes};
ghost use Rattle.hw_prop.specs.Reductions.{IsCut};
ghost use Rattle.hw_prop.specs.Finds.{Explanation, Finds};
ghost use Rattle.hw_goal.specs.Kept.{AreKept, SeenIn};

use crate::cutting::goal_cut;
use crate::tops::Figures;
use crate::widening::widen;
use hw_flat::{Flat, Room, ShipId};
use hw_lits::{Clause, Found};
use hw_model::NoMemory;
use hw_prop::{Reduction, plain, reduce};
use std::alloc::Global;

/// What a step reads: the problem, the figures of the room, and all ships in ascending order.
#[derive(Clone, Copy)]
pub(crate) struct Known<'k> {
    pub flat: &'k Flat,
    pub figures: &'k Figures,
    pub ships: &'k [ShipId],
}

/// The clause of a reduction of the room that leaves nothing above the best, widened. `denied` is a
/// room with the same number of ships, with any content.
fn goal_clause(
    alloc: Global,
    known: &Known<'_>,
    best: u64,
    room: &Room,
    denied: &mut Room,
    c: Reduction,
) -> Result<Clause, NoMemory>
    requires kept { AreKept known.now.flat.now known.now.flat.now.ships known.now.figures.now }
    requires room { RoomFits known.now.flat.now room.now }
    requires ships { known.now.ships.now ≡ range_with_len 0 known.now.flat.now.ships }
    requires denied { denied.old.ships ≡ known.now.flat.now.ships }
    requires cut { IsCut (Refutes known.now.flat.now Goal (Some best)) room.now c }
    ensures worth { IfOk result (Explanation known.now.flat.now Goal (Some best) room.now) }
    ensures denied { denied.new.ships ≡ known.now.flat.now.ships }
{
    let _shape = known.flat.shape();
    denied.copy_from(room);
    reduce(denied, c);
    widen(known.flat, known.figures, best, c, room, denied);
    let _ships = denied.ships();
    plain(alloc, denied, known.ships, &[])
}

/// Quiet exactly where the goal is quiet in the room, else a clause of it, by the room's figures.
///
/// `denied` is a room with the same number of ships, with any content. A quiet answer takes no
/// memory and costs two values and two comparisons for each ship. A clause goes through each ship's
/// slots a few times at most.
pub(crate) fn goal_step(
    alloc: Global,
    known: &Known<'_>,
    best: Option<u64>,
    room: &Room,
    denied: &mut Room,
) -> Result<Found, NoMemory>
    requires kept { AreKept known.now.flat.now known.now.flat.now.ships known.now.figures.now }
    requires room { RoomFits known.now.flat.now room.now }
    requires seen { SeenIn room.now known.now.flat.now.ships known.now.figures.now }
    requires ships { known.now.ships.now ≡ range_with_len 0 known.now.flat.now.ships }
    requires denied { denied.old.ships ≡ known.now.flat.now.ships }
    ensures found { IfOk result (Finds known.now.flat.now Goal best room.now) }
    ensures denied { denied.new.ships ≡ known.now.flat.now.ships }
{
    let best = match best {
        None => return Ok(Found::Quiet),
        Some(best) => best,
    };
    match goal_cut(known.flat, known.figures, room, best) {
        None => Ok(Found::Quiet),
        Some(c) => {
            let clause = goal_clause(alloc, known, best, room, denied, c)?;
            Ok(Found::Clause(clause))
        }
    }
}
