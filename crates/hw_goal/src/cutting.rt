//! The reduction of a room that leaves nothing above the best, found by the kept figures.
ghost use Rattle.std.specs.Prelude.{◌≡◌, ◌≤◌, ◌<◌, Some, MatchOption};
ghost use Rattle.hw_model.specs.declared.source.Source.TheVariants.{Goal};
ghost use Rattle.hw_model.specs.Rooms.{RoomFits};
ghost use Rattle.hw_model.specs.Refuting.{Refutes};
ghost use Rattle.hw_prop.specs.Reductions.{IsQuiet, IsCut};
ghost use Rattle.hw_goal.specs.Kept.{IsTop, AreKept, SeenIn};
ghost use Rattle.hw_goal.specs.Calm.{CalmAt, CutAt};

use crate::tops::{Figures, Top};
use hw_flat::{Flat, Room, ShipId};
use hw_model::MOST_CARGO;
use hw_prop::Reduction;

fn ship_cut(flat: &Flat, ship: ShipId, top: Top, sum: u64, best: u64) -> Option<Reduction>
    requires ship_in { ship < flat.now.ships }
    requires top { IsTop flat.now ship top }
    requires part { top.peak.value ≤ sum }
    requires small { sum ≤ MOST_CARGO }
    ensures { MatchOption result (CalmAt flat.now best sum ship top) (CutAt flat.now best sum ship top) }
{
    let others = sum - top.peak.value;
    if others + flat.worth(ship, top.low) <= best {
        return Some(Reduction::Lowest { ship });
    }
    if others + flat.worth(ship, top.high) <= best {
        return Some(Reduction::Highest { ship });
    }
    None
}

/// A reduction of the room that leaves nothing above the best, or none where the goal is quiet.
/// Two values and two comparisons a ship.
pub(crate) fn goal_cut(flat: &Flat, figures: &Figures, room: &Room, best: u64) -> Option<Reduction>
    requires kept { AreKept flat.now flat.now.ships figures.now }
    requires room { RoomFits flat.now room.now }
    requires seen { SeenIn room.now flat.now.ships figures.now }
    ensures found { MatchOption result (IsQuiet (Refutes flat.now Goal (Some best)) room.now) (IsCut (Refutes flat.now Goal (Some best)) room.now) }
{
    let ships = flat.shape().ships;
    if figures.sum <= best {
        return Some(Reduction::Here);
    }
    for ship in 0..ships {
        let top = figures.tops[ship as usize];
        if let Some(c) = ship_cut(flat, ship, top, figures.sum, best) {
            return Some(c);
        }
    }
    None
}
