//! Which rooms a source refutes, by its kind.
ghost use Rattle.std.specs.Prelude.{◌≡◌, ◌↔◌, IsTrue};
ghost use Rattle.hw_model.specs.Limits.{RuleFits};
ghost use Rattle.hw_model.specs.Rooms.{RoomFits};
ghost use Rattle.hw_model.specs.Refuting.{IsSourceOf, Refutes};
ghost use Rattle.hw_model.specs.RefutingComputed.{refutes, rule_refutes};

use crate::goal::goal_refuted;
use crate::orders::orders_refuted;
use crate::pair::pair_refuted;
use crate::precedence::precedence_refuted;
use crate::tugs::tugs_refuted;
use crate::window::window_refuted;
use hw_flat::{Flat, Room, Rule, Source};

/// Whether the source refutes the room, given the best cargo so far in tenths of a tonne, or none.
///
/// It takes no memory. A window and the goal take one pass through their ranges, a rule on tugs at
/// most a step for each slot of the horizon and job, and the others none that grows with the ranges.
pub fn refuted(flat: &Flat, source: Source, best: Option<u64>, room: &Room) -> bool
    requires room { RoomFits flat.now room.now }
    requires source_in { IsSourceOf flat.now source }
    ensures computed { result ≡ refutes flat.now source best room.now }
    ensures means { IsTrue result ↔ Refutes flat.now source best room.now }
{
    match source {
        Source::Window { ship } => window_refuted(flat, ship, room),
        Source::Rule { place } => rule_refuted(flat, &flat.rules()[place as usize], room),
        Source::Order { v, w, x } => orders_refuted(v, w, x, room),
        Source::Goal => goal_refuted(flat, best, room),
    }
}

fn rule_refuted(flat: &Flat, rule: &Rule, room: &Room) -> bool
    requires room { RoomFits flat.now room.now }
    requires fits { RuleFits flat.now.ships rule.now }
    ensures value { result ≡ rule_refutes flat.now room.now rule.now }
{
    match rule {
        Rule::Pair { v, w, holes } => pair_refuted(flat, *v, *w, &holes.items, room),
        Rule::After { v, w, gap } => precedence_refuted(flat, *v, *w, *gap, room),
        Rule::Tugs { fleet, later, jobs } => tugs_refuted(
            flat,
            *fleet,
            &later.items,
            &jobs.items,
            room,
        ),
    }
}
