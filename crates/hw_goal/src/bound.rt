//! The propagator of the goal, by the greatest value of each ship's range.

ghost use Rattle.std.specs.Prelude.{◌≡◌, IfOk};
ghost use Rattle.std.specs.List.{range_with_len};
ghost use Rattle.hw_model.specs.declared.source.Source.TheVariants.{Goal};
ghost use Rattle.hw_model.specs.Problem.{Problem, shape_of};
ghost use Rattle.hw_model.specs.Rooms.{RoomModel, whole_room};
ghost use Rattle.hw_model.specs.Refuting.{greatest_sum};

use crate::stepping::{Known, goal_step};
use crate::tops::{Figures, see_all, whole_figures};
use hw_flat::{Flat, Room, ShipId, Source};
use hw_lits::Found;
use hw_model::NoMemory;
use hw_prop::{Propagator, all_ships};
use std::alloc::Global;

/// The goal: more cargo than the best. It keeps each ship's greatest value in its range, and
/// their sum.
#[derive(Drop)]
pub struct GoalBound {
    figures: Figures,
    ships: Vec<ShipId>,
    denied: Room,
}

impl GoalBound {
    /// The propagator of a problem's goal, ready for the whole room. It looks at each value once.
    pub fn new(alloc: Global, flat: &Flat) -> Result<GoalBound, NoMemory>
        ensures source { IfOk result (λ goal. ⟦<GoalBound as Propagator>⟧.source goal ≡ Goal) }
        ensures ready { IfOk result (λ goal. ⟦<GoalBound as Propagator>⟧.ready goal flat.now (whole_room (shape_of flat.now))) }
    {
        let shape = flat.shape();
        let figures = whole_figures(alloc, flat)?;
        let ships = all_ships(alloc, shape.ships)?;
        let denied = Room::whole(alloc, shape)?;
        Ok(GoalBound {
            figures,
            ships,
            denied,
        })
    }

    /// The sum of the greatest values in the ranges of the room for which it is ready, in tenths of
    /// a tonne. A range without a value counts 0. It takes no memory.
    pub fn sum(&self) -> u64
        ensures value { (f : Problem) (room : RoomModel) → ⟦<GoalBound as Propagator>⟧.ready self.now f room → result ≡ greatest_sum f room }
    {
        self.figures.sum
    }
}

impl Propagator for GoalBound {
    ghost use Rattle.std.specs.Prelude.{◌≡◌};
    ghost use Rattle.std.specs.List.{range_with_len};
    ghost use Rattle.hw_model.specs.declared.source.Source.TheVariants.{Goal};
    ghost use Rattle.hw_model.specs.Rooms.{RoomFits};
    ghost use Rattle.hw_goal.specs.Kept.{AreKept, SeenIn};

    ghost source = { λ p. Goal };

    ghost serves = { λ p f. AreKept f f.ships p.figures × (p.ships.items ≡ range_with_len 0 f.ships) × (p.denied.ships ≡ f.ships) };

    ghost ready = { λ p f room. (AreKept f f.ships p.figures × (p.ships.items ≡ range_with_len 0 f.ships) × (p.denied.ships ≡ f.ships)) × RoomFits f room × SeenIn room f.ships p.figures };

    ghost ready_serves = { λ p f room h. h.0 };

    ghost serves_source = { λ p f h. tt };

    fn source(&self) -> Source {
        Source::Goal
    }

    fn step(
        &mut self,
        alloc: Global,
        flat: &Flat,
        best: Option<u64>,
        room: &Room,
    ) -> Result<Found, NoMemory> {
        let known = Known {
            flat,
            figures: &self.figures,
            ships: &self.ships,
        };
        goal_step(alloc, &known, best, room, &mut self.denied)
    }

    fn undone(&mut self, flat: &Flat, room: &Room) {
        see_all(&mut self.figures, flat, room);
    }
}
