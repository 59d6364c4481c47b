//! The propagator of a rule on tugs, by the tugs that are certainly held in each slot.

ghost use Rattle.std.specs.Prelude.{◌≡◌, ◌<◌, ℕ, IfOk};
ghost use Rattle.hw_model.specs.Problem.{Problem, horizon, shape_of};
ghost use Rattle.hw_model.specs.Rooms.{RoomModel, whole_room};
ghost use Rattle.hw_tugs.specs.Kinds.{OfTugs, HeldWhere};

use crate::explaining::tugs_step;
use crate::figures::Figures;
use crate::fleets::Fleets;
use crate::rule::{TugsTest, tugs_rule};
use hw_flat::{Flat, Room, ShipId, Slot, Source};
use hw_lits::Found;
use hw_model::NoMemory;
use hw_prop::{BySource, Propagator, ships_of_jobs};
use std::alloc::Global;

/// The propagator of a rule on tugs. It keeps the tugs that are certainly held in each slot of the
/// horizon, and where the rule has steps the fleet of each slot. A job certainly holds its tugs from
/// its ship's highest slot on, until the hold after its lowest slot is over. A ship that may still
/// stay holds none.
///
/// A quiet step takes no memory, and at most one step for each slot in which a job may hold its tugs.
/// `undone` compares one range for each job, and takes a step for each slot that a job certainly
/// holds where its range differs.
#[derive(Drop)]
pub struct TugProfile {
    source: Source,
    ships: Vec<ShipId>,
    trial: Room,
    figures: Figures,
    fleets: Fleets,
}

impl TugProfile {
    /// The propagator of a rule on tugs, ready for the whole room.
    pub fn new(alloc: Global, flat: &Flat, source: Source) -> Result<TugProfile, NoMemory>
        requires kind { OfTugs flat.now source }
        ensures source { IfOk result (λ p. ⟦<TugProfile as Propagator>⟧.source p ≡ source) }
        ensures ready { IfOk result (λ p. ⟦<TugProfile as Propagator>⟧.ready p flat.now (whole_room (shape_of flat.now))) }
    {
        let rule = tugs_rule(flat, source);
        let trial = Room::whole(alloc, flat.shape())?;
        let ships = ships_of_jobs(alloc, rule.jobs)?;
        let figures = Figures::of_room(alloc, rule.jobs, &trial, flat.horizon())?;
        let fleets = Fleets::of_rule(alloc, rule.fleet, rule.later, flat.horizon())?;
        Ok(TugProfile {
            source,
            ships,
            trial,
            figures,
            fleets,
        })
    }

    /// The tugs that the rule's jobs certainly hold in a slot of the horizon, in the room for which the
    /// profile is ready.
    pub fn load(&self, slot: Slot) -> u64
        requires ready { (f : Problem) × (room : RoomModel) × ⟦<TugProfile as Propagator>⟧.ready self.now f room × (slot < horizon f) }
        ensures value { HeldWhere (⟦<TugProfile as Propagator>⟧.ready self.now) (⟦<TugProfile as Propagator>⟧.source self.now) slot result }
    {
        self.figures.load[slot as usize]
    }
}

impl Propagator for TugProfile {
    ghost use Rattle.hw_tugs.specs.Profiles.{KeepsProfile, RoomHasFigures};

    ghost source = { λ p. p.source };

    ghost serves = { λ p f. KeepsProfile f p.source p.ships.items p.trial p.figures p.fleets };

    ghost ready = { λ p f room. RoomHasFigures f p.source p.ships.items p.trial p.figures p.fleets room };

    ghost ready_serves = { λ p f room h. h.keeps };

    ghost serves_source = { λ p f h. h.of_tugs.0 };

    fn source(&self) -> Source {
        self.source
    }

    fn step(
        &mut self,
        alloc: Global,
        flat: &Flat,
        best: Option<u64>,
        room: &Room,
    ) -> Result<Found, NoMemory> {
        let rule = tugs_rule(flat, self.source);
        let by = BySource {
            flat,
            source: self.source,
            best,
        };
        let test = TugsTest {
            by,
            rule,
            fleets: &self.fleets,
        };
        tugs_step(
            alloc,
            &test,
            room,
            &self.figures.load,
            &mut self.trial,
            &self.ships,
        )
    }

    fn undone(&mut self, flat: &Flat, room: &Room) {
        let rule = tugs_rule(flat, self.source);
        self.figures.follow(rule.jobs, room);
    }
}
