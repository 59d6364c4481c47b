//! The plain propagator: it tries each reduction, of any source.

ghost use Rattle.std.specs.Prelude.{◌≡◌, IfOk};
ghost use Rattle.hw_model.specs.Problem.{Problem};
ghost use Rattle.hw_model.specs.Rooms.{RoomModel, RoomFits};
ghost use Rattle.hw_model.specs.Refuting.{IsSourceOf};
ghost use Rattle.hw_prop.specs.Finds.{Finds};
ghost use Rattle.hw_prop.specs.Trials.{IsTrial};

use crate::finding::source_finds;
use crate::propagator::Propagator;
use crate::refuter::BySource;
use crate::scope::{pairs_of, ships_of};
use hw_flat::{Flat, Room, ShipId, Source};
use hw_lits::Found;
use hw_model::NoMemory;
use std::alloc::Global;

/// What trying works on: a room of the problem's size, and the ships and pairs of which the
/// source speaks, ascending.
#[derive(Drop)]
pub struct Trial {
    pub room: Room,
    pub ships: Vec<ShipId>,
    pub pairs: Vec<(ShipId, ShipId)>,
}

/// The trial of a source, in a copy of the room.
fn trial_of(alloc: Global, flat: &Flat, source: Source, room: &Room) -> Result<Trial, NoMemory>
    requires source_in { IsSourceOf flat.now source }
    requires room { RoomFits flat.now room.now }
    ensures value { IfOk result (IsTrial flat.now source) }
{
    let ships = ships_of(alloc, flat, source)?;
    let pairs = pairs_of(alloc, flat, source)?;
    let room = room.copy(alloc)?;
    Ok(Trial { room, ships, pairs })
}

/// Returns Quiet exactly where the source is quiet in the room, else a clause of it. It tries in the
/// borrowed trial room. A quiet answer takes no memory.
fn shaved_in(
    alloc: Global,
    test: &BySource<'_>,
    room: &Room,
    trial: &mut Trial,
) -> Result<Found, NoMemory>
    requires source_in { IsSourceOf test.now.flat.now test.now.source }
    requires room { RoomFits test.now.flat.now room.now }
    requires trial { IsTrial test.now.flat.now test.now.source trial.old }
    ensures found { IfOk result (Finds test.now.flat.now test.now.source test.now.best room.now) }
    ensures trial { IsTrial test.now.flat.now test.now.source trial.new }
{
    let _shape = test.flat.shape();
    source_finds(
        alloc,
        test,
        room,
        &mut trial.room,
        &trial.ships,
        &trial.pairs,
    )
}

/// Quiet exactly where the source is quiet in the room, else a clause of it, by trying in a room
/// made for this call.
pub fn shaved(alloc: Global, test: &BySource<'_>, room: &Room) -> Result<Found, NoMemory>
    requires source_in { IsSourceOf test.now.flat.now test.now.source }
    requires room { RoomFits test.now.flat.now room.now }
    ensures found { IfOk result (Finds test.now.flat.now test.now.source test.now.best room.now) }
{
    let mut trial = trial_of(alloc, test.flat, test.source, room)?;
    shaved_in(alloc, test, room, &mut trial)
}

/// The plain propagator of any source: it tries each reduction of the room. It keeps no figures.
///
/// Its first step makes the room to try in and keeps it: from then on a quiet step takes no memory.
#[derive(Drop)]
pub struct Shaver {
    source: Source,
    trial: Option<Trial>,
}

impl Shaver {
    /// The one of a source, ready for each room of a problem that has the source. It takes no memory.
    pub fn new(source: Source) -> Shaver
        ensures source { ⟦<Shaver as Propagator>⟧.source result ≡ source }
        ensures ready { (f : Problem) (room : RoomModel) → IsSourceOf f source → RoomFits f room → ⟦<Shaver as Propagator>⟧.ready result f room }
    {
        Shaver {
            source,
            trial: None,
        }
    }
}

impl Propagator for Shaver {
    ghost use Rattle.hw_model.specs.Rooms.{RoomFits};
    ghost use Rattle.hw_model.specs.Refuting.{IsSourceOf};
    ghost use Rattle.hw_prop.specs.Trials.{KeepsTrial};

    ghost source = { λ s. s.source };

    ghost serves = { λ s f. IsSourceOf f s.source × KeepsTrial f s.source s.trial };

    ghost ready = { λ s f room. (IsSourceOf f s.source × KeepsTrial f s.source s.trial) × RoomFits f room };

    ghost ready_serves = { λ p f room h. h.0 };

    ghost serves_source = { λ p f h. h.0 };

    fn source(&self) -> Source {
        self.source
    }

    fn step(
        &mut self,
        alloc: Global,
        flat: &Flat,
        best: Option<u64>,
        room: &Room,
    ) -> Result<Found, NoMemory> {
        let test = BySource {
            flat,
            source: self.source,
            best,
        };
        let mut trial = match self.trial.take() {
            Some(trial) => trial,
            None => trial_of(alloc, flat, self.source, room)?,
        };
        let found = shaved_in(alloc, &test, room, &mut trial);
        self.trial = Some(trial);
        found
    }

    fn undone(&mut self, _flat: &Flat, _room: &Room) {}
}
