//! What a propagator answers, and when it is ready to be asked.
//!
//! A propagator may keep figures of one room, and is asked (`step`) only when they are those of the
//! room in question. The search calls `undone` before each `step`: that brings the figures up to
//! date after any number of cuts and returns.

use hw_flat::{Flat, Room, Source};
use hw_lits::Found;
use hw_model::NoMemory;
use std::alloc::Global;

/// A source that is asked whether it is quiet in a room, and explains itself by a clause if it isn't.
pub trait Propagator {
    ghost use Rattle.std.specs.Prelude.{◌≡◌, ℕ, Option};
    ghost use Rattle.hw_model.specs.declared.source.Source.{Source as SourceOf};
    ghost use Rattle.hw_model.specs.Problem.{Problem};
    ghost use Rattle.hw_model.specs.Rooms.{RoomModel, RoomFits};
    ghost use Rattle.hw_model.specs.Refuting.{IsSourceOf};
    ghost use Rattle.hw_prop.specs.Finds.{SourceFinds};

    /// The source, which no call changes.
    ghost source: { Self → SourceOf };

    /// The source is one of this problem and of the propagator's kind.
    ghost serves: { Self → Problem → Type 0 };

    /// It serves the problem, and the figures that it keeps are those of this room of the problem.
    ghost ready: { Self → Problem → RoomModel → Type 0 };

    /// The source. It takes no memory.
    fn source(&self) -> Source
        ensures value { result ≡ source self.now };

    /// Quiet exactly where the source is quiet in the room, else a clause. The clause fits the problem
    /// and speaks only of what the source speaks of. The source refutes the room in which it is
    /// denied, under the best. In this room none of its literals is True and at most one is Free.
    ///
    /// An error says that memory ran out; the propagator is then as ready as before.
    fn step(
        &mut self,
        alloc: Global,
        flat: &Flat,
        best: Option<u64>,
        room: &Room,
    ) -> Result<Found, NoMemory>
        requires ready { ready self.old flat.now room.now }
        ensures same { source self.new ≡ source self.old }
        ensures ready { ready self.new flat.now room.now }
        ensures found { SourceFinds flat.now (source self.old) best room.now result };

    /// Makes it ready for another room of the problem. It takes no memory.
    fn undone(&mut self, flat: &Flat, room: &Room)
        requires serves { serves self.old flat.now }
        requires room { RoomFits flat.now room.now }
        ensures same { source self.new ≡ source self.old }
        ensures ready { ready self.new flat.now room.now };

    /// Whatever is ready for a room of a problem serves the problem.
    ghost ready_serves: { (p : Self) (f : Problem) (room : RoomModel) → ready p f room → serves p f };

    /// The problems that it serves have the source.
    ghost serves_source: { (p : Self) (f : Problem) → serves p f → IsSourceOf f (source p) };
}
