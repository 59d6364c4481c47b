//! The adviser that reminds a search of a timetable.

ghost use Rattle.std.specs.Prelude.{◌≡◌, IsSome, None, Ok};
ghost use Rattle.hw_search_advice.specs.Advisers.{IsScene};

use hw_flat::Timetable;
use hw_model::{Lit, NoMemory};
use hw_search_advice::{Advice, AdviceStop, Adviser, Bounding, Scene};
use std::alloc::Global;

/// Proposes a timetable, if it has one, the first time that it is asked for one. All else is left to
/// another adviser.
#[derive(Drop)]
pub struct Reminder<A: Adviser + Drop> {
    /// None once it was proposed.
    table: Option<Timetable>,
    other: A,
}

impl<A: Adviser + Drop> Reminder<A> {
    /// Reminds of this timetable, and then says what the other adviser says. It takes no memory.
    pub fn new(table: Option<Timetable>, other: A) -> Reminder<A>
        ensures { result.table ≡ table }
    {
        Reminder { table, other }
    }
}

impl<A: Adviser + Drop> Adviser for Reminder<A> {
    fn advise(&mut self, alloc: Global, scene: &Scene<'_>) -> Result<Option<Advice>, AdviceStop> {
        self.other.advise(alloc, scene)
    }

    fn bound(&mut self, alloc: Global, scene: &Scene<'_>) -> Result<Option<Bounding>, NoMemory> {
        self.other.bound(alloc, scene)
    }

    fn propose(&mut self, alloc: Global, scene: &Scene<'_>) -> Result<Option<Timetable>, NoMemory>
        requires { IsScene scene.now }
        ensures reminded { IsSome self.old.table → result ≡ Ok self.old.table }
        ensures once { self.new.table ≡ None }
    {
        match self.table.take() {
            Some(table) => Ok(Some(table)),
            None => self.other.propose(alloc, scene),
        }
    }

    fn prefer(&mut self, scene: &Scene<'_>) -> Option<Lit> {
        self.other.prefer(scene)
    }
}
