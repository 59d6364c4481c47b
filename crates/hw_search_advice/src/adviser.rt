//! Whoever advises a search by prices.

use crate::stop::AdviceStop;
use hw_flat::{Flat, Room, Timetable};
use hw_lits::Clause;
use hw_model::{Lit, NoMemory};
use hw_price_laws::{Tariff, Toll};
use std::alloc::Global;

/// Where a search stands.
#[derive(Clone, Copy, PartialEq, Eq)]
pub struct Standing {
    /// How many lemmas it has found.
    pub lemmas: u32,
    /// How many restarts there were.
    pub restarts: u32,
    /// How many decisions stand.
    pub level: u32,
}

/// What an adviser looks at.
#[derive(Clone, Copy)]
pub struct Scene<'s> {
    pub flat: &'s Flat,
    /// The best cargo so far, in tenths of a tonne; none before a first timetable.
    pub best: Option<u64>,
    /// The room of the search, in which all sources and lemmas are quiet.
    pub room: &'s Room,
    /// The tolls that the search has declared, in order.
    pub tolls: &'s [Toll],
    /// The tariff in force, on these tolls.
    pub tariff: Option<&'s Tariff>,
    pub standing: Standing,
}

/// One more clause, by prices.
#[derive(Drop)]
pub struct Advice {
    /// Tolls to be declared, after those that are.
    pub tolls: Vec<Toll>,
    /// The tariff by which the clause holds, on all these tolls; none where it is the one in force.
    pub tariff: Option<Tariff>,
    /// No literal of it is True in the room, and at most one is Free.
    pub clause: Clause,
}

/// A bound of what any permitted timetable carries, by prices.
#[derive(Drop)]
pub struct Bounding {
    /// Tolls to be declared, after those that are.
    pub tolls: Vec<Toll>,
    /// The tariff by which the bound holds, on all these tolls; none where it is the one in force.
    pub tariff: Option<Tariff>,
    /// In tenths of a tonne.
    pub bound: u64,
}

/// What may know a clause more, where all sources and lemmas are quiet.
///
/// The search asks it again whenever all is quiet, until it has nothing more to say. Its answers are
/// right whatever it was asked before. It looks at no clock.
pub trait Adviser {
    ghost use Rattle.std.specs.Prelude.{IfOk, IfSome};
    ghost use Rattle.hw_model.specs.Rooms.{RoomFits};
    ghost use Rattle.hw_search_advice.specs.Advisers.{IsAdviceIn, IsBoundIn, IsOpenIn, IsScene};

    /// A clause that cuts the room, or that has no literal left there; none if there is nothing to say.
    /// An error ends the search, and says why.
    fn advise(&mut self, alloc: Global, scene: &Scene<'_>) -> Result<Option<Advice>, AdviceStop>
        requires { IsScene scene.now }
        ensures advice { IfOk result (λ answer. IfSome answer (IsAdviceIn scene.now)) };

    /// A bound of what any permitted timetable carries; none if it knows none. The room plays no part.
    /// An error says that memory ran out.
    fn bound(&mut self, alloc: Global, scene: &Scene<'_>) -> Result<Option<Bounding>, NoMemory>
        requires { IsScene scene.now }
        ensures bound { IfOk result (λ answer. IfSome answer (IsBoundIn scene.now)) };

    /// A timetable that may be better than the best; none if it knows none. Whoever asks tests it: it may
    /// be anything. An error says that memory ran out.
    fn propose(&mut self, alloc: Global, scene: &Scene<'_>) -> Result<Option<Timetable>, NoMemory>
        requires { IsScene scene.now };

    /// A literal that the room leaves open, by which to decide; none if it prefers none.
    fn prefer(&mut self, scene: &Scene<'_>) -> Option<Lit>
        requires room { RoomFits scene.now.flat.now scene.now.room.now }
        ensures open { IfSome result (IsOpenIn scene.now.flat.now scene.now.room.now) };
}
