//! The adviser that keeps a search in a part of its problem.

ghost use Rattle.std.specs.Prelude.{◌≡◌, ◌<◌, ◌↔◌, IfOk, IfSome, IsTrue, OnOk};
ghost use Rattle.hw_search_advice.specs.Advisers.{IsAdviceIn, IsOpenIn, IsScene};
ghost use Rattle.hw_model.specs.Rooms.{RoomFits};
ghost use Rattle.hw_search_resumed.specs.Confining.{FindsPartBound, FindsShipBound, PrefersPart, RangesMeet};

use hw_flat::{Flat, Room, Timetable};
use hw_model::{Lit, NoMemory, ShipId};
use hw_search_advice::{Advice, AdviceStop, Adviser, Bounding, Scene};
use std::alloc::Global;

/// Prefers the bounds of a part's room, as long as one is open, and stops the search where it is quiet
/// and nothing of the part is left. All else is left to another adviser.
///
/// As the bounds of the part are decided before all others, a quiet room without the part comes from
/// them alone.
#[derive(Drop)]
pub struct Confined<A: Adviser + Drop> {
    part: Room,
    other: A,
}

impl<A: Adviser + Drop> Confined<A> {
    /// Keeps the search in this room, and else says what the other adviser says. It takes no memory.
    pub fn new(part: Room, other: A) -> Confined<A>
        ensures { result.part ≡ part }
    {
        Confined { part, other }
    }
}

impl<A: Adviser + Drop> Adviser for Confined<A> {
    fn advise(&mut self, alloc: Global, scene: &Scene<'_>) -> Result<Option<Advice>, AdviceStop>
        requires { IsScene scene.now }
        ensures advice { IfOk result (λ answer. IfSome answer (IsAdviceIn scene.now)) }
        ensures confined { OnOk result (RangesMeet self.old.part scene.now.room.now) }
    {
        if !ranges_meet(&self.part, scene.room) {
            return Err(AdviceStop::Done);
        }
        self.other.advise(alloc, scene)
    }

    fn bound(&mut self, alloc: Global, scene: &Scene<'_>) -> Result<Option<Bounding>, NoMemory> {
        self.other.bound(alloc, scene)
    }

    fn propose(&mut self, alloc: Global, scene: &Scene<'_>) -> Result<Option<Timetable>, NoMemory> {
        self.other.propose(alloc, scene)
    }

    fn prefer(&mut self, scene: &Scene<'_>) -> Option<Lit>
        requires room { RoomFits scene.now.flat.now scene.now.room.now }
        ensures open { IfSome result (IsOpenIn scene.now.flat.now scene.now.room.now) }
        ensures part { PrefersPart scene.now.flat.now self.old.part scene.now.room.now result }
    {
        match open_bound(scene.flat, &self.part, scene.room) {
            Some(lit) => Some(lit),
            None => self.other.prefer(scene),
        }
    }
}

/// Whether the ranges of each ship have a slot in common.
fn ranges_meet(part: &Room, room: &Room) -> bool
    ensures { IsTrue result ↔ RangesMeet part.now room.now }
{
    let ships = part.ships().min(room.ships());
    for ship in 0..ships {
        if room.high(ship) < part.low(ship) || part.high(ship) < room.low(ship) {
            return false;
        }
    }
    true
}

/// The first bound of the part, by ship, that the room leaves open.
fn open_bound(flat: &Flat, part: &Room, room: &Room) -> Option<Lit>
    requires room { RoomFits flat.now room.now }
    ensures { FindsPartBound flat.now part.now room.now result }
{
    let ships = part.ships().min(room.ships());
    for ship in 0..ships {
        if let Some(lit) = open_end(flat, part, room, ship) {
            return Some(lit);
        }
    }
    None
}

/// The bound of the part on the ship that the room leaves open, the lower one first.
fn open_end(flat: &Flat, part: &Room, room: &Room, ship: ShipId) -> Option<Lit>
    requires room { RoomFits flat.now room.now }
    requires in_room { ship < room.now.ships }
    requires in_part { ship < part.now.ships }
    ensures { FindsShipBound flat.now part.now room.now ship result }
{
    let _shape = flat.shape();
    let _ships = part.ships();
    let low = part.low(ship);
    if room.low(ship) < low && low <= room.high(ship) {
        return Some(Lit::AtOrAfter { ship, slot: low });
    }
    let end = part.high(ship) + 1;
    if room.low(ship) < end && end <= room.high(ship) {
        return Some(Lit::Before { ship, slot: end });
    }
    None
}
