//! A timetable: one slot for each ship.

ghost use Rattle.std.specs.Prelude.{◌≡◌, ◌≤◌, ◌<◌, ◌↔◌, length, IfOk, IsTrue, slice_index};
ghost use Rattle.hw_model.specs.Problem.{IsTimetable};

use crate::flat::Flat;
use hw_model::{MOST_SHIPS, NoMemory, ShipId, Slot};
use std::alloc::Global;
use std::marker::Model;

/// A slot for each ship, seen as the list of the slots.
#[derive(Debug, Drop)]
pub struct Timetable {
    slots: Vec<Slot>,
}

impl Model for Timetable {
    ghost use Rattle.std.specs.Prelude.{List, ℕ, ◌≤◌, length};
    ghost use Rattle.hw_model.specs.declared.limits.TheConstants.{MOST_SHIPS};

    ghost Value = { List ℕ };

    ghost view = { λ t. t.slots.items };

    ghost invariant = { λ t. length t.slots.items ≤ MOST_SHIPS };
}

impl Timetable {
    /// The timetable of these slots, of at most `MOST_SHIPS` ships.
    pub fn from_slots(alloc: Global, slots: &[Slot]) -> Result<Timetable, NoMemory>
        requires few { length slots.now ≤ MOST_SHIPS }
        ensures value { IfOk result (λ t. t ≡ slots.now) }
    {
        let slots = Vec::from_slice(alloc, slots)?;
        Ok(Timetable { slots })
    }

    /// The same slots in memory of their own.
    pub fn copy(&self, alloc: Global) -> Result<Timetable, NoMemory>
        ensures value { IfOk result (λ t. t ≡ self.now) }
    {
        let _few = self.len();
        Timetable::from_slots(alloc, &self.slots)
    }

    /// The number of its slots, one for each ship.
    pub fn len(&self) -> u32
        ensures value { result ≡ length self.now }
        ensures few { result ≤ MOST_SHIPS }
    {
        self.slots.len() as u32
    }

    /// The slot of a ship.
    pub fn slot(&self, ship: ShipId) -> Slot
        requires ship_in { ship < length self.now }
        ensures value { result ≡ slice_index self.now ship }
    {
        self.slots[ship as usize]
    }

    /// The slots, ship 0 first.
    pub fn as_slice(&self) -> &[Slot]
        ensures value { result.now ≡ self.now }
    {
        &self.slots
    }

    /// Takes the slots of a timetable of the same length.
    pub fn copy_from(&mut self, other: &Timetable)
        requires same_length { length self.old ≡ length other.now }
        ensures value { self.new ≡ other.now }
    {
        self.slots.copy_from_slice(&other.slots);
    }
}

/// Whether it is a timetable of the problem: one slot for each ship.
pub fn is_timetable(flat: &Flat, table: &Timetable) -> bool
    ensures { IsTrue result ↔ IsTimetable flat.now table.now }
{
    let shape = flat.shape();
    let slots = table.as_slice();
    slots.len() == shape.ships as usize && slots.iter().all(|slot| *slot < shape.slots)
}
