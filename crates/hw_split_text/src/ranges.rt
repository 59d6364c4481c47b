//! The ranges of the ships in a branch.

ghost use Rattle.std.specs.Prelude.{◌≡◌, ◌-◌, ◌<◌, ◌≤◌, length, replicate, IfOk};
ghost use Rattle.hw_model.specs.Limits.{ShapeFits};
ghost use Rattle.hw_split_text.specs.Splits.{is_inside};
ghost use Rattle.hw_split_text.specs.Ranges.{begun_at, ended_before};

use hw_model::{NoMemory, Shape, ShipId, Slot};
use std::alloc::Global;
use std::marker::Model;

/// The lowest and the highest slot of each ship. Contracts see the list of these pairs.
#[derive(Drop)]
pub struct Ranges {
    of: Vec<(Slot, Slot)>,
}

impl Model for Ranges {
    ghost use Rattle.hw_split_text.specs.Ranges.{ShipRanges};

    ghost Value = { ShipRanges };

    ghost view = { λ r. r.of.items };
}

impl Ranges {
    /// All slots of each ship.
    pub fn whole(alloc: Global, shape: Shape) -> Result<Ranges, NoMemory>
        requires fits { ShapeFits shape }
        ensures { IfOk result (λ ranges. ranges ≡ replicate shape.ships (0, shape.slots - 1)) }
    {
        let of = vec![in alloc; (0, shape.slots - 1); shape.ships as usize]?;
        Ok(Ranges { of })
    }

    /// The same ranges once more.
    pub fn copy(&self, alloc: Global) -> Result<Ranges, NoMemory>
        ensures { IfOk result (λ ranges. ranges ≡ self.now) }
    {
        let of = Vec::from_slice(alloc, &self.of)?;
        Ok(Ranges { of })
    }

    /// Whether both sides of the slot have slots of the ship's range.
    pub fn is_inside(&self, ship: ShipId, slot: Slot) -> bool
        requires ship_in { ship < length self.now }
        ensures { result ≡ is_inside self.now ship slot }
    {
        let range = self.of[ship as usize];
        range.0 < slot && slot <= range.1
    }

    /// Ends the range of a ship before a slot. No other range changes.
    pub fn end_before(&mut self, ship: ShipId, slot: Slot)
        requires ship_in { ship < length self.old }
        requires some { 1 ≤ slot }
        ensures { self.new ≡ ended_before ship slot self.old }
    {
        let range = self.of[ship as usize];
        self.of[ship as usize] = (range.0, slot - 1);
    }

    /// Begins the range of a ship at a slot. No other range changes.
    pub fn begin_at(&mut self, ship: ShipId, slot: Slot)
        requires ship_in { ship < length self.old }
        ensures { self.new ≡ begun_at ship slot self.old }
    {
        let range = self.of[ship as usize];
        self.of[ship as usize] = (slot, range.1);
    }
}
