//! A flat problem with the limits that it keeps, and its readers.

ghost use Rattle.std.specs.Prelude.{◌≡◌, ◌<◌, ◌≤◌, unwrap_or, length, All};
ghost use Rattle.hw_model.specs.Problem.{Problem, shape_of, horizon, value_at};
ghost use Rattle.hw_model.specs.Limits.{IsFlat, ShapeFits};
ghost use Rattle.hw_flat.specs.Carried.{worth};

use hw_model::{MOST_VALUE, Rule, Shape, ShipId, Slot};
use std::marker::Model;

/// A flat problem: a value or none per ship and slot, row by row, and a list of rules.
///
/// It has 1 to `MOST_SHIPS` ships and 1 to `MOST_SLOTS` slots in which ships sail. Where `stay` is
/// true, `slots` counts one more slot, the last one, which means that a ship stays. Values are in
/// tenths of a tonne, at most `MOST_VALUE`, and at most 1 in the slot that means staying.
#[derive(Drop)]
pub struct Flat {
    pub ships: u32,
    pub slots: u32,
    pub stay: bool,
    pub values: Vec<Option<u64>>,
    pub rules: Vec<Rule>,
}

impl Model for Flat {
    ghost use Rattle.hw_model.specs.Problem.{Problem};
    ghost use Rattle.hw_model.specs.Limits.{IsFlat};

    ghost Value = { Problem };

    ghost view = { λ f. record { ships = f.ships; slots = f.slots; stay = f.stay; values = f.values.items; rules = f.rules.items } };

    ghost invariant = { λ f. IsFlat (record { ships = f.ships; slots = f.slots; stay = f.stay; values = f.values.items; rules = f.rules.items }) };
}

impl Flat {
    /// The numbers of ships, slots and rules.
    pub fn shape(&self) -> Shape
        ensures value { result ≡ shape_of self.now }
        ensures fits { ShapeFits result }
        ensures limits { IsFlat self.now }
    {
        Shape {
            ships: self.ships,
            slots: self.slots,
            rules: self.rules.len() as u32,
        }
    }

    /// The number of slots in which ships sail and tugs are counted.
    pub fn horizon(&self) -> u32
        ensures value { result ≡ horizon self.now }
        ensures limits { IsFlat self.now }
    {
        if self.stay {
            self.slots - 1
        } else {
            self.slots
        }
    }

    /// Whether ships may stay, in the last slot.
    pub fn may_stay(&self) -> bool
        ensures { result ≡ self.now.stay }
    {
        self.stay
    }

    /// The value of a ship in a slot, in tenths of a tonne.
    pub fn value(&self, ship: ShipId, slot: Slot) -> Option<u64>
        requires ship_in { ship < self.now.ships }
        requires slot_in { slot < self.now.slots }
        ensures value { result ≡ value_at self.now ship slot }
        ensures small { unwrap_or result 0 ≤ MOST_VALUE }
    {
        self.values[(ship * self.slots + slot) as usize]
    }

    /// What a ship carries in a slot, in tenths of a tonne: 0 where it has no value there.
    pub fn worth(&self, ship: ShipId, slot: Slot) -> u64
        requires ship_in { ship < self.now.ships }
        requires slot_in { slot < self.now.slots }
        ensures value { result ≡ worth self.now ship slot }
        ensures small { result ≤ MOST_VALUE }
    {
        self.value(ship, slot).unwrap_or(0)
    }

    /// The rules, in order.
    pub fn rules(&self) -> &[Rule]
        ensures value { result.now ≡ self.now.rules }
        ensures limits { IsFlat self.now }
    {
        &self.rules
    }
}
