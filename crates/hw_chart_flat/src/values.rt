//! What a ship may carry, as the levels of its window.

ghost use Rattle.std.specs.Prelude.{◌≡◌, ◌<◌, ◌≤◌, unwrap_or, if◌then◌else◌};
ghost use Rattle.hw_model.specs.Problem.{horizon, value_at};
ghost use Rattle.hw_flat.specs.Carried.{worth};
ghost use Rattle.hw_chart_flat.specs.Values.{most_carried, most_level, sails_nowhere, tall_of, unit_of, value_level};

use hw_chart::greatest;
use hw_chart_svg::Levels;
use hw_flat::Flat;
use hw_model::{MOST_VALUE, ShipId, Slot};

/// What a ship carries in each slot.
#[derive(Drop)]
struct Carried<'f> {
    flat: &'f Flat,
    ship: ShipId,
    ghost ship_in: { ship < flat.now.ships },
}

impl Levels for Carried<'_> {
    ghost level = { λ c slot. worth c.flat.now c.ship slot };

    ghost end = { λ c. horizon c.flat.now };

    fn level(&self, slot: u32) -> u64 {
        let _horizon = self.flat.horizon();
        self.flat.worth(self.ship, slot)
    }
}

/// The value of a ship in a slot in which ships sail.
pub(crate) fn value(flat: &Flat, ship: ShipId, slot: Slot) -> Option<u64>
    requires ship_in { ship < flat.now.ships }
    requires slot_in { slot < horizon flat.now }
    ensures value { result ≡ value_at flat.now ship slot }
    ensures small { unwrap_or result 0 ≤ MOST_VALUE }
{
    let _horizon = flat.horizon();
    flat.value(ship, slot)
}

/// The most that a ship may carry.
#[tactic(auto, unfolding(crate::specs::Values::most_carried))]
pub(crate) fn most(flat: &Flat, ship: ShipId) -> u64
    requires { ship < flat.now.ships }
    ensures { result ≡ most_carried flat.now ship }
{
    greatest(&Carried { flat, ship }, flat.horizon())
}

/// Whether a ship has no value in any slot in which ships sail.
#[tactic(auto, unfolding(crate::specs::Values::sails_nowhere))]
pub(crate) fn sails_nowhere(flat: &Flat, ship: ShipId) -> bool
    requires { ship < flat.now.ships }
    ensures { result ≡ sails_nowhere flat.now ship }
{
    (0..flat.horizon()).all(|slot| value(flat, ship, slot).is_none())
}

/// How much one unit of a window stands for.
fn unit(top: u64) -> u64
    ensures value { result ≡ unit_of top }
    ensures some { 0 < result }
{
    top / 1000 + 1
}

/// How tall a window is for a ship that carries this much at most.
pub(crate) fn tall(top: u64) -> u64
    ensures { result ≡ tall_of top }
{
    let units = top / unit(top);
    units + units / 8 + 1
}

/// How far a value stays below the most.
pub(crate) fn value_level(top: u64, value: Option<u64>) -> u64
    ensures { result ≡ value_level top value }
{
    match value {
        None => tall(top),
        Some(value) => top.saturating_sub(value) / unit(top),
    }
}

/// The top of a window where a value is the most, and otherwise its foot.
fn most_level(top: u64, value: Option<u64>) -> u64
    ensures { result ≡ most_level top value }
{
    match value {
        None => tall(top),
        Some(value) => { if value == top { 0 } else { tall(top) } }
    }
}

/// What a ship may carry in each slot, in a window as tall as the most; or only the slots in which it may carry the most.
#[derive(Drop)]
pub(crate) struct Values<'f> {
    pub flat: &'f Flat,
    pub ship: ShipId,
    pub top: u64,
    pub only_most: bool,
    ghost ship_in: { ship < flat.now.ships },
}

impl Levels for Values<'_> {
    ghost level = { λ v slot. if v.only_most then most_level v.top (value_at v.flat.now v.ship slot) else value_level v.top (value_at v.flat.now v.ship slot) };

    ghost end = { λ v. horizon v.flat.now };

    fn level(&self, slot: u32) -> u64 {
        let value = value(self.flat, self.ship, slot);
        if self.only_most {
            most_level(self.top, value)
        } else {
            value_level(self.top, value)
        }
    }
}
