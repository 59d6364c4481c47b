//! A timetable with the moves that it leaves.

ghost use Rattle.std.specs.Prelude.{◌≡◌, ◌<◌, IfOk, false, length, slice_index_or};
ghost use Rattle.hw_model.specs.Problem.{IsTimetable};
ghost use Rattle.hw_chart_flat.specs.Moves.{IsPlan, flag_place};

use crate::moves::flags;
use hw_flat::{Flat, Timetable};
use hw_model::{MOST_SHIPS, MOST_SLOTS, NoMemory, ShipId, Slot};
use std::alloc::Global;
use std::marker::Model;

/// A timetable, and a flag for each ship and slot: whether the ship alone could sail in that slot.
///
/// Flags stand ship by ship, 512 for each of 40 ships, so that no flag's place depends on the problem.
#[derive(Drop)]
pub struct Plan {
    table: Timetable,
    flags: Vec<bool>,
}

impl Model for Plan {
    ghost use Rattle.hw_chart_flat.specs.Moves.{PlanModel};

    ghost Value = { PlanModel };

    ghost view = { λ p. record { table = p.table; flags = p.flags.items } };
}

impl Plan {
    /// Finds the moves of a timetable, which need not be permitted.
    ///
    /// Each slot in which the ship has a value is tried, at most 20,480 in all, and each try is a test of all restrictions.
    /// What is taken before memory runs out is given back.
    pub fn new(alloc: Global, flat: &Flat, table: Timetable) -> Result<Plan, NoMemory>
        requires listed { IsTimetable flat.now table }
        ensures table { IfOk result (λ plan. plan.table ≡ table) }
        ensures moves { IfOk result (λ plan. IsPlan flat.now plan) }
    {
        let flags = flags(alloc, flat, &table)?;
        Ok(Plan { table, flags })
    }

    /// The timetable.
    pub fn table(&self) -> &Timetable
        ensures value { result.now ≡ self.now.table }
    {
        &self.table
    }

    /// Whether the ship alone could sail in a slot: its flag.
    pub fn is_move(&self, ship: ShipId, slot: Slot) -> bool
        requires each { length self.now.flags ≡ 20_480 }
        requires ship { ship < MOST_SHIPS }
        requires slot { slot < MOST_SLOTS }
        ensures value { result ≡ slice_index_or self.now.flags (flag_place ship slot) false }
    {
        self.flags[(ship * MOST_SLOTS + slot) as usize]
    }
}
