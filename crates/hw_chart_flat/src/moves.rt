//! Finding the slots to which a ship alone could move.

ghost use Rattle.std.specs.Prelude.{◌≡◌, ◌↔◌, ◌<◌, ℕ, IfOk, true, false, length, slice_index_or};
ghost use Rattle.hw_model.specs.Problem.{IsTimetable, horizon};
ghost use Rattle.hw_model.specs.Timetables.{Permits};
ghost use Rattle.hw_chart_flat.specs.Moves.{TellAll, TellsPermittedMove, TellsAt, flag_place, with_move};

use hw_flat::{Flat, Timetable};
use hw_model::{MOST_SLOTS, NoMemory, ShipId, Slot};
use hw_rules::broken;
use std::alloc::Global;

/// The timetable with another slot for one ship.
fn with_move(
    alloc: Global,
    table: &Timetable,
    ship: ShipId,
    slot: Slot,
) -> Result<Timetable, NoMemory>
    requires { ship < length table.now }
    ensures { IfOk result (λ other. other ≡ with_move table.now ship slot) }
{
    let mut slots = Vec::from_slice(alloc, table.as_slice())?;
    let _few = table.len();
    slots[ship as usize] = slot;
    Timetable::from_slots(alloc, &slots)
}

/// Whether the ship alone could sail in a slot. Without a value there it could not, and no timetable is made.
fn is_move(
    alloc: Global,
    flat: &Flat,
    table: &Timetable,
    ship: ShipId,
    slot: Slot,
) -> Result<bool, NoMemory>
    requires listed { IsTimetable flat.now table.now }
    requires ship_in { ship < flat.now.ships }
    requires slot_in { slot < horizon flat.now }
    ensures { IfOk result (TellsPermittedMove flat.now table.now ship slot) }
{
    let _horizon = flat.horizon();
    if flat.value(ship, slot).is_none() {
        return Ok(false);
    }
    let other = with_move(alloc, table, ship, slot)?;
    Ok(broken(flat, &other).is_none())
}

/// The flag at a place, which is not set after the last ship or the last slot in which ships sail.
fn flag_at(alloc: Global, flat: &Flat, table: &Timetable, place: u32) -> Result<bool, NoMemory>
    requires listed { IsTimetable flat.now table.now }
    ensures { IfOk result (TellsAt flat.now table.now place) }
{
    let ship = place / MOST_SLOTS;
    let slot = place % MOST_SLOTS;
    if ship < flat.shape().ships && slot < flat.horizon() {
        is_move(alloc, flat, table, ship, slot)
    } else {
        Ok(false)
    }
}

/// All flags of a timetable.
pub(crate) fn flags(alloc: Global, flat: &Flat, table: &Timetable) -> Result<Vec<bool>, NoMemory>
    requires listed { IsTimetable flat.now table.now }
    ensures each { IfOk result (λ flags. length flags.items ≡ 20_480) }
    ensures flagged { IfOk result (λ flags. TellAll flat.now table.now flags.items) }
{
    let _shape = flat.shape();
    let mut flags = Vec::new(alloc);
    for place in 0..20_480 {
        flags.push(flag_at(alloc, flat, table, place)?)?;
    }
    Ok(flags)
}
