//! The whole table.

ghost use Rattle.std.specs.Prelude.{◌≡◌, ◌≤◌, ◌<◌, ◌+◌, length, All, option_map};
ghost use Rattle.hw_desk.specs.Writers.{Puts};
ghost use Rattle.hw_port.specs.Kept.{ShipKept};
ghost use Rattle.hw_port_model.specs.Numbers.{horizon_of};
ghost use Rattle.hw_port_csv.specs.Entries.{entries, has_slot};
ghost use Rattle.hw_port_csv.specs.Tables.{ship_entry_text, records_text, slot_entries_text, slots_text, whole_table_text};

use crate::record::{put_header, put_record};
use hw_desk::Writer;
use hw_draft::natural;
use hw_model::{MOST_SHIPS, MOST_SLOTS, ShipId, Slot};
use hw_port::{Port, Ship};
use hw_tide::Tide;
use std::marker::Model;

/// A port's plan: the timetable, a slot for each ship, with the port and its tide.
#[derive(Drop)]
pub struct Plan<'p> {
    pub port: &'p Port,
    pub tide: &'p Tide,
    pub table: &'p [Slot],
}

impl<'p> Model for Plan<'p> {
    ghost use Rattle.hw_port_csv.specs.Tables.{IsTimetableParts, TimetableParts};

    ghost Value = { TimetableParts };

    ghost view = { λ a. record { port = a.port.now; tide = a.tide.now; table = a.table.now } };

    ghost invariant = { λ a. IsTimetableParts (record { port = a.port.now; tide = a.tide.now; table = a.table.now }) };
}

/// Whether a timetable gives a ship this slot.
fn has_slot(table: &[Slot], slot: Slot, number: ShipId) -> bool
    ensures { result ≡ has_slot table.now slot number }
{
    match table.get(number as usize) {
        Some(given) => *given == slot,
        None => false,
    }
}

/// Puts the record of a ship, where it has this slot.
fn put_entry<W: Writer>(out: &mut W, plan: &Plan, slot: Slot, number: ShipId, ship: &Ship)
    requires numbered { number < length plan.now.port.ships }
    requires ship { ShipKept plan.now.port ship.now }
    ensures { Puts (ship_entry_text plan.now slot number ship.now) (W.state out.old) (W.state out.new) }
{
    if has_slot(plan.table, slot, number) {
        put_record(out, plan.port, plan.tide, number, ship, slot);
    } else {
        out.put(b"");
    }
}

/// Puts the records of the ships from a number on that have this slot.
fn put_entries<W: Writer>(out: &mut W, plan: &Plan, slot: Slot, first: ShipId, ships: &[Ship])
    requires few { first + length ships.now ≤ MOST_SHIPS }
    requires inside { first + length ships.now ≤ length plan.now.port.ships }
    requires ships { All (ShipKept plan.now.port) ships.now }
    ensures { Puts (slot_entries_text plan.now slot first ships.now) (W.state out.old) (W.state out.new) }
{
    if let [ship, more @ ..] = ships {
        put_entry(out, plan, slot, first, ship);
        put_entries(out, plan, slot, first + 1, more);
    }
}

/// Puts the records of all ships that have this slot.
fn put_slot<W: Writer>(out: &mut W, plan: &Plan, slot: Slot)
    ensures { Puts (slot_entries_text plan.now slot 0 plan.now.port.ships) (W.state out.old) (W.state out.new) }
{
    let parts = plan.port.parts();
    put_entries(out, plan, slot, 0, &parts.ships);
}

/// Puts the records of the ships whose slot is one of the `count` from `first` on, slot by slot.
fn put_slots<W: Writer>(out: &mut W, plan: &Plan, first: Slot, count: u32)
    requires few { first + count ≤ MOST_SLOTS + 1 }
    ensures { Puts (slots_text plan.now first count) (W.state out.old) (W.state out.new) }
{
    if count > 0 {
        put_slot(out, plan, first);
        put_slots(out, plan, first + 1, count - 1);
    }
}

/// The number of slots that a ship may have, with that of staying.
fn slots_of(plan: &Plan) -> u32
    ensures value { result ≡ horizon_of plan.now.port + 1 }
    ensures few { result ≤ MOST_SLOTS + 1 }
{
    natural(plan.port.parts().slots) + 1
}

/// Puts the records of a plan.
fn put_plan<W: Writer>(out: &mut W, plan: &Plan)
    ensures { Puts (records_text plan.now.port plan.now.tide (entries plan.now.port plan.now.table)) (W.state out.old) (W.state out.new) }
{
    put_slots(out, plan, 0, slots_of(plan));
}

/// Puts the table of a plan as CSV: the header, and a record for each ship in the order of slots, ships of one slot by number.
///
/// Where there is no timetable it is the header alone. The ships that stay come last. The timetable need not be permitted; a
/// field that isn't known is empty. It takes no memory. A record is below 2,000 bytes.
pub fn put_table<W: Writer>(out: &mut W, port: &Port, tide: &Tide, table: Option<&[Slot]>)
    requires { tide.now.columns ≡ length port.now.waypoints }
    ensures { Puts (whole_table_text port.now tide.now (option_map (λ table. table.now) table.entry)) (W.state out.old) (W.state out.new) }
{
    put_header(out, port);
    if let Some(table) = table {
        let plan = Plan { port, tide, table };
        put_plan(out, &plan);
    }
}
