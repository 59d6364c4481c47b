//! What closes slots of a ship's window, in words.

ghost use Rattle.std.specs.Prelude.{◌≡◌, ◌≤◌, ◌≤ℤ◌, ◌++◌, pos, length, All, OnOk};
ghost use Rattle.hw_port.specs.Kept.{PassKept, PortKept, ShipKept, Within};
ghost use Rattle.hw_port_named.specs.Closed.{closes_some, closing_text, closing_told, closings_told, pass_told, passed, passes_told, place_told, ship_told, waypoint_told, window_told};

use hw_draft::natural;
use hw_model::{MOST_SLOTS, ShipId};
use hw_port::{Closing, Pass, PortParts, Ship, Waypoint};
use hw_text::put_number;
use std::alloc::AllocError;

/// The first and the last of some slots.
#[derive(Clone, Copy)]
pub(crate) struct Slots {
    pub low: i64,
    pub high: i64,
}

/// Whether an item closes some of the slots.
fn closes_some(slots: Slots, closing: &Closing) -> bool
    ensures { result ≡ closes_some slots.low slots.high closing.now }
{
    closing.from <= slots.high && slots.low <= closing.to
}

/// Appends what is closed, and from which slot to which.
fn put_closing(out: &mut Vec<u8>, name: &[u8], closing: &Closing) -> Result<(), AllocError>
    ensures { OnOk result (out.new.items ≡ out.old.items ++ closing_text name.now closing.now) }
{
    out.extend_from_slice(b" / ")?;
    out.extend_from_slice(name)?;
    out.extend_from_slice(b" closed ")?;
    put_number(out, closing.from.unsigned_abs())?;
    out.push(b' ')?;
    put_number(out, closing.to.unsigned_abs())
}

/// Appends it where it closes some of the slots.
fn put_told(
    out: &mut Vec<u8>,
    name: &[u8],
    slots: Slots,
    closing: &Closing,
) -> Result<(), AllocError>
    ensures { OnOk result (out.new.items ≡ out.old.items ++ closing_told name.now slots.low slots.high closing.now) }
{
    if closes_some(slots, closing) {
        put_closing(out, name, closing)?;
    }
    Ok(())
}

/// Appends those of these items that close some of the slots.
fn put_closings(
    out: &mut Vec<u8>,
    name: &[u8],
    slots: Slots,
    closings: &[Closing],
) -> Result<(), AllocError>
    ensures { OnOk result (out.new.items ≡ out.old.items ++ closings_told name.now slots.low slots.high closings.now) }
{
    for closing in closings {
        put_told(out, name, slots, closing)?;
    }
    Ok(())
}

/// Appends when a waypoint is closed in some of the slots.
#[tactic(auto, unfolding(crate::specs::Closed::waypoint_told))]
fn put_waypoint(out: &mut Vec<u8>, waypoint: &Waypoint, slots: Slots) -> Result<(), AllocError>
    ensures { OnOk result (out.new.items ≡ out.old.items ++ waypoint_told slots.low slots.high waypoint.now) }
{
    put_closings(out, &waypoint.name.items, slots, &waypoint.closed.items)
}

/// The same of the waypoint at a place, if there is one.
#[tactic(auto, unfolding(crate::specs::Closed::place_told))]
fn put_place(
    out: &mut Vec<u8>,
    parts: &PortParts,
    slots: Slots,
    place: u32,
) -> Result<(), AllocError>
    ensures { OnOk result (out.new.items ≡ out.old.items ++ place_told parts.now slots.low slots.high place) }
{
    match parts.waypoints.get(place as usize) {
        Some(waypoint) => put_waypoint(out, waypoint, slots),
        None => Ok(()),
    }
}

/// The slot of a pass of a ship that sails in the slot.
#[tactic(auto, unfolding(crate::specs::Closed::passed))]
fn passed(slot: i64, pass: &Pass) -> i64
    requires low { pos 0 ≤ℤ slot }
    requires high { slot ≤ℤ pos MOST_SLOTS }
    requires pass { Within (pos 0) (pos 1_023) pass.now.offset }
    ensures { result ≡ passed slot pass.now }
{
    slot + pass.offset
}

/// Appends in which slots the waypoint of a pass is closed, where a ship that sails in its window
/// would make the pass.
fn put_pass(
    out: &mut Vec<u8>,
    parts: &PortParts,
    ship: &Ship,
    pass: &Pass,
) -> Result<(), AllocError>
    requires kept { PortKept parts.now }
    requires ship { ShipKept parts.now ship.now }
    requires pass { PassKept (pos (length parts.now.waypoints)) pass.now }
    ensures { OnOk result (out.new.items ≡ out.old.items ++ pass_told parts.now ship.now pass.now) }
{
    let slots = Slots {
        low: passed(ship.earliest, pass),
        high: passed(ship.latest, pass),
    };
    put_place(out, parts, slots, natural(pass.waypoint))
}

/// Appends that of each of these passes.
fn put_passes(
    out: &mut Vec<u8>,
    parts: &PortParts,
    ship: &Ship,
    route: &[Pass],
) -> Result<(), AllocError>
    requires kept { PortKept parts.now }
    requires ship { ShipKept parts.now ship.now }
    requires route { All (PassKept (pos (length parts.now.waypoints))) route.now }
    ensures { OnOk result (out.new.items ≡ out.old.items ++ passes_told parts.now ship.now route.now) }
{
    for pass in route {
        put_pass(out, parts, ship, pass)?;
    }
    Ok(())
}

/// Appends what closes slots of a ship's window.
fn put_ship_closed(out: &mut Vec<u8>, parts: &PortParts, ship: &Ship) -> Result<(), AllocError>
    requires kept { PortKept parts.now }
    requires ship { ShipKept parts.now ship.now }
    ensures { OnOk result (out.new.items ≡ out.old.items ++ ship_told parts.now ship.now) }
{
    let slots = Slots {
        low: ship.earliest,
        high: ship.latest,
    };
    put_closings(out, b"port", slots, &parts.closed.items)?;
    put_closings(out, b"ship", slots, &ship.closed.items)?;
    put_passes(out, parts, ship, &ship.route)
}

/// Appends what closes slots of the window of the ship at a place: the port, the ship, or a
/// waypoint of its route, each after a slash. It appends nothing where nothing does.
pub(crate) fn put_closed(
    out: &mut Vec<u8>,
    parts: &PortParts,
    ship: ShipId,
) -> Result<(), AllocError>
    requires kept { PortKept parts.now }
    ensures { OnOk result (out.new.items ≡ out.old.items ++ window_told parts.now ship) }
{
    match parts.ships.get(ship as usize) {
        Some(ship) => put_ship_closed(out, parts, ship),
        None => Ok(()),
    }
}
