//! What is closed for a ship in a slot.

ghost use Rattle.std.specs.Prelude.{◌≡◌, ◌<◌, ◌≤◌, pos, not, length, All};
ghost use Rattle.hw_port.specs.Kept.{PassKept, PortKept, ShipKept};
ghost use Rattle.hw_port_model.specs.Drafts.{is_passable};
ghost use Rattle.hw_port_windows.specs.Closings.{closed_for, closed_in, some_pass_closed};

use hw_draft::natural;
use hw_model::{MOST_SLOTS, ShipId, Slot};
use hw_port::{Pass, PortParts, Ship};
use hw_port_model::is_open;

/// Whether the waypoint of a pass is closed where a ship that sails in the slot makes it.
fn is_pass_closed(parts: &PortParts, slot: Slot, pass: &Pass) -> bool
    requires slot { slot ≤ MOST_SLOTS }
    requires pass { PassKept (pos (length parts.now.waypoints)) pass.now }
    requires few { length parts.now.waypoints ≤ 16 }
    ensures { result ≡ not (is_passable parts.now slot pass.now) }
{
    let row = slot + natural(pass.offset);
    match parts.waypoints.get(natural(pass.waypoint) as usize) {
        Some(waypoint) => !is_open(&waypoint.closed.items, row),
        None => false,
    }
}

/// Whether one of these passes is closed.
fn is_some_pass_closed(parts: &PortParts, slot: Slot, route: &[Pass]) -> bool
    requires slot { slot ≤ MOST_SLOTS }
    requires route { All (PassKept (pos (length parts.now.waypoints))) route.now }
    requires few { length parts.now.waypoints ≤ 16 }
    ensures { result ≡ some_pass_closed parts.now slot route.now }
{
    match route {
        [] => false,
        [pass, more @ ..] => {
            is_pass_closed(parts, slot, pass) || is_some_pass_closed(parts, slot, more)
        }
    }
}

/// Whether the port or a ship is closed in the slot, or a waypoint of its route when it is passed.
fn is_closed_for(parts: &PortParts, ship: &Ship, slot: Slot) -> bool
    requires kept { PortKept parts.now }
    requires ship { ShipKept parts.now ship.now }
    requires slot { slot ≤ MOST_SLOTS }
    ensures { result ≡ closed_for parts.now ship.now slot }
{
    !is_open(&parts.closed.items, slot)
        || (!is_open(&ship.closed.items, slot) || is_some_pass_closed(parts, slot, &ship.route))
}

/// The same of the ship of a number.
pub fn is_closed_in(parts: &PortParts, number: ShipId, slot: Slot) -> bool
    requires kept { PortKept parts.now }
    requires numbered { number < length parts.now.ships }
    requires slot { slot ≤ MOST_SLOTS }
    ensures { result ≡ closed_in parts.now number slot }
{
    is_closed_for(parts, &parts.ships[number as usize], slot)
}
