//! Slots that aren't closed, and those in which a ship may sail.

ghost use Rattle.std.specs.Prelude.{◌≡◌, ◌&&◌, int_le};
ghost use Rattle.std.specs.List.{list_any};
ghost use Rattle.hw_port_model.specs.Closed.{is_open as open_in};
ghost use Rattle.hw_port_model.specs.Drafts.{in_window as window_of, may_sail as sails_in};

use hw_port::{Closing, PortParts, Ship};

/// Whether one of these closes the slot `at`.
fn is_closed(closings: &[Closing], at: i64) -> bool
    ensures { result ≡ list_any (λ c. int_le c.from at && int_le at c.to) closings.now }
{
    closings.iter().any(|c| c.from <= at && at <= c.to)
}

/// Whether none of these closes the slot. It takes no memory.
pub fn is_open(closings: &[Closing], slot: u32) -> bool
    ensures { result ≡ open_in closings.now slot }
{
    !is_closed(closings, i64::from(slot))
}

/// Whether the slot is one from the ship's earliest to its latest. It takes no memory.
pub fn in_window(ship: &Ship, slot: u32) -> bool
    ensures { result ≡ window_of ship.now slot }
{
    let at = i64::from(slot);
    ship.earliest <= at && at <= ship.latest
}

/// Whether the slot is in the ship's window, and closed neither for the port nor for the ship. It
/// takes no memory.
pub fn may_sail(parts: &PortParts, ship: &Ship, slot: u32) -> bool
    ensures { result ≡ sails_in parts.now ship.now slot }
{
    in_window(ship, slot)
        && (is_open(&parts.closed.items, slot) && is_open(&ship.closed.items, slot))
}
