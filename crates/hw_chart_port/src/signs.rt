//! The hatch of closed slots, which only some ports have.

ghost use Rattle.std.specs.Prelude.{◌≡◌};
ghost use Rattle.std.specs.List.{list_any};
ghost use Rattle.hw_desk.specs.Writers.{Puts};
ghost use Rattle.hw_chart_port.specs.Signs.{are_some as some_are, has_closings as closings_there, hatch_where};

use hw_chart::put_hatch;
use hw_desk::Writer;
use hw_port::{PortParts, Ship, Waypoint};

/// Whether slots are closed for one of these ships.
fn is_some_ship_closed(ships: &[Ship]) -> bool
    ensures { result ≡ list_any (λ s. some_are s.closed) ships.now }
{
    match ships {
        [] => false,
        [ship, more @ ..] => ship.closed.items.len() > 0 || is_some_ship_closed(more),
    }
}

/// Whether slots are closed for one of these waypoints.
fn is_some_waypoint_closed(waypoints: &[Waypoint]) -> bool
    ensures { result ≡ list_any (λ w. some_are w.closed) waypoints.now }
{
    match waypoints {
        [] => false,
        [waypoint, more @ ..] => {
            waypoint.closed.items.len() > 0 || is_some_waypoint_closed(more)
        }
    }
}

/// Whether slots are closed for the port, for a ship or for a waypoint.
fn has_closings(parts: &PortParts) -> bool
    ensures { result ≡ closings_there parts.now }
{
    parts.closed.items.len() > 0
        || (is_some_ship_closed(&parts.ships) || is_some_waypoint_closed(&parts.waypoints))
}

/// Puts what hatched shapes look like, where slots are closed.
pub fn put_hatch_where<W: Writer>(out: &mut W, parts: &PortParts)
    ensures { Puts (hatch_where parts.now) (W.state out.old) (W.state out.new) }
{
    if has_closings(parts) {
        put_hatch(out);
    } else {
        out.put(b"");
    }
}
