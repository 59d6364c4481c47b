//! Which pass limits a ship's draft.

ghost use Rattle.std.specs.Prelude.{◌≡◌, ◌<◌, ◌≤◌, pos, length, All, IfSome};
ghost use Rattle.hw_port.specs.Kept.{PassKept, PortKept, ShipKept, WaypointKept};
ghost use Rattle.hw_port_model.specs.Numbers.{horizon_of};
ghost use Rattle.hw_draft.specs.Passages.{PassageKept, first_leaving, limiting, limiting_passage, passages};

use crate::drafts::least_draft;
use crate::passage::{Passage, passage_of};
use hw_model::{MOST_SLOTS, ShipId, Slot};
use hw_port::{Pass, Port, PortParts, Ship};
use hw_tide::Tide;

/// The first pass of a route that leaves just this draft.
fn first_leaving(
    parts: &PortParts,
    tide: &Tide,
    slot: Slot,
    draft: i64,
    route: &[Pass],
) -> Option<Passage>
    requires waypoints { All WaypointKept parts.now.waypoints }
    requires few { length parts.now.waypoints ≤ 16 }
    requires columns { tide.now.columns ≡ length parts.now.waypoints }
    requires slot { slot ≤ MOST_SLOTS }
    requires route { All (PassKept (pos (length parts.now.waypoints))) route.now }
    ensures value { result ≡ first_leaving draft (passages parts.now tide.now slot route.now) }
    ensures kept { IfSome result PassageKept }
{
    match route {
        [] => None,
        [pass, more @ ..] => {
            let made = passage_of(parts, tide, slot, pass);
            if made.leaves_just(draft) {
                Some(made)
            } else {
                first_leaving(parts, tide, slot, draft, more)
            }
        }
    }
}

/// The pass that limits the draft of a ship of a port in a sailing slot.
fn limiting_pass(parts: &PortParts, tide: &Tide, ship: &Ship, slot: Slot) -> Option<Passage>
    requires kept { PortKept parts.now }
    requires ship { ShipKept parts.now ship.now }
    requires slot { slot ≤ MOST_SLOTS }
    requires columns { tide.now.columns ≡ length parts.now.waypoints }
    ensures value { result ≡ limiting_passage parts.now tide.now ship.now slot }
    ensures kept { IfSome result PassageKept }
{
    let draft = least_draft(parts, tide, &ship.route, slot)?;
    first_leaving(parts, tide, slot, draft, &ship.route)
}

/// The pass that limits a ship's draft in a sailing slot: the first of its route that leaves no more than the allowed draft.
/// None where that is none. It takes no memory.
pub fn limiting(port: &Port, tide: &Tide, ship: ShipId, slot: Slot) -> Option<Passage>
    requires ship_in { ship < length port.now.ships }
    requires slot_in { slot < horizon_of port.now }
    requires columns { tide.now.columns ≡ length port.now.waypoints }
    ensures value { result ≡ limiting port.now tide.now ship slot }
    ensures kept { IfSome result PassageKept }
{
    let parts = port.parts();
    limiting_pass(parts, tide, &parts.ships[ship as usize], slot)
}
