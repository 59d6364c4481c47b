//! Where the parts of a picture stand.

ghost use Rattle.std.specs.Prelude.{◌≡◌, ◌≤◌};
ghost use Rattle.hw_port.specs.Kept.{PortKept};
ghost use Rattle.hw_chart_port.specs.Heads.{places as places_of_port};

use hw_port::PortParts;

/// How far down the rows of ships begin, the lanes of sections and the panel of tugs, and where the panels end.
#[derive(Clone, Copy)]
pub struct Places {
    pub rows: u32,
    pub lanes: u32,
    pub tugs: u32,
    pub bottom: u32,
}

/// The places of the parts of a port.
pub fn places_of(parts: &PortParts) -> Places
    requires { PortKept parts.now }
    ensures value { result ≡ places_of_port parts.now }
    ensures rows { result.rows ≤ 1_298 }
    ensures lanes { result.lanes ≤ 2_988 }
    ensures bottom { result.bottom ≤ 3_268 }
{
    let waypoints = parts.waypoints.len() as u32;
    let ships = parts.ships.len() as u32;
    let sections = parts.sections.len() as u32;
    Places {
        rows: 72 * waypoints + 146,
        lanes: 72 * waypoints + 42 * ships + 156,
        tugs: 72 * waypoints + 42 * ships + 28 * sections + 156,
        bottom: 72 * waypoints + 42 * ships + 28 * sections + 212,
    }
}
