//! How a ship makes a pass: where and when, in how much water, and which draft that leaves.

ghost use Rattle.std.specs.Prelude.{◌≡◌, ◌<◌, ◌≤◌, ◌≤ℤ◌, ◌+ℤ◌, ◌-ℤ◌, pos, length, All, ◌+◌, if◌then◌else◌};
ghost use Rattle.std.specs.Int.{int_min};
ghost use Rattle.hw_port.specs.Kept.{Within, WaypointKept, PassKept};
ghost use Rattle.hw_port_model.specs.Numbers.{whole};
ghost use Rattle.hw_port_model.specs.Drafts.{depth_of};
ghost use Rattle.hw_tide.specs.Levels.{height_at};
ghost use Rattle.hw_draft.specs.Passages.{PassageKept, leaves_just, limit_name, passage_of, under_keel, water, waypoint_name};

use hw_model::{MOST_SLOTS, Slot};
use hw_port::{Pass, PortParts, Waypoint};
use hw_tide::Tide;

/// A pass of a ship that sails in a slot: the place of its waypoint and the slot in which the ship is there. In centimetres:
/// the charted depth, the height of the water that judges the pass, the clearance, and the draft that these leave.
#[derive(Clone, Copy)]
pub struct Passage {
    pub waypoint: u32,
    pub slot: Slot,
    pub depth: i64,
    pub height: i32,
    pub clearance: i64,
    pub left: i64,
}

impl Passage {
    /// The depth of the water, in centimetres.
    pub fn water(self) -> i64
        requires { PassageKept self }
        ensures { result ≡ water self }
    {
        self.depth + i64::from(self.height)
    }

    /// The water under the keel of a ship of this draft, in centimetres; below 0 where there is too little.
    pub fn under_keel(self, draft: i64) -> i64
        requires kept { PassageKept self }
        requires low { pos 0 ≤ℤ draft }
        requires high { draft ≤ℤ pos 4_294_967_295 }
        ensures { result ≡ under_keel self draft }
    {
        self.depth + i64::from(self.height) - draft
    }

    /// Whether the pass leaves just this draft.
    #[tactic(auto, unfolding(crate::specs::Passages::leaves_just))]
    pub fn leaves_just(self, draft: i64) -> bool
        ensures { result ≡ leaves_just draft self }
    {
        self.left == draft
    }
}

/// A number of a port that is never negative.
pub fn natural(number: i64) -> u32
    requires least { pos 0 ≤ℤ number }
    requires most { number ≤ℤ pos 100_000 }
    ensures { result ≡ whole number }
{
    number.unsigned_abs() as u32
}

/// The name of a waypoint, or none of its bytes where there is no such waypoint.
pub fn waypoint_name(parts: &PortParts, place: u32) -> &[u8]
    ensures { result.now ≡ waypoint_name parts.now place }
{
    match parts.waypoints.get(place as usize) {
        Some(waypoint) => &waypoint.name.items,
        None => b"",
    }
}

/// The name of a passage's waypoint, or none of its bytes where there is none.
pub fn limit_name(parts: &PortParts, limit: Option<Passage>) -> &[u8]
    ensures { result.now ≡ limit_name parts.now limit }
{
    match limit {
        Some(passage) => waypoint_name(parts, passage.waypoint),
        None => b"",
    }
}

/// The charted depth at the waypoint of a pass.
fn depth_at(waypoints: &[Waypoint], pass: &Pass) -> i64
    requires kept { All WaypointKept waypoints.now }
    requires few { length waypoints.now ≤ 16 }
    requires pass { PassKept (pos (length waypoints.now)) pass.now }
    ensures value { result ≡ depth_of waypoints.now pass.now }
    ensures low { pos 0 ≤ℤ result }
    ensures high { result ≤ℤ pos 10_000 }
{
    waypoints[natural(pass.waypoint) as usize].depth
}

/// The height of the water in a row at a waypoint, 0 outside the tide.
fn height_in(tide: &Tide, row: u32, place: u32) -> i32
    requires { place < tide.now.columns }
    ensures { result ≡ height_at tide.now row place }
{
    if row < tide.rows {
        tide.height(row, place)
    } else {
        0
    }
}

/// The height at the beginning of a slot, or the lesser of those at both ends of it; 0 outside the tide.
fn height(tide: &Tide, row: u32, place: u32, least: bool) -> i32
    requires row { row ≤ 2_000 }
    requires place { place < tide.now.columns }
    ensures { result ≡ (if least then int_min (height_at tide.now row place) (height_at tide.now (row + 1) place) else height_at tide.now row place) }
{
    let begins = height_in(tide, row, place);
    if least {
        begins.min(height_in(tide, row + 1, place))
    } else {
        begins
    }
}

/// Depth and height less the clearance.
fn left(depth: i64, height: i32, clearance: i64) -> i64
    requires low { pos 0 ≤ℤ depth }
    requires high { depth ≤ℤ pos 10_000 }
    requires clearance { Within (pos 0) (pos 1_000) clearance }
    ensures { result ≡ depth +ℤ height -ℤ clearance }
{
    depth + i64::from(height) - clearance
}

/// A pass of a ship that sails in the slot. Heights outside the tide are 0. It takes no memory.
pub fn passage_of(parts: &PortParts, tide: &Tide, slot: Slot, pass: &Pass) -> Passage
    requires waypoints { All WaypointKept parts.now.waypoints }
    requires few { length parts.now.waypoints ≤ 16 }
    requires columns { tide.now.columns ≡ length parts.now.waypoints }
    requires slot { slot ≤ MOST_SLOTS }
    requires pass { PassKept (pos (length parts.now.waypoints)) pass.now }
    ensures value { result ≡ passage_of parts.now tide.now slot pass.now }
    ensures kept { PassageKept result }
{
    let waypoint = natural(pass.waypoint);
    let passed = slot + natural(pass.offset);
    let depth = depth_at(&parts.waypoints, pass);
    let height = height(tide, passed, waypoint, parts.is_least());
    Passage {
        waypoint,
        slot: passed,
        depth,
        height,
        clearance: pass.clearance,
        left: left(depth, height, pass.clearance),
    }
}
