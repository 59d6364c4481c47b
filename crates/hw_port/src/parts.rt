//! The parts of a port, as an instance gives them.

ghost use Rattle.std.specs.Prelude.{◌≡◌, bytes_eq};
ghost use Rattle.hw_port.specs.Rules.{outgoing, least_heights};

use std::marker::Model;

/// A text, seen as the list of its bytes.
#[derive(Drop)]
pub struct Text {
    pub items: Vec<u8>,
}

impl Model for Text {
    ghost use Rattle.std.specs.Prelude.{ℕ, List};

    ghost Value = { List ℕ };

    ghost view = { λ s. s.items.items };
}

/// Slots that are closed: those from `from` up to `to`, both among them.
#[derive(Clone, Copy)]
pub struct Closing {
    pub from: i64,
    pub to: i64,
}

/// All that is closed for a port, a ship or a waypoint, seen as the list of it.
#[derive(Drop)]
pub struct Closings {
    pub items: Vec<Closing>,
}

impl Model for Closings {
    ghost use Rattle.std.specs.Prelude.{List};
    ghost use Rattle.hw_port.specs.declared.parts.Closing.{Closing};

    ghost Value = { List Closing };

    ghost view = { λ s. s.items.items };
}

/// A place on a route, with its charted depth in centimetres, and the slots in which no ship passes
/// it.
#[derive(Drop)]
pub struct Waypoint {
    pub name: Text,
    pub depth: i64,
    pub closed: Closings,
}

/// A stretch of the channel that is used in one direction at a time.
#[derive(Drop)]
pub struct Section {
    pub name: Text,
}

/// The slots between a first ship of one class and second ships of each class, seen as their list.
#[derive(Drop)]
pub struct Row {
    pub items: Vec<i64>,
}

impl Model for Row {
    ghost use Rattle.std.specs.Prelude.{ℤ, List};

    ghost Value = { List ℤ };

    ghost view = { λ s. s.items.items };
}

/// For how many slots tugs are held after a job, by the direction of the ship.
#[derive(Clone, Copy)]
pub struct Turnaround {
    pub outgoing: i64,
    pub incoming: i64,
}

/// A waypoint on a ship's route: its place, how many slots after sailing it is passed, and the
/// clearance below the keel in centimetres.
#[derive(Clone, Copy)]
pub struct Pass {
    pub waypoint: i64,
    pub offset: i64,
    pub clearance: i64,
}

/// A section that a ship uses, by its place, and the slots after sailing from which and up to
/// which it is occupied.
#[derive(Clone, Copy)]
pub struct Stretch {
    pub section: i64,
    pub enter: i64,
    pub leave: i64,
}

/// A ship: its first and last slot, its tenths of a tonne per centimetre, its light and its deepest
/// draft in centimetres, its tugs and the slots of their job, and the slots in which it doesn't sail.
///
/// Seen as a record of the same fields.
#[derive(Drop)]
pub struct Ship {
    pub name: Text,
    pub direction: Text,
    pub class: i64,
    pub earliest: i64,
    pub latest: i64,
    pub tpc: i64,
    pub light: i64,
    pub deep: i64,
    pub route: Vec<Pass>,
    pub channel: Vec<Stretch>,
    pub tugs: i64,
    pub job: i64,
    pub may_stay: bool,
    pub closed: Closings,
}

impl Model for Ship {
    ghost use Rattle.hw_port.specs.Parts.{ShipParts};

    ghost Value = { ShipParts };

    ghost view = { λ s. record { name = s.name; direction = s.direction; class = s.class; earliest = s.earliest; latest = s.latest; tpc = s.tpc; light = s.light; deep = s.deep; route = s.route.items; channel = s.channel.items; tugs = s.tugs; job = s.job; may_stay = s.may_stay; closed = s.closed } };
}

impl Ship {
    /// Whether the ship goes out. A ship of a port that doesn't comes in.
    pub fn is_outgoing(&self) -> bool
        ensures { result ≡ bytes_eq self.now.direction outgoing }
    {
        self.direction.items.as_slice() == b"outgoing".as_slice()
    }
}

/// An outgoing ship that clears a berth, the incoming ship that takes it, and how many slots later
/// at least.
#[derive(Clone, Copy)]
pub struct BerthPair {
    pub outgoing: i64,
    pub incoming: i64,
    pub clear: i64,
}

/// Two ships, by their places, of which the second sails at least `gap` slots after the first.
#[derive(Clone, Copy)]
pub struct AfterPair {
    pub first: i64,
    pub second: i64,
    pub gap: i64,
}

/// All parts of a port; `start` is the date and time at which slot 0 begins. Seen as a record of the same fields.
#[derive(Drop)]
pub struct PortParts {
    pub version: i64,
    pub start: Option<Text>,
    pub slots: i64,
    pub slot_minutes: i64,
    pub heights: Text,
    pub closed: Closings,
    pub waypoints: Vec<Waypoint>,
    pub sections: Vec<Section>,
    pub separation: Vec<Row>,
    pub turnaround: Turnaround,
    pub fleet: i64,
    pub ships: Vec<Ship>,
    pub berths: Vec<BerthPair>,
    pub after: Vec<AfterPair>,
}

impl Model for PortParts {
    ghost use Rattle.hw_port.specs.Whole.{Parts};

    ghost Value = { Parts };

    ghost view = { λ p. record { version = p.version; start = p.start; slots = p.slots; slot_minutes = p.slot_minutes; heights = p.heights; closed = p.closed; waypoints = p.waypoints.items; sections = p.sections.items; separation = p.separation.items; turnaround = p.turnaround; fleet = p.fleet; ships = p.ships.items; berths = p.berths.items; after = p.after.items } };
}

impl PortParts {
    /// Whether a pass is judged by the lesser of the heights at both ends of its slot.
    pub fn is_least(&self) -> bool
        ensures { result ≡ bytes_eq self.now.heights least_heights }
    {
        self.heights.items.as_slice() == b"least".as_slice()
    }
}
