//! How a ship fares in a slot.

ghost use Rattle.std.specs.Prelude.{◌≡◌};
ghost use Rattle.hw_port_windows.specs.Statuses.{statuses_alike, draft_of, full_draft};

use hw_port::Ship;

/// How a ship fares in a slot from its earliest to its latest. Drafts are in centimetres.
#[derive(Clone, Copy)]
pub enum Status {
    /// It may sail, with this draft.
    Sails { draft: i64 },
    /// The port or the ship is closed, or a waypoint of its route when it is passed.
    Closed,
    /// The water allows this draft, which is less than its light one.
    Shallow { allowed: i64 },
    /// It would make a pass whose height isn't in the tide table.
    TidesEnd,
}

impl Status {
    /// Whether another status is of the same kind.
    pub fn is_alike(self, other: Status) -> bool
        ensures { result ≡ statuses_alike self other }
    {
        match self {
            Status::Sails { .. } => matches!(other, Status::Sails { .. }),
            Status::Closed => matches!(other, Status::Closed),
            Status::Shallow { .. } => matches!(other, Status::Shallow { .. }),
            Status::TidesEnd => matches!(other, Status::TidesEnd),
        }
    }

    /// The draft with which the ship may sail, or that the water allows it; 0 where neither is told.
    pub fn draft(self) -> i64
        ensures { result ≡ draft_of self }
    {
        match self {
            Status::Sails { draft } => draft,
            Status::Shallow { allowed } => allowed,
            Status::Closed | Status::TidesEnd => 0,
        }
    }
}

/// The draft at which a ship sails that the water doesn't keep back, in centimetres.
pub fn full_draft(ship: &Ship) -> i64
    ensures { result ≡ full_draft ship.now }
{
    if ship.is_outgoing() {
        ship.deep
    } else {
        ship.light
    }
}
