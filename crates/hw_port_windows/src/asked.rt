//! A ship of which it is asked when it may sail.

ghost use Rattle.std.specs.Prelude.{◌≡◌, ◌<◌, ◌≤◌, ◌+◌, length};
ghost use Rattle.std.specs.Ordering.{int_eq};
ghost use Rattle.hw_port.specs.Kept.{PortKept, ShipKept};
ghost use Rattle.hw_port_model.specs.Numbers.{horizon_of, whole};
ghost use Rattle.hw_draft.specs.Passages.{limiting};
ghost use Rattle.hw_port_windows.specs.Statuses.{statuses_alike, full_draft, reason_in};
ghost use Rattle.hw_port_windows.specs.Windows.{drafts, span_of, statuses};

use crate::closings::is_closed_in;
use crate::run::Run;
use crate::status::{Status, full_draft};
use hw_draft::{Passage, natural};
use hw_model::{ShipId, Slot};
use hw_port::{Port, PortParts, Ship};
use hw_tide::Tide;
use std::marker::Model;

/// A ship of a port with its number, and the tide.
#[derive(Drop)]
pub struct Asked<'p> {
    pub port: &'p Port,
    pub tide: &'p Tide,
    pub number: ShipId,
    pub ship: &'p Ship,
}

impl<'p> Model for Asked<'p> {
    ghost use Rattle.hw_port_windows.specs.Windows.{AskedParts, IsAsked};

    ghost Value = { AskedParts };

    ghost view = { λ a. record { port = a.port.now; tide = a.tide.now; number = a.number; ship = a.ship.now } };

    ghost invariant = { λ a. IsAsked (record { port = a.port.now; tide = a.tide.now; number = a.number; ship = a.ship.now }) };
}

impl Asked<'_> {
    /// The parts of the port.
    pub fn parts(&self) -> &PortParts
        ensures parts { result.now ≡ self.now.port }
        ensures kept { PortKept result.now }
        ensures columns { self.now.tide.columns ≡ length result.now.waypoints }
    {
        self.port.parts()
    }

    /// The ship.
    pub fn ship(&self) -> &Ship
        ensures value { result.now ≡ self.now.ship }
        ensures kept { ShipKept self.now.port result.now }
    {
        self.ship
    }

    /// The tide.
    pub fn tide(&self) -> &Tide
        ensures { result.now ≡ self.now.tide }
    {
        self.tide
    }

    /// The slots for which the ship asks.
    pub fn span(&self) -> Run
        ensures value { result ≡ span_of self.now.ship }
        ensures ordered { result.first ≤ result.last }
        ensures inside { result.last < horizon_of self.now.port }
    {
        let _few = self.parts();
        let ship = self.ship();
        Run {
            first: natural(ship.earliest),
            last: natural(ship.latest),
        }
    }

    /// How the ship fares in a slot.
    pub fn status(&self, slot: Slot) -> Status
        requires { slot < horizon_of self.now.port }
        ensures { result ≡ statuses self.now slot }
    {
        let port = self.port;
        match hw_draft::sailing(port, self.tide, self.number, slot) {
            Some(draft) => Status::Sails { draft },
            None => self.reason(slot),
        }
    }

    /// Why the ship doesn't sail in a slot in which it doesn't.
    fn reason(&self, slot: Slot) -> Status
        requires { slot < horizon_of self.now.port }
        ensures { result ≡ reason_in self.now.port self.now.tide self.now.number slot }
    {
        let port = self.port;
        if is_closed_in(self.parts(), self.number, slot) {
            return Status::Closed;
        }
        match hw_draft::draft(port, self.tide, self.number, slot) {
            Some(allowed) => Status::Shallow { allowed },
            None => Status::TidesEnd,
        }
    }

    /// The draft with which the ship may sail in a slot, or that the water allows it; 0 where neither is told.
    pub fn draft(&self, slot: Slot) -> i64
        requires { slot < horizon_of self.now.port }
        ensures { result ≡ drafts self.now slot }
    {
        self.status(slot).draft()
    }

    /// The pass that limits the draft of the ship in a slot, where its draft is known.
    pub fn limit(&self, slot: Slot) -> Option<Passage>
        requires { slot < horizon_of self.now.port }
        ensures { result ≡ limiting self.now.port self.now.tide self.now.number slot }
    {
        hw_draft::limiting(self.port, self.tide, self.number, slot)
    }

    /// Whether the ship fares in the next slot as it does in this one.
    pub fn goes_on(&self, slot: Slot) -> bool
        requires { slot + 1 < horizon_of self.now.port }
        ensures { result ≡ statuses_alike (statuses self.now slot) (statuses self.now (slot + 1)) }
    {
        let _few = self.parts();
        self.status(slot).is_alike(self.status(slot + 1))
    }

    /// Whether this is the draft at which the ship sails that the water doesn't keep back.
    pub fn is_full(&self, draft: i64) -> bool
        ensures { result ≡ int_eq draft (full_draft self.now.ship) }
    {
        draft == full_draft(self.ship())
    }

    /// The minutes of a slot.
    pub fn slot_minutes(&self) -> u32
        ensures { result ≡ whole self.now.port.slot_minutes }
    {
        natural(self.parts().slot_minutes)
    }
}
