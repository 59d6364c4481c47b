//! The events of a port.

use hw_model::{ShipId, Slot};
use std::marker::Model;

/// Something that happens while a plan is being sailed.
#[derive(Clone, Copy)]
pub enum PortEvent {
    /// The ship sailed in this slot.
    Sailed { ship: ShipId, slot: Slot },
    /// The ship is delayed by this many slots.
    Delayed { ship: ShipId, count: u32 },
    /// This many tugs of the fleet are withdrawn.
    Withdrawn { count: u32 },
    /// This many of the withdrawn tugs are back.
    Back { count: u32 },
}

/// Events in the order in which they happened. Contracts see their list.
#[derive(Drop)]
pub struct Events {
    pub items: Vec<PortEvent>,
}

impl Model for Events {
    ghost use Rattle.std.specs.Prelude.{List};
    ghost use Rattle.hw_audit.specs.declared.event.PortEvent.{PortEvent};

    ghost Value = { List PortEvent };

    ghost view = { λ s. s.items.items };
}
