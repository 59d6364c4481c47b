//! What a restriction of a port stands for.

use hw_model::ShipId;
use std::marker::Model;

/// Places of a port's sections, seen as their list.
#[derive(Drop)]
pub struct Places {
    pub items: Vec<u32>,
}

impl Model for Places {
    ghost use Rattle.std.specs.Prelude.{ℕ, List};

    ghost Value = { List ℕ };

    ghost view = { λ p. p.items.items };
}

/// A restriction in a port's words. Ships and sections are places in the port's lists, and
/// distances in time are counted in slots.
#[derive(Drop)]
pub enum Named {
    /// A ship has a value in its slot, or stays and may.
    Window {
        ship: ShipId,
    },
    /// Two ships of the same direction: the second sails at least `after` slots after the first, or
    /// the first at least `before` slots after the second.
    Separation {
        first: ShipId,
        second: ShipId,
        after: u32,
        before: u32,
    },
    /// Two ships of opposite direction are never both in one of these sections.
    Sections {
        first: ShipId,
        second: ShipId,
        sections: Places,
    },
    /// The outgoing ship clears a berth at least `clear` slots before the incoming one takes it.
    Berth {
        outgoing: ShipId,
        incoming: ShipId,
        clear: u32,
    },
    /// The second ship sails at least `gap` slots after the first.
    After {
        first: ShipId,
        second: ShipId,
        gap: u32,
    },
    /// In no slot are more tugs held than the fleet has.
    Tugs {
        fleet: u32,
    },
}
