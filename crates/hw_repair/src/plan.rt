//! A plan: the tugs withdrawn, and a wish for each ship.

use hw_model::Slot;
use std::marker::Model;

/// What a plan says of a ship.
#[derive(Clone, Copy)]
pub enum Wish {
    /// The ship has sailed in this slot.
    Kept { slot: Slot },
    /// The ship was planned for a slot, and may be given `from` or a later slot.
    Planned { slot: Slot, from: Slot },
}

/// How many tugs of the fleet are withdrawn, and a wish for each ship, ship 0 first. Contracts see
/// the number and the list of the wishes.
#[derive(Drop)]
pub struct Plan {
    pub withdrawn: u32,
    pub wishes: Vec<Wish>,
}

impl Model for Plan {
    ghost use Rattle.hw_repair.specs.Wishes.{PlanParts};

    ghost Value = { PlanParts };

    ghost view = { λ s. record { withdrawn = s.withdrawn; wishes = s.wishes.items } };
}
