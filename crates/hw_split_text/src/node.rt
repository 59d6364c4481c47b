//! A split: its nodes, depth first.

use hw_model::{ShipId, Slot};
use std::marker::Model;

/// A node of a split.
#[derive(Clone, Copy)]
pub enum Node {
    /// Two branches follow: first that in which the ship has a slot before this one, then that in which
    /// it has this slot or a later one.
    Fork { ship: ShipId, slot: Slot },
    /// The branch is a part.
    Part,
}

/// The nodes of a split, depth first. Contracts see their list.
#[derive(Drop)]
pub struct Split {
    pub nodes: Vec<Node>,
}

impl Model for Split {
    ghost use Rattle.std.specs.Prelude.{List};
    ghost use Rattle.hw_split_text.specs.declared.node.Node.{Node};

    ghost Value = { List Node };

    ghost view = { λ s. s.nodes.items };
}
