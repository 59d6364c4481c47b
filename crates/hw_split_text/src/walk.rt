//! A walk through the nodes of a split, which tells the branch of each.

ghost use Rattle.std.specs.Prelude.{◌≡◌, [], ◌∷◌, not, option_map, reverse, slice_get, IfOk, OnOk};
ghost use Rattle.hw_split_text.specs.Splits.{waiting_after};
ghost use Rattle.hw_split_text.specs.Walks.{later_sides, waits};

use crate::node::Node;
use hw_model::Lit;
use std::alloc::{AllocError, Global};
use std::marker::Model;

/// The branches that wait for their nodes. Contracts see their list, each with its literals, the branch
/// whose node comes next first.
///
/// It keeps that branch alone: each other one ends with the later side of one of its forks.
#[derive(Drop)]
pub struct Walk {
    branch: Vec<Lit>,
    ended: bool,
}

impl Model for Walk {
    ghost use Rattle.std.specs.Prelude.{List};
    ghost use Rattle.hw_split_text.specs.Splits.{Branch};
    ghost use Rattle.hw_split_text.specs.Walks.{waits};

    ghost Value = { List Branch };

    ghost view = { λ w. waits w.ended w.branch.items };
}

impl Walk {
    /// The whole problem waits for its node. It takes no memory.
    pub fn new(alloc: Global) -> Walk
        ensures { result ≡ [] ∷ [] }
    {
        Walk {
            branch: Vec::new(alloc),
            ended: false,
        }
    }

    /// The literals of the branch whose node comes next; none where no branch waits.
    pub fn branch(&self) -> Option<&[Lit]>
        ensures { option_map (λ lits. lits.now) result ≡ slice_get self.now 0 }
    {
        if self.ended {
            None
        } else {
            let branch: &[Lit] = &self.branch;
            Some(branch)
        }
    }

    /// Takes the node of the next branch: two branches wait instead, or the branch is done. A part costs
    /// a pass over the literals that its branch has after the next one's fork. After an error the walk
    /// is of no use.
    pub fn pass(&mut self, node: Node) -> Result<(), AllocError>
        ensures { OnOk result (self.new ≡ waiting_after node self.old) }
    {
        if self.ended {
            return Ok(());
        }
        match node {
            Node::Fork { ship, slot } => {
                self.branch.push(Lit::Before { ship, slot })?;
                Ok(())
            }
            Node::Part => {
                self.ended = !turned(&mut self.branch)?;
                Ok(())
            }
        }
    }
}

/// Goes from a branch that is done to the later side of its last fork that has one. Returns whether one
/// has.
fn turned(branch: &mut Vec<Lit>) -> Result<bool, AllocError>
    ensures { IfOk result (λ going. waits (not going) branch.new.items ≡ later_sides (reverse branch.old.items)) }
{
    while let Some(lit) = branch.pop() {
        if let Lit::Before { ship, slot } = lit {
            branch.push(Lit::AtOrAfter { ship, slot })?;
            return Ok(true);
        }
    }
    Ok(false)
}
