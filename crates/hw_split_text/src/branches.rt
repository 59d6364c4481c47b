//! The branches that wait for their nodes while a split is read.

ghost use Rattle.std.specs.Prelude.{◌≡◌, ◌-◌, [], ◌∷◌, replicate, option_copied, slice_get, IfOk, OnOk};
ghost use Rattle.hw_model.specs.Limits.{ShapeFits};
ghost use Rattle.hw_split_text.specs.Ranges.{NamesRange, open_after};

use crate::node::Node;
use crate::ranges::Ranges;
use hw_model::{NoMemory, Shape};
use std::alloc::Global;
use std::marker::Model;

/// The ranges of the ships in each branch that waits for its node. Contracts see their list, the branch
/// whose node comes next first.
#[derive(Drop)]
pub struct OpenBranches {
    /// The next one stands last.
    rows: Vec<Ranges>,
}

impl Model for OpenBranches {
    ghost use Rattle.std.specs.Prelude.{List, reverse};
    ghost use Rattle.hw_split_text.specs.Ranges.{ShipRanges};

    ghost Value = { List ShipRanges };

    ghost view = { λ o. reverse o.rows.items };
}

impl OpenBranches {
    /// The whole problem waits for its node.
    pub fn whole(alloc: Global, shape: Shape) -> Result<OpenBranches, NoMemory>
        requires fits { ShapeFits shape }
        ensures { IfOk result (λ branches. branches ≡ replicate shape.ships (0, shape.slots - 1) ∷ []) }
    {
        let whole = Ranges::whole(alloc, shape)?;
        let mut rows = Vec::new(alloc);
        rows.push(whole)?;
        Ok(OpenBranches { rows })
    }

    /// The ranges in the branch whose node comes next; none where no branch waits.
    pub fn next(&self) -> Option<&Ranges>
        ensures { option_copied result ≡ slice_get self.now 0 }
    {
        self.rows.last()
    }

    /// Takes the node of the next branch: two branches wait instead, or the branch is done. It copies
    /// the ranges of one branch. After an error the branches are of no use.
    pub fn pass(&mut self, alloc: Global, node: Node) -> Result<(), NoMemory>
        requires named { NamesRange node self.old }
        ensures { OnOk result (self.new ≡ open_after node self.old) }
    {
        let Some(mut before) = self.rows.pop() else {
            return Ok(());
        };
        match node {
            Node::Fork { ship, slot } => {
                let mut after = before.copy(alloc)?;
                before.end_before(ship, slot);
                after.begin_at(ship, slot);
                self.rows.push(after)?;
                self.rows.push(before)?;
                Ok(())
            }
            Node::Part => Ok(()),
        }
    }
}
