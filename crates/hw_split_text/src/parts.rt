//! The parts of a split.

ghost use Rattle.std.specs.Prelude.{◌≡◌, count_by, option_map, IfOk};
ghost use Rattle.hw_split_text.specs.Splits.{is_part, part_at};

use crate::node::{Node, Split};
use crate::walk::Walk;
use hw_model::{Lit, NoMemory};
use std::alloc::Global;

/// Whether the node makes its branch a part.
fn is_part(node: Node) -> bool
    ensures { result ≡ is_part node }
{
    match node {
        Node::Fork { .. } => false,
        Node::Part => true,
    }
}

/// How many nodes make parts: in a split that was read, how many parts it has.
pub fn count_parts(split: &Split) -> usize
    ensures { result ≡ count_by is_part split.now }
{
    split.nodes.iter().filter(|node| is_part(**node)).count()
}

/// The literals of the part of this number, counted from 1, from the root of the tree on; none where the
/// split has fewer parts, and of the number 0. One pass over the nodes up to that part.
pub fn literals_of(alloc: Global, split: &Split, number: u32) -> Result<Option<Vec<Lit>>, NoMemory>
    ensures { IfOk result (λ found. option_map (λ lits. lits.items) found ≡ part_at split.now number) }
{
    if number == 0 {
        return Ok(None);
    }
    let mut walk = Walk::new(alloc);
    let mut left = number;
    let nodes: &[Node] = &split.nodes;
    for node in nodes {
        let Some(branch) = walk.branch() else {
            return Ok(None);
        };
        if is_part(*node) {
            if left == 1 {
                let literals = Vec::from_slice(alloc, branch)?;
                return Ok(Some(literals));
            }
            left -= 1;
        }
        walk.pass(*node)?;
    }
    Ok(None)
}
