//! Reading a split, line by line.

ghost use Rattle.std.specs.Prelude.{◌≡◌, ◌<◌, ◌+◌, [], ◌∷◌, IfOk, length};
ghost use Rattle.hw_text.specs.Parts.{parts_of};
ghost use Rattle.hw_plan_texts.specs.Reading.{TextReadGives};
ghost use Rattle.hw_model.specs.Limits.{ShapeFits};
ghost use Rattle.hw_model.specs.Problem.{shape_of};
ghost use Rattle.hw_split_text.specs.Splits.{IsSplit};
ghost use Rattle.hw_split_text.specs.Text.{node_at, nodes_at, split_of, split_text};

use crate::branches::OpenBranches;
use crate::fault::{SplitFault, SplitWord};
use crate::forms::node_of;
use crate::node::{Node, Split};
use crate::ranges::Ranges;
use hw_flat::Flat;
use hw_model::Shape;
use hw_plan_texts::{LineFault, only};
use hw_text::{cut_line, is_end};
use std::alloc::Global;

/// The node on the next line, where the ships have these ranges, and the bytes after the line. It
/// takes no memory.
#[tactic(auto, unfolding(crate::specs::Text::node_at))]
fn node_line<'b>(
    bytes: &'b [u8],
    number: u64,
    shape: Shape,
    ranges: &Ranges,
) -> Result<(Node, &'b [u8]), SplitFault>
    requires fits { ShapeFits shape }
    requires each_ship { length ranges.now ≡ shape.ships }
    ensures reads { TextReadGives (λ x. (x.0, parts_of 10 x.1.now)) result (node_at shape number ranges.now (parts_of 10 bytes.now)) }
    ensures shorter { IfOk result (λ x. length x.1.now < length bytes.now) }
{
    let Some((line, rest)) = cut_line(bytes) else {
        return Err(LineFault::Line {
            number,
            word: SplitWord::Node,
        });
    };
    let Some(node) = node_of(line, shape, ranges) else {
        return Err(LineFault::Line {
            number,
            word: SplitWord::Node,
        });
    };
    Ok((node, rest))
}

/// The nodes for which the whole problem waits, and the bytes after their lines.
fn nodes_of(alloc: Global, bytes: &[u8], shape: Shape) -> Result<(Vec<Node>, &[u8]), SplitFault>
    requires fits { ShapeFits shape }
    ensures { TextReadGives (λ x. (x.0.items, parts_of 10 x.1.now)) result (nodes_at shape 2 ([] ∷ []) (parts_of 10 bytes.now)) }
{
    let mut nodes = Vec::new(alloc);
    let mut branches = OpenBranches::whole(alloc, shape)?;
    let mut rest = bytes;
    while let Some(ranges) = branches.next() {
        let (node, after) = node_line(rest, 2 + nodes.len() as u64, shape, ranges)?;
        branches.pass(alloc, node)?;
        nodes.push(node)?;
        rest = after;
    }
    Ok((nodes, rest))
}

/// The split that the text spells, or else its first line that isn't of the form demanded at its place,
/// with what was demanded there. Lines are numbered from 1; where the bytes end before a line that is
/// demanded, that line is named.
///
/// It looks at each byte a few times at most, and copies the ranges of the ships once for each fork:
/// those of the branches that wait are in memory.
#[tactic(auto, unfolding(crate::specs::Text::split_of))]
pub fn read_split(alloc: Global, bytes: &[u8], flat: &Flat) -> Result<Split, SplitFault>
    ensures reads { TextReadGives (λ split. split) result (split_text (shape_of flat.now) bytes.now) }
    ensures fits { IfOk result (IsSplit (shape_of flat.now)) }
{
    let rest = only(bytes, 1, SplitWord::Header, b"split 1")?;
    let (nodes, rest) = nodes_of(alloc, rest, flat.shape())?;
    let many = nodes.len() as u64;
    let rest = only(rest, 2 + many, SplitWord::Tail, b"end")?;
    if !is_end(rest) {
        return Err(LineFault::Line {
            number: 3 + many,
            word: SplitWord::Tail,
        });
    }
    Ok(Split { nodes })
}
