//! Which parts of a split some lines close.

ghost use Rattle.std.specs.Prelude.{◌≡◌, All, IfOk, Some, is_some, slice_get};
ghost use Rattle.hw_cert_lines.specs.Valid.{LineFits};
ghost use Rattle.hw_model.specs.Problem.{shape_of};
ghost use Rattle.hw_model.specs.Rooms.{whole_room};
ghost use Rattle.hw_cert_join.specs.Joining.{ClosingIs, closes_branch};
ghost use Rattle.hw_split_text.specs.Rooms.{OpenInTurn};
ghost use Rattle.hw_split_text.specs.Splits.{IsSplit};

use hw_cert_closes::{closing_number, deleted};
use hw_cert_lines::Line;
use hw_flat::{Flat, NoMemory};
use hw_model::Lit;
use hw_split_text::{Node, Split, Walk, room_of};
use std::alloc::Global;

/// What lines close of a split.
#[derive(Drop)]
pub enum Closing {
    /// Each part: of each, in order, the number of a clause that nothing in it makes true.
    Each(Vec<u32>),
    /// Not the part of this number, from 1, but all before it.
    FirstOpen(u64),
}

/// Which parts of a split of the problem its lines close.
pub(crate) fn closing_of(
    alloc: Global,
    flat: &Flat,
    split: &Split,
    lines: &[Line],
) -> Result<Closing, NoMemory>
    requires fit { All (LineFits flat.now) lines.now }
    requires split { IsSplit (shape_of flat.now) split.now }
    ensures { IfOk result (ClosingIs flat.now split.now lines.now) }
{
    let _shape = flat.shape();
    let mut walk = Walk::new(alloc);
    let mut numbers = Vec::new(alloc);
    let deleted = deleted(alloc, lines)?;
    let nodes: &[Node] = &split.nodes;
    for node in nodes {
        match node {
            Node::Fork { .. } => {}
            Node::Part => {
                let Some(branch) = walk.branch() else {
                    unreachable!()
                };
                match closing_branch(alloc, flat, branch, lines, &deleted)? {
                    Some(number) => numbers.push(number)?,
                    None => return Ok(Closing::FirstOpen(numbers.len() as u64 + 1)),
                }
            }
        }
        walk.pass(*node)?;
    }
    Ok(Closing::Each(numbers))
}

/// The number of a clause that nothing in the branch makes true; none where the lines have none.
fn closing_branch(
    alloc: Global,
    flat: &Flat,
    branch: &[Lit],
    lines: &[Line],
    deleted: &[bool],
) -> Result<Option<u32>, NoMemory>
    requires fit { All (LineFits flat.now) lines.now }
    requires free { OpenInTurn (whole_room (shape_of flat.now)) branch.now }
    ensures { IfOk result (λ found. is_some found ≡ closes_branch flat.now lines.now branch.now) }
{
    let room = room_of(alloc, flat.shape(), branch)?;
    Ok(closing_number(flat, lines, deleted, &room))
}
