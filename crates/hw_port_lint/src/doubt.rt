//! A member whose value looks like one of another unit.

ghost use Rattle.std.specs.Prelude.{◌≡◌, ◌++◌, OnOk};
ghost use Rattle.hw_port_lint.specs.Lines.{doubt_line};

use crate::pieces::{Piece, put_pieces};
use std::alloc::AllocError;

/// A member whose value looks like one of another unit: the list, the number of its item, the member, the value and the unit,
/// each word with its spaces and points.
#[derive(Clone, Copy)]
pub struct Doubt<'a> {
    pub items: &'a [u8],
    pub number: u32,
    pub member: &'a [u8],
    pub value: u32,
    pub unit: &'a [u8],
}

/// Appends the line of a member, with the name of its item.
#[tactic(auto, unfolding(crate::specs::Lines::unit_line))]
pub fn put_doubt<'w>(out: &mut Vec<u8>, doubt: Doubt<'w>, name: &'w [u8]) -> Result<(), AllocError>
    ensures { OnOk result (out.new.items ≡ out.old.items ++ doubt_line doubt.entry name.now) }
{
    put_pieces(
        out,
        &[
            Piece::Word(b"hint "),
            Piece::Word(doubt.items),
            Piece::Number(u64::from(doubt.number)),
            Piece::Word(doubt.member),
            Piece::Number(u64::from(doubt.value)),
            Piece::Word(doubt.unit),
            Piece::Word(name),
            Piece::Word(b"\n"),
        ],
    )
}
