//! The pieces of a line: words and numbers.

ghost use Rattle.std.specs.Prelude.{◌≡◌, ◌++◌, OnOk};
ghost use Rattle.hw_port_lint.specs.Lines.{hint_piece_text, hint_pieces_text};

use hw_text::put_number;
use std::alloc::AllocError;

/// A piece of a line.
#[derive(Clone, Copy)]
pub enum Piece<'a> {
    Word(&'a [u8]),
    Number(u64),
}

fn put_piece(out: &mut Vec<u8>, piece: Piece) -> Result<(), AllocError>
    ensures { OnOk result (out.new.items ≡ out.old.items ++ hint_piece_text piece.entry) }
{
    match piece {
        Piece::Word(word) => out.extend_from_slice(word),
        Piece::Number(number) => put_number(out, number),
    }
}

/// Appends the pieces one after another, at most a dozen.
pub fn put_pieces(out: &mut Vec<u8>, pieces: &[Piece]) -> Result<(), AllocError>
    ensures { OnOk result (out.new.items ≡ out.old.items ++ hint_pieces_text pieces.now) }
{
    if let [piece, more @ ..] = pieces {
        put_piece(out, *piece)?;
        put_pieces(out, more)?;
    }
    Ok(())
}
