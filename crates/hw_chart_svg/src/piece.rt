//! The pieces of a text: words, names and numbers.

ghost use Rattle.hw_chart_svg.specs.Pieces.{picture_piece_text, picture_pieces_text};
ghost use Rattle.hw_desk.specs.Writers.{Puts};

use crate::name::put_name;
use crate::number::{put_clock, put_height, put_metres, put_tenths};
use hw_desk::Writer;

/// A piece of a text.
#[derive(Clone, Copy)]
pub enum Piece<'a> {
    /// Bytes as they are.
    Word(&'a [u8]),
    /// A name, its marks spelled out.
    Name(&'a [u8]),
    Number(u64),
    /// Tenths of a tonne, put as tonnes.
    Tenths(u64),
    /// Centimetres, put as metres.
    Metres(u64),
    /// Centimetres above or below 0, put as metres.
    Height(i64),
    /// Minutes, put as days, hours and minutes.
    Clock(u64),
}

fn put_piece<W: Writer>(out: &mut W, piece: Piece)
    ensures { Puts (picture_piece_text piece.entry) (W.state out.old) (W.state out.new) }
{
    match piece {
        Piece::Word(word) => out.put(word),
        Piece::Name(name) => put_name(out, name),
        Piece::Number(number) => out.put_number(number),
        Piece::Tenths(amount) => put_tenths(out, amount),
        Piece::Metres(length) => put_metres(out, length),
        Piece::Height(height) => put_height(out, height),
        Piece::Clock(minutes) => put_clock(out, minutes),
    }
}

/// Puts the pieces one after another, at most about a dozen.
pub fn put_pieces<W: Writer>(out: &mut W, pieces: &[Piece])
    ensures { Puts (picture_pieces_text pieces.now) (W.state out.old) (W.state out.new) }
{
    if let [piece, more @ ..] = pieces {
        put_piece(out, *piece);
        put_pieces(out, more);
    }
}
