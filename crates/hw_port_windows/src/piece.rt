//! The pieces of a line: words and numbers.

ghost use Rattle.std.specs.Fmt.{signed_decimal};
ghost use Rattle.hw_desk.specs.Writers.{Puts};
ghost use Rattle.hw_port_windows.specs.Lines.{window_piece_text, window_pieces_text};

use hw_desk::Writer;

/// A piece of a line.
#[derive(Clone, Copy)]
pub enum Piece<'a> {
    Word(&'a [u8]),
    Number(u64),
    /// Centimetres, which may be below 0.
    Draft(i64),
}

/// Puts a number, with a sign where it is below 0.
pub fn put_signed<W: Writer>(out: &mut W, number: i64)
    ensures { Puts (signed_decimal number) (W.state out.old) (W.state out.new) }
{
    if number < 0 {
        out.put(b"-");
    }
    out.put_number(number.unsigned_abs());
}

fn put_piece<W: Writer>(out: &mut W, piece: Piece)
    ensures { Puts (window_piece_text piece.entry) (W.state out.old) (W.state out.new) }
{
    match piece {
        Piece::Word(word) => out.put(word),
        Piece::Number(number) => out.put_number(number),
        Piece::Draft(number) => put_signed(out, number),
    }
}

/// Puts the pieces one after another, at most two dozen.
pub fn put_pieces<W: Writer>(out: &mut W, pieces: &[Piece])
    ensures { Puts (window_pieces_text pieces.now) (W.state out.old) (W.state out.new) }
{
    if let [piece, more @ ..] = pieces {
        put_piece(out, *piece);
        put_pieces(out, more);
    }
}
