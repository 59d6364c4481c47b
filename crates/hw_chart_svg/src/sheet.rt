//! A picture, and the windows and lists on it.

ghost use Rattle.hw_desk.specs.Writers.{Puts};
ghost use Rattle.hw_chart_svg.specs.Pieces.{picture_pieces_text};
ghost use Rattle.hw_chart_svg.specs.Sheets.{group_end, item_begin, list_begin, picture_begin, svg_end, title_end, window_begin};

use crate::piece::{Piece, put_pieces};
use hw_desk::Writer;

/// A window on a picture: where it stands and how large it is there, and how many units of its own it
/// has across and down.
#[derive(Clone, Copy)]
pub struct Window {
    pub x: u64,
    pub y: u64,
    pub width: u64,
    pub height: u64,
    pub across: u64,
    pub down: u64,
}

/// Puts the beginning of a picture of a size, with a title.
pub fn put_picture_begin<W: Writer>(out: &mut W, width: u64, height: u64, title: &[Piece])
    ensures { Puts (picture_begin width height (picture_pieces_text title.now)) (W.state out.old) (W.state out.new) }
{
    put_pieces(
        out,
        &[
            Piece::Word(b"<svg xmlns=\"http://www.w3.org/2000/svg\" width=\""),
            Piece::Number(width),
            Piece::Word(b"\" height=\""),
            Piece::Number(height),
            Piece::Word(b"\" viewBox=\"0 0 "),
            Piece::Number(width),
            Piece::Word(b" "),
            Piece::Number(height),
            Piece::Word(b"\" role=\"graphics-document\" aria-label=\""),
        ],
    );
    put_pieces(out, title);
    out.put(b"\" xml:lang=\"en\" xml:space=\"preserve\">\n<title>");
    put_pieces(out, title);
    out.put(b"</title>\n");
}

/// Puts the beginning of a window.
#[tactic(auto, unfolding(crate::specs::Sheets::window_begin))]
pub fn put_window_begin<W: Writer>(out: &mut W, window: Window)
    ensures { Puts (window_begin window) (W.state out.old) (W.state out.new) }
{
    put_pieces(
        out,
        &[
            Piece::Word(b"<svg x=\""),
            Piece::Number(window.x),
            Piece::Word(b"\" y=\""),
            Piece::Number(window.y),
            Piece::Word(b"\" width=\""),
            Piece::Number(window.width),
            Piece::Word(b"\" height=\""),
            Piece::Number(window.height),
            Piece::Word(b"\" viewBox=\"0 0 "),
            Piece::Number(window.across),
            Piece::Word(b" "),
            Piece::Number(window.down),
            Piece::Word(b"\" preserveAspectRatio=\"none\">\n"),
        ],
    );
}

/// Puts the end of a picture or of a window.
pub fn put_svg_end<W: Writer>(out: &mut W)
    ensures { Puts svg_end (W.state out.old) (W.state out.new) }
{
    out.put(b"</svg>\n");
}

/// Puts the beginning of a list.
pub fn put_list_begin<W: Writer>(out: &mut W)
    ensures { Puts list_begin (W.state out.old) (W.state out.new) }
{
    out.put(b"<g role=\"list\">\n");
}

/// Puts the beginning of an item of a list, before its title.
pub fn put_item_begin<W: Writer>(out: &mut W)
    ensures { Puts item_begin (W.state out.old) (W.state out.new) }
{
    out.put(b"<g role=\"listitem\"><title>");
}

/// Puts the end of an item's title.
pub fn put_title_end<W: Writer>(out: &mut W)
    ensures { Puts title_end (W.state out.old) (W.state out.new) }
{
    out.put(b"</title>\n");
}

/// Puts the end of a list or of an item.
pub fn put_group_end<W: Writer>(out: &mut W)
    ensures { Puts group_end (W.state out.old) (W.state out.new) }
{
    out.put(b"</g>\n");
}
