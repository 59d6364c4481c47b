//! Lines of text.

ghost use Rattle.hw_desk.specs.Writers.{Puts};
ghost use Rattle.hw_chart_svg.specs.Pieces.{picture_pieces_text};
ghost use Rattle.hw_chart_svg.specs.Lettering.{line, name_line, shortened_line, text_begin};
ghost use Rattle.hw_chart_svg.specs.Names.{escaped};
ghost use Rattle.hw_chart_svg.specs.Shortened.{shortened};

use crate::name::{ELLIPSIS_WIDTH, fitting, is_wider, put_name};
use crate::piece::{Piece, put_pieces};
use hw_desk::Writer;

/// Puts the beginning of a text of a class at a place.
#[tactic(auto, unfolding(crate::specs::Lettering::text_begin))]
fn put_text_begin<W: Writer>(out: &mut W, class: &[u8], x: u64, y: u64)
    ensures { Puts (text_begin class.now x y) (W.state out.old) (W.state out.new) }
{
    put_pieces(
        out,
        &[
            Piece::Word(b"<text class=\""),
            Piece::Word(class),
            Piece::Word(b"\" x=\""),
            Piece::Number(x),
            Piece::Word(b"\" y=\""),
            Piece::Number(y),
            Piece::Word(b"\""),
        ],
    );
}

/// Puts a text of a class at a place.
pub fn put_line<W: Writer>(out: &mut W, class: &[u8], x: u64, y: u64, text: &[Piece])
    ensures { Puts (line class.now x y (picture_pieces_text text.now)) (W.state out.old) (W.state out.new) }
{
    put_text_begin(out, class, x, y);
    out.put(b">");
    put_pieces(out, text);
    out.put(b"</text>\n");
}

/// Puts as much of a name as its place shows: a beginning and an ellipsis.
fn put_shortened<W: Writer>(out: &mut W, name: &[u8], place: u64)
    ensures { Puts (escaped (shortened name.now place)) (W.state out.old) (W.state out.new) }
{
    let count = fitting(name, place.saturating_sub(ELLIPSIS_WIDTH));
    put_name(out, &name[..count]);
    put_name(out, &[226, 128, 166]);
}

/// Puts a name that is too wide for its place, with the whole of it as the title.
fn put_shortened_line<W: Writer>(out: &mut W, class: &[u8], x: u64, y: u64, name: &[u8], place: u64)
    ensures { Puts (shortened_line class.now x y name.now place) (W.state out.old) (W.state out.new) }
{
    put_text_begin(out, class, x, y);
    out.put(b"><title>");
    put_name(out, name);
    out.put(b"</title>");
    put_shortened(out, name, place);
    out.put(b"</text>\n");
}

/// Puts a name of a class into a place of `place` units of width. A name that may be wider ends in an ellipsis, and viewers
/// show the whole of it on request.
pub fn put_name_line<W: Writer>(out: &mut W, class: &[u8], x: u64, y: u64, name: &[u8], place: u64)
    ensures { Puts (name_line class.now x y name.now place) (W.state out.old) (W.state out.new) }
{
    if is_wider(name, place) {
        put_shortened_line(out, class, x, y, name, place);
    } else {
        put_line(out, class, x, y, &[Piece::Name(name)]);
    }
}
