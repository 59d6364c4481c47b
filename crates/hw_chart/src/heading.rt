//! The head of a picture.

ghost use Rattle.hw_desk.specs.Writers.{Puts};
ghost use Rattle.hw_chart_svg.specs.Pieces.{picture_pieces_text};
ghost use Rattle.hw_chart.specs.Headings.{ground, heading};

use crate::outcome::{CargoUnit, Outcome, meaning, put_badge, title};
use crate::style::put_style;
use hw_chart_svg::{Area, Piece, put_block, put_line, put_picture_begin};
use hw_desk::Writer;

/// Puts the ground of a picture of this height.
pub fn put_ground<W: Writer>(out: &mut W, height: u64)
    ensures { Puts (ground height) (W.state out.old) (W.state out.new) }
{
    let area = Area {
        left: 0,
        right: 1280,
        top: 0,
        bottom: height,
    };
    put_block(out, b"gr", area);
}

/// Puts the head of a picture of this height: its beginning, title and ground, and a line with the sizes of the problem.
pub fn put_heading<W: Writer>(
    out: &mut W,
    unit: CargoUnit,
    outcome: Outcome,
    height: u64,
    sizes: &[Piece],
)
    ensures { Puts (heading unit outcome height (picture_pieces_text sizes.now)) (W.state out.old) (W.state out.new) }
{
    put_picture_begin(out, 1280, height, &title(unit, outcome));
    put_style(out);
    put_ground(out, height);
    put_badge(out, outcome.verdict);
    put_line(out, b"h", 48, 36, &title(unit, outcome));
    put_line(out, b"m", 48, 56, &meaning(unit, outcome));
    put_line(out, b"m r", 1268, 36, sizes);
}
