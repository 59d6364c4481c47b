//! The sizes of a port, and the heads of the columns.

ghost use Rattle.std.specs.Prelude.{◌≡◌};
ghost use Rattle.hw_desk.specs.Writers.{Puts};
ghost use Rattle.hw_chart_svg.specs.Pieces.{picture_pieces_text};
ghost use Rattle.hw_port.specs.Kept.{PortKept};
ghost use Rattle.hw_chart_port.specs.Heads.{columns_where, places, sizes as sizes_of, sizes_text};

use crate::chart::Chart;
use crate::places::places_of;
use hw_chart_svg::{Piece, put_line};
use hw_desk::Writer;
use hw_draft::natural;
use hw_port::PortParts;

/// The sizes of a port, in pieces.
#[tactic(auto, unfolding(crate::specs::Heads::sizes_text))]
pub fn sizes(parts: &PortParts) -> [Piece<'static>; 8]
    requires { PortKept parts.now }
    ensures { picture_pieces_text result ≡ sizes_of parts.now }
{
    [
        Piece::Word(b"ships "),
        Piece::Number(parts.ships.len() as u64),
        Piece::Word(b", slots "),
        Piece::Number(u64::from(natural(parts.slots))),
        Piece::Word(b" of "),
        Piece::Number(u64::from(natural(parts.slot_minutes))),
        Piece::Word(b" min, tugs "),
        Piece::Number(u64::from(natural(parts.fleet))),
    ]
}

/// Puts the heads of the columns over the rows, where there is a timetable.
pub fn put_columns_where<W: Writer>(out: &mut W, chart: &Chart)
    ensures { Puts (columns_where chart.now.table ((places chart.now.port).rows)) (W.state out.old) (W.state out.new) }
{
    if chart.has_table() {
        let rows = places_of(chart.parts()).rows;
        let y = u64::from(rows).saturating_sub(8);
        put_line(out, b"m r", 956, y, &[Piece::Word(b"sails")]);
        put_line(out, b"m r", 1020, y, &[Piece::Word(b"draft m")]);
        put_line(out, b"m r", 1100, y, &[Piece::Word(b"allowed m")]);
        put_line(out, b"m r", 1186, y, &[Piece::Word(b"under keel m")]);
        put_line(out, b"m r", 1268, y, &[Piece::Word(b"cargo t")]);
    } else {
        out.put(b"");
    }
}
