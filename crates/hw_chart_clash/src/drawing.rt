//! The marks, one for each kept restriction.

ghost use Rattle.std.specs.Prelude.{◌≡◌, ◌≤◌, ◌+◌, length};
ghost use Rattle.hw_desk.specs.Writers.{Puts};
ghost use Rattle.hw_chart_clash.specs.Shapes.{bracket_x as x_of_bracket, joined_mark, kept_mark_text, kept_marks_from, shape_text};

use crate::denied::{put_denied, row_y};
use crate::lacking::put_lacking;
use crate::mark::{Mark, Shape};
use hw_chart_svg::{Piece, put_group_end, put_item_begin, put_name, put_shape, put_title_end};
use hw_desk::Writer;
use hw_flat::Timetable;
use hw_model::{ShipId, Slot};
use hw_port::Port;
use hw_tide::Tide;

/// Where the bracket of a place stands: a column each, so that brackets don't lie on each other.
fn bracket_x(place: u64) -> u64
    ensures { result ≡ x_of_bracket place }
{
    983 + 9 * (place % 32)
}

/// Puts the bracket that joins the rows of two ships.
#[tactic(auto, unfolding(crate::specs::Shapes::bracket))]
fn put_joined<W: Writer>(out: &mut W, port: &Port, place: u64, first: ShipId, second: ShipId)
    ensures { Puts (joined_mark port.now place first second) (W.state out.old) (W.state out.new) }
{
    put_shape(
        out,
        b"cp",
        &[
            Piece::Word(b"M"),
            Piece::Number(bracket_x(place)),
            Piece::Word(b" "),
            Piece::Number(row_y(port, first) + 13),
            Piece::Word(b"h5V"),
            Piece::Number(row_y(port, second) + 13),
            Piece::Word(b"h-5"),
        ],
    );
}

/// Puts what a mark shows.
fn put_shape_of<W: Writer>(
    out: &mut W,
    port: &Port,
    tide: &Tide,
    place: u64,
    shape: Shape,
    table: &[Slot],
)
    requires { tide.now.columns ≡ length port.now.waypoints }
    ensures { Puts (shape_text port.now tide.now place shape table.now) (W.state out.old) (W.state out.new) }
{
    match shape {
        Shape::Denied { ship } => put_denied(out, port, tide, ship),
        Shape::Joined { first, second } => put_joined(out, port, place, first, second),
        Shape::Lacking => put_lacking(out, port, table),
    }
}

/// Puts a mark, with the line of its restriction as the title.
fn put_mark<W: Writer>(
    out: &mut W,
    port: &Port,
    tide: &Tide,
    place: u64,
    mark: &Mark,
    table: &[Slot],
)
    requires { tide.now.columns ≡ length port.now.waypoints }
    ensures { Puts (kept_mark_text port.now tide.now place mark.now table.now) (W.state out.old) (W.state out.new) }
{
    put_item_begin(out);
    put_name(out, &mark.title.items);
    put_title_end(out);
    put_shape_of(out, port, tide, place, mark.shape, table);
    put_group_end(out);
}

/// Puts the marks from a place on, each with the timetable that meets all other restrictions.
pub fn put_marks<W: Writer>(
    out: &mut W,
    port: &Port,
    tide: &Tide,
    place: u64,
    marks: &[Mark],
    drops: &[Timetable],
)
    requires columns { tide.now.columns ≡ length port.now.waypoints }
    requires few { place + length marks.now ≤ 18_446_744_073_709_551_615 }
    ensures { Puts (kept_marks_from port.now tide.now place marks.now drops.now) (W.state out.old) (W.state out.new) }
{
    match marks {
        [] => out.put(b""),
        [mark, more @ ..] => match drops {
            [] => out.put(b""),
            [table, rest @ ..] => {
                put_mark(out, port, tide, place, mark, table.as_slice());
                put_marks(out, port, tide, place + 1, more, rest);
            }
        },
    }
}
