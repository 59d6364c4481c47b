//! The title of a ship's row.

ghost use Rattle.std.specs.Prelude.{◌≡◌, ◌<◌, length};
ghost use Rattle.hw_desk.specs.Writers.{Puts};
ghost use Rattle.hw_port.specs.Kept.{ShipKept};
ghost use Rattle.hw_chart_port.specs.Charts.{course};
ghost use Rattle.hw_chart_port.specs.Titles.{course_title, row_title};

use crate::chart::Chart;
use crate::numbers::by_direction;
use crate::sailing::sailing_of;
use hw_chart::Course;
use hw_chart_svg::{Piece, put_pieces};
use hw_desk::Writer;
use hw_model::ShipId;
use hw_port::Ship;

/// Puts what the timetable says of a ship, in words: of a sailing when, with which draft and by what, and the cargo.
fn put_course_title<W: Writer>(out: &mut W, chart: &Chart, number: ShipId, ship: &Ship)
    requires ship_in { number < length chart.now.port.ships }
    requires ship { ShipKept chart.now.port ship.now }
    ensures { Puts (course_title chart.now number ship.now (course chart.now number)) (W.state out.old) (W.state out.new) }
{
    match chart.course(number) {
        Course::Unplanned => out.put(b""),
        Course::Stays => out.put(b", stays"),
        Course::Sails(slot) => {
            let sailing = sailing_of(chart, number, slot);
            let by = chart.waypoint(sailing.by);
            out.put(by_direction(ship, b", sails out", b", comes in"));
            put_pieces(
                out,
                &[
                    Piece::Word(b" in slot "),
                    Piece::Number(u64::from(sailing.slot)),
                    Piece::Word(b", "),
                    Piece::Clock(sailing.time),
                ],
            );
            put_pieces(
                out,
                &[
                    Piece::Word(b", draft "),
                    Piece::Metres(u64::from(sailing.draft)),
                    Piece::Word(b" m, allowed "),
                    Piece::Metres(sailing.allowed),
                    Piece::Word(b" m by "),
                    Piece::Name(by),
                    Piece::Word(b", cargo "),
                    Piece::Tenths(sailing.cargo),
                    Piece::Word(b" t"),
                ],
            );
        }
    }
}

/// Puts the title of a ship's row.
pub fn put_row_title<W: Writer>(out: &mut W, chart: &Chart, number: ShipId, ship: &Ship)
    requires ship_in { number < length chart.now.port.ships }
    requires ship { ShipKept chart.now.port ship.now }
    ensures { Puts (row_title chart.now number ship.now (course chart.now number)) (W.state out.old) (W.state out.new) }
{
    put_pieces(
        out,
        &[
            Piece::Name(&ship.name.items),
            Piece::Word(b", ship "),
            Piece::Number(u64::from(number)),
        ],
    );
    put_course_title(out, chart, number, ship);
}
