//! Where the label of a water stands.

ghost use Rattle.std.specs.Prelude.{◌≡◌, ◌<◌, ◌≤◌, ◌*◌, codes};
ghost use Rattle.hw_desk.specs.Writers.{Puts};
ghost use Rattle.hw_chart_svg.specs.Lettering.{line};
ghost use Rattle.hw_chart_svg.specs.Numbers.{height_text};
ghost use Rattle.hw_chart_waters.specs.Columns.{column_height};
ghost use Rattle.hw_chart_waters.specs.Labels.{free_after, label_of as label_of_stand, label_where, moved_inside, stand_half, stand_text, stand_time, water_words};
ghost use Rattle.hw_chart_waters.specs.Stands.{TurnsInside};

use crate::column::Column;
use crate::stand::Stand;
use crate::width::words_width;
use hw_chart::place;
use hw_chart_svg::{Piece, put_line};
use hw_desk::Writer;

/// Where the middle of a label stands on the picture, and half of its width.
#[derive(Clone, Copy)]
pub struct Label {
    pub middle: u64,
    pub half: u64,
}

/// The minutes of some slots.
#[tactic(auto, using(crate::proofs::Widths::product_small))]
fn product(slots: u32, minutes: u32) -> u64
    requires slots { slots ≤ 3_100 }
    requires minutes { minutes ≤ 1_440 }
    ensures value { result ≡ slots * minutes }
    ensures few { result ≤ 4_464_000 }
{
    u64::from(slots) * u64::from(minutes)
}

/// The middle of a stand in minutes from midnight.
fn time_of(column: &Column, stand: Stand) -> u64
    requires { TurnsInside column.now.rows stand }
    ensures value { result ≡ stand_time column.now stand }
    ensures few { result < 14_400_000 }
{
    let _few = column.rows();
    product(stand.first + stand.end - 1, column.minutes()) / 2 + u64::from(column.midnight())
}

/// The height of a stand, in centimetres.
fn height_of(column: &Column, stand: Stand) -> i32
    requires { TurnsInside column.now.rows stand }
    ensures { result ≡ column_height column.now stand.first }
{
    column.height(stand.first)
}

/// Half of the width of a label.
fn half_of(column: &Column, stand: Stand) -> u64
    requires { TurnsInside column.now.rows stand }
    ensures value { result ≡ stand_half column.now stand }
    ensures few { result ≤ 200 }
{
    let width = words_width(time_of(column, stand), column.height(stand.first));
    (6 * width).div_ceil(7).div_ceil(2)
}

/// The place itself, or the nearest one at which a label lies on the plot.
fn inside(half: u64, middle: u64) -> u64
    requires { half ≤ 200 }
    ensures value { result ≡ moved_inside half middle }
    ensures few { result ≤ 892 }
{
    middle.min(892 - half).max(172 + half)
}

/// The label of a stand.
pub fn label_of(column: &Column, stand: Stand) -> Label
    requires { TurnsInside column.now.rows stand }
    ensures value { result ≡ label_of_stand column.now stand }
    ensures near { result.middle ≤ 892 }
    ensures narrow { result.half ≤ 200 }
{
    let half = half_of(column, stand);
    let rows = u64::from(stand.first) + u64::from(stand.end);
    let middle = place(rows, 2 * u64::from(column.span()));
    Label {
        middle: inside(half, middle),
        half,
    }
}

/// Puts a text of a water at a place.
#[tactic(auto, unfolding(crate::specs::Labels::water_words))]
fn put_words<W: Writer>(out: &mut W, middle: u64, y: u64, time: u64, height: i32)
    ensures { Puts (line (codes "m c") middle y (water_words time (height_text height))) (W.state out.old) (W.state out.new) }
{
    put_line(
        out,
        b"m c",
        middle,
        y,
        &[
            Piece::Clock(time),
            Piece::Word(b" "),
            Piece::Height(i64::from(height)),
        ],
    );
}

/// Puts the label of a stand.
fn put_label<W: Writer>(out: &mut W, column: &Column, stand: Stand, middle: u64, y: u64)
    requires { TurnsInside column.now.rows stand }
    ensures { Puts (line (codes "m c") middle y (stand_text column.now stand)) (W.state out.old) (W.state out.new) }
{
    let time = time_of(column, stand);
    put_words(out, middle, y, time, height_of(column, stand));
}

/// Puts the label of a stand where the line is free for it, and says from where it is free then.
pub fn put_where_free<W: Writer>(
    out: &mut W,
    column: &Column,
    stand: Stand,
    y: u64,
    free: u64,
) -> u64
    requires within { TurnsInside column.now.rows stand }
    requires free { free ≤ 2_000 }
    ensures puts { Puts (label_where column.now y free stand) (W.state out.old) (W.state out.new) }
    ensures value { result ≡ free_after column.now free stand }
    ensures few { result ≤ 2_000 }
{
    let label = label_of(column, stand);
    if free + label.half <= label.middle {
        put_label(out, column, stand, label.middle, y);
        label.middle + label.half + 6
    } else {
        out.put(b"");
        free
    }
}
