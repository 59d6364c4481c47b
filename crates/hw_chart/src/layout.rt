//! Where things stand on a picture.

ghost use Rattle.std.specs.Prelude.{◌≡◌, ◌^◌, ◌<◌, length};
ghost use Rattle.hw_desk.specs.Writers.{Puts};
ghost use Rattle.hw_chart.specs.Layout.{pin, plot_place, plot, rank_of, stripe};

use hw_chart_svg::{Area, Piece, Window, put_block, put_shape};
use hw_desk::Writer;
use hw_model::{ShipId, Slot};

/// A window over the slots that a picture shows, `tall` units of its own down.
pub fn plot(y: u64, height: u64, span: u32, tall: u64) -> Window
    ensures { result ≡ plot y height span tall }
{
    Window {
        x: 172,
        y,
        width: 720,
        height,
        across: u64::from(span),
        down: tall,
    }
}

/// The place of a row among the rows of a timetable: ships by their slots, and of one slot by their numbers.
pub fn rank(table: &[Slot], ship: ShipId) -> usize
    requires { ship < length table.now }
    ensures { result ≡ rank_of table.now ship }
{
    let own = table[ship as usize];
    let number = ship as usize;
    table
        .iter()
        .copied()
        .enumerate()
        .filter(|given| given.1 < own || (given.1 == own && given.0 < number))
        .count()
}

/// Puts the stripe behind a row of even rank.
pub fn put_stripe<W: Writer>(out: &mut W, rank: u32, y: u32)
    ensures { Puts (stripe rank y) (W.state out.old) (W.state out.new) }
{
    let area = Area {
        left: 0,
        right: 1280,
        top: u64::from(y).saturating_sub(1),
        bottom: u64::from(y) + 41,
    };
    if rank % 2 == 0 {
        put_block(out, b"bd", area);
    } else {
        out.put(b"");
    }
}

/// Where a part of a whole stands on the plot.
pub fn place(part: u64, whole: u64) -> u64
    requires some { 0 < whole }
    requires small { part < 2 ^ 40 }
    ensures { result ≡ plot_place part whole }
{
    172 + part * 720 / whole
}

/// Puts the pin above the middle of a slot, which keeps a narrow slot in sight.
pub fn put_pin<W: Writer>(out: &mut W, class: &[u8], slot: u32, span: u32, y: u32)
    requires { 0 < span }
    ensures { Puts (pin class.now slot span y) (W.state out.old) (W.state out.new) }
{
    let x = place(2 * u64::from(slot) + 1, 2 * u64::from(span));
    put_shape(
        out,
        class,
        &[
            Piece::Word(b"M"),
            Piece::Number(x.saturating_sub(4)),
            Piece::Word(b" "),
            Piece::Number(u64::from(y).saturating_sub(1)),
            Piece::Word(b"h9l-4 6z"),
        ],
    );
}
