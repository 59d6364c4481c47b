//! The numbers of a sailing.

ghost use Rattle.std.specs.Prelude.{◌≡◌, ◌≤◌, ◌≤ℤ◌, ◌-ℤ◌, pos};
ghost use Rattle.hw_desk.specs.Writers.{Puts};
ghost use Rattle.hw_chart_svg.specs.Pieces.{picture_pieces_text};
ghost use Rattle.hw_port.specs.Kept.{ShipKept, Within};
ghost use Rattle.hw_port_model.specs.Numbers.{whole};
ghost use Rattle.hw_chart_port.specs.Figures.{deepest_cargo as capacity_of, cargo_figures, draft_figures, figures, shortness, tight as tight_class};

use crate::chart::Chart;
use crate::numbers::{natural_full, product};
use crate::sailing::Sailing;
use hw_chart_svg::{Piece, put_line, put_name_line};
use hw_desk::Writer;
use hw_draft::natural;
use hw_port::Ship;

/// How much a draft is short of the full one, in two pieces.
fn shortness(full: u32, draft: u32) -> [Piece<'static>; 2]
    ensures { picture_pieces_text result ≡ shortness full draft }
{
    if draft == full {
        [Piece::Word(b"full"), Piece::Word(b"")]
    } else {
        let short = u64::from(full.saturating_sub(draft));
        [Piece::Metres(short), Piece::Word(b" short")]
    }
}

/// Puts a ship's draft, and of an outgoing ship how much that is short of the full one.
fn put_draft<W: Writer>(out: &mut W, chart: &Chart, ship: &Ship, sailing: Sailing, y: u32)
    requires { ShipKept chart.now.port ship.now }
    ensures { Puts (draft_figures ship.now sailing y) (W.state out.old) (W.state out.new) }
{
    let row = u64::from(y);
    let draft = u64::from(sailing.draft);
    put_line(out, b"r b", 1020, row + 17, &[Piece::Metres(draft)]);
    if ship.is_outgoing() {
        let short = shortness(natural_full(ship), sailing.draft);
        put_line(out, b"r m", 1020, row + 33, &short);
    } else {
        out.put(b"");
    }
}

/// The class of a number that decides, or of one that doesn't.
fn tight(sailing: Sailing) -> &'static [u8]
    ensures { result.now ≡ tight_class sailing }
{
    if u64::from(sailing.draft) == sailing.allowed {
        b"r q"
    } else {
        b"r"
    }
}

/// The centimetres from the light to the deepest draft.
fn between(light: i64, deep: i64) -> u32
    requires light { Within (pos 0) (pos 10_000) light }
    requires deep { Within (pos 0) (pos 10_000) deep }
    requires order { light ≤ℤ deep }
    ensures { result ≡ whole (deep -ℤ light) }
{
    let centimetres = deep - light;
    natural(centimetres)
}

/// What a ship carries at its deepest draft.
fn capacity(chart: &Chart, ship: &Ship) -> u64
    requires { ShipKept chart.now.port ship.now }
    ensures { result ≡ capacity_of ship.now }
{
    product(natural(ship.tpc), between(ship.light, ship.deep))
}

/// Puts a ship's cargo, and what it would carry at its deepest draft, where the ship goes out.
fn put_cargo<W: Writer>(out: &mut W, chart: &Chart, ship: &Ship, sailing: Sailing, y: u32)
    requires { ShipKept chart.now.port ship.now }
    ensures { Puts (cargo_figures ship.now sailing y) (W.state out.old) (W.state out.new) }
{
    if ship.is_outgoing() {
        let row = u64::from(y);
        let all = capacity(chart, ship);
        put_line(out, b"r b", 1268, row + 17, &[Piece::Tenths(sailing.cargo)]);
        put_line(
            out,
            b"r m",
            1268,
            row + 33,
            &[Piece::Word(b"of "), Piece::Tenths(all)],
        );
    } else {
        out.put(b"");
    }
}

/// Puts the numbers of a sailing, in a row that begins here: when the ship sails, its draft, the allowed draft and the waypoint
/// that decides it, the water under the keel there and how much there must be, and the cargo.
pub fn put_figures<W: Writer>(out: &mut W, chart: &Chart, ship: &Ship, sailing: Sailing, y: u32)
    requires { ShipKept chart.now.port ship.now }
    ensures { Puts (figures chart.now ship.now sailing y) (W.state out.old) (W.state out.new) }
{
    let row = u64::from(y);
    let class = tight(sailing);
    let clearance = u64::from(sailing.clearance);
    let slot = [
        Piece::Word(b"slot "),
        Piece::Number(u64::from(sailing.slot)),
    ];
    let least = [Piece::Word(b"min "), Piece::Metres(clearance)];
    put_line(out, b"r b", 956, row + 17, &[Piece::Clock(sailing.time)]);
    put_line(out, b"r m", 956, row + 33, &slot);
    put_draft(out, chart, ship, sailing, y);
    put_line(
        out,
        class,
        1100,
        row + 17,
        &[Piece::Metres(sailing.allowed)],
    );
    put_name_line(out, b"r m", 1100, row + 33, chart.waypoint(sailing.by), 72);
    put_line(out, class, 1186, row + 17, &[Piece::Metres(sailing.keel)]);
    put_line(out, b"r m", 1186, row + 33, &least);
    put_cargo(out, chart, ship, sailing, y);
}
