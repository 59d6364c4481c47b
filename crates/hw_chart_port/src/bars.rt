//! The bars of a sailing.

ghost use Rattle.std.specs.Prelude.{◌≡◌, ◌≤◌, All};
ghost use Rattle.hw_desk.specs.Writers.{Puts};
ghost use Rattle.hw_port.specs.Kept.{BerthKept, ShipKept};
ghost use Rattle.hw_port_model.specs.Numbers.{whole};
ghost use Rattle.hw_chart_port.specs.Bars.{bars, clearing_for, clearings, tugs_where};

use crate::chart::Chart;
use crate::numbers::by_direction;
use crate::span::hold;
use crate::stays::put_stays;
use hw_chart::{put_bar, put_bars_begin};
use hw_chart_svg::put_svg_end;
use hw_desk::Writer;
use hw_draft::{last_pass, natural};
use hw_model::{MOST_SLOTS, ShipId, Slot};
use hw_port::{BerthPair, Ship};

/// The number of the ship that takes the berth of a pair.
pub fn incoming_of(chart: &Chart, pair: &BerthPair) -> ShipId
    requires { BerthKept chart.now.port.ships pair.now }
    ensures { result ≡ whole pair.now.incoming }
{
    let _few = chart.parts();
    natural(pair.incoming)
}

/// Puts from when to when a berth isn't clear yet, where the pair's incoming ship is this one.
fn put_clearing_for<W: Writer>(out: &mut W, chart: &Chart, number: ShipId, pair: &BerthPair)
    requires pair { BerthKept chart.now.port.ships pair.now }
    ensures { Puts (clearing_for chart.now number pair.now) (W.state out.old) (W.state out.new) }
{
    if incoming_of(chart, pair) == number {
        let _few = chart.parts();
        let slot = u64::from(chart.slot_at(natural(pair.outgoing)));
        let clear = u64::from(natural(pair.clear));
        put_bar(out, b"be", slot, slot + clear, 0);
    } else {
        out.put(b"");
    }
}

/// Puts when the berths of an incoming ship aren't clear yet.
fn put_clearings<W: Writer>(out: &mut W, chart: &Chart, number: ShipId, pairs: &[BerthPair])
    requires pairs { All (BerthKept chart.now.port.ships) pairs.now }
    ensures { Puts (clearings chart.now number pairs.now) (W.state out.old) (W.state out.new) }
{
    if let [pair, more @ ..] = pairs {
        put_clearing_for(out, chart, number, pair);
        put_clearings(out, chart, number, more);
    }
}

/// For how many slots tugs work for a ship.
fn job_of(chart: &Chart, ship: &Ship) -> u64
    requires { ShipKept chart.now.port ship.now }
    ensures value { result ≡ whole ship.now.job }
    ensures few { result ≤ MOST_SLOTS }
{
    u64::from(natural(ship.job))
}

/// How many tugs a ship takes.
pub fn tugs_of(chart: &Chart, ship: &Ship) -> u32
    requires { ShipKept chart.now.port ship.now }
    ensures { result ≡ whole ship.now.tugs }
{
    natural(ship.tugs)
}

/// Puts when tugs work for a ship, and when they turn round, where the ship has tugs.
fn put_tugs_where<W: Writer>(out: &mut W, chart: &Chart, ship: &Ship, slot: Slot)
    requires { ShipKept chart.now.port ship.now }
    ensures { Puts (tugs_where chart.now ship.now slot) (W.state out.old) (W.state out.new) }
{
    if tugs_of(chart, ship) > 0 {
        let from = u64::from(slot);
        let done = from + job_of(chart, ship);
        let free = from + u64::from(hold(chart.parts(), ship));
        put_bar(out, b"tu", from, done, 1);
        put_bar(out, b"ba", done, free, 1);
    } else {
        out.put(b"");
    }
}

/// Puts the bars of a sailing, in a row that begins here: when berths aren't clear yet, stays, the voyage, and tugs.
pub fn put_bars<W: Writer>(
    out: &mut W,
    chart: &Chart,
    number: ShipId,
    ship: &Ship,
    slot: Slot,
    y: u32,
)
    requires { ShipKept chart.now.port ship.now }
    ensures { Puts (bars chart.now number ship.now slot y) (W.state out.old) (W.state out.new) }
{
    let parts = chart.parts();
    put_bars_begin(out, y, chart.span());
    put_clearings(out, chart, number, &parts.berths);
    put_stays(out, chart, number, &parts.after);
    let from = u64::from(slot);
    let last = u64::from(last_pass(parts.waypoints.len(), &ship.route).offset);
    put_bar(
        out,
        by_direction(ship, b"ou", b"in"),
        from,
        from + last + 1,
        0,
    );
    put_tugs_where(out, chart, ship, slot);
    put_svg_end(out);
}
