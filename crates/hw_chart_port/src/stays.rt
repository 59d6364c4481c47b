//! How long a ship stays in port that sails after another one.

ghost use Rattle.std.specs.Prelude.{◌≡◌, ◌≤◌, ◌<◌, pos, length, All};
ghost use Rattle.hw_desk.specs.Writers.{Puts};
ghost use Rattle.hw_port.specs.Kept.{AfterKept};
ghost use Rattle.hw_port_model.specs.Numbers.{whole};
ghost use Rattle.hw_chart_port.specs.Charts.{slot_in_chart};
ghost use Rattle.hw_chart_port.specs.Stays.{chart_ship_name as name_of_ship, stay_for, stays_of, wait_of};

use crate::chart::Chart;
use crate::numbers::product;
use hw_chart::put_bar;
use hw_chart_svg::{Area, Piece, put_titled};
use hw_desk::Writer;
use hw_draft::natural;
use hw_model::ShipId;
use hw_port::AfterPair;

/// A stay in port: the slot of the ship before, the own one and the one from which this is allowed, and how long the stay is
/// and must be, in minutes.
#[derive(Clone, Copy)]
pub struct Wait {
    pub from: u64,
    pub until: u64,
    pub free: u64,
    pub waited: u64,
    pub least: u64,
}

/// The number of a pair's second ship.
pub fn second_of(chart: &Chart, pair: &AfterPair) -> ShipId
    requires { AfterKept (pos (length chart.now.port.ships)) pair.now }
    ensures { result ≡ whole pair.now.second }
{
    let _few = chart.parts();
    natural(pair.second)
}

/// The number of a pair's first ship.
pub fn first_of(chart: &Chart, pair: &AfterPair) -> ShipId
    requires { AfterKept (pos (length chart.now.port.ships)) pair.now }
    ensures { result ≡ whole pair.now.first }
{
    let _few = chart.parts();
    natural(pair.first)
}

/// The stay of a pair's second ship.
fn wait_of(chart: &Chart, pair: &AfterPair) -> Wait
    requires { AfterKept (pos (length chart.now.port.ships)) pair.now }
    ensures { result ≡ wait_of chart.now pair.now }
{
    let from = chart.slot_at(first_of(chart, pair));
    let until = chart.slot_at(second_of(chart, pair));
    let gap = natural(pair.gap);
    Wait {
        from: u64::from(from),
        until: u64::from(until),
        free: u64::from(from) + u64::from(gap),
        waited: product(until.saturating_sub(from), chart.slot_minutes()),
        least: product(gap, chart.slot_minutes()),
    }
}

/// The name of a ship.
fn name_of<'c>(chart: &'c Chart, number: ShipId) -> &'c [u8]
    ensures { result.now ≡ name_of_ship chart.now number }
{
    match chart.ships().get(number as usize) {
        Some(ship) => &ship.name.items,
        None => b"",
    }
}

/// Puts the stay of a pair's second ship, where that is this one, and over it the time that the ship must wait.
fn put_stay_for<W: Writer>(out: &mut W, chart: &Chart, number: ShipId, pair: &AfterPair)
    requires { AfterKept (pos (length chart.now.port.ships)) pair.now }
    ensures { Puts (stay_for chart.now number pair.now) (W.state out.old) (W.state out.new) }
{
    if second_of(chart, pair) == number {
        let second = name_of(chart, second_of(chart, pair));
        let first = name_of(chart, first_of(chart, pair));
        let wait = wait_of(chart, pair);
        let area = Area {
            left: wait.from,
            right: wait.until,
            top: 0,
            bottom: 1,
        };
        put_titled(
            out,
            b"wi",
            area,
            &[
                Piece::Name(second),
                Piece::Word(b" after "),
                Piece::Name(first),
                Piece::Word(b": "),
                Piece::Clock(wait.waited),
                Piece::Word(b", at least "),
                Piece::Clock(wait.least),
            ],
        );
        put_bar(out, b"be", wait.from, wait.free, 0);
    } else {
        out.put(b"");
    }
}

/// Puts the stays of a ship, by these pairs.
pub fn put_stays<W: Writer>(out: &mut W, chart: &Chart, number: ShipId, pairs: &[AfterPair])
    requires { All (AfterKept (pos (length chart.now.port.ships))) pairs.now }
    ensures { Puts (stays_of chart.now number pairs.now) (W.state out.old) (W.state out.new) }
{
    if let [pair, more @ ..] = pairs {
        put_stay_for(out, chart, number, pair);
        put_stays(out, chart, number, more);
    }
}
