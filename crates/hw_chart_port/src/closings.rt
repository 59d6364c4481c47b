//! The slots of a ship's window that are closed for it.

ghost use Rattle.std.specs.Prelude.{◌≡◌, ◌≤◌, ◌<◌, ◌-◌, length};
ghost use Rattle.hw_desk.specs.Writers.{Puts};
ghost use Rattle.hw_port_model.specs.Numbers.{horizon_of};
ghost use Rattle.hw_port_windows.specs.Closings.{closed_in};
ghost use Rattle.hw_chart.specs.Layout.{plot_place};
ghost use Rattle.hw_chart_port.specs.Closings.{closing_at, closing_title, closings, closings_from, hatched, run_begins, run_end};

use crate::chart::Chart;
use hw_chart::{Sailings, place};
use hw_chart_svg::{Area, Piece, put_titled};
use hw_desk::Writer;
use hw_model::{ShipId, Slot};

/// Whether a slot is closed for a ship.
pub fn is_closed(chart: &Chart, number: ShipId, slot: Slot) -> bool
    requires ship_in { number < length chart.now.port.ships }
    requires slot_in { slot < horizon_of chart.now.port }
    ensures { result ≡ closed_in chart.now.port number slot }
{
    let _few = chart.horizon();
    hw_port_windows::is_closed_in(chart.parts(), number, slot)
}

/// Where the closed slots end that follow one another from this one on.
#[tactic(auto, using(crate::proofs::Runs::run_goes, crate::proofs::Runs::run_stops, crate::proofs::Runs::run_over))]
fn end_of_run(chart: &Chart, number: ShipId, slot: Slot, end: Slot) -> Slot
    requires ship_in { number < length chart.now.port.ships }
    requires end { end ≤ horizon_of chart.now.port }
    ensures { result ≡ run_end (closed_in chart.now.port number) slot (end - slot) }
{
    if slot < end && is_closed(chart, number, slot) {
        end_of_run(chart, number, slot + 1, end)
    } else {
        slot
    }
}

/// Whether a run of closed slots begins here.
fn does_run_begin(chart: &Chart, number: ShipId, first: Slot, slot: Slot) -> bool
    requires ship_in { number < length chart.now.port.ships }
    requires slot_in { slot < horizon_of chart.now.port }
    ensures { result ≡ run_begins (closed_in chart.now.port number) first slot }
{
    is_closed(chart, number, slot) && !(first < slot && is_closed(chart, number, slot - 1))
}

/// Puts closed slots, hatched, with a title.
#[tactic(auto, unfolding(crate::specs::Closings::closing_title))]
fn put_hatched<W: Writer>(out: &mut W, chart: &Chart, y: u32, from: Slot, end: Slot)
    ensures { Puts (hatched chart.now y from end) (W.state out.old) (W.state out.new) }
{
    let span = u64::from(chart.span());
    let area = Area {
        left: place(u64::from(from), span),
        right: place(u64::from(end), span),
        top: u64::from(y) + 3,
        bottom: u64::from(y) + 24,
    };
    put_titled(
        out,
        b"ha",
        area,
        &[
            Piece::Word(b"closed in slots "),
            Piece::Number(u64::from(from)),
            Piece::Word(b" to "),
            Piece::Number(u64::from(end).saturating_sub(1)),
            Piece::Word(b", "),
            Piece::Clock(chart.minutes_to(from)),
            Piece::Word(b" to "),
            Piece::Clock(chart.minutes_to(end)),
        ],
    );
}

/// Puts the closed slots that begin with this one.
fn put_closing_at<W: Writer>(
    out: &mut W,
    chart: &Chart,
    number: ShipId,
    window: Sailings,
    slot: Slot,
)
    requires ship_in { number < length chart.now.port.ships }
    requires end { window.end ≤ horizon_of chart.now.port }
    requires slot_in { slot < window.end }
    ensures { Puts (closing_at chart.now number window slot) (W.state out.old) (W.state out.new) }
{
    if does_run_begin(chart, number, window.first, slot) {
        let end = end_of_run(chart, number, slot, window.end);
        put_hatched(out, chart, window.y, slot, end);
    } else {
        out.put(b"");
    }
}

/// Puts the longest runs of closed slots in a ship's window.
pub fn put_closings<W: Writer>(out: &mut W, chart: &Chart, number: ShipId, window: Sailings)
    requires ship_in { number < length chart.now.port.ships }
    requires end { window.end ≤ horizon_of chart.now.port }
    ensures { Puts (closings chart.now number window) (W.state out.old) (W.state out.new) }
{
    for slot in window.first..window.end {
        put_closing_at(out, chart, number, window, slot);
    }
}
