//! The high and low waters at a waypoint, by their times and heights.

ghost use Rattle.std.specs.Prelude.{◌<◌, length};
ghost use Rattle.hw_desk.specs.Writers.{Puts};
ghost use Rattle.hw_chart_waters.specs.Labels.{waters_text};
ghost use Rattle.hw_chart_port.specs.Strips.{column_of, strip_waters};

use crate::chart::Chart;
use crate::passing::Strip;
use crate::strip::y;
use hw_chart_waters::{Column, WaterKind, put_waters};
use hw_desk::Writer;

/// Puts the high waters or the low ones at a waypoint into a line of text.
fn put_water_line<W: Writer>(out: &mut W, chart: &Chart, strip: Strip, kind: WaterKind, y: u64)
    requires { strip.place < length chart.now.port.waypoints }
    ensures { Puts (waters_text (column_of chart.now strip) kind y) (W.state out.old) (W.state out.new) }
{
    let _columns = chart.parts();
    let column = Column {
        tide: chart.tide(),
        place: strip.place,
        rows: chart.shown(),
        span: chart.span(),
        minutes: chart.slot_minutes(),
        midnight: chart.midnight(),
    };
    put_waters(out, &column, kind, y);
}

/// Puts the high and the low waters at a waypoint.
pub fn put_strip_waters<W: Writer>(out: &mut W, chart: &Chart, strip: Strip)
    requires { strip.place < length chart.now.port.waypoints }
    ensures { Puts (strip_waters chart.now strip) (W.state out.old) (W.state out.new) }
{
    let y = y(strip);
    put_water_line(out, chart, strip, WaterKind::High, y - 4);
    put_water_line(out, chart, strip, WaterKind::Low, y + 51);
}
