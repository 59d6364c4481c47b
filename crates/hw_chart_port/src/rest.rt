//! What a picture has between its head and its end.

ghost use Rattle.std.specs.Prelude.{◌≡◌, ◌≤◌, All, length, option_map};
ghost use Rattle.hw_desk.specs.Writers.{Puts};
ghost use Rattle.hw_chart.specs.Legends.{HasShortWords, legend_parts};
ghost use Rattle.hw_chart_port.specs.Moves.{HasMoves};
ghost use Rattle.hw_chart_port.specs.Pictures.{bottom, times};
ghost use Rattle.hw_chart_port.specs.Rests.{port_rest, rest_of_picture};

use crate::chart::Chart;
use crate::fleet::put_fleet;
use crate::head::put_columns_where;
use crate::heights::heights_of;
use crate::lane::put_lanes;
use crate::legend::put_port_legend;
use crate::places::places_of;
use crate::row::put_ships;
use crate::signs::put_hatch_where;
use crate::span::slots_shown;
use crate::strip::put_strips;
use hw_chart::{Entry, Scale, put_grid, put_span_end};
use hw_chart_calendar::put_dated_grid;
use hw_chart_flat::Plan;
use hw_desk::Writer;
use hw_port::Port;
use hw_tide::Tide;

/// How far down the panels end.
pub fn bottom_of(chart: &Chart) -> u32
    ensures { result ≡ bottom chart.now }
{
    places_of(chart.parts()).bottom
}

/// Puts the grid over the panels, by dates where slot 0 has one, and else by the hours after slot 0.
fn put_times<W: Writer>(out: &mut W, chart: &Chart)
    ensures { Puts (times chart.now) (W.state out.old) (W.state out.new) }
{
    match &chart.parts().start {
        Some(start) => put_dated_grid(
            out,
            &start.items,
            chart.slot_minutes(),
            chart.span(),
            bottom_of(chart),
        ),
        None => {
            let scale = Scale::Minutes(chart.slot_minutes());
            put_grid(out, scale, chart.span(), bottom_of(chart));
        }
    }
}

/// Puts the legend, with these entries after its own, and what hatched shapes look like; the tides, the ships, the sections and
/// the tugs, one below another; the grid over them, and the line at the end of the slots in which ships sail.
pub fn put_rest<W: Writer>(out: &mut W, chart: &Chart, more: &[Entry])
    requires few { length more.now ≤ 30 }
    requires words { All HasShortWords more.now }
    ensures { Puts (rest_of_picture chart.now (legend_parts more.now)) (W.state out.old) (W.state out.new) }
{
    let parts = chart.parts();
    put_port_legend(out, chart, more);
    put_hatch_where(out, parts);
    put_strips(out, chart, heights_of(chart.tide()), 0, &parts.waypoints);
    put_columns_where(out, chart);
    put_ships(out, chart);
    put_lanes(out, chart, 0, &parts.sections);
    put_fleet(out, chart);
    put_times(out, chart);
    put_span_end(out, chart.horizon(), chart.span(), bottom_of(chart));
}

/// Puts what a picture of a port has between its head and its end: the legend, with these entries after its own, the panels,
/// and the grid over them. It takes no memory.
pub fn put_port_rest<W: Writer>(
    out: &mut W,
    port: &Port,
    tide: &Tide,
    plan: Option<&Plan>,
    more: &[Entry],
)
    requires columns { tide.now.columns ≡ length port.now.waypoints }
    requires moves { HasMoves port.now tide.now (option_map (λ plan. plan.now) plan) }
    requires few { length more.now ≤ 30 }
    requires words { All HasShortWords more.now }
    ensures { Puts (port_rest port.now tide.now (option_map (λ plan. plan.now.table) plan.entry) (legend_parts more.now)) (W.state out.old) (W.state out.new) }
{
    let _kept = port.parts();
    let chart = Chart {
        port,
        tide,
        plan,
        span: slots_shown(port, plan),
    };
    put_rest(out, &chart, more);
}
