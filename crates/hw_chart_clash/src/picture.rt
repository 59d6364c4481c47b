//! The whole picture of a clash.

ghost use Rattle.std.specs.Prelude.{◌≡◌, ◌≤◌, All, None, length};
ghost use Rattle.hw_desk.specs.Writers.{Puts};
ghost use Rattle.hw_chart.specs.Legends.{legend_parts};
ghost use Rattle.hw_chart_port.specs.Rests.{port_rest};
ghost use Rattle.hw_chart_clash.specs.Legends.{clash_entries as entries_of};
ghost use Rattle.hw_chart_clash.specs.Pictures.{clash_end, clash_picture};

use crate::drawing::put_marks;
use crate::heading::put_clash_head;
use crate::legend::clash_entries;
use crate::mark::Mark;
use hw_chart_port::put_port_rest;
use hw_chart_svg::{put_group_end, put_list_begin, put_svg_end};
use hw_desk::Writer;
use hw_flat::Timetable;
use hw_port::Port;
use hw_tide::Tide;

/// Puts what stands between the head and the marks.
fn put_clash_rest<W: Writer>(out: &mut W, port: &Port, tide: &Tide, marks: &[Mark])
    requires { tide.now.columns ≡ length port.now.waypoints }
    ensures { Puts (port_rest port.now tide.now None (entries_of marks.now)) (W.state out.old) (W.state out.new) }
{
    let entries = clash_entries(marks);
    put_port_rest(out, port, tide, None, &entries);
}

/// Puts the marks, and the end of the picture.
fn put_clash_end<W: Writer>(
    out: &mut W,
    port: &Port,
    tide: &Tide,
    marks: &[Mark],
    drops: &[Timetable],
)
    requires { tide.now.columns ≡ length port.now.waypoints }
    ensures { Puts (clash_end port.now tide.now marks.now drops.now) (W.state out.old) (W.state out.new) }
{
    // The call shows that their number is that of a slice.
    let _few = marks.len();
    put_list_begin(out);
    put_marks(out, port, tide, 0, marks, drops);
    put_group_end(out);
    put_svg_end(out);
}

/// Puts the picture of a clash of a port with its tide: a mark for each kept restriction, by the timetable that meets all
/// others. It takes no memory.
#[tactic(auto, unfolding(crate::specs::Pictures::clash_picture))]
pub fn put_clash_picture<W: Writer>(
    out: &mut W,
    port: &Port,
    tide: &Tide,
    marks: &[Mark],
    drops: &[Timetable],
)
    requires { tide.now.columns ≡ length port.now.waypoints }
    ensures { Puts (clash_picture port.now tide.now marks.now drops.now) (W.state out.old) (W.state out.new) }
{
    put_clash_head(out, port, marks.len() as u64);
    put_clash_rest(out, port, tide, marks);
    put_clash_end(out, port, tide, marks, drops);
}
