//! What the legend of a picture says.

ghost use Rattle.std.specs.Prelude.{◌≡◌, ◌≤◌, ◌+◌, ◌*◌, ◌++◌, All, length};
ghost use Rattle.hw_desk.specs.Writers.{Puts};
ghost use Rattle.hw_chart.specs.Legends.{HasShortWords, entry_parts, legend_from, legend_parts, patch_entry};
ghost use Rattle.hw_chart_port.specs.Legends.{figure_entry, legend_marks, mark_entries, mark_entry, passing_class, port_legend, sailing_entry, window_class, window_says};

use crate::chart::Chart;
use crate::marks::{Mark, SailingMark, WindowMark, has_mark};
use hw_chart::{
    Entry, LegendPlace, Sample, legend_begin, next_place, put_entries, put_entry_where,
};
use hw_chart_flat::patch_entry;
use hw_desk::Writer;

/// An entry with a sign in the type of a figure of a class.
fn figure(class: &'static [u8], says: &'static [u8], stands: bool) -> Entry
    requires few { length says.now ≤ 60 }
    ensures value { entry_parts result ≡ figure_entry class.now says.now stands }
    ensures words { HasShortWords result }
{
    Entry {
        sample: Sample::Figure,
        class,
        says,
        stands,
    }
}

/// The entry of a mark that a ship has with a timetable or without one.
fn window_entry(mark: WindowMark, stands: bool) -> Entry
    ensures value { entry_parts result ≡ patch_entry (window_class mark) (window_says mark) stands }
    ensures words { HasShortWords result }
{
    match mark {
        WindowMark::MaySail => patch_entry(b"dr", b"may sail: the higher, the deeper", stands),
        WindowMark::FullDraft => patch_entry(b"fl", b"with full draft", stands),
        WindowMark::CouldMove => patch_entry(b"pl", b"could move there alone", stands),
        WindowMark::Outgoing => patch_entry(b"ou", b"sails out", stands),
        WindowMark::Incoming => patch_entry(b"in", b"comes in", stands),
        WindowMark::Closed => patch_entry(b"ha", b"closed", stands),
    }
}

/// The class of the passes: of ships that go out, if one does.
fn class_of_passes(chart: &Chart) -> &'static [u8]
    ensures { result.now ≡ passing_class chart.now }
{
    if has_mark(chart, Mark::OfSailing(SailingMark::PassesOut)) {
        b"ou mk"
    } else {
        b"in mk"
    }
}

/// The entry of a mark of a ship that sails: a figure for what figures say.
fn sailing_entry(chart: &Chart, mark: SailingMark, stands: bool) -> Entry
    ensures value { entry_parts result ≡ sailing_entry chart.now mark stands }
    ensures words { HasShortWords result }
{
    match mark {
        SailingMark::Passes => patch_entry(
            class_of_passes(chart),
            b"needed by a ship that passes",
            stands,
        ),
        SailingMark::PassesOut => patch_entry(b"ou mk", b"needed by a ship that passes", stands),
        SailingMark::HoldsTugs => patch_entry(b"tu", b"holds tugs", stands),
        SailingMark::TugsTurn => patch_entry(b"ba", b"tugs turn round", stands),
        SailingMark::MustWait => patch_entry(b"be", b"must wait for another", stands),
        SailingMark::WaitsOn => patch_entry(b"wi", b"waits on", stands),
        SailingMark::AtLimit => figure(b"m q", b"draft at its limit", stands),
        SailingMark::BelowFull => figure(b"m", b"short: below full draft", stands),
    }
}

/// The entry of a mark, which stands where the picture has that mark.
fn entry_of(chart: &Chart, mark: Mark) -> Entry
    ensures value { entry_parts result ≡ mark_entry chart.now mark }
    ensures words { HasShortWords result }
{
    let stands = has_mark(chart, mark);
    match mark {
        Mark::Tide => patch_entry(b"wa", b"tide", stands),
        Mark::OfWindow(mark) => window_entry(mark, stands),
        Mark::OfSailing(mark) => sailing_entry(chart, mark, stands),
        Mark::WholeFleet => patch_entry(b"fu", b"whole fleet held", stands),
    }
}

/// Puts the entries of the marks that the picture has, and then others, from here on.
fn put_marks<W: Writer>(out: &mut W, chart: &Chart, at: LegendPlace, marks: &[Mark], more: &[Entry])
    requires x { at.x ≤ 10_000 }
    requires y { at.y + 16 * length marks.now + 16 * length more.now ≤ 9_000 }
    requires words { All HasShortWords more.now }
    ensures { Puts (legend_from at (mark_entries chart.now marks.now ++ legend_parts more.now)) (W.state out.old) (W.state out.new) }
{
    match marks {
        [] => put_entries(out, at, more),
        [mark, rest @ ..] => {
            let entry = entry_of(chart, *mark);
            put_entry_where(out, at, entry);
            put_marks(out, chart, next_place(at, entry), rest, more);
        }
    }
}

/// Puts the legend: the marks that the picture has, in a fixed order, and after them others, at most 30.
#[tactic(auto, unfolding(crate::specs::Legends::port_legend))]
pub fn put_port_legend<W: Writer>(out: &mut W, chart: &Chart, more: &[Entry])
    requires few { length more.now ≤ 30 }
    requires words { All HasShortWords more.now }
    ensures { Puts (port_legend chart.now (legend_parts more.now)) (W.state out.old) (W.state out.new) }
{
    put_marks(
        out,
        chart,
        legend_begin(),
        &[
            Mark::Tide,
            Mark::OfSailing(SailingMark::Passes),
            Mark::OfWindow(WindowMark::MaySail),
            Mark::OfWindow(WindowMark::FullDraft),
            Mark::OfWindow(WindowMark::CouldMove),
            Mark::OfWindow(WindowMark::Outgoing),
            Mark::OfWindow(WindowMark::Incoming),
            Mark::OfSailing(SailingMark::HoldsTugs),
            Mark::OfSailing(SailingMark::TugsTurn),
            Mark::OfSailing(SailingMark::MustWait),
            Mark::OfSailing(SailingMark::WaitsOn),
            Mark::WholeFleet,
            Mark::OfSailing(SailingMark::AtLimit),
            Mark::OfSailing(SailingMark::BelowFull),
            Mark::OfWindow(WindowMark::Closed),
        ],
        more,
    );
}
