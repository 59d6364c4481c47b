//! The legend of a picture: it names the marks that stand there.

ghost use Rattle.std.specs.Prelude.{◌≡◌, ◌≤◌, ◌+◌, ◌*◌, All, length};
ghost use Rattle.hw_desk.specs.Writers.{Puts};
ghost use Rattle.hw_chart.specs.Legends.{HasShortWords, entry_parts, place_of_entry, entry_text, entry_where, entry_width, legend_begin as first_place, legend_from, legend_parts, next_place as place_of_next, place_beside, sample_text};

use hw_chart_svg::{
    Area, Piece, Window, put_block, put_line, put_svg_end, put_window_begin, small_width,
};
use hw_desk::Writer;

/// What stands before the words of an entry: a patch of the mark's colour, a patch of three stripes, or a sign in the type of
/// a figure.
#[derive(Clone, Copy)]
pub enum Sample {
    Patch,
    Stripes,
    Figure,
}

/// An entry of the legend: a sample of a mark of a class, what such a mark says, and whether one is in the picture.
#[derive(Clone, Copy)]
pub struct Entry {
    pub sample: Sample,
    pub class: &'static [u8],
    pub says: &'static [u8],
    pub stands: bool,
}

/// Where an entry begins.
#[derive(Clone, Copy)]
pub struct LegendPlace {
    pub x: u64,
    pub y: u64,
}

/// Where the first entry begins.
pub fn legend_begin() -> LegendPlace
    ensures value { result ≡ first_place }
    ensures x { result.x ≡ 16 }
    ensures y { result.y ≡ 69 }
{
    LegendPlace { x: 16, y: 69 }
}

/// Puts a patch of a class.
fn put_patch<W: Writer>(out: &mut W, class: &[u8], at: LegendPlace)
    requires x { at.x ≤ 10_000 }
    requires y { at.y ≤ 10_000 }
    ensures { Puts (sample_text Sample.Patch class.now at) (W.state out.old) (W.state out.new) }
{
    let area = Area {
        left: at.x,
        right: at.x + 10,
        top: at.y,
        bottom: at.y + 10,
    };
    put_block(out, class, area);
}

/// Puts a patch of three stripes.
fn put_stripes<W: Writer>(out: &mut W, class: &[u8], at: LegendPlace)
    ensures { Puts (sample_text Sample.Stripes class.now at) (W.state out.old) (W.state out.new) }
{
    let patch = Window {
        x: at.x,
        y: at.y,
        width: 10,
        height: 10,
        across: 3,
        down: 1,
    };
    let stripes = Area {
        left: 0,
        right: 3,
        top: 0,
        bottom: 1,
    };
    put_window_begin(out, patch);
    put_block(out, class, stripes);
    put_svg_end(out);
}

/// Puts what stands before the words of an entry.
fn put_sample<W: Writer>(out: &mut W, sample: Sample, class: &[u8], at: LegendPlace)
    requires x { at.x ≤ 10_000 }
    requires y { at.y ≤ 10_000 }
    ensures { Puts (sample_text sample class.now at) (W.state out.old) (W.state out.new) }
{
    match sample {
        Sample::Patch => put_patch(out, class, at),
        Sample::Stripes => put_stripes(out, class, at),
        Sample::Figure => put_line(out, class, at.x, at.y + 9, &[Piece::Word(b"#")]),
    }
}

/// Puts an entry at its place.
fn put_entry<W: Writer>(out: &mut W, entry: Entry, at: LegendPlace)
    requires x { at.x ≤ 10_000 }
    requires y { at.y ≤ 10_000 }
    ensures { Puts (entry_text (entry_parts entry) at) (W.state out.old) (W.state out.new) }
{
    put_sample(out, entry.sample, entry.class, at);
    put_line(out, b"m", at.x + 14, at.y + 9, &[Piece::Word(entry.says)]);
}

/// How wide an entry is.
fn width(entry: Entry) -> u64
    requires { HasShortWords entry }
    ensures value { result ≡ entry_width (entry_parts entry) }
    ensures few { result ≤ 800 }
{
    small_width(entry.says) + 14
}

/// Where an entry of this width stands.
fn place(at: LegendPlace, width: u64) -> LegendPlace
    requires x { at.x ≤ 10_000 }
    requires y { at.y ≤ 10_000 }
    requires few { width ≤ 800 }
    ensures value { result ≡ place_of_entry at width }
    ensures inside { result.x + width ≤ 1_268 }
    ensures line { result.y ≤ at.y + 16 }
{
    if at.x + width > 1_268 {
        LegendPlace {
            x: 16,
            y: at.y + 16,
        }
    } else {
        at
    }
}

/// Where the next entry might begin after one that might begin here.
pub fn next_place(at: LegendPlace, entry: Entry) -> LegendPlace
    requires x { at.x ≤ 10_000 }
    requires y { at.y ≤ 10_000 }
    requires words { HasShortWords entry }
    ensures value { result ≡ place_of_next at (entry_parts entry) }
    ensures inside { result.x ≤ 10_000 }
    ensures line { result.y ≤ at.y + 16 }
{
    if !entry.stands {
        return at;
    }
    let width = width(entry);
    let own = place(at, width);
    LegendPlace {
        x: own.x + width + 12,
        y: own.y,
    }
}

/// Puts an entry that might begin here, if it stands.
pub fn put_entry_where<W: Writer>(out: &mut W, at: LegendPlace, entry: Entry)
    requires x { at.x ≤ 10_000 }
    requires y { at.y ≤ 9_000 }
    requires words { HasShortWords entry }
    ensures { Puts (entry_where at (entry_parts entry)) (W.state out.old) (W.state out.new) }
{
    if entry.stands {
        put_entry(out, entry, place(at, width(entry)));
    } else {
        out.put(b"");
    }
}

/// Puts those of the entries that stand, from here on.
pub fn put_entries<W: Writer>(out: &mut W, at: LegendPlace, entries: &[Entry])
    requires x { at.x ≤ 10_000 }
    requires y { at.y + 16 * length entries.now ≤ 9_000 }
    requires words { All HasShortWords entries.now }
    ensures { Puts (legend_from at (legend_parts entries.now)) (W.state out.old) (W.state out.new) }
{
    if let [entry, rest @ ..] = entries {
        put_entry_where(out, at, *entry);
        put_entries(out, next_place(at, *entry), rest);
    }
}
