//! The grid over the plot: marks on its axis, and lines down the picture.

ghost use Rattle.std.specs.Prelude.{◌≡◌, ◌^◌, ◌<◌, IsTrue, nat_lt};
ghost use Rattle.std.specs.Int.{div_ceil};
ghost use Rattle.std.specs.List.{list_all};
ghost use Rattle.hw_desk.specs.Writers.{Puts};
ghost use Rattle.hw_chart_svg.specs.Pieces.{picture_pieces_text};
ghost use Rattle.hw_chart.specs.Grids.{axis_of, caption_text, grid, line_path, line_paths, mark, axis_mark_class, mark_text, marks, span_end, step_among, step_of, total_of};

use crate::layout::place;
use hw_chart_svg::{Piece, put_line, put_pieces, put_shape, put_shape_begin};
use hw_desk::Writer;

/// What the axis counts: minutes, this many to a slot, or slots.
#[derive(Clone, Copy)]
pub enum Scale {
    Minutes(u32),
    Slots,
}

/// How many minutes there may be from one mark to the next.
pub const MINUTES: [u32; 21] = [
    1, 2, 5, 10, 15, 30, 60, 120, 180, 240, 360, 720, 1440, 2880, 5760, 11520, 23040, 46080, 92160,
    184320, 368640,
];

/// How many slots there may be from one mark to the next.
pub const SLOTS: [u32; 8] = [1, 2, 5, 10, 20, 50, 100, 200];

/// An axis: what it counts, how much in all and from one mark to the next, and where the plot ends below it.
#[derive(Clone, Copy)]
pub struct Axis {
    pub scale: Scale,
    pub total: u32,
    pub step: u32,
    pub bottom: u32,
}

/// The first step by which at most twelve marks stand on an axis, 1 where none is large enough.
fn first_step(steps: &[u32], total: u32) -> u32
    requires { IsTrue (list_all (λ step. nat_lt 0 step) steps.now) }
    ensures value { result ≡ step_among steps.now total }
    ensures some { 0 < result }
{
    match steps {
        [] => 1,
        [step, rest @ ..] => {
            if u64::from(total) <= 12 * u64::from(*step) {
                *step
            } else {
                first_step(rest, total)
            }
        }
    }
}

/// The step from one mark to the next, by which at most twelve stand on an axis that counts this much.
pub fn step(scale: Scale, total: u32) -> u32
    ensures value { result ≡ step_of scale total }
    ensures some { 0 < result }
{
    match scale {
        Scale::Minutes(_) => first_step(&MINUTES, total),
        Scale::Slots => first_step(&SLOTS, total),
    }
}

/// How much an axis over this many slots counts.
fn total(scale: Scale, span: u32) -> u32
    requires { total_of scale span < 2 ^ 32 }
    ensures { result ≡ total_of scale span }
{
    match scale {
        Scale::Minutes(minutes) => span * minutes,
        Scale::Slots => span,
    }
}

/// The axis over this many slots.
fn axis_over(scale: Scale, span: u32, bottom: u32) -> Axis
    requires { total_of scale span < 2 ^ 32 }
    ensures value { result ≡ axis_of scale span bottom }
    ensures some { 0 < result.step }
{
    let total = total(scale, span);
    Axis {
        scale,
        total,
        step: step(scale, total),
        bottom,
    }
}

/// Puts the path of the line at a mark.
pub fn put_line_path<W: Writer>(out: &mut W, axis: Axis, at: u32)
    requires { at < axis.total }
    ensures { Puts (line_path axis at) (W.state out.old) (W.state out.new) }
{
    let x = place(u64::from(at), u64::from(axis.total));
    put_pieces(
        out,
        &[
            Piece::Word(b"M"),
            Piece::Number(x),
            Piece::Word(b" 120V"),
            Piece::Number(u64::from(axis.bottom) + 4),
        ],
    );
}

/// Puts the paths of the lines at all marks.
#[tactic(auto, using(crate::proofs::Onward::mark_below))]
fn put_line_paths<W: Writer>(out: &mut W, axis: Axis)
    requires { 0 < axis.step }
    ensures { Puts (line_paths axis 0 (div_ceil axis.total axis.step)) (W.state out.old) (W.state out.new) }
{
    let count = axis.total.div_ceil(axis.step);
    for i in 0..count {
        put_line_path(out, axis, i * axis.step);
    }
}

/// The class of a mark: whole days stand out.
fn class_of_mark(scale: Scale, at: u32) -> &'static [u8]
    ensures { result.now ≡ axis_mark_class scale at }
{
    match scale {
        Scale::Minutes(_) => {
            if at > 0 && at % 1440 == 0 {
                b"b c"
            } else {
                b"m c"
            }
        }
        Scale::Slots => b"m c",
    }
}

/// What a mark says, in two pieces: a whole day, a time of a day, or a slot.
fn pieces_of_mark(scale: Scale, at: u32) -> [Piece<'static>; 2]
    ensures { picture_pieces_text result ≡ mark_text scale at }
{
    let at = u64::from(at);
    match scale {
        Scale::Minutes(_) => {
            if at > 0 && at % 1440 == 0 {
                [Piece::Number(at / 1440), Piece::Word(b"d")]
            } else {
                [Piece::Clock(at % 1440), Piece::Word(b"")]
            }
        }
        Scale::Slots => [Piece::Number(at), Piece::Word(b"")],
    }
}

/// Puts a mark, above the plot and below it.
fn put_mark<W: Writer>(out: &mut W, axis: Axis, at: u32)
    requires { at < axis.total }
    ensures { Puts (mark axis at) (W.state out.old) (W.state out.new) }
{
    let x = place(u64::from(at), u64::from(axis.total));
    let class = class_of_mark(axis.scale, at);
    let says = pieces_of_mark(axis.scale, at);
    put_line(out, class, x, 116, &says);
    put_line(out, class, x, u64::from(axis.bottom) + 16, &says);
}

/// Puts all marks.
#[tactic(auto, using(crate::proofs::Onward::mark_below))]
fn put_marks<W: Writer>(out: &mut W, axis: Axis)
    requires { 0 < axis.step }
    ensures { Puts (marks axis 0 (div_ceil axis.total axis.step)) (W.state out.old) (W.state out.new) }
{
    let count = axis.total.div_ceil(axis.step);
    for i in 0..count {
        put_mark(out, axis, i * axis.step);
    }
}

/// What the axis counts, in words.
fn caption(scale: Scale) -> &'static [u8]
    ensures { result.now ≡ caption_text scale }
{
    match scale {
        Scale::Minutes(_) => b"hours from slot 0",
        Scale::Slots => b"slot",
    }
}

/// Puts the grid over this many slots: what its axis counts, lines down the picture to below `bottom`, and their marks.
pub fn put_grid<W: Writer>(out: &mut W, scale: Scale, span: u32, bottom: u32)
    requires { total_of scale span < 2 ^ 32 }
    ensures { Puts (grid scale span bottom) (W.state out.old) (W.state out.new) }
{
    let axis = axis_over(scale, span, bottom);
    put_line(out, b"m", 16, 116, &[Piece::Word(caption(scale))]);
    put_shape_begin(out, b"ln");
    put_line_paths(out, axis);
    out.put(b"\"/>\n");
    put_marks(out, axis);
}

/// Puts the line at the end of the slots in which ships sail, where the picture goes on beyond it.
pub fn put_span_end<W: Writer>(out: &mut W, slots: u32, span: u32, bottom: u32)
    ensures { Puts (span_end slots span bottom) (W.state out.old) (W.state out.new) }
{
    if slots < span {
        put_shape(
            out,
            b"hz",
            &[
                Piece::Word(b"M"),
                Piece::Number(place(u64::from(slots), u64::from(span))),
                Piece::Word(b" 120V"),
                Piece::Number(u64::from(bottom) + 4),
            ],
        );
    } else {
        out.put(b"");
    }
}
