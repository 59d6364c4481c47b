//! Marks at round times of the clock, and lines down the picture.

ghost use Rattle.std.specs.Prelude.{◌≡◌, ◌+◌, ◌-◌, ◌*◌, ◌<◌, ◌≤◌, ◌^◌, codes};
ghost use Rattle.hw_desk.specs.Writers.{Puts};
ghost use Rattle.hw_chart_svg.specs.Numbers.{clock};
ghost use Rattle.hw_chart_svg.specs.Pieces.{picture_pieces_text};
ghost use Rattle.hw_chart_svg.specs.Shapes.{shape};
ghost use Rattle.hw_port.specs.Kept.{IsStart};
ghost use Rattle.hw_port_dates.specs.Dates.{IsDate};
ghost use Rattle.hw_port_dates.specs.Moments.{IsMoment, minute_of_day as minutes_past_midnight};
ghost use Rattle.hw_chart_calendar.specs.Calendars.{all_lines, all_marks, caption, dated_axis as axis_of, dated_grid, dated_mark, day_begins as begins_day, day_words as words_of_date, end_mark as last_mark, first_mark as mark_from, mark_at as place_of_mark, midnight as past_midnight, moment_class as class_of_moment, moment_mark, moment_words as words_of_moment};

use hw_chart::{Axis, Scale, place, put_line_path, step};
use hw_chart_svg::{Piece, put_line, put_shape_begin};
use hw_desk::Writer;
use hw_port_dates::{Date, Moment, moment_after, month_name, weekday_name};

/// The minutes past midnight of a moment.
fn minute_of_day(moment: Moment) -> u32
    requires { IsMoment moment }
    ensures value { result ≡ minutes_past_midnight moment }
    ensures few { result < 1_440 }
{
    60 * moment.hour + moment.minute
}

/// The minutes from midnight to a start, which is the text of a date and a time as `2027-03-27 15:00`.
pub fn midnight(start: &[u8]) -> u32
    requires { IsStart start.now }
    ensures value { result ≡ past_midnight start.now }
    ensures few { result < 1_440 }
{
    minute_of_day(moment_after(start, 0))
}

/// The axis over this many slots, whose marks leave room for dates.
fn dated_axis(minutes: u32, span: u32, bottom: u32) -> Axis
    requires { span * minutes < 2 ^ 31 }
    ensures value { result ≡ axis_of minutes span bottom }
    ensures some { 0 < result.step }
    ensures small { result.total < 2 ^ 31 }
{
    let scale = Scale::Minutes(minutes);
    let total = span * minutes;
    Axis {
        scale,
        total,
        step: step(scale, total + total / 2),
        bottom,
    }
}

/// Which day it is, in pieces.
fn day_words(date: Date) -> [Piece<'static>; 5]
    requires { IsDate date }
    ensures { picture_pieces_text result ≡ words_of_date date }
{
    [
        Piece::Name(weekday_name(date)),
        Piece::Word(b" "),
        Piece::Number(u64::from(date.day)),
        Piece::Word(b" "),
        Piece::Name(month_name(date)),
    ]
}

/// A time of the day, in as many pieces.
fn time_words(minute: u32) -> [Piece<'static>; 5]
    ensures { picture_pieces_text result ≡ clock minute }
{
    [
        Piece::Clock(u64::from(minute)),
        Piece::Word(b""),
        Piece::Word(b""),
        Piece::Word(b""),
        Piece::Word(b""),
    ]
}

/// What a mark says.
fn moment_words(moment: Moment) -> [Piece<'static>; 5]
    requires { IsMoment moment }
    ensures { picture_pieces_text result ≡ words_of_moment moment }
{
    let minute = minute_of_day(moment);
    if minute == 0 {
        day_words(moment.date)
    } else {
        time_words(minute)
    }
}

/// The class of a mark: the beginnings of days stand out.
fn moment_class(moment: Moment) -> &'static [u8]
    requires { IsMoment moment }
    ensures { result.now ≡ class_of_moment moment }
{
    if minute_of_day(moment) == 0 {
        b"b c"
    } else {
        b"m c"
    }
}

/// Puts the mark of a moment, above the plot and below it.
fn put_moment_mark<W: Writer>(out: &mut W, axis: Axis, at: u32, moment: Moment)
    requires total { 0 < axis.total }
    requires kept { IsMoment moment }
    ensures { Puts (moment_mark axis at moment) (W.state out.old) (W.state out.new) }
{
    let x = place(u64::from(at), u64::from(axis.total));
    let class = moment_class(moment);
    let says = moment_words(moment);
    put_line(out, class, x, 116, &says);
    put_line(out, class, x, u64::from(axis.bottom) + 16, &says);
}

/// Puts the mark some minutes after a start.
fn put_dated_mark<W: Writer>(out: &mut W, start: &[u8], axis: Axis, at: u32)
    requires start { IsStart start.now }
    requires inside { at < axis.total }
    ensures { Puts (dated_mark start.now axis at) (W.state out.old) (W.state out.new) }
{
    put_moment_mark(out, axis, at, moment_after(start, at));
}

/// The first mark, counted from midnight.
fn first_mark(start: &[u8], axis: Axis) -> u32
    requires start { IsStart start.now }
    requires some { 0 < axis.step }
    ensures { result ≡ mark_from start.now axis }
{
    midnight(start).div_ceil(axis.step)
}

/// The mark after the last one, counted from midnight.
fn end_mark(start: &[u8], axis: Axis) -> u32
    requires start { IsStart start.now }
    requires some { 0 < axis.step }
    requires small { axis.total < 2 ^ 31 }
    ensures { result ≡ last_mark start.now axis }
{
    (midnight(start) + axis.total).div_ceil(axis.step)
}

/// How many minutes after the start a mark stands.
#[tactic(auto, using(crate::proofs::Onward::mark_inside))]
fn mark_at(start: &[u8], axis: Axis, mark: u32) -> u32
    requires start { IsStart start.now }
    requires some { 0 < axis.step }
    requires small { axis.total < 2 ^ 31 }
    requires first { mark_from start.now axis ≤ mark }
    requires last { mark < last_mark start.now axis }
    ensures value { result ≡ place_of_mark start.now axis mark }
    ensures inside { result < axis.total }
{
    let midnight = midnight(start);
    mark * axis.step - midnight
}

/// Puts the lines at all marks.
fn put_all_lines<W: Writer>(out: &mut W, start: &[u8], axis: Axis)
    requires start { IsStart start.now }
    requires some { 0 < axis.step }
    requires small { axis.total < 2 ^ 31 }
    ensures { Puts (all_lines start.now axis) (W.state out.old) (W.state out.new) }
{
    let first = first_mark(start, axis);
    let end = end_mark(start, axis);
    for mark in first..end {
        put_line_path(out, axis, mark_at(start, axis, mark));
    }
}

/// Puts the lines down the picture.
fn put_line_shape<W: Writer>(out: &mut W, start: &[u8], axis: Axis)
    requires start { IsStart start.now }
    requires some { 0 < axis.step }
    requires small { axis.total < 2 ^ 31 }
    ensures { Puts (shape (codes "ln") (all_lines start.now axis)) (W.state out.old) (W.state out.new) }
{
    put_shape_begin(out, b"ln");
    put_all_lines(out, start, axis);
    out.put(b"\"/>\n");
}

/// Puts all marks.
fn put_all_marks<W: Writer>(out: &mut W, start: &[u8], axis: Axis)
    requires start { IsStart start.now }
    requires some { 0 < axis.step }
    requires small { axis.total < 2 ^ 31 }
    ensures { Puts (all_marks start.now axis) (W.state out.old) (W.state out.new) }
{
    let first = first_mark(start, axis);
    let end = end_mark(start, axis);
    for mark in first..end {
        put_dated_mark(out, start, axis, mark_at(start, axis, mark));
    }
}

/// Puts when the first slot begins.
fn put_caption<W: Writer>(out: &mut W, start: &[u8])
    ensures { Puts (caption start.now) (W.state out.old) (W.state out.new) }
{
    put_line(out, b"m", 16, 116, &[Piece::Name(start)]);
}

/// Puts the grid over this many slots of some minutes, the first of which begins at a start: that start, lines down the
/// picture to below `bottom`, and their marks.
pub fn put_dated_grid<W: Writer>(out: &mut W, start: &[u8], minutes: u32, span: u32, bottom: u32)
    requires start { IsStart start.now }
    requires small { span * minutes < 2 ^ 31 }
    ensures { Puts (dated_grid start.now minutes span bottom) (W.state out.old) (W.state out.new) }
{
    let axis = dated_axis(minutes, span, bottom);
    put_caption(out, start);
    put_line_shape(out, start, axis);
    put_all_marks(out, start, axis);
}
