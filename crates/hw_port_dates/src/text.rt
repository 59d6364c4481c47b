//! The text of a moment, and the names of days and months.

ghost use Rattle.std.specs.Prelude.{◌≡◌, ◌<◌};
ghost use Rattle.hw_desk.specs.Writers.{Puts};
ghost use Rattle.hw_port_dates.specs.Dates.{IsDate};
ghost use Rattle.hw_port_dates.specs.Moments.{IsMoment};
ghost use Rattle.hw_port_dates.specs.Texts.{clock_text, date_text, moment_text, month_name as month_of, two_digits, weekday_name as weekday_of};

use crate::date::{Date, day_number};
use crate::moment::Moment;
use hw_desk::Writer;

/// Puts a number below 100 as two digits.
fn put_two_digits<W: Writer>(out: &mut W, number: u32)
    requires { number < 100 }
    ensures { Puts (two_digits number) (W.state out.old) (W.state out.new) }
{
    let tens = (48 + number / 10) as u8;
    let ones = (48 + number % 10) as u8;
    out.put(&[tens, ones]);
}

/// Puts a date as `2027-03-27`.
fn put_date<W: Writer>(out: &mut W, date: Date)
    requires { IsDate date }
    ensures { Puts (date_text date) (W.state out.old) (W.state out.new) }
{
    out.put_number(u64::from(date.year));
    out.put(b"-");
    put_two_digits(out, date.month);
    out.put(b"-");
    put_two_digits(out, date.day);
}

/// Puts a time of the day as `15:00`.
fn put_clock<W: Writer>(out: &mut W, moment: Moment)
    requires { IsMoment moment }
    ensures { Puts (clock_text moment) (W.state out.old) (W.state out.new) }
{
    put_two_digits(out, moment.hour);
    out.put(b":");
    put_two_digits(out, moment.minute);
}

/// Puts a moment as `2027-03-27 15:00`. A year after 9999 has five digits or more.
pub fn put_moment<W: Writer>(out: &mut W, moment: Moment)
    requires { IsMoment moment }
    ensures { Puts (moment_text moment) (W.state out.old) (W.state out.new) }
{
    put_date(out, moment.date);
    out.put(b" ");
    put_clock(out, moment);
}

/// The name of a date's day of the week, as `Sat`.
pub fn weekday_name(date: Date) -> &'static [u8]
    requires { IsDate date }
    ensures { result.now ≡ weekday_of date }
{
    match day_number(date) % 7 {
        0 => b"Thu",
        1 => b"Fri",
        2 => b"Sat",
        3 => b"Sun",
        4 => b"Mon",
        5 => b"Tue",
        _ => b"Wed",
    }
}

/// The name of a date's month, as `Mar`.
pub fn month_name(date: Date) -> &'static [u8]
    requires { IsDate date }
    ensures { result.now ≡ month_of date }
{
    match date.month {
        1 => b"Jan",
        2 => b"Feb",
        3 => b"Mar",
        4 => b"Apr",
        5 => b"May",
        6 => b"Jun",
        7 => b"Jul",
        8 => b"Aug",
        9 => b"Sep",
        10 => b"Oct",
        11 => b"Nov",
        _ => b"Dec",
    }
}
