//! Numbers as they are read: tonnes, metres, times.

ghost use Rattle.hw_desk.specs.Writers.{Puts};
ghost use Rattle.hw_chart_svg.specs.Numbers.{clock, days, height_text, metres, sign, tonnes_label, digit_pair};

use hw_desk::Writer;

/// Puts tenths of a tonne as tonnes, with one digit after the point.
#[tactic(auto, unfolding(crate::specs::Numbers::tonnes_label))]
pub fn put_tenths<W: Writer>(out: &mut W, amount: u64)
    ensures { Puts (tonnes_label amount) (W.state out.old) (W.state out.new) }
{
    out.put_number(amount / 10);
    out.put(b".");
    out.put_number(amount % 10);
}

/// Puts centimetres as metres, with two digits after the point.
#[tactic(auto, unfolding(crate::specs::Numbers::metres))]
pub fn put_metres<W: Writer>(out: &mut W, length: u64)
    ensures { Puts (metres length) (W.state out.old) (W.state out.new) }
{
    out.put_number(length / 100);
    out.put(b".");
    out.put_number(length / 10 % 10);
    out.put_number(length % 10);
}

/// Puts the sign of a height below 0.
fn put_sign<W: Writer>(out: &mut W, height: i64)
    ensures { Puts (sign height) (W.state out.old) (W.state out.new) }
{
    if height.is_negative() {
        out.put(b"-");
    } else {
        out.put(b"");
    }
}

/// Puts a height in centimetres as metres, with a sign where it is below 0.
#[tactic(auto, unfolding(crate::specs::Numbers::height_text))]
pub fn put_height<W: Writer>(out: &mut W, height: i64)
    ensures { Puts (height_text height) (W.state out.old) (W.state out.new) }
{
    put_sign(out, height);
    put_metres(out, height.unsigned_abs());
}

/// Puts a number below 100 as two digits.
fn put_two_digits<W: Writer>(out: &mut W, number: u64)
    ensures { Puts (digit_pair number) (W.state out.old) (W.state out.new) }
{
    out.put_number(number / 10);
    out.put_number(number % 10);
}

/// Puts whole days, where there are some.
fn put_days<W: Writer>(out: &mut W, number: u64)
    ensures { Puts (days number) (W.state out.old) (W.state out.new) }
{
    if number > 0 {
        out.put_number(number);
        out.put(b"d ");
    } else {
        out.put(b"");
    }
}

/// Puts minutes as hours and minutes of a day, after the days where there are some.
#[tactic(auto, unfolding(crate::specs::Numbers::clock))]
pub fn put_clock<W: Writer>(out: &mut W, minutes: u64)
    ensures { Puts (clock minutes) (W.state out.old) (W.state out.new) }
{
    put_days(out, minutes / 1440);
    put_two_digits(out, minutes / 60 % 24);
    out.put(b":");
    put_two_digits(out, minutes % 60);
}
