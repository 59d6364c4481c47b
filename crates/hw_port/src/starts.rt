//! The text of a date and a time.

ghost use Rattle.std.specs.Prelude.{◌≡◌, ◌≤◌, ◌<◌, ◌+◌, length};
ghost use Rattle.hw_text.specs.Numbers.{is_digit as digit};
ghost use Rattle.hw_port.specs.Starts.{is_leap as leap, days_of_month as month_days, is_day as day_there, are_digits as digits_at, pair_at, year_of, has_digits as digits_in, has_marks as marks_in, is_start as starts};

fn is_leap(year: u32) -> bool
    ensures { result ≡ leap year }
{
    year % 4 == 0 && (year % 100 != 0 || year % 400 == 0)
}

/// The days of a month, counted from 1, of a year.
pub fn days_of_month(year: u32, month: u32) -> u32
    ensures value { result ≡ month_days year month }
    ensures few { result ≤ 31 }
{
    match month {
        2 => { if is_leap(year) { 29 } else { 28 } }
        4 | 6 | 9 | 11 => 30,
        _ => 31,
    }
}

fn is_day(year: u32, month: u32, day: u32) -> bool
    ensures { result ≡ day_there year month day }
{
    1970 <= year && (1 <= month && month <= 12) && (1 <= day && day <= days_of_month(year, month))
}

fn is_digit(byte: u8) -> bool
    ensures { result ≡ digit byte }
{
    48 <= byte && byte <= 57
}

fn are_digits(text: &[u8], place: usize) -> bool
    requires { place + 1 < length text.now }
    ensures { result ≡ digits_at text.now place }
{
    is_digit(text[place]) && is_digit(text[place + 1])
}

/// The number that two digits of a text spell, the first one at this place.
pub fn pair_at(text: &[u8], place: usize) -> u32
    requires { place + 1 < length text.now }
    ensures value { result ≡ pair_at text.now place }
    ensures few { result ≤ 2277 }
{
    let tens = text[place].saturating_sub(48);
    let ones = text[place + 1].saturating_sub(48);
    10 * u32::from(tens) + u32::from(ones)
}

fn has_digits(text: &[u8]) -> bool
    requires { length text.now ≡ 16 }
    ensures { result ≡ digits_in text.now }
{
    are_digits(text, 0)
        && are_digits(text, 2)
        && are_digits(text, 5)
        && are_digits(text, 8)
        && are_digits(text, 11)
        && are_digits(text, 14)
}

fn has_marks(text: &[u8]) -> bool
    requires { length text.now ≡ 16 }
    ensures { result ≡ marks_in text.now }
{
    text[4] == b'-' && text[7] == b'-' && text[10] == b' ' && text[13] == b':'
}

/// Whether the numbers of a text are those of a day that exists.
fn has_day(text: &[u8]) -> bool
    requires { length text.now ≡ 16 }
    ensures { result ≡ day_there (year_of text.now) (pair_at text.now 5) (pair_at text.now 8) }
{
    let year = 100 * pair_at(text, 0) + pair_at(text, 2);
    is_day(year, pair_at(text, 5), pair_at(text, 8))
}

/// Whether a text is that of a date and a time, as `2027-03-27 15:00`. It takes no memory.
pub fn is_start(text: &[u8]) -> bool
    ensures { result ≡ starts text.now }
{
    text.len() == 16
        && (has_digits(text)
            && has_marks(text)
            && (has_day(text) && (pair_at(text, 11) < 24 && pair_at(text, 14) < 60)))
}
