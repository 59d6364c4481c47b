//! How wide the texts of numbers are at most, in the type of names.

ghost use Rattle.std.specs.Prelude.{◌≡◌, ◌<◌, ◌≤◌, decimal};
ghost use Rattle.hw_chart_svg.specs.Numbers.{clock, days, height_text, metres, sign};
ghost use Rattle.hw_chart_svg.specs.Widths.{width_of};
ghost use Rattle.hw_tide.specs.Twelfths.{InLimits};
ghost use Rattle.hw_chart_waters.specs.Labels.{stand_text, water_words};

/// The width of a number in digits.
#[tactic(auto, using(crate::proofs::Widths::one_digit, crate::proofs::Widths::two_digits, crate::proofs::Widths::three_digits, crate::proofs::Widths::four_digits))]
fn number_width(number: u64) -> u64
    requires { number < 10_000 }
    ensures value { result ≡ width_of (decimal number) }
    ensures few { result ≤ 36 }
{
    if number < 10 {
        9
    } else if number / 10 < 10 {
        18
    } else if number / 100 < 10 {
        27
    } else {
        36
    }
}

/// The width of whole days, where there are some.
#[tactic(auto, using(crate::proofs::Widths::days_wide, crate::proofs::Widths::no_days_wide))]
fn days_width(number: u64) -> u64
    requires { number < 10_000 }
    ensures value { result ≡ width_of (days number) }
    ensures few { result ≤ 50 }
{
    if number > 0 {
        number_width(number) + 14
    } else {
        0
    }
}

/// The width of a time of fewer than 10,000 days.
#[tactic(auto, using(crate::proofs::Widths::clock_wide))]
fn clock_width(minutes: u64) -> u64
    requires { minutes < 14_400_000 }
    ensures value { result ≡ width_of (clock minutes) }
    ensures few { result ≤ 91 }
{
    days_width(minutes / 1440) + 41
}

/// The width of a sign.
#[tactic(auto, using(crate::proofs::Widths::sign_wide, crate::proofs::Widths::no_sign_wide))]
fn sign_width(height: i32) -> u64
    ensures value { result ≡ width_of (sign height) }
    ensures few { result ≤ 5 }
{
    if height.is_negative() { 5 } else { 0 }
}

/// The width of a height in metres, which is below 10 kilometres.
#[tactic(auto, using(crate::proofs::Widths::metres_wide))]
fn metres_width(length: u64) -> u64
    requires { length < 1_000_000 }
    ensures value { result ≡ width_of (metres length) }
    ensures few { result ≤ 59 }
{
    number_width(length / 100) + 23
}

/// The width of a height above or below 0.
#[tactic(auto, using(crate::proofs::Widths::height_wide))]
fn height_width(height: i32) -> u64
    requires { InLimits height }
    ensures value { result ≡ width_of (height_text height) }
    ensures few { result ≤ 70 }
{
    sign_width(height) + metres_width(u64::from(height.unsigned_abs()))
}

/// The width of the time and the height of a water.
#[tactic(auto, using(crate::proofs::Widths::words_wide))]
pub fn words_width(time: u64, height: i32) -> u64
    requires time { time < 14_400_000 }
    requires height { InLimits height }
    ensures value { result ≡ width_of (water_words time (height_text height)) }
    ensures few { result ≤ 170 }
{
    clock_width(time) + 5 + height_width(height)
}
