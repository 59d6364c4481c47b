//! The rule of twelfths.

ghost use Rattle.std.specs.Prelude.{◌≡◌, ◌<◌, ◌≤◌, ◌*◌, ◌≤ℤ◌, ◌*ℤ◌, ◌+ℤ◌, ◌-ℤ◌, pos, neg_ℤ};
ghost use Rattle.std.specs.Int.{int_div_euclid};
ghost use Rattle.hw_tide.specs.Twelfths.{done, InLimits, IsStep, height_between as between};

const DONE_BEFORE: [u32; 7] = [0, 1, 3, 6, 9, 11, 12];

const DONE_IN: [u32; 6] = [1, 2, 3, 3, 2, 1];

/// The part of the way that is done, of `12 * size`.
fn part(past: u32, size: u32) -> u32
    requires room { size ≤ 2047 }
    requires inside { past < size }
    ensures value { result ≡ done past size }
    ensures bound { result ≤ 12 * size }
{
    let sixths = 6 * past;
    let sixth = (sixths / size) as usize;
    DONE_BEFORE[sixth] * size + DONE_IN[sixth] * (sixths % size)
}

fn quotient(rise: i32, part: i32, whole: i32) -> i32
    requires low { neg_ℤ (pos 4000) ≤ℤ rise }
    requires high { rise ≤ℤ pos 4000 }
    requires part { pos 0 ≤ℤ part }
    requires below { part ≤ℤ whole }
    requires some { pos 1 ≤ℤ whole }
    requires room { whole ≤ℤ pos 24564 }
    ensures { result ≡ int_div_euclid (rise *ℤ part) whole }
{
    (rise * part).div_euclid(whole)
}

/// A part of a rise, `part` of `whole`, rounded down.
fn step(rise: i32, part: i32, whole: i32) -> i32
    requires low { neg_ℤ (pos 4000) ≤ℤ rise }
    requires high { rise ≤ℤ pos 4000 }
    requires part { pos 0 ≤ℤ part }
    requires below { part ≤ℤ whole }
    requires some { pos 1 ≤ℤ whole }
    requires room { whole ≤ℤ pos 24564 }
    ensures value { result ≡ int_div_euclid (rise *ℤ part) whole }
    ensures within { IsStep rise result }
{
    quotient(rise, part, whole)
}

fn signed(n: u32) -> i32
    requires { n ≤ 24564 }
    ensures { result ≡ pos n }
{
    n as i32
}

fn rise_of(low: i32, high: i32) -> i32
    requires low { InLimits low }
    requires high { InLimits high }
    ensures value { result ≡ high -ℤ low }
    ensures low_end { neg_ℤ (pos 4000) ≤ℤ result }
    ensures high_end { result ≤ℤ pos 4000 }
{
    high - low
}

fn moved(low: i32, high: i32, step: i32) -> i32
    requires low { InLimits low }
    requires high { InLimits high }
    requires step { IsStep (high -ℤ low) step }
    ensures value { result ≡ low +ℤ step }
    ensures limits { InLimits result }
{
    low + step
}

pub fn height_between(low: i32, high: i32, past: u32, size: u32) -> i32
    requires room { size ≤ 2047 }
    requires inside { past < size }
    requires low { InLimits low }
    requires high { InLimits high }
    ensures value { result ≡ between low high past size }
    ensures limits { InLimits result }
{
    let rise = rise_of(low, high);
    let whole = signed(12 * size);
    let done = signed(part(past, size));
    moved(low, high, step(rise, done, whole))
}
