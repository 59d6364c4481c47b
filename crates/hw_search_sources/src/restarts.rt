//! After how many lemmas a restart comes: Luby's numbers. What level a turn goes back to.

ghost use Rattle.std.specs.Prelude.{◌≡◌, ◌+◌, ◌≤◌, ◌<◌};
ghost use Rattle.hw_search_laws.specs.Luby.{luby};
ghost use Rattle.hw_search_sources.specs.Powers.{IsPowerAbove};
ghost use Rattle.hw_search_sources.specs.Restarts.{due, NextLevel};

use hw_search_laws::MOST_BUDGET;

fn power_above(i: u64) -> u64
    requires some { 1 ≤ i }
    requires few { i ≤ MOST_BUDGET }
    ensures power { IsPowerAbove i result }
{
    let mut power = 2;
    while power <= i {
        power *= 2;
    }
    power
}

/// The number of a restart, counted from 1: after how many times 32 lemmas it comes. It goes down
/// through numbers that at least halve, and at each through the powers of two up to it: up to 17
/// times 17 steps. It takes no memory.
pub fn luby(i: u64) -> u64
    requires some { 1 ≤ i }
    requires few { i ≤ MOST_BUDGET }
    ensures value { result ≡ luby i }
{
    let mut rest = i;
    let mut power = power_above(rest);
    while rest + 1 != power {
        rest = rest + 1 - power / 2;
        power = power_above(rest);
    }
    power / 2
}

// Whether a restart comes after one more lemma.
fn is_due(restarts: u32, since: u32) -> bool
    requires few { restarts + since < MOST_BUDGET }
    ensures value { result ≡ due restarts since }
{
    let next = since + 1;
    if next % 32 != 0 {
        return false;
    }
    u64::from(next / 32) == luby(u64::from(restarts) + 1)
}

/// The level to go back to: 0 where a restart is due, and the restart is then counted; else the one
/// that was learnt.
pub fn next_level(restarts: &mut u32, since: &mut u32, back: u32) -> u32
    requires few { restarts.old + since.old < MOST_BUDGET }
    ensures next { NextLevel restarts.old since.old back restarts.new since.new result }
{
    if is_due(*restarts, *since) {
        *restarts += 1;
        *since = 0;
        0
    } else {
        *since += 1;
        back
    }
}
