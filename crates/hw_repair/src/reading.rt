//! Reading a plan, line by line.

ghost use Rattle.std.specs.Prelude.{◌≡◌, ◌≤◌, ◌<◌, ◌+◌, IfOk};
ghost use Rattle.hw_text.specs.Parts.{parts_of};
ghost use Rattle.hw_plan_texts.specs.Reading.{TextReadGives};
ghost use Rattle.hw_repair.specs.Text.{withdrawn_at, opening_at, wish_at, wishes_at, plan_of, plan_text};
ghost use Rattle.hw_repair.specs.Wishes.{PlanFits};

use crate::fault::{PlanFault, PlanWord};
use crate::forms::{is_large, wish_of, withdrawn_of};
use crate::plan::{Plan, Wish};
use hw_flat::Flat;
use hw_model::{Rule, ShipId};
use hw_plan_texts::{LineFault, line_of, only};
use hw_text::{is_end, is_text};
use std::alloc::Global;

/// What stands before the ships' lines: the tugs withdrawn, the number of the first ship's line, and
/// the bytes from there on.
struct Opening<'b> {
    withdrawn: u32,
    first: u32,
    rest: &'b [u8],
}

/// The tugs withdrawn, in the second line.
#[tactic(auto, unfolding(crate::specs::Text::withdrawn_at))]
fn withdrawn_line<'b>(bytes: &'b [u8], rules: &[Rule]) -> Result<Opening<'b>, PlanFault>
    ensures { TextReadGives (λ x. (x.withdrawn, x.first, parts_of 10 x.rest.now)) result (withdrawn_at rules.now (parts_of 10 bytes.now)) }
{
    let (line, rest) = line_of(bytes, 2, PlanWord::Fleet)?;
    let Some(withdrawn) = withdrawn_of(line, rules) else {
        return Err(LineFault::Line {
            number: 2,
            word: PlanWord::Fleet,
        });
    };
    Ok(Opening {
        withdrawn,
        first: 3,
        rest,
    })
}

/// The lines of either version before those of the ships.
#[tactic(auto, unfolding(crate::specs::Text::opening_at))]
fn opening_of<'b>(bytes: &'b [u8], rules: &[Rule]) -> Result<Opening<'b>, PlanFault>
    ensures { TextReadGives (λ x. (x.withdrawn, x.first, parts_of 10 x.rest.now)) result (opening_at rules.now (parts_of 10 bytes.now)) }
{
    let (line, rest) = line_of(bytes, 1, PlanWord::Header)?;
    if is_text(line, b"plan 1") {
        return Ok(Opening {
            withdrawn: 0,
            first: 2,
            rest,
        });
    }
    if is_text(line, b"plan 2") {
        return withdrawn_line(rest, rules);
    }
    Err(LineFault::Line {
        number: 1,
        word: PlanWord::Header,
    })
}

/// The wish of a ship on the next line. Ship 0 has the line `first`.
#[tactic(auto, unfolding(crate::specs::Text::wish_at))]
fn wish_line<'b>(
    bytes: &'b [u8],
    flat: &Flat,
    first: u32,
    ship: ShipId,
) -> Result<(Wish, &'b [u8]), PlanFault>
    requires ship_in { ship < flat.now.ships }
    ensures { TextReadGives (λ x. (x.0, parts_of 10 x.1.now)) result (wish_at flat.now first ship (parts_of 10 bytes.now)) }
{
    let number = u64::from(first) + u64::from(ship);
    let (line, rest) = line_of(bytes, number, PlanWord::Ship)?;
    let Some(wish) = wish_of(line, flat.shape().slots) else {
        return Err(LineFault::Line {
            number,
            word: PlanWord::Ship,
        });
    };
    if is_large(flat, ship) {
        return Err(LineFault::Line {
            number,
            word: PlanWord::Large,
        });
    }
    Ok((wish, rest))
}

/// The wishes of all ships, and the bytes after their lines.
fn wishes_of<'b>(
    alloc: Global,
    bytes: &'b [u8],
    flat: &Flat,
    first: u32,
) -> Result<(Vec<Wish>, &'b [u8]), PlanFault>
    ensures { TextReadGives (λ x. (x.0.items, parts_of 10 x.1.now)) result (wishes_at flat.now first 0 flat.now.ships (parts_of 10 bytes.now)) }
{
    let mut wishes = Vec::new(alloc);
    let mut rest = bytes;
    for ship in 0..flat.shape().ships {
        let (wish, after) = wish_line(rest, flat, first, ship)?;
        wishes.push(wish)?;
        rest = after;
    }
    Ok((wishes, rest))
}

/// The plan that the text spells, or else its first line that isn't of the form demanded at its
/// place, with what was demanded there. Lines are numbered from 1; where the bytes end before a line
/// that is demanded, that line is named. It looks at each byte a few times at most, and at each value
/// of the problem once.
///
/// A plan that was read fits the problem, so that `repaired` takes it.
#[tactic(auto, unfolding(crate::specs::Text::plan_of))]
pub fn read_plan(alloc: Global, bytes: &[u8], flat: &Flat) -> Result<Plan, PlanFault>
    ensures reads { TextReadGives (λ plan. plan) result (plan_text flat.now bytes.now) }
    ensures fits { IfOk result (PlanFits flat.now) }
{
    let Opening {
        withdrawn,
        first,
        rest,
    } = opening_of(bytes, flat.rules())?;
    let (wishes, rest) = wishes_of(alloc, rest, flat, first)?;
    let last = u64::from(first) + u64::from(flat.shape().ships);
    let rest = only(rest, last, PlanWord::Tail, b"end")?;
    if !is_end(rest) {
        return Err(LineFault::Line {
            number: last + 1,
            word: PlanWord::Tail,
        });
    }
    Ok(Plan { withdrawn, wishes })
}
