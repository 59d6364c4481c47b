//! Parts of a problem.

ghost use Rattle.std.specs.Prelude.{◌≡◌, ◌<◌, ◌≤◌, ◌++◌, ◌&&◌, ◌||◌, IfOk, OnOk, All, length, is_none, if◌then◌else◌, Some, None};
ghost use Rattle.std.specs.List.Sorted.{IsStrictlyIncreasing};
ghost use Rattle.hw_plan_texts.specs.Grids.{row_of, grid_of_values};
ghost use Rattle.hw_clash.specs.Parts.{part_value, rules_in, part};
ghost use Rattle.hw_lemmas.specs.Lists.{has};
ghost use Rattle.hw_clash.specs.Wished.{wished_count};

use crate::wished::{WishedFlat, is_refused};
use hw_flat::Flat;
use hw_model::{MOST_RULES, MOST_SHIPS, NoMemory, Rule, ShipId};
use hw_plan_texts::copy_rule;
use std::alloc::{AllocError, Global};

/// Whether a restriction is kept, by a binary search.
fn has(kept: &[u32], n: u32) -> bool
    requires ascending { IsStrictlyIncreasing kept.now }
    ensures { result ≡ has kept.now n }
{
    kept.binary_search(&n).is_ok()
}

/// The value of a ship in a slot, by whether its window is kept, by the problem's value there, and by
/// whether its wish is kept and refuses the slot.
fn part_value(is_kept: bool, value: Option<u64>, is_refused: bool) -> Option<u64>
    ensures { result ≡ (if (is_kept && is_none value) || is_refused then None else Some 0) }
{
    if (is_kept && value.is_none()) || is_refused {
        None
    } else {
        Some(0)
    }
}

/// Appends the values of a ship: none where its window is kept and the problem has no value, or its
/// wish is kept and refuses the slot.
fn put_row(
    out: &mut Vec<Option<u64>>,
    wished: &WishedFlat,
    kept: &[u32],
    ship: ShipId,
) -> Result<(), AllocError>
    requires ascending { IsStrictlyIncreasing kept.now }
    requires ship_in { ship < wished.now.problem.ships }
    ensures { OnOk result (out.new.items ≡ out.old.items ++ row_of (part_value wished.now kept.now) wished.now.problem.slots ship) }
{
    let is_kept = has(kept, ship);
    let is_wished = has(kept, wished.wish_number(ship));
    let wish = wished.wish(ship);
    for slot in 0..wished.shape().slots {
        let value = wished.value(ship, slot);
        let refused = is_refused(is_wished, wish, slot);
        out.push(part_value(is_kept, value, refused))?;
    }
    Ok(())
}

/// The values of all ships.
fn values_of(
    alloc: Global,
    wished: &WishedFlat,
    kept: &[u32],
) -> Result<Vec<Option<u64>>, AllocError>
    requires ascending { IsStrictlyIncreasing kept.now }
    ensures { IfOk result (λ values. values.items ≡ grid_of_values (part_value wished.now kept.now) wished.now.problem.ships wished.now.problem.slots) }
{
    let mut values = Vec::new(alloc);
    for ship in 0..wished.shape().ships {
        put_row(&mut values, wished, kept, ship)?;
    }
    Ok(values)
}

/// The kept rules, in order; the first one of these has the number `first`.
fn rules_of(alloc: Global, rules: &[Rule], kept: &[u32], first: u32) -> Result<Vec<Rule>, NoMemory>
    requires ascending { IsStrictlyIncreasing kept.now }
    requires few { length rules.now ≤ MOST_RULES }
    requires small { first ≤ MOST_SHIPS }
    ensures { IfOk result (λ list. list.items ≡ rules_in kept.now first rules.now) }
{
    let mut list = Vec::new(alloc);
    for (place, rule) in rules.iter().enumerate() {
        if has(kept, first + place as u32) {
            list.push(copy_rule(alloc, rule)?)?;
        }
    }
    Ok(list)
}

/// The problem made of these values and rules, which keeps its limits.
fn assembled(wished: &WishedFlat, kept: &[u32], values: Vec<Option<u64>>, rules: Vec<Rule>) -> Flat
    requires values { values.items ≡ grid_of_values (part_value wished.now kept.now) wished.now.problem.ships wished.now.problem.slots }
    requires rules { rules.items ≡ rules_in kept.now wished.now.problem.ships wished.now.problem.rules }
    ensures { result ≡ part wished.now kept.now }
{
    let shape = wished.shape();
    Flat {
        ships: shape.ships,
        slots: shape.slots,
        stay: wished.may_stay(),
        values,
        rules,
    }
}

/// The part of a problem with wishes that keeps these restrictions. They ascend, and there may be
/// none. A ship's value is none where its window is kept and the problem has none there, and where
/// its wish is kept and refuses the slot; it is 0 elsewhere. The kept rules stand in order, so they
/// have new numbers in the part.
///
/// It takes the time and the memory of a copy of the problem.
pub fn part(alloc: Global, wished: &WishedFlat, kept: &[u32]) -> Result<Flat, NoMemory>
    requires numbered { All (λ n. n < wished_count wished.now) kept.now }
    requires ascending { IsStrictlyIncreasing kept.now }
    ensures { IfOk result (λ made. made ≡ part wished.now kept.now) }
{
    let values = values_of(alloc, wished, kept)?;
    let rules = rules_of(alloc, wished.rules(), kept, wished.shape().ships)?;
    Ok(assembled(wished, kept, values, rules))
}
