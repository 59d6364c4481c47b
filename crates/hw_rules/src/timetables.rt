//! Permitted timetables, and the first restriction that a timetable breaks.
ghost use Rattle.std.specs.Prelude.{◌≡◌, ◌↔◌, ◌<◌, IsTrue, IsNone, IfSome, option_map, nat_lt, None, slice_get, if◌then◌else◌, ◌-◌};
ghost use Rattle.hw_model.specs.Problem.{IsTimetable};
ghost use Rattle.hw_model.specs.Rules.{pair_holds, rule_holds, first_overfull};
ghost use Rattle.hw_model.specs.Timetables.{Permits, FirstBroken, breach, restriction_count, restriction_holds, first_broken, overfull_at};
ghost use Rattle.hw_model.specs.Limits.{RuleFits};
ghost use Rattle.hw_rules.specs.Breaches.{breach_parts};

use crate::breach::Breach;
use crate::pair::pair_holds;
use crate::precedence::precedence_holds;
use crate::tugs::{fleet_holds, overfull};
use crate::window::window_holds;
use hw_flat::{Flat, Timetable};
use hw_model::{Rule, Slot};

/// Whether a rule holds where the first of its two ships has the slot `x` and the second `y`.
///
/// It does for every rule on tugs. It looks at `MOST_HOLES` holes at most.
pub fn allowed_pair(flat: &Flat, rule: &Rule, x: Slot, y: Slot) -> bool
    requires rule_fits { RuleFits flat.now.ships rule.now }
    requires first_in { x < flat.now.slots }
    requires second_in { y < flat.now.slots }
    ensures value { result ≡ pair_holds flat.now rule.now x y }
{
    match rule {
        Rule::Pair { holes, .. } => pair_holds(flat, &holes.items, x, y),
        Rule::After { gap, .. } => precedence_holds(flat, *gap, x, y),
        Rule::Tugs { .. } => true,
    }
}

/// The first restriction that a timetable breaks, or none where it is permitted.
///
/// Each rule on tugs costs as many steps as there are slots, times its jobs.
pub fn broken(flat: &Flat, table: &Timetable) -> Option<Breach>
    requires listed { IsTimetable flat.now table.now }
    ensures value { option_map breach_parts result ≡ breach flat.now table.now }
    ensures permitted { IsNone result ↔ Permits flat.now table.now }
    ensures first { IfSome result (λ b. FirstBroken flat.now table.now b.restriction) }
{
    let slots = table.as_slice();
    match first_broken(flat, slots) {
        None => None,
        Some(restriction) => Some(Breach {
            restriction,
            slot: overfull_slot(flat, slots, restriction),
        }),
    }
}

/// Whether no restriction is broken.
pub(crate) fn is_permitted(flat: &Flat, table: &[Slot]) -> bool
    requires listed { IsTimetable flat.now table.now }
    ensures { IsTrue result ↔ Permits flat.now table.now }
{
    first_broken(flat, table).is_none()
}

fn first_broken(flat: &Flat, table: &[Slot]) -> Option<u32>
    requires listed { IsTimetable flat.now table.now }
    ensures value { result ≡ first_broken flat.now table.now }
    ensures numbered { IfSome result (λ n. n < restriction_count flat.now) }
{
    let shape = flat.shape();
    (0..shape.ships + shape.rules).find(|n| !restriction_holds(flat, table, *n))
}

/// Whether the restriction of a number holds: a ship's window, or a rule.
fn restriction_holds(flat: &Flat, table: &[Slot], n: u32) -> bool
    requires listed { IsTimetable flat.now table.now }
    requires numbered { n < restriction_count flat.now }
    ensures value { result ≡ restriction_holds flat.now table.now n }
{
    let ships = flat.shape().ships;
    if n < ships {
        window_holds(flat, n, table[n as usize])
    } else {
        rule_holds(flat, &flat.rules()[(n - ships) as usize], table)
    }
}

fn rule_holds(flat: &Flat, rule: &Rule, table: &[Slot]) -> bool
    requires listed { IsTimetable flat.now table.now }
    requires rule_fits { RuleFits flat.now.ships rule.now }
    ensures value { result ≡ rule_holds flat.now table.now rule.now }
{
    match rule {
        Rule::Pair { v, w, .. } => allowed_pair(flat, rule, table[*v as usize], table[*w as usize]),
        Rule::After { v, w, .. } => allowed_pair(
            flat,
            rule,
            table[*v as usize],
            table[*w as usize],
        ),
        Rule::Tugs { fleet, later, jobs } => fleet_holds(
            flat,
            *fleet,
            &later.items,
            &jobs.items,
            table,
        ),
    }
}

/// The first overfull slot, where the restriction of a number is a rule on tugs.
fn overfull_slot(flat: &Flat, table: &[Slot], n: u32) -> Option<Slot>
    requires listed { IsTimetable flat.now table.now }
    requires numbered { n < restriction_count flat.now }
    ensures value { result ≡ (if nat_lt n flat.now.ships then None else overfull_at flat.now table.now (slice_get flat.now.rules (n - flat.now.ships))) }
{
    let ships = flat.shape().ships;
    if n < ships {
        None
    } else {
        first_overfull(flat, &flat.rules()[(n - ships) as usize], table)
    }
}

fn first_overfull(flat: &Flat, rule: &Rule, table: &[Slot]) -> Option<Slot>
    requires listed { IsTimetable flat.now table.now }
    requires rule_fits { RuleFits flat.now.ships rule.now }
    ensures value { result ≡ first_overfull flat.now rule.now table.now }
{
    match rule {
        Rule::Pair { .. } | Rule::After { .. } => None,
        Rule::Tugs { fleet, later, jobs } => overfull(
            flat,
            *fleet,
            &later.items,
            &jobs.items,
            table,
        ),
    }
}
