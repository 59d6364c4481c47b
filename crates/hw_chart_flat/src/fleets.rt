//! The fleets of tugs that a picture shows, one after another.

ghost use Rattle.std.specs.Prelude.{◌≡◌, ◌≤◌, ◌<◌, ℕ, [], ◌∷◌, All, IfSome, IsNone, length};
ghost use Rattle.hw_model.specs.Limits.{RuleFits};
ghost use Rattle.hw_chart_flat.specs.Fleets.{first_fleet, fleets, fleets_in, greatest_fleet, has_steps, is_fleet, least_fleet, steps_of};

use hw_flat::Flat;
use hw_model::{Rule, Step};

/// Rules, the place from which they are read, and how many of their fleets a picture still shows.
#[derive(Clone, Copy)]
pub struct Fleets<'f> {
    pub rules: &'f [Rule],
    pub from: usize,
    pub left: u32,
}

/// A rule on tugs, and what comes after it.
#[derive(Clone, Copy)]
pub struct Found<'f> {
    pub rule: &'f Rule,
    pub rest: Fleets<'f>,
}

/// The fleets of a problem: its first eight rules on tugs.
#[tactic(auto, unfolding(crate::specs::Fleets::fleets, crate::specs::Fleets::fleets_in))]
pub(crate) fn fleets_of(flat: &Flat) -> Fleets<'_>
    ensures value { fleets_in result ≡ fleets flat.now }
    ensures rules { All (RuleFits flat.now.ships) result.rules.now }
    ensures few { result.left ≡ 8 }
{
    Fleets {
        rules: flat.rules(),
        from: 0,
        left: 8,
    }
}

/// Whether a rule is one on tugs.
fn is_fleet(rule: &Rule) -> bool
    ensures { result ≡ is_fleet rule.now }
{
    matches!(rule, Rule::Tugs { .. })
}

/// The first fleet and what comes after it, or none where the picture shows no more.
#[tactic(auto, unfolding(crate::specs::Fleets::fleets_in))]
pub(crate) fn next(fleets: Fleets) -> Option<Found>
    ensures found { IfSome result (λ found. fleets_in fleets.entry ≡ found.rule.now ∷ fleets_in found.rest) }
    ensures fewer { IfSome result (λ found. found.rest.left < fleets.entry.left) }
    ensures none { IsNone result → fleets_in fleets.entry ≡ [] }
    ensures rule { (ships : ℕ) → All (RuleFits ships) fleets.entry.rules.now → IfSome result (λ found. RuleFits ships found.rule.now) }
    ensures rest { IfSome result (λ found. found.rest.rules.now ≡ fleets.entry.rules.now) }
{
    if fleets.left == 0 {
        return None;
    }
    let left = fleets.left - 1;
    let rules = fleets.rules;
    for place in fleets.from..rules.len() {
        let rule = &rules[place];
        if is_fleet(rule) {
            let from = place + 1;
            let rest = Fleets { rules, from, left };
            return Some(Found { rule, rest });
        }
    }
    None
}

/// How many fleets there are still.
pub(crate) fn count(fleets: Fleets) -> u32
    ensures value { result ≡ length (fleets_in fleets.entry) }
    ensures few { result ≤ fleets.entry.left }
{
    match next(fleets) {
        None => 0,
        Some(found) => count(found.rest) + 1,
    }
}

/// The tugs with which a rule's fleet begins.
pub(crate) fn fleet_size(rule: &Rule) -> u32
    ensures { result ≡ first_fleet rule.now }
{
    match rule {
        Rule::Pair { .. } | Rule::After { .. } => 0,
        Rule::Tugs { fleet, .. } => *fleet,
    }
}

/// The steps that follow.
pub(crate) fn steps(rule: &Rule) -> &[Step]
    ensures { result.now ≡ steps_of rule.now }
{
    match rule {
        Rule::Pair { .. } | Rule::After { .. } => &[],
        Rule::Tugs { later, .. } => &later.items,
    }
}

/// Whether the fleet hasn't one number of tugs for all slots.
pub(crate) fn has_steps(rule: &Rule) -> bool
    ensures { result ≡ has_steps rule.now }
{
    !steps(rule).is_empty()
}

/// The greatest number of tugs of a fleet that begins so and has these steps.
pub(crate) fn greatest_fleet(fleet: u32, later: &[Step]) -> u32
    ensures { result ≡ greatest_fleet fleet later.now }
{
    match later {
        [] => fleet,
        [step, more @ ..] => fleet.max(greatest_fleet(step.fleet, more)),
    }
}

/// And the least one.
pub(crate) fn least_fleet(fleet: u32, later: &[Step]) -> u32
    ensures { result ≡ least_fleet fleet later.now }
{
    match later {
        [] => fleet,
        [step, more @ ..] => fleet.min(least_fleet(step.fleet, more)),
    }
}
