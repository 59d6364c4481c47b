//! Copies of rules, also with fewer tugs.

ghost use Rattle.std.specs.Prelude.{◌≡◌, IfOk, map};
ghost use Rattle.hw_plan_texts.specs.Fleets.{lessened_rule, lessened_step};

use hw_model::{Holes, Jobs, NoMemory, Rule, Step, Steps};
use std::alloc::Global;

/// A rule like this one.
pub fn copy_rule(alloc: Global, rule: &Rule) -> Result<Rule, NoMemory>
    ensures { IfOk result (λ r. r ≡ rule.now) }
{
    match rule {
        Rule::Pair { v, w, holes } => {
            let items = Vec::from_slice(alloc, &holes.items)?;
            let holes = Holes { items };
            Ok(Rule::Pair {
                v: *v,
                w: *w,
                holes,
            })
        }
        Rule::After { v, w, gap } => Ok(Rule::After {
            v: *v,
            w: *w,
            gap: *gap,
        }),
        Rule::Tugs { fleet, later, jobs } => {
            let steps = Vec::from_slice(alloc, &later.items)?;
            let later = Steps { items: steps };
            let items = Vec::from_slice(alloc, &jobs.items)?;
            let jobs = Jobs { items };
            Ok(Rule::Tugs {
                fleet: *fleet,
                later,
                jobs,
            })
        }
    }
}

/// The steps with this many tugs fewer in each.
fn lessened_steps(mut later: Steps, withdrawn: u32) -> Steps
    ensures { result ≡ map (lessened_step withdrawn) later }
{
    for step in later.items.iter_mut() {
        *step = Step {
            from: step.from,
            fleet: step.fleet.saturating_sub(withdrawn),
        };
    }
    later
}

/// The rule with this many tugs fewer in its fleet, in each slot.
fn lessened(rule: Rule, withdrawn: u32) -> Rule
    ensures { result ≡ lessened_rule withdrawn rule }
{
    match rule {
        Rule::Pair { v, w, holes } => Rule::Pair { v, w, holes },
        Rule::After { v, w, gap } => Rule::After { v, w, gap },
        Rule::Tugs { fleet, later, jobs } => Rule::Tugs {
            fleet: fleet.saturating_sub(withdrawn),
            later: lessened_steps(later, withdrawn),
            jobs,
        },
    }
}

/// Rules like these, in order, each with this many tugs fewer in its fleet, in each slot.
pub fn lessened_rules(alloc: Global, rules: &[Rule], withdrawn: u32) -> Result<Vec<Rule>, NoMemory>
    ensures { IfOk result (λ list. list.items ≡ map (lessened_rule withdrawn) rules.now) }
{
    let mut list = Vec::with_capacity(alloc, rules.len())?;
    for rule in rules {
        list.push(lessened(copy_rule(alloc, rule)?, withdrawn))?;
    }
    Ok(list)
}
