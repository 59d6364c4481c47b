//! The fleet of a rule on tugs, slot by slot, and its jobs.
//!
//! Wrong bodies that are refused: `the_first_fleet_for_every_slot`, `a_step_one_slot_late`.
ghost use Rattle.std.specs.Prelude.{◌≡◌, ◌≤◌, ℕ};
ghost use Rattle.hw_model.specs.Rules.{fleet_in};
ghost use Rattle.hw_rules.specs.Fleets.{rule_fleet, rule_jobs};

use hw_flat::Rule;
use hw_model::{Job, Slot, Step, fleet_in};
use std::marker::Model;

/// A fleet, for a loop over slots that ascend: the tugs that it has in some slot, and the steps
/// after it.
#[derive(Drop)]
pub struct Fleet<'a> {
    tugs: u32,
    later: &'a [Step],
}

impl<'a> Model for Fleet<'a> {
    ghost use Rattle.hw_rules.specs.Fleets.{FleetFrom};

    ghost Value = { FleetFrom };

    ghost view = { λ f. record { tugs = f.tugs; later = f.later.now } };
}

impl<'a> Fleet<'a> {
    /// A fleet with its steps, before the first slot.
    pub fn new(tugs: u32, later: &'a [Step]) -> Fleet<'a>
        ensures tugs { result.tugs ≡ tugs }
        ensures later { result.later ≡ later.now }
    {
        Fleet { tugs, later }
    }

    /// The tugs in a slot. From then on it knows those of this slot and of later ones. A loop over
    /// ascending slots looks at each step once.
    pub fn tugs_in(&mut self, slot: Slot) -> u32
        ensures value { result ≡ fleet_in self.old.tugs self.old.later slot }
        ensures onward { (s : ℕ) → slot ≤ s → fleet_in self.new.tugs self.new.later s ≡ fleet_in self.old.tugs self.old.later s }
    {
        let steps = self.later;
        let mut tugs = self.tugs;
        let mut place = 0;
        while place < steps.len() && steps[place].from <= slot {
            tugs = steps[place].fleet;
            place += 1;
        }
        self.tugs = tugs;
        self.later = &steps[place..];
        tugs
    }
}

/// The tugs that a rule's fleet has in a slot; none for a rule on two ships.
pub fn rule_fleet(rule: &Rule, slot: Slot) -> u32
    ensures value { result ≡ rule_fleet rule.now slot }
{
    match rule {
        Rule::Pair { .. } | Rule::After { .. } => 0,
        Rule::Tugs { fleet, later, .. } => fleet_in(*fleet, &later.items, slot),
    }
}

/// The jobs of a rule; a rule on two ships has none.
pub fn rule_jobs(rule: &Rule) -> &[Job]
    ensures value { result.now ≡ rule_jobs rule.now }
{
    match rule {
        Rule::Pair { .. } | Rule::After { .. } => &[],
        Rule::Tugs { jobs, .. } => &jobs.items,
    }
}
