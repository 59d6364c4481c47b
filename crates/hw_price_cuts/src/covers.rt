//! Cover inequalities: jobs of which the fleet of a slot can serve at most k at once, violated by the slots chosen so far.
//! See E. Balas, "Facets of the Knapsack Polytope", Mathematical Programming 8, 1975.

use crate::finds::Finds;
use crate::separation::Choices;
use crate::settings::{OVERFILLED, SERVED};
use hw_flat::Slot;
use hw_model::{Job, NoMemory, Rule};
use hw_price_laws::{Toll, Weights};
use hw_rules::Fleet;
use std::alloc::Global;

/// A job, by how often its ship held its tugs in a slot.
#[derive(Clone, Copy)]
struct Load {
    uses: i64,
    tugs: u32,
    place: usize,
}

impl Load {
    /// The more often held first, then the more tugs, then the later job.
    fn rank(self) -> (i64, u32, usize) {
        (
            self.uses.wrapping_neg(),
            u32::MAX - self.tugs,
            usize::MAX - self.place,
        )
    }
}

/// A rule on tugs in a slot.
#[derive(Clone, Copy)]
struct TugSlot<'b> {
    /// The rule's number among the restrictions.
    restriction: u32,
    slot: Slot,
    /// The fleet of that slot.
    fleet: u32,
    jobs: &'b [Job],
}

/// The jobs with this many tugs or more, and this many of the others, those that held theirs most often.
#[derive(Clone, Copy)]
struct Choice {
    tugs: u32,
    others: u32,
}

impl Choice {
    fn takes(self, load: Load, others: u32) -> bool {
        self.tugs <= load.tugs || others < self.others
    }
}

/// What chosen jobs are together.
#[derive(Clone, Copy)]
struct Tally {
    jobs: u32,
    /// How often their ships held their tugs.
    uses: i64,
    /// How many of them have fewer tugs than the choice says, and how many tugs these have.
    others: u32,
    other_tugs: u32,
}

/// Adds covers of each rule on tugs in each slot.
pub(crate) fn find_covers(
    alloc: Global,
    choices: &Choices<'_>,
    finds: &mut Finds,
) -> Result<(), NoMemory> {
    let shape = choices.flat.shape();
    for place in 0..shape.rules {
        if let Rule::Tugs { fleet, later, jobs } = &choices.flat.rules()[place as usize] {
            let mut fleet = Fleet::new(*fleet, &later.items);
            for slot in 0..choices.flat.horizon() {
                let tug_slot = TugSlot {
                    restriction: shape.ships + place,
                    slot,
                    fleet: fleet.tugs_in(slot),
                    jobs: &jobs.items,
                };
                covers_at(alloc, choices, tug_slot, finds)?;
            }
        }
    }
    Ok(())
}

/// Adds the most overfilled cover for each number of ships that can be served together.
fn covers_at(
    alloc: Global,
    choices: &Choices<'_>,
    tug_slot: TugSlot<'_>,
    finds: &mut Finds,
) -> Result<(), NoMemory> {
    let loads = loads(alloc, choices, tug_slot)?;
    for most in 1..SERVED + 1 {
        if let Some((over, choice)) = best_choice(choices.counts.steps, tug_slot, &loads, most) {
            let toll = Toll::Tugs {
                restriction: tug_slot.restriction,
                slot: tug_slot.slot,
                weights: weights(alloc, tug_slot.jobs.len(), &loads, choice)?,
                most,
            };
            finds.add(over, toll)?;
        }
    }
    Ok(())
}

/// The jobs, those first whose ships hold their tugs in the slot most often.
fn loads(
    alloc: Global,
    choices: &Choices<'_>,
    tug_slot: TugSlot<'_>,
) -> Result<Vec<Load>, NoMemory> {
    let mut out = Vec::new(alloc);
    for (place, job) in tug_slot.jobs.iter().enumerate() {
        let from = tug_slot.slot.saturating_sub(job.hold.saturating_sub(1));
        out.push(Load {
            uses: choices.counts.within(job.ship, from, tug_slot.slot),
            tugs: job.tugs,
            place,
        })?;
    }
    out.sort_by_key(|load| load.rank())?;
    Ok(out)
}

/// The choice that is overfilled most among those of which at most this many can be served together,
/// and how often it is, if that is often enough.
fn best_choice(
    steps: i64,
    tug_slot: TugSlot<'_>,
    loads: &[Load],
    most: u32,
) -> Option<(i64, Choice)> {
    let mut best: Option<(i64, Choice)> = None;
    for (place, job) in tug_slot.jobs.iter().enumerate() {
        if is_first(tug_slot.jobs, place, job.tugs) {
            for others in 0..most.saturating_add(1) {
                let choice = Choice {
                    tugs: job.tugs,
                    others,
                };
                best = greater(best, overfilled(steps, tug_slot.fleet, loads, choice, most));
            }
        }
    }
    best
}

/// Whether no job before this place has this many tugs.
fn is_first(jobs: &[Job], place: usize, tugs: u32) -> bool {
    jobs.iter().take(place).all(|job| job.tugs != tugs)
}

/// The first of two, unless the second is greater.
fn greater(first: Option<(i64, Choice)>, second: Option<(i64, Choice)>) -> Option<(i64, Choice)> {
    match (first, second) {
        (None, _) => second,
        (Some(_), None) => first,
        (Some(a), Some(b)) => { if a.0 < b.0 { second } else { first } }
    }
}

/// How often a choice is overfilled, if any more of its jobs than `most` exceed the fleet and it is
/// overfilled often enough.
fn overfilled(
    steps: i64,
    fleet: u32,
    loads: &[Load],
    choice: Choice,
    most: u32,
) -> Option<(i64, Choice)> {
    let tally = tally_of(loads, choice);
    let greater = most.saturating_add(1).saturating_sub(choice.others);
    let tugs = tally
        .other_tugs
        .saturating_add(greater.saturating_mul(choice.tugs));
    let over = tally.uses.wrapping_sub(steps.wrapping_mul(i64::from(most)));
    let often = steps.saturating_mul(OVERFILLED) < over.saturating_mul(100);
    if tally.others == choice.others && fleet < tugs && most < tally.jobs && often {
        Some((over, choice))
    } else {
        None
    }
}

fn tally_of(loads: &[Load], choice: Choice) -> Tally {
    let mut tally = Tally {
        jobs: 0,
        uses: 0,
        others: 0,
        other_tugs: 0,
    };
    for load in loads {
        if choice.takes(*load, tally.others) {
            tally.jobs = tally.jobs.saturating_add(1);
            tally.uses = tally.uses.wrapping_add(load.uses);
            if load.tugs < choice.tugs {
                tally.others = tally.others.saturating_add(1);
                tally.other_tugs = tally.other_tugs.saturating_add(load.tugs);
            }
        }
    }
    tally
}

/// A weight of 1 for each job of the choice, and of 0 for the others.
fn weights(
    alloc: Global,
    jobs: usize,
    loads: &[Load],
    choice: Choice,
) -> Result<Weights, NoMemory> {
    let mut items = vec![in alloc; 0; jobs]?;
    let mut others: u32 = 0;
    for load in loads {
        if choice.takes(*load, others) {
            if load.tugs < choice.tugs {
                others = others.saturating_add(1);
            }
            if let Some(weight) = items.get_mut(load.place) {
                *weight = 1;
            }
        }
    }
    Ok(Weights { items })
}
