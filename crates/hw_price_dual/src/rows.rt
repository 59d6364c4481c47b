//! A toll as what ships take of it in ranges of their slots.

use hw_flat::{Flat, Slot};
use hw_model::{Job, NoMemory, Rule};
use hw_price_laws::{Block, Charge, Toll};
use std::alloc::Global;

/// A toll that may have a price.
#[derive(Drop)]
pub struct Row {
    pub toll: Toll,
    /// What ships take of it.
    pub(crate) charges: Vec<Charge>,
    /// Whether a search has declared the toll. It is not at first, and whoever declares it says so here.
    pub is_declared: bool,
    /// What ships take of it in the present room.
    pub(crate) parts: Vec<Part>,
    /// In how many rooms it has had no price since it last had one.
    pub(crate) idle: u32,
}

/// Units taken in the slots `from..end`, counted over all ships.
#[derive(Clone, Copy)]
pub(crate) struct Part {
    pub(crate) from: u32,
    pub(crate) end: u32,
    pub(crate) units: i64,
}

impl Row {
    pub(crate) fn new(alloc: Global, flat: &Flat, toll: Toll) -> Result<Row, NoMemory> {
        let charges = charges(alloc, flat, &toll)?;
        Ok(Row {
            toll,
            charges,
            is_declared: false,
            parts: Vec::new(alloc),
            idle: 0,
        })
    }
}

/// How much there is of a toll.
pub(crate) fn capacity(toll: &Toll) -> i64 {
    match toll {
        Toll::Narrows { .. } => 1,
        Toll::Tugs { most, .. } => i64::from(*most),
    }
}

fn charges(alloc: Global, flat: &Flat, toll: &Toll) -> Result<Vec<Charge>, NoMemory> {
    match toll {
        Toll::Narrows { blocks } => of_blocks(alloc, &blocks.items),
        Toll::Tugs {
            restriction,
            slot,
            weights,
            ..
        } => match rule_at(flat, *restriction) {
            Some(Rule::Tugs { jobs, .. }) => of_jobs(alloc, &jobs.items, &weights.items, *slot),
            _ => Ok(Vec::new(alloc)),
        },
    }
}

/// The rule with this number, which counts the ships first. None where it is a ship's.
fn rule_at(flat: &Flat, restriction: u32) -> Option<&Rule> {
    let place = restriction.checked_sub(flat.shape().ships)?;
    flat.rules().get(place as usize)
}

fn of_blocks(alloc: Global, blocks: &[Block]) -> Result<Vec<Charge>, NoMemory> {
    let mut out = Vec::new(alloc);
    for block in blocks {
        out.push(Charge {
            ship: block.ship,
            low: block.low,
            high: block.high,
            amount: 1,
        })?;
    }
    Ok(out)
}

fn of_jobs(
    alloc: Global,
    jobs: &[Job],
    weights: &[u32],
    slot: Slot,
) -> Result<Vec<Charge>, NoMemory> {
    let mut out = Vec::new(alloc);
    for (job, weight) in jobs.iter().zip(weights) {
        if 0 < *weight {
            out.push(Charge {
                ship: job.ship,
                low: slot.saturating_sub(job.hold.saturating_sub(1)),
                high: slot,
                amount: *weight,
            })?;
        }
    }
    Ok(out)
}
