//! Tolls, and the charges of which they are made.

ghost use Rattle.std.specs.Prelude.{◌≡◌, ◌↔◌, ◌≤◌, All, IfOk, IsTrue, nat_le, true};
ghost use Rattle.std.specs.List.{list_all};

use hw_model::{MOST_TUGS, NoMemory, ShipId, Slot};
use std::alloc::Global;
use std::marker::Model;

/// A range of slots of a ship, both ends taken in.
#[derive(Clone, Copy, Debug, PartialEq, Eq)]
pub struct Block {
    pub ship: ShipId,
    pub low: Slot,
    pub high: Slot,
}

/// Blocks, seen as their list.
#[derive(Debug, Drop)]
pub struct Blocks {
    pub items: Vec<Block>,
}

impl Model for Blocks {
    ghost use Rattle.std.specs.Prelude.{List};
    ghost use Rattle.hw_price_laws.specs.declared.toll.Block.{Block};

    ghost Value = { List Block };

    ghost view = { λ s. s.items.items };
}

impl Blocks {
    fn copy(&self, alloc: Global) -> Result<Blocks, NoMemory>
        ensures value { IfOk result (λ blocks. blocks ≡ self.now) }
    {
        let items = Vec::from_slice(alloc, &self.items)?;
        Ok(Blocks { items })
    }
}

/// A weight for each job of a rule, seen as their list.
#[derive(Debug, Drop)]
pub struct Weights {
    pub items: Vec<u32>,
}

impl Model for Weights {
    ghost use Rattle.std.specs.Prelude.{List, ℕ};

    ghost Value = { List ℕ };

    ghost view = { λ s. s.items.items };
}

impl Weights {
    fn copy(&self, alloc: Global) -> Result<Weights, NoMemory>
        ensures value { IfOk result (λ weights. weights ≡ self.now) }
    {
        let items = Vec::from_slice(alloc, &self.items)?;
        Ok(Weights { items })
    }
}

/// A resource of which every permitted timetable takes at most a given amount.
#[derive(Debug, Drop)]
pub enum Toll {
    /// At most one ship lies in its block: of each two blocks some rule of the problem refutes that
    /// both ships lie in theirs. There are 1 to `MOST_SHIPS` blocks, of ascending ships.
    Narrows {
        blocks: Blocks,
    },
    /// The jobs of a rule on tugs that hold their tugs in one slot weigh at most a given sum together,
    /// since any jobs that the fleet of that slot can serve together do. The tugs themselves are such
    /// weights, and so are whole teams of tugs.
    Tugs {
        /// The rule's number among the restrictions, which count from 0, the ships' windows first.
        restriction: u32,
        /// A slot of the horizon.
        slot: Slot,
        /// At most `MOST_TUGS` each.
        weights: Weights,
        /// At most `MOST_HELD`.
        most: u32,
    },
}

impl Toll {
    /// The same toll. It copies the toll's list. An error says that memory ran out.
    pub fn copy(&self, alloc: Global) -> Result<Toll, NoMemory>
        ensures value { IfOk result (λ toll. toll ≡ self.now) }
    {
        Ok(match self {
            Toll::Narrows { blocks } => Toll::Narrows {
                blocks: blocks.copy(alloc)?,
            },
            Toll::Tugs {
                restriction,
                slot,
                weights,
                most,
            } => Toll::Tugs {
                restriction: *restriction,
                slot: *slot,
                weights: weights.copy(alloc)?,
                most: *most,
            },
        })
    }

    /// Whether two tolls are the same.
    pub fn is_same(&self, other: &Toll) -> bool
        ensures { result ≡ true ↔ self.now ≡ other.now }
    {
        match (self, other) {
            (Toll::Narrows { blocks }, Toll::Narrows { blocks: others }) => {
                blocks.items.as_slice() == others.items.as_slice()
            }
            (
                Toll::Tugs {
                    restriction,
                    slot,
                    weights,
                    most,
                },
                Toll::Tugs {
                    restriction: other_restriction,
                    slot: other_slot,
                    weights: other_weights,
                    most: other_most,
                },
            ) => {
                *restriction == *other_restriction
                    && *slot == *other_slot
                    && *most == *other_most
                    && weights.items.as_slice() == other_weights.items.as_slice()
            }
            (Toll::Narrows { .. }, Toll::Tugs { .. }) | (Toll::Tugs { .. }, Toll::Narrows { .. }) =>
                false,
        }
    }
}

/// Whether each weight is at most `MOST_TUGS`.
pub fn are_light(weights: &[u32]) -> bool
    ensures computed { result ≡ list_all (λ weight. nat_le weight MOST_TUGS) weights.now }
    ensures value { IsTrue result ↔ All (λ weight. weight ≤ MOST_TUGS) weights.now }
{
    weights.iter().all(|weight| *weight <= MOST_TUGS)
}

/// Units that a ship takes where its slot lies in a range, both ends taken in.
#[derive(Clone, Copy)]
pub struct Charge {
    pub ship: ShipId,
    pub low: Slot,
    pub high: Slot,
    pub amount: u32,
}
