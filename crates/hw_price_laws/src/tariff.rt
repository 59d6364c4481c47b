//! Prices on tolls, and what a ship gains and pays under them.

ghost use Rattle.std.specs.Prelude.{◌≡◌, IfOk};

use hw_model::NoMemory;
use std::alloc::Global;
use std::marker::Model;

/// A price on a toll.
#[derive(Clone, Copy, Debug)]
pub struct Due {
    /// The toll's number, which counts from 1 in the order in which tolls are declared.
    pub toll: u32,
    /// What one unit costs, at most `MOST_PRICE` parts.
    pub price: u64,
}

/// Dues, seen as their list.
#[derive(Debug, Drop)]
pub struct Dues {
    pub items: Vec<Due>,
}

impl Model for Dues {
    ghost use Rattle.std.specs.Prelude.{List};
    ghost use Rattle.hw_price_laws.specs.declared.tariff.Due.{Due};

    ghost Value = { List Due };

    ghost view = { λ s. s.items.items };
}

/// Prices on tolls, and the scale of their parts.
#[derive(Debug, Drop)]
pub struct Tariff {
    /// How many parts make a tenth of a tonne, at most `MOST_SCALE`. With a scale of 0 cargo
    /// counts nothing, and the tolls alone must refute.
    pub scale: u32,
    /// At most `MOST_DUES`.
    pub dues: Dues,
}

impl Tariff {
    /// The same tariff. It copies the dues once. An error says that memory ran out.
    pub fn copy(&self, alloc: Global) -> Result<Tariff, NoMemory>
        ensures value { IfOk result (λ tariff. tariff ≡ self.now) }
    {
        let items = Vec::from_slice(alloc, &self.dues.items)?;
        Ok(Tariff {
            scale: self.scale,
            dues: Dues { items },
        })
    }
}

/// What ships gain in their slots, and what they pay there for what they take, both in parts.
///
/// There is no difference of the two, so no number is below 0: two balances are compared crosswise.
#[derive(Clone, Copy)]
pub struct Balance {
    pub gain: u128,
    pub cost: u128,
}
