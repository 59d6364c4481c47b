//! The tolls and prices that a search has told.

ghost use Rattle.std.specs.Prelude.{◌≡◌};
ghost use Rattle.hw_search_laws.specs.Prices.{unpriced_model, with_bound, with_tariff};
ghost use Rattle.hw_search.specs.Prices.{prices_of};

use hw_price_laws::{Tariff, Toll};
use std::alloc::Global;

/// The tolls that were declared, in order, the tariff in force on them, and the last bound, with the
/// tariff that shows it.
#[derive(Drop)]
pub struct Declared {
    pub tolls: Vec<Toll>,
    pub tariff: Option<Tariff>,
    /// In tenths of a tonne.
    pub bound: Option<u64>,
    /// The tariff that shows the bound, where another has come into force since.
    pub older: Option<Tariff>,
}

impl Declared {
    /// No tolls and no prices. It takes no memory.
    pub fn none(alloc: Global) -> Declared
        ensures value { prices_of result ≡ unpriced_model }
    {
        Declared {
            tolls: Vec::new(alloc),
            tariff: None,
            bound: None,
            older: None,
        }
    }

    /// Another tariff in force. It takes no memory.
    pub fn change_to(&mut self, tariff: Tariff)
        ensures value { prices_of self.new ≡ with_tariff (prices_of self.old) tariff }
    {
        let last = self.tariff.take();
        self.tariff = Some(tariff);
        if self.older.is_none() {
            self.older = last;
        }
    }

    /// Another bound, which the tariff in force shows. It takes no memory.
    pub fn lower_to(&mut self, bound: u64)
        ensures value { prices_of self.new ≡ with_bound (prices_of self.old) bound }
    {
        self.bound = Some(bound);
        self.older = None;
    }
}
