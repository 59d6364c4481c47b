//! Tolls that were found, by how far they are overfilled.

use hw_model::NoMemory;
use hw_price_laws::Toll;
use std::alloc::Global;

/// A toll, and how often it was overfilled.
#[derive(Drop)]
struct Find {
    over: i64,
    toll: Toll,
}

/// Tolls that were found.
#[derive(Drop)]
pub(crate) struct Finds {
    items: Vec<Find>,
}

impl Finds {
    pub(crate) fn new(alloc: Global) -> Finds {
        Finds {
            items: Vec::new(alloc),
        }
    }

    pub(crate) fn add(&mut self, over: i64, toll: Toll) -> Result<(), NoMemory> {
        self.items.push(Find { over, toll })?;
        Ok(())
    }

    /// The tolls, those first that are overfilled most.
    pub(crate) fn sorted(self, alloc: Global) -> Result<Vec<Toll>, NoMemory> {
        let mut items = self.items;
        items.sort_by_key(|find| find.over.wrapping_neg())?;
        let mut out = Vec::new(alloc);
        for find in items {
            let Find { over: _, toll } = find;
            out.push(toll)?;
        }
        Ok(out)
    }
}
