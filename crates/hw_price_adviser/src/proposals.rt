//! Proposals: tariffs of prices, and the rows whose tolls are declared.

use crate::answering::Offer;
use hw_model::NoMemory;
use hw_price_dual::{Row, SCALE, price_at};
use hw_price_laws::{Due, Dues, Tariff};
use std::alloc::Global;

/// A tariff of prices, with the rows whose tolls must be declared for it.
#[derive(Drop)]
pub(crate) struct Proposal {
    pub(crate) offer: Offer,
    pub(crate) rows: Vec<usize>,
}

/// Takes rows for declared only as far as the search has declared tolls. Of declared tolls that are no rows there
/// is none.
pub(crate) fn follow(
    named: &mut Vec<Option<usize>>,
    rows: &mut [Row],
    declared: usize,
) -> Result<(), NoMemory> {
    for row in named.iter().skip(declared) {
        set_declared(rows, *row, false);
    }
    named.truncate(declared);
    for _other in named.len()..declared {
        named.push(None)?;
    }
    Ok(())
}

/// Notes whether the toll of the row at a place is declared, if there is a row.
fn set_declared(rows: &mut [Row], place: Option<usize>, is_declared: bool) {
    if let Some(place) = place {
        if let Some(row) = rows.get_mut(place) {
            row.is_declared = is_declared;
        }
    }
}

/// The tariff of some prices: first the dues on tolls that are declared, then those on others.
pub(crate) fn proposal_of(
    alloc: Global,
    rows: &[Row],
    named: &[Option<usize>],
    prices: &[i64],
) -> Result<Proposal, NoMemory> {
    let mut items = Vec::new(alloc);
    for (before, row) in named.iter().enumerate() {
        if let Some(row) = row {
            add_due(&mut items, before, price_at(prices, *row))?;
        }
    }
    let mut tolls = Vec::new(alloc);
    let mut new_rows = Vec::new(alloc);
    for (place, row) in rows.iter().enumerate() {
        let price = price_at(prices, place);
        if !row.is_declared && 0 < price {
            add_due(&mut items, named.len().saturating_add(tolls.len()), price)?;
            tolls.push(row.toll.copy(alloc)?)?;
            new_rows.push(place)?;
        }
    }
    Ok(Proposal {
        offer: Offer {
            tolls,
            tariff: Tariff {
                scale: SCALE as u32,
                dues: Dues { items },
            },
        },
        rows: new_rows,
    })
}

/// Adds a due on the toll after this many others, if it has a price and a line can name the toll.
fn add_due(items: &mut Vec<Due>, before: usize, price: i64) -> Result<(), NoMemory> {
    let Ok(toll) = u32::try_from(before.saturating_add(1)) else {
        return Ok(());
    };
    if 0 < price {
        items.push(Due {
            toll,
            price: price.unsigned_abs(),
        })?;
    }
    Ok(())
}

/// Names rows whose tolls are declared after all others.
pub(crate) fn name_rows(
    named: &mut Vec<Option<usize>>,
    rows: &mut [Row],
    new: &[usize],
) -> Result<(), NoMemory> {
    for row in new {
        set_declared(rows, Some(*row), true);
        named.push(Some(*row))?;
    }
    Ok(())
}
