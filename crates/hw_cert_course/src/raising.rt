//! Lines whose numbers of clauses and tolls are raised, so that they stand after other lines.

ghost use Rattle.std.specs.Prelude.{◌≡◌, IfOk, IfSome};
ghost use Rattle.hw_cert_lines.specs.Valid.{LineFits};
ghost use Rattle.hw_cert_course.specs.Raising.{KeepsClause, KeepsFit, KeepsLemma, raised_numbers, raised_prices};

use hw_cert_lines::{Hints, Line};
use hw_flat::NoMemory;
use hw_price_laws::{Due, Dues, Tariff};
use std::alloc::Global;

/// By how much numbers are raised.
#[derive(Clone, Copy)]
pub struct Raise {
    /// Those of clause lines.
    pub clauses: u32,
    /// Those of tolls.
    pub tolls: u32,
}

/// Of lines that have their numbers already.
pub const IN_PLACE: Raise = Raise {
    clauses: 0,
    tolls: 0,
};

/// The line with its numbers raised; none where one of them would be too great for a line. A clause line
/// is always given: a hint that would be too great stays at the greatest number, which no clause has.
pub fn raised(alloc: Global, by: Raise, line: &Line) -> Result<Option<Line>, NoMemory>
    ensures fits { IfOk result (λ answer. IfSome answer (KeepsFit line.now)) }
    ensures lemma { IfOk result (λ answer. KeepsLemma line.now answer) }
    ensures clause { IfOk result (λ answer. KeepsClause line.now answer) }
{
    match line {
        Line::Lemma { clause, hints } => {
            let clause = clause.copy(alloc)?;
            let items = raised_hints(alloc, by.clauses, &hints.items)?;
            Ok(Some(Line::Lemma {
                clause,
                hints: Hints { items },
            }))
        }
        Line::Delete { ids } => match raised_ids(alloc, by.clauses, ids)? {
            Some(ids) => Ok(Some(Line::Delete { ids })),
            None => Ok(None),
        },
        Line::Tariff { tariff } => match raised_dues(alloc, by.tolls, &tariff.dues)? {
            Some(dues) => Ok(Some(Line::Tariff {
                tariff: Tariff {
                    scale: tariff.scale,
                    dues,
                },
            })),
            None => Ok(None),
        },
        _ => Ok(Some(line.copy(alloc)?)),
    }
}

/// The numbers raised, each to the greatest one at most.
fn raised_hints(alloc: Global, by: u32, hints: &[u32]) -> Result<Vec<u32>, NoMemory> {
    let mut items = Vec::with_capacity(alloc, hints.len())?;
    for hint in hints {
        items.push(hint.saturating_add(by))?;
    }
    Ok(items)
}

/// The numbers of clause lines raised, or none where one would be too great.
fn raised_ids(alloc: Global, by: u32, ids: &Hints) -> Result<Option<Hints>, NoMemory>
    ensures value { IfOk result (λ answer. IfSome answer (λ raised. raised ≡ raised_numbers by ids.now)) }
{
    match raised_numbers(alloc, by, &ids.items)? {
        Some(items) => Ok(Some(Hints { items })),
        None => Ok(None),
    }
}

/// The same of dues, by the numbers of their tolls.
fn raised_dues(alloc: Global, by: u32, dues: &Dues) -> Result<Option<Dues>, NoMemory>
    ensures value { IfOk result (λ answer. IfSome answer (λ raised. raised ≡ raised_prices by dues.now)) }
{
    match raised_prices(alloc, by, &dues.items)? {
        Some(items) => Ok(Some(Dues { items })),
        None => Ok(None),
    }
}

fn raised_numbers(alloc: Global, by: u32, ids: &[u32]) -> Result<Option<Vec<u32>>, NoMemory>
    ensures value { IfOk result (λ answer. IfSome answer (λ items. items.items ≡ raised_numbers by ids.now)) }
{
    let mut items = Vec::with_capacity(alloc, ids.len())?;
    for id in ids {
        match id.checked_add(by) {
            Some(raised) => items.push(raised)?,
            None => return Ok(None),
        }
    }
    Ok(Some(items))
}

fn raised_prices(alloc: Global, by: u32, prices: &[Due]) -> Result<Option<Vec<Due>>, NoMemory>
    ensures value { IfOk result (λ answer. IfSome answer (λ items. items.items ≡ raised_prices by prices.now)) }
{
    let mut items = Vec::with_capacity(alloc, prices.len())?;
    for one in prices {
        match one.toll.checked_add(by) {
            Some(toll) => items.push(Due {
                toll,
                price: one.price,
            })?,
            None => return Ok(None),
        }
    }
    Ok(Some(items))
}
