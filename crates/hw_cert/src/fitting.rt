//! Whether the words of a line fit the problem.

ghost use Rattle.std.specs.Prelude.{◌≡◌, ◌≤◌, ◌&&◌, nat_lt, nat_le, length, map};
ghost use Rattle.std.specs.List.{list_all};
ghost use Rattle.hw_cert.specs.declared.fitting.LineFault.TheVariants.{NoMemory};
ghost use Rattle.hw_cert.specs.Fits.{ascends, rises, block_fits_shape, blocks_fit, weights_small, weights_fit, prices_small, word_unless, clause_fault, first_fault, unless_bad, fitted, line_read};
ghost use Rattle.hw_cert.specs.Reads.{GivesClause, ReadGives};
ghost use Rattle.hw_cert.specs.Spelled.{narrows_line, tugs_line, tariff_line};
ghost use Rattle.hw_cert.specs.Spellings.{spelling_view};

use crate::spelling::{Spelling, spelling_of};
use crate::stop::FormWord;
use crate::version::Version;
use hw_cert_lines::{Hints, Line};
use hw_flat::Timetable;
use hw_lits::{Clause, ClauseFault};
use hw_model::{Lit, MOST_CARGO, MOST_HELD, MOST_SHIPS, NoMemory, Shape};
use hw_price_laws::{
    Block, Blocks, Due, Dues, MOST_PRICE, MOST_SCALE, Tariff, Toll, Weights, are_light,
};
use std::alloc::{AllocError, Global};

/// Why a line can't be read.
#[derive(Clone, Copy)]
pub enum LineFault {
    Bad(FormWord),
    NoMemory,
}

impl From<AllocError> for LineFault {
    ghost from_gives = { λ _ e. e ≡ NoMemory };

    fn from(_e: AllocError) -> LineFault {
        LineFault::NoMemory
    }
}

impl From<NoMemory> for LineFault {
    ghost from_gives = { λ _ e. e ≡ NoMemory };

    fn from(_e: NoMemory) -> LineFault {
        LineFault::NoMemory
    }
}

fn each_below(slots: &[u32], count: u32) -> bool
    ensures { result ≡ list_all (λ slot. nat_lt slot count) slots.now }
{
    slots.iter().all(|slot| *slot < count)
}

fn each_above_zero(hints: &[u32]) -> bool
    ensures { result ≡ list_all (λ id. nat_lt 0 id) hints.now }
{
    hints.iter().all(|id| 0 < *id)
}

/// Whether each number is above the one before it, the first above 0.
fn is_ascending(ids: &[u32]) -> bool
    ensures { result ≡ ascends 0 ids.now }
{
    let mut before = 0;
    for id in ids {
        if *id <= before {
            return false;
        }
        before = *id;
    }
    true
}

/// The clause of the literals, which it takes, or the word of the first bad one.
fn clause_of(shape: Shape, lits: Vec<Lit>) -> Result<Clause, LineFault>
    requires few_ships { shape.ships ≤ MOST_SHIPS }
    ensures { GivesClause result lits.items (clause_fault shape lits.items) }
{
    match Clause::from_list(shape, lits) {
        Ok(clause) => Ok(clause),
        Err(ClauseFault::Range { .. }) => Err(LineFault::Bad(FormWord::Range)),
        Err(ClauseFault::NotNormal { .. }) => Err(LineFault::Bad(FormWord::Normal)),
        Err(ClauseFault::NoMemory) => Err(LineFault::NoMemory),
    }
}

fn table_line(alloc: Global, shape: Shape, slots: &[u32]) -> Result<Line, LineFault>
    requires few_ships { shape.ships ≤ MOST_SHIPS }
    ensures { ReadGives result (unless_bad (Line.Table slots.now) (first_fault shape (Line.Table slots.now))) }
{
    if !each_below(slots, shape.slots) || slots.len() != shape.ships as usize {
        return Err(LineFault::Bad(FormWord::Range));
    }
    let table = Timetable::from_slots(alloc, slots)?;
    Ok(Line::Table(table))
}

fn explain_line(shape: Shape, restriction: u32, lits: Vec<Lit>) -> Result<Line, LineFault>
    requires few_ships { shape.ships ≤ MOST_SHIPS }
    ensures { ReadGives result (unless_bad (Line.Explain restriction lits.items) (first_fault shape (Line.Explain restriction lits.items))) }
{
    if u64::from(restriction) >= u64::from(shape.ships) + u64::from(shape.rules) {
        return Err(LineFault::Bad(FormWord::Range));
    }
    let clause = clause_of(shape, lits)?;
    Ok(Line::Explain {
        restriction,
        clause,
    })
}

fn order_line(shape: Shape, v: u32, w: u32, x: u32, lits: Vec<Lit>) -> Result<Line, LineFault>
    requires few_ships { shape.ships ≤ MOST_SHIPS }
    ensures { ReadGives result (unless_bad (Line.Order v w x lits.items) (first_fault shape (Line.Order v w x lits.items))) }
{
    if !(v < w && w < x && x < shape.ships) {
        return Err(LineFault::Bad(FormWord::Range));
    }
    let clause = clause_of(shape, lits)?;
    Ok(Line::Order { v, w, x, clause })
}

fn goal_line(shape: Shape, lits: Vec<Lit>) -> Result<Line, LineFault>
    requires few_ships { shape.ships ≤ MOST_SHIPS }
    ensures { ReadGives result (unless_bad (Line.Goal lits.items) (first_fault shape (Line.Goal lits.items))) }
{
    let clause = clause_of(shape, lits)?;
    Ok(Line::Goal { clause })
}

fn lemma_line(shape: Shape, lits: Vec<Lit>, hints: Vec<u32>) -> Result<Line, LineFault>
    requires few_ships { shape.ships ≤ MOST_SHIPS }
    ensures { ReadGives result (unless_bad (Line.Lemma lits.items hints.items) (first_fault shape (Line.Lemma lits.items hints.items))) }
{
    let clause = clause_of(shape, lits)?;
    if !each_above_zero(&hints) {
        return Err(LineFault::Bad(FormWord::Range));
    }
    Ok(Line::Lemma {
        clause,
        hints: Hints { items: hints },
    })
}

fn delete_line(ids: Vec<u32>) -> Result<Line, LineFault>
    ensures { ReadGives result (unless_bad (Line.Delete ids.items) (word_unless FormWord.Range (nat_lt 0 (length ids.items) && ascends 0 ids.items))) }
{
    if ids.is_empty() || !is_ascending(&ids) {
        return Err(LineFault::Bad(FormWord::Range));
    }
    Ok(Line::Delete {
        ids: Hints { items: ids },
    })
}

fn is_block(shape: Shape, block: Block) -> bool
    ensures { result ≡ block_fits_shape shape block }
{
    block.ship < shape.ships && block.low <= block.high && block.high < shape.slots
}

fn each_fits(shape: Shape, blocks: &[Block]) -> bool
    ensures { result ≡ list_all (block_fits_shape shape) blocks.now }
{
    blocks.iter().all(|block| is_block(shape, *block))
}

/// Whether each ship but the first is above the one before it.
fn ships_rise(blocks: &[Block]) -> bool
    ensures { result ≡ rises (map (λ block. block.ship) blocks.now) }
{
    let Some((first, more)) = blocks.split_first() else {
        return true;
    };
    let mut before = first.ship;
    for block in more {
        if block.ship <= before {
            return false;
        }
        before = block.ship;
    }
    true
}

fn are_blocks(shape: Shape, blocks: &[Block]) -> bool
    ensures { result ≡ blocks_fit shape blocks.now }
{
    !blocks.is_empty()
        && blocks.len() <= MOST_SHIPS as usize
        && each_fits(shape, blocks)
        && ships_rise(blocks)
}

fn narrows_line(shape: Shape, blocks: Vec<Block>) -> Result<Line, LineFault>
    ensures { ReadGives result (unless_bad (narrows_line blocks.items) (first_fault shape (narrows_line blocks.items))) }
{
    if !are_blocks(shape, &blocks) {
        return Err(LineFault::Bad(FormWord::Range));
    }
    let toll = Toll::Narrows {
        blocks: Blocks { items: blocks },
    };
    Ok(Line::Toll { toll })
}

fn are_small(most: u32, weights: &[u32]) -> bool
    ensures { result ≡ weights_small most weights.now }
{
    most <= MOST_HELD && are_light(weights)
}

/// Whether the number is that of a rule, the slot one of the problem, and there are no more weights
/// than ships may be.
fn is_weighed(shape: Shape, restriction: u32, slot: u32, weights: &[u32]) -> bool
    ensures { result ≡ weights_fit shape restriction slot weights.now }
{
    shape.ships <= restriction
        && u64::from(restriction) < u64::from(shape.ships) + u64::from(shape.rules)
        && slot < shape.slots
        && weights.len() <= MOST_SHIPS as usize
}

fn tugs_line(
    shape: Shape,
    restriction: u32,
    slot: u32,
    most: u32,
    weights: Vec<u32>,
) -> Result<Line, LineFault>
    ensures { ReadGives result (unless_bad (tugs_line restriction slot most weights.items) (first_fault shape (tugs_line restriction slot most weights.items))) }
{
    if !are_small(most, &weights) {
        return Err(LineFault::Bad(FormWord::Form));
    }
    if !is_weighed(shape, restriction, slot, &weights) {
        return Err(LineFault::Bad(FormWord::Range));
    }
    let toll = Toll::Tugs {
        restriction,
        slot,
        weights: Weights { items: weights },
        most,
    };
    Ok(Line::Toll { toll })
}

fn each_cheap(prices: &[Due]) -> bool
    ensures { result ≡ list_all (λ due. nat_le due.price MOST_PRICE) prices.now }
{
    prices.iter().all(|due| due.price <= MOST_PRICE)
}

/// Whether scale and prices are within their limits.
pub fn are_cheap(scale: u32, prices: &[Due]) -> bool
    ensures { result ≡ prices_small scale prices.now }
{
    scale <= MOST_SCALE && each_cheap(prices)
}

/// Whether the number of each toll is above the one before it, the first above 0.
pub fn tolls_ascend(prices: &[Due]) -> bool
    ensures { result ≡ ascends 0 (map (λ due. due.toll) prices.now) }
{
    let mut before = 0;
    for due in prices {
        if due.toll <= before {
            return false;
        }
        before = due.toll;
    }
    true
}

fn tariff_line(shape: Shape, scale: u32, prices: Vec<Due>) -> Result<Line, LineFault>
    ensures { ReadGives result (unless_bad (tariff_line scale prices.items) (first_fault shape (tariff_line scale prices.items))) }
{
    if !are_cheap(scale, &prices) {
        return Err(LineFault::Bad(FormWord::Form));
    }
    if !tolls_ascend(&prices) {
        return Err(LineFault::Bad(FormWord::Range));
    }
    let tariff = Tariff {
        scale,
        dues: Dues { items: prices },
    };
    Ok(Line::Tariff { tariff })
}

fn priced_line(shape: Shape, lits: Vec<Lit>) -> Result<Line, LineFault>
    requires few_ships { shape.ships ≤ MOST_SHIPS }
    ensures { ReadGives result (unless_bad (Line.Priced lits.items) (first_fault shape (Line.Priced lits.items))) }
{
    let clause = clause_of(shape, lits)?;
    Ok(Line::Priced { clause })
}

fn bound_line(bound: u64) -> Result<Line, LineFault>
    ensures { ReadGives result (unless_bad (Line.Bound bound) (word_unless FormWord.Form (nat_le bound MOST_CARGO))) }
{
    if bound > MOST_CARGO {
        return Err(LineFault::Bad(FormWord::Form));
    }
    Ok(Line::Bound { bound })
}

/// The line of this spelling, or its first bad word.
fn fitted_line(alloc: Global, shape: Shape, spelling: Spelling) -> Result<Line, LineFault>
    requires few_ships { shape.ships ≤ MOST_SHIPS }
    ensures { ReadGives result (unless_bad (spelling_view spelling) (first_fault shape (spelling_view spelling))) }
{
    match spelling {
        Spelling::Table { slots } => table_line(alloc, shape, &slots),
        Spelling::Explain { restriction, lits } => explain_line(shape, restriction, lits),
        Spelling::Order { v, w, x, lits } => order_line(shape, v, w, x, lits),
        Spelling::Goal { lits } => goal_line(shape, lits),
        Spelling::Lemma { lits, hints } => lemma_line(shape, lits, hints),
        Spelling::Delete { ids } => delete_line(ids),
        Spelling::Narrows { blocks } => narrows_line(shape, blocks),
        Spelling::Tugs {
            restriction,
            slot,
            most,
            weights,
        } => tugs_line(shape, restriction, slot, most, weights),
        Spelling::Tariff { scale, prices } => tariff_line(shape, scale, prices),
        Spelling::Priced { lits } => priced_line(shape, lits),
        Spelling::Bound { bound } => bound_line(bound),
    }
}

/// The line whose text the bytes are, or why they are the text of none.
pub fn read_line(
    alloc: Global,
    shape: Shape,
    version: Version,
    bytes: &[u8],
) -> Result<Line, LineFault>
    requires few_ships { shape.ships ≤ MOST_SHIPS }
    ensures { ReadGives result (line_read shape version bytes.now) }
{
    match spelling_of(alloc, version, bytes)? {
        Some(spelling) => fitted_line(alloc, shape, spelling),
        None => Err(LineFault::Bad(FormWord::Form)),
    }
}
