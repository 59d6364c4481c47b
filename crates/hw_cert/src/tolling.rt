//! What the words of a line of the third version spell, whatever the problem.

ghost use Rattle.std.specs.Prelude.{◌≡◌, IfOk, option_map};
ghost use Rattle.hw_cert.specs.Spelled.{wide_word, all_of, block_word, price_word, narrows_form, tug_toll_words, tugs_form, tariff_words, tariff_form, priced_form, bound_words, bound_form};
ghost use Rattle.hw_cert.specs.Spellings.{blocks_view, prices_view, spelling_view};

use crate::spelling::{Spelling, number_of, numbers_of, only_lits_of};
use crate::version::Version;
use hw_price_laws::{Block, Due};
use hw_text::{Words, read_number};
use std::alloc::{AllocError, Global};

/// A price or a bound.
fn wide_of(word: &[u8]) -> Option<u64>
    ensures { result ≡ wide_word word.now }
{
    read_number(word, u64::MAX)
}

/// The block that a word spells: a ship and two slots with colons between them.
fn block_of(word: &[u8]) -> Option<Block>
    ensures { result ≡ block_word word.now }
{
    let mut parts = Words::parted_by(b':', word);
    let ship = parts.word()?;
    let low = parts.word()?;
    let high = parts.word()?;
    parts.end()?;
    let ship = number_of(ship)?;
    let low = number_of(low)?;
    let high = number_of(high)?;
    Some(Block { ship, low, high })
}

/// The blocks that the words spell, where each spells one.
fn blocks_of(alloc: Global, mut words: Words<'_>) -> Result<Option<Vec<Block>>, AllocError>
    ensures { IfOk result (λ o. blocks_view o ≡ all_of block_word words.entry) }
{
    let mut blocks = Vec::new(alloc);
    while let Some(word) = words.word() {
        let Some(block) = block_of(word) else {
            return Ok(None);
        };
        blocks.push(block)?;
    }
    Ok(Some(blocks))
}

/// The price that a word spells: a toll and its price with a colon between them.
fn price_of(word: &[u8]) -> Option<Due>
    ensures { result ≡ price_word word.now }
{
    let mut parts = Words::parted_by(b':', word);
    let toll = parts.word()?;
    let price = parts.word()?;
    parts.end()?;
    let toll = number_of(toll)?;
    let price = wide_of(price)?;
    Some(Due { toll, price })
}

/// The prices that the words spell, where each spells one.
fn prices_of(alloc: Global, mut words: Words<'_>) -> Result<Option<Vec<Due>>, AllocError>
    ensures { IfOk result (λ o. prices_view o ≡ all_of price_word words.entry) }
{
    let mut prices = Vec::new(alloc);
    while let Some(word) = words.word() {
        let Some(price) = price_of(word) else {
            return Ok(None);
        };
        prices.push(price)?;
    }
    Ok(Some(prices))
}

/// `SHIP:LOW:HIGH ..`, in version 3 alone.
pub fn narrows_of(
    alloc: Global,
    version: Version,
    words: Words<'_>,
) -> Result<Option<Spelling>, AllocError>
    ensures { IfOk result (λ o. option_map spelling_view o ≡ narrows_form version words.entry) }
{
    match version {
        Version::One | Version::Two => Ok(None),
        Version::Three => match blocks_of(alloc, words)? {
            Some(blocks) if !blocks.is_empty() => Ok(Some(Spelling::Narrows { blocks })),
            _ => Ok(None),
        },
    }
}

/// `RESTRICTION SLOT MOST WEIGHT ..`
fn tugs_from(alloc: Global, mut words: Words<'_>) -> Result<Option<Spelling>, AllocError>
    ensures { IfOk result (λ o. option_map spelling_view o ≡ tug_toll_words words.entry) }
{
    let (Some(restriction), Some(slot), Some(most)) = (words.word(), words.word(), words.word())
    else {
        return Ok(None);
    };
    let (Some(restriction), Some(slot), Some(most)) = (
        number_of(restriction),
        number_of(slot),
        number_of(most),
    ) else {
        return Ok(None);
    };
    match numbers_of(alloc, words)? {
        Some(weights) => Ok(Some(Spelling::Tugs {
            restriction,
            slot,
            most,
            weights,
        })),
        None => Ok(None),
    }
}

/// The same in version 3 alone.
pub fn tugs_of(
    alloc: Global,
    version: Version,
    words: Words<'_>,
) -> Result<Option<Spelling>, AllocError>
    ensures { IfOk result (λ o. option_map spelling_view o ≡ tugs_form version words.entry) }
{
    match version {
        Version::One | Version::Two => Ok(None),
        Version::Three => tugs_from(alloc, words),
    }
}

/// `SCALE TOLL:PRICE ..`
fn tariff_from(alloc: Global, mut words: Words<'_>) -> Result<Option<Spelling>, AllocError>
    ensures { IfOk result (λ o. option_map spelling_view o ≡ tariff_words words.entry) }
{
    let Some(word) = words.word() else {
        return Ok(None);
    };
    let Some(scale) = number_of(word) else {
        return Ok(None);
    };
    match prices_of(alloc, words)? {
        Some(prices) => Ok(Some(Spelling::Tariff { scale, prices })),
        None => Ok(None),
    }
}

/// The same in version 3 alone.
pub fn tariff_of(
    alloc: Global,
    version: Version,
    words: Words<'_>,
) -> Result<Option<Spelling>, AllocError>
    ensures { IfOk result (λ o. option_map spelling_view o ≡ tariff_form version words.entry) }
{
    match version {
        Version::One | Version::Two => Ok(None),
        Version::Three => tariff_from(alloc, words),
    }
}

/// `LITS`, in version 3 alone.
pub fn priced_of(
    alloc: Global,
    version: Version,
    words: Words<'_>,
) -> Result<Option<Spelling>, AllocError>
    ensures { IfOk result (λ o. option_map spelling_view o ≡ priced_form version words.entry) }
{
    match version {
        Version::One | Version::Two => Ok(None),
        Version::Three => match only_lits_of(alloc, words)? {
            Some(lits) => Ok(Some(Spelling::Priced { lits })),
            None => Ok(None),
        },
    }
}

/// `BOUND`
fn bound_from(mut words: Words<'_>) -> Option<Spelling>
    ensures { option_map spelling_view result ≡ bound_words words.entry }
{
    let word = words.word()?;
    words.end()?;
    let bound = wide_of(word)?;
    Some(Spelling::Bound { bound })
}

/// The same in version 3 alone.
pub fn bound_of(version: Version, words: Words<'_>) -> Option<Spelling>
    ensures { option_map spelling_view result ≡ bound_form version words.entry }
{
    match version {
        Version::One | Version::Two => None,
        Version::Three => bound_from(words),
    }
}
