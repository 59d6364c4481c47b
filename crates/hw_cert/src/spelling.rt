//! What the words of a line spell, whatever the problem.

ghost use Rattle.std.specs.Prelude.{◌≡◌, IfOk, IfSome, MatchOption, option_map};
ghost use Rattle.hw_cert.specs.Spelled.{number_word, all_numbers, some_numbers, lit_word, lettered, lits_of, only_lits, table_form, explain_form, order_form, goal_form, lemma_form, delete_form, form_of, spelled, version_word, version_to};
ghost use Rattle.hw_cert.specs.Spellings.{numbers_view, lits_view, found_view, spelling_view};

use crate::tolling::{bound_of, narrows_of, priced_of, tariff_of, tugs_of};
use crate::version::Version;
use crate::words::{is_header_word, keywords};
use hw_lexicon::each_word;
use hw_model::Lit;
use hw_price_laws::{Block, Due};
use hw_text::{Words, is_text, read_number};
use std::alloc::{AllocError, Global};

/// The numbers and literals of a line that has its form. They may not fit the problem.
#[derive(Drop)]
pub enum Spelling {
    Table {
        slots: Vec<u32>,
    },
    Explain {
        restriction: u32,
        lits: Vec<Lit>,
    },
    Order {
        v: u32,
        w: u32,
        x: u32,
        lits: Vec<Lit>,
    },
    Goal {
        lits: Vec<Lit>,
    },
    Lemma {
        lits: Vec<Lit>,
        hints: Vec<u32>,
    },
    Delete {
        ids: Vec<u32>,
    },
    Narrows {
        blocks: Vec<Block>,
    },
    Tugs {
        restriction: u32,
        slot: u32,
        most: u32,
        weights: Vec<u32>,
    },
    Tariff {
        scale: u32,
        prices: Vec<Due>,
    },
    Priced {
        lits: Vec<Lit>,
    },
    Bound {
        bound: u64,
    },
}

/// Literals, and the words after the `;` that ends them, if one does.
#[derive(Drop)]
struct FoundLits<'l> {
    lits: Vec<Lit>,
    remainder: Option<Words<'l>>,
}

pub fn number_of(word: &[u8]) -> Option<u32>
    ensures { result ≡ number_word word.now }
{
    match read_number(word, u64::from(u32::MAX)) {
        Some(n) => Some(n as u32),
        None => None,
    }
}

/// The numbers that the words spell, where each spells one.
pub fn numbers_of(alloc: Global, mut words: Words<'_>) -> Result<Option<Vec<u32>>, AllocError>
    ensures { IfOk result (λ o. numbers_view o ≡ all_numbers words.entry) }
{
    let mut numbers = Vec::new(alloc);
    while let Some(word) = words.word() {
        let Some(number) = number_of(word) else {
            return Ok(None);
        };
        numbers.push(number)?;
    }
    Ok(Some(numbers))
}

/// The same of one word or more.
fn some_numbers_of(alloc: Global, words: Words<'_>) -> Result<Option<Vec<u32>>, AllocError>
    ensures { IfOk result (λ o. numbers_view o ≡ some_numbers words.entry) }
{
    match numbers_of(alloc, words)? {
        Some(numbers) if !numbers.is_empty() => Ok(Some(numbers)),
        _ => Ok(None),
    }
}

fn lettered_lit(letter: u8, first: u32, second: u32) -> Option<Lit>
    ensures { result ≡ lettered letter (first, second) }
{
    match letter {
        b'a' => Some(Lit::AtOrAfter {
            ship: first,
            slot: second,
        }),
        b'b' => Some(Lit::Before {
            ship: first,
            slot: second,
        }),
        b'f' => Some(Lit::First {
            v: first,
            w: second,
        }),
        b'n' => Some(Lit::NotFirst {
            v: first,
            w: second,
        }),
        _ => None,
    }
}

/// The literal that a word spells: a letter, and two numbers with a point between them.
fn lit_of(word: &[u8]) -> Option<Lit>
    ensures { result ≡ lit_word word.now }
{
    let (letter, rest) = word.split_first()?;
    let mut parts = Words::parted_by(b'.', rest);
    let first = parts.word()?;
    let second = parts.word()?;
    parts.end()?;
    let first = number_of(first)?;
    let second = number_of(second)?;
    lettered_lit(*letter, first, second)
}

#[tactic(auto, using(crate::proofs::Loops::lit_more))]
/// The literals up to the first `;` or the end.
fn lits_from(alloc: Global, mut words: Words<'_>) -> Result<Option<FoundLits<'_>>, AllocError>
    ensures { IfOk result (λ o. found_view o ≡ lits_of words.entry) }
{
    let mut lits = Vec::new(alloc);
    while let Some(word) = words.word() {
        if is_text(word, b";") {
            let remainder = Some(words);
            return Ok(Some(FoundLits { lits, remainder }));
        }
        let Some(lit) = lit_of(word) else {
            return Ok(None);
        };
        lits.push(lit)?;
    }
    Ok(Some(FoundLits {
        lits,
        remainder: None,
    }))
}

/// Words that are literals alone.
pub fn only_lits_of(alloc: Global, words: Words<'_>) -> Result<Option<Vec<Lit>>, AllocError>
    ensures { IfOk result (λ o. lits_view o ≡ only_lits words.entry) }
{
    match lits_from(alloc, words)? {
        Some(
            FoundLits {
                lits,
                remainder: None,
            },
        ) => Ok(Some(lits)),
        _ => Ok(None),
    }
}

/// `SLOT ..`
fn table_of(alloc: Global, words: Words<'_>) -> Result<Option<Spelling>, AllocError>
    ensures { IfOk result (λ o. option_map spelling_view o ≡ table_form words.entry) }
{
    match some_numbers_of(alloc, words)? {
        Some(slots) => Ok(Some(Spelling::Table { slots })),
        None => Ok(None),
    }
}

/// `RESTRICTION LITS`
fn explain_of(alloc: Global, mut words: Words<'_>) -> Result<Option<Spelling>, AllocError>
    ensures { IfOk result (λ o. option_map spelling_view o ≡ explain_form words.entry) }
{
    let Some(word) = words.word() else {
        return Ok(None);
    };
    let Some(restriction) = number_of(word) else {
        return Ok(None);
    };
    match only_lits_of(alloc, words)? {
        Some(lits) => Ok(Some(Spelling::Explain { restriction, lits })),
        None => Ok(None),
    }
}

/// `V W X LITS`
fn order_of(alloc: Global, mut words: Words<'_>) -> Result<Option<Spelling>, AllocError>
    ensures { IfOk result (λ o. option_map spelling_view o ≡ order_form words.entry) }
{
    let (Some(v), Some(w), Some(x)) = (words.word(), words.word(), words.word()) else {
        return Ok(None);
    };
    let (Some(v), Some(w), Some(x)) = (number_of(v), number_of(w), number_of(x)) else {
        return Ok(None);
    };
    match only_lits_of(alloc, words)? {
        Some(lits) => Ok(Some(Spelling::Order { v, w, x, lits })),
        None => Ok(None),
    }
}

/// `LITS`
fn goal_of(alloc: Global, words: Words<'_>) -> Result<Option<Spelling>, AllocError>
    ensures { IfOk result (λ o. option_map spelling_view o ≡ goal_form words.entry) }
{
    match only_lits_of(alloc, words)? {
        Some(lits) => Ok(Some(Spelling::Goal { lits })),
        None => Ok(None),
    }
}

/// `LITS ; ID ..`
fn lemma_of(alloc: Global, words: Words<'_>) -> Result<Option<Spelling>, AllocError>
    ensures { IfOk result (λ o. option_map spelling_view o ≡ lemma_form words.entry) }
{
    let Some(FoundLits { lits, remainder }) = lits_from(alloc, words)? else {
        return Ok(None);
    };
    let Some(words) = remainder else {
        return Ok(None);
    };
    match numbers_of(alloc, words)? {
        Some(hints) => Ok(Some(Spelling::Lemma { lits, hints })),
        None => Ok(None),
    }
}

/// `ID ..`, from version 2 on.
fn delete_of(
    alloc: Global,
    version: Version,
    words: Words<'_>,
) -> Result<Option<Spelling>, AllocError>
    ensures { IfOk result (λ o. option_map spelling_view o ≡ delete_form version words.entry) }
{
    match version {
        Version::One => Ok(None),
        Version::Two | Version::Three => match some_numbers_of(alloc, words)? {
            Some(ids) => Ok(Some(Spelling::Delete { ids })),
            None => Ok(None),
        },
    }
}

#[tactic(auto, using(crate::proofs::Chosen::form_chosen))]
/// The line of this form, with the words after the first.
fn form_of(
    alloc: Global,
    version: Version,
    kind: &[u8],
    words: Words<'_>,
) -> Result<Option<Spelling>, AllocError>
    ensures { IfOk result (λ o. option_map spelling_view o ≡ form_of version kind.now words.entry) }
{
    each_word!(keywords().find(kind);
        0 => table_of(alloc, words),
        1 => explain_of(alloc, words),
        2 => order_of(alloc, words),
        3 => goal_of(alloc, words),
        4 => lemma_of(alloc, words),
        5 => delete_of(alloc, version, words),
        6 => narrows_of(alloc, version, words),
        7 => tugs_of(alloc, version, words),
        8 => tariff_of(alloc, version, words),
        9 => priced_of(alloc, version, words),
        10 => Ok(bound_of(version, words)),
        else Ok(None)
    )
}

/// What a line spells, where it has one of the forms of its version. It goes once through the
/// line.
pub fn spelling_of(
    alloc: Global,
    version: Version,
    line: &[u8],
) -> Result<Option<Spelling>, AllocError>
    ensures { IfOk result (λ o. option_map spelling_view o ≡ spelled version line.now) }
{
    let mut words = Words::of(line);
    match words.word() {
        Some(kind) => form_of(alloc, version, kind, words),
        None => Ok(None),
    }
}

fn numbered_version(word: &[u8]) -> Option<Version>
    ensures { result ≡ version_word word.now }
{
    if is_text(word, b"1") {
        return Some(Version::One);
    }
    if is_text(word, b"2") {
        return Some(Version::Two);
    }
    if is_text(word, b"3") {
        return Some(Version::Three);
    }
    None
}

/// The version that a header names, where it is this one or an earlier one.
pub fn header_version(most: Version, line: &[u8]) -> Option<Version>
    ensures { result ≡ version_to most line.now }
{
    let mut words = Words::of(line);
    let kind = words.word()?;
    let word = words.word()?;
    words.end()?;
    if !is_header_word(kind) {
        return None;
    }
    let version = numbered_version(word)?;
    if !most.allows(version) {
        return None;
    }
    Some(version)
}
