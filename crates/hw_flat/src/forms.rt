//! The forms of the lines before the rules.

ghost use Rattle.std.specs.Prelude.{◌≡◌, ◌≤◌, true, [], ◌∷◌, IfOk, IfSome, option_map};
ghost use Rattle.hw_flat.specs.TextForms.{header_form, size_form, value_word, stay_word, last_values, row_values, row_form, with_front};

use hw_model::{MOST_SHIPS, MOST_SLOTS, MOST_VALUE};
use hw_text::{Words, is_text, read_number, read_small};
use std::alloc::{AllocError, Global};

/// Whether ships may stay, as in `flat 2` and `flat 4`, and whether fleets have hours, as in
/// `flat 3` and `flat 4`.
pub fn header_of(line: &[u8]) -> Option<(bool, bool)>
    ensures { result ≡ header_form line.now }
{
    if is_text(line, b"flat 1") {
        return Some((false, false));
    }
    if is_text(line, b"flat 2") {
        return Some((true, false));
    }
    if is_text(line, b"flat 3") {
        return Some((false, true));
    }
    if is_text(line, b"flat 4") {
        return Some((true, true));
    }
    None
}

/// `size SHIPS SLOTS`.
pub fn size_of(line: &[u8]) -> Option<(u32, u32)>
    ensures form { result ≡ size_form line.now }
    ensures few_ships { IfSome result (λ size. size.0 ≤ MOST_SHIPS) }
    ensures few_slots { IfSome result (λ size. size.1 ≤ MOST_SLOTS) }
{
    let mut words = Words::of(line);
    let key = words.word()?;
    let ships = words.word()?;
    let slots = words.word()?;
    words.end()?;
    if !is_text(key, b"size") {
        return None;
    }
    let ships = read_small(ships, 1, MOST_SHIPS)?;
    let slots = read_small(slots, 1, MOST_SLOTS)?;
    Some((ships, slots))
}

/// A value, or `-` for none.
fn value_of(word: &[u8]) -> Option<Option<u64>>
    ensures { result ≡ value_word word.now }
{
    if is_text(word, b"-") {
        return Some(None);
    }
    match read_number(word, MOST_VALUE) {
        Some(value) => Some(Some(value)),
        None => None,
    }
}

/// What a ship carries that stays: nothing after `y`, and no value after `n`.
fn stay_of(word: &[u8]) -> Option<Option<u64>>
    ensures { result ≡ stay_word word.now }
{
    if is_text(word, b"y") {
        return Some(Some(0));
    }
    if is_text(word, b"n") {
        return Some(None);
    }
    None
}

/// What a ship carries that stays, where the one word left says it.
fn last_of(mut words: Words<'_>) -> Option<Option<u64>>
    ensures { option_map (λ v. v ∷ []) result ≡ last_values true words.entry }
{
    let word = words.word()?;
    words.end()?;
    stay_of(word)
}

/// Adds the value of staying after the others if the problem has one.
fn with_last(
    mut values: Vec<Option<u64>>,
    words: Words<'_>,
    stay: bool,
) -> Result<Option<Vec<Option<u64>>>, AllocError>
    ensures { IfOk result (λ o. option_map (λ v. v.items) o ≡ with_front values.items (last_values stay words.entry)) }
{
    if !stay {
        return match words.end() {
            Some(()) => Ok(Some(values)),
            None => Ok(None),
        };
    }
    let Some(value) = last_of(words) else {
        return Ok(None);
    };
    values.push(value)?;
    Ok(Some(values))
}

/// The values of the words: one for each of the slots, and one more for staying where it is allowed.
fn values_of(
    alloc: Global,
    mut words: Words<'_>,
    slots: u32,
    stay: bool,
) -> Result<Option<Vec<Option<u64>>>, AllocError>
    ensures { IfOk result (λ o. option_map (λ v. v.items) o ≡ row_values stay slots words.entry) }
{
    let mut values = Vec::new(alloc);
    for slot in 0..slots {
        let Some(word) = words.word() else {
            return Ok(None);
        };
        let Some(value) = value_of(word) else {
            return Ok(None);
        };
        values.push(value)?;
    }
    with_last(values, words, stay)
}

/// `v` and the values of a ship.
pub fn row_of(
    alloc: Global,
    line: &[u8],
    slots: u32,
    stay: bool,
) -> Result<Option<Vec<Option<u64>>>, AllocError>
    ensures { IfOk result (λ o. option_map (λ v. v.items) o ≡ row_form stay slots line.now) }
{
    let mut words = Words::of(line);
    match words.word() {
        Some(key) if is_text(key, b"v") => values_of(alloc, words, slots, stay),
        _ => Ok(None),
    }
}
