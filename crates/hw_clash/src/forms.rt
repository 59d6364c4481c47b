//! The forms of a clash text's lines.

ghost use Rattle.std.specs.Prelude.{◌≡◌, ◌<◌, ◌≤◌, IfOk, IfSome, All, length, option_map};
ghost use Rattle.hw_model.specs.Problem.{IsTimetable};
ghost use Rattle.hw_clash.specs.Text.{ids_from, some_ids, keep_form, drop_form};

use crate::wished::WishedFlat;
use hw_model::Slot;
use hw_plan_texts::slots_of;
use hw_text::{Words, is_text, read_small};
use std::alloc::{AllocError, Global};

/// Numbers below `many`, ascending.
fn ids_of(alloc: Global, mut words: Words<'_>, many: u32) -> Result<Option<Vec<u32>>, AllocError>
    requires some { 0 < many }
    requires few { many ≤ 4_080 }
    ensures form { IfOk result (λ o. option_map (λ v. v.items) o ≡ ids_from 0 many words.entry) }
{
    let mut ids = Vec::new(alloc);
    let mut least = 0;
    while let Some(word) = words.word() {
        let Some(id) = read_small(word, least, many - 1) else {
            return Ok(None);
        };
        ids.push(id)?;
        least = id + 1;
    }
    Ok(Some(ids))
}

/// The same, at least one.
fn some_ids(alloc: Global, words: Words<'_>, many: u32) -> Result<Option<Vec<u32>>, AllocError>
    requires some { 0 < many }
    requires few { many ≤ 4_080 }
    ensures form { IfOk result (λ o. option_map (λ v. v.items) o ≡ some_ids many words.entry) }
{
    match words.end() {
        Some(()) => Ok(None),
        None => ids_of(alloc, words, many),
    }
}

/// `keep ID ..`.
pub fn keep_of(
    alloc: Global,
    line: &[u8],
    wished: &WishedFlat,
) -> Result<Option<Vec<u32>>, AllocError>
    ensures form { IfOk result (λ o. option_map (λ v. v.items) o ≡ keep_form wished.now line.now) }
{
    let many = wished.count();
    let mut words = Words::of(line);
    match words.word() {
        Some(key) if is_text(key, b"keep") => some_ids(alloc, words, many),
        _ => Ok(None),
    }
}

/// `drop ID SLOT ..` of this restriction.
pub fn drop_of(
    alloc: Global,
    line: &[u8],
    wished: &WishedFlat,
    id: u32,
) -> Result<Option<Vec<Slot>>, AllocError>
    ensures form { IfOk result (λ o. option_map (λ v. v.items) o ≡ drop_form wished.now id line.now) }
    ensures listed { IfOk result (λ o. IfSome o (λ v. IsTimetable wished.now.problem v.items)) }
{
    let shape = wished.shape();
    let mut words = Words::of(line);
    let (Some(key), Some(word)) = (words.word(), words.word()) else {
        return Ok(None);
    };
    if !is_text(key, b"drop") {
        return Ok(None);
    }
    if read_small(word, id, id).is_none() {
        return Ok(None);
    }
    slots_of(alloc, words, shape.slots, shape.ships)
}
