//! Lists of slots in a text.

ghost use Rattle.std.specs.Prelude.{◌≡◌, ◌<◌, ◌≤◌, All, IfOk, IfSome, option_map, length};
ghost use Rattle.hw_plan_texts.specs.Slots.{slot_form, slots_form};

use hw_model::Slot;
use hw_text::{Words, read_small};
use std::alloc::{AllocError, Global};

/// A slot, below `slots`.
pub fn slot_of(word: &[u8], slots: u32) -> Option<Slot>
    requires some { 0 < slots }
    ensures form { result ≡ slot_form slots word.now }
    ensures below { IfSome result (λ slot. slot < slots) }
{
    read_small(word, 0, slots - 1)
}

/// Reads exactly `many` slots, each below `slots`.
pub fn slots_of(
    alloc: Global,
    mut words: Words<'_>,
    slots: u32,
    many: u32,
) -> Result<Option<Vec<Slot>>, AllocError>
    requires some { 0 < slots }
    ensures form { IfOk result (λ o. option_map (λ v. v.items) o ≡ slots_form slots many words.entry) }
    ensures many { IfOk result (λ o. IfSome o (λ v. length v.items ≡ many)) }
    ensures below { IfOk result (λ o. IfSome o (λ v. All (λ slot. slot < slots) v.items)) }
{
    let mut list = Vec::new(alloc);
    for place in 0..many {
        let Some(word) = words.word() else {
            return Ok(None);
        };
        let Some(slot) = slot_of(word, slots) else {
            return Ok(None);
        };
        list.push(slot)?;
    }
    match words.end() {
        Some(()) => Ok(Some(list)),
        None => Ok(None),
    }
}
