//! The lists of slots in lexicographic order: the first one, and from each to the next.

ghost use Rattle.std.specs.Prelude.{◌≡◌, ◌+◌, ◌^◌, ◌<◌, length, MatchBool, All, IfOk, replicate};
ghost use Rattle.hw_model.specs.Walk.{rank};

use hw_model::{NoMemory, Slot};
use std::alloc::Global;

/// The first list: each ship in slot 0.
pub(crate) fn first_list(alloc: Global, ships: u32) -> Result<Vec<Slot>, NoMemory>
    ensures { IfOk result (λ list. list.items ≡ replicate ships 0) }
{
    Ok(vec![in alloc; 0; ships as usize]?)
}

/// Steps to the next list of slots in lexicographic order. After the last one it answers false,
/// and all ships are in slot 0 again.
pub(crate) fn advance(list: &mut [Slot], slots: u32) -> bool
    requires below { All (λ slot. slot < slots) list.old }
    ensures below { All (λ slot. slot < slots) list.new }
    ensures rank { MatchBool result (rank slots list.new ≡ rank slots list.old + 1) (rank slots list.old + 1 ≡ slots ^ length list.old) }
{
    let mut left = list.len();
    while left > 0 {
        left -= 1;
        if list[left] + 1 < slots {
            list[left] += 1;
            return true;
        }
        list[left] = 0;
    }
    false
}
