//! Growing lists of places, which name stored clauses or sources.

ghost use Rattle.std.specs.Prelude.{◌≡◌, ◌++◌, [], ◌∷◌, All, IfOk, OnOk, OnErr, length};

use hw_model::NoMemory;
use std::alloc::Global;
use std::marker::Model;

/// Places in another list, seen as their list.
#[derive(Drop)]
pub struct Places {
    pub(crate) items: Vec<u32>,
}

impl Model for Places {
    ghost use Rattle.std.specs.Prelude.{List, ℕ};

    ghost Value = { List ℕ };

    ghost view = { λ s. s.items.items };
}

impl Places {
    /// No places. It takes no memory.
    pub fn new(alloc: Global) -> Places
        ensures none { result ≡ [] }
    {
        Places {
            items: Vec::new(alloc),
        }
    }

    /// Adds a place at the end. If memory runs out, the list stays as it was.
    pub fn push(&mut self, place: u32) -> Result<(), NoMemory>
        ensures push { OnOk result (self.new ≡ self.old ++ place ∷ []) }
        ensures same { OnErr result (self.new ≡ self.old) }
    {
        self.items.push(place)?;
        Ok(())
    }

    /// The places in the order in which they were added.
    pub fn as_slice(&self) -> &[u32]
        ensures value { result.now ≡ self.now }
    {
        &self.items
    }
}

/// This many empty lists.
pub fn no_places(alloc: Global, lists: u32) -> Result<Vec<Places>, NoMemory>
    ensures length { IfOk result (λ all. length all.items ≡ lists) }
    ensures empty { IfOk result (λ all. All (λ places. places ≡ []) all.items) }
{
    let mut all = Vec::with_capacity(alloc, lists as usize)?;
    for _count in 0..lists {
        all.push(Places::new(alloc))?;
    }
    Ok(all)
}
