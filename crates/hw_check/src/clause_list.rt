//! The clauses that lines may still name, kept in one list of literals, and how the room of
//! dead ones is given back.

ghost use Rattle.std.specs.Prelude.{◌≡◌, ◌∷◌, ◌++◌, [], ◌+◌, ◌*◌, ◌^◌, ◌<◌, ◌≤◌, Some, length, nat_lt, option_copied, OnOk, OnErr};
ghost use Rattle.hw_cert_lines.specs.Kept.{clause_under, without};
ghost use Rattle.hw_check.specs.States.{FewDeadClauses, literals, with_next};

use crate::stored::{Stored, find_place, gathered, lits_at};
use hw_model::{Lit, NoMemory};
use std::alloc::Global;
use std::marker::Model;

/// The live clauses by ascending numbers.
///
/// Dead ones stay among them until `give_back`.
#[derive(Drop)]
pub(crate) struct ClauseList {
    stored: Stored,
    /// How many numbers were given, including those of dead clauses.
    count: u32,
    /// How many clauses are live.
    held: u32,
    /// How many literals the live clauses have.
    live_lits: usize,
}

impl Model for ClauseList {
    ghost use Rattle.std.specs.Prelude.{◌+◌, length};
    ghost use Rattle.hw_check.specs.States.{ClauseStore};
    ghost use Rattle.hw_check.specs.Places.{clauses_at, IsStored};

    ghost Value = { ClauseStore };

    ghost view = { λ c. record { live = clauses_at c.stored.lits.items c.stored.places.items; next = c.count + 1; kept_lits = length c.stored.lits.items; kept_places = length c.stored.places.items } };

    ghost invariant = { λ c. IsStored c.stored.lits.items c.stored.places.items c.count c.held c.live_lits };
}

impl ClauseList {
    /// No clauses.
    pub(crate) fn new(alloc: Global) -> ClauseList
        ensures none { result ≡ record { live = []; next = 1; kept_lits = 0; kept_places = 0 } }
    {
        ClauseList {
            stored: Stored::new(alloc),
            count: 0,
            held: 0,
            live_lits: 0,
        }
    }

    /// The allocator of the clauses.
    pub(crate) fn allocator(&self) -> Global {
        *self.stored.lits.allocator()
    }

    /// Whether there is a number for one more clause.
    pub(crate) fn has_number(&self) -> bool
        ensures value { result ≡ nat_lt self.now.next (2 ^ 32) }
    {
        self.count < u32::MAX
    }

    /// The number of live clauses.
    pub(crate) fn held(&self) -> u32
        ensures value { result ≡ length self.now.live }
    {
        self.held
    }

    /// The number of their literals.
    pub(crate) fn live_lits(&self) -> usize
        ensures value { result ≡ literals self.now.live }
    {
        self.live_lits
    }

    /// The number of literals that are kept, including those of dead clauses.
    pub(crate) fn kept_lits(&self) -> usize
        ensures value { result ≡ self.now.kept_lits }
    {
        self.stored.lits.len()
    }

    /// The number of places that are kept.
    pub(crate) fn kept_places(&self) -> usize
        ensures value { result ≡ self.now.kept_places }
    {
        self.stored.places.len()
    }

    /// The literals of the live clause of this number, if there is one.
    pub(crate) fn lits(&self, id: u32) -> Option<&[Lit]>
        ensures value { option_copied result ≡ clause_under self.now.live id }
    {
        let Some(index) = find_place(&self.stored.places, id) else {
            return None;
        };
        let place = self.stored.places[index];
        if place.is_live {
            Some(lits_at(&self.stored.lits, place))
        } else {
            None
        }
    }

    /// Adds a live clause under the next number.
    pub(crate) fn push(&mut self, lits: &[Lit]) -> Result<(), NoMemory>
        requires numbered { self.old.next < 2 ^ 32 }
        ensures added { OnOk result (self.new ≡ with_next self.old lits.now) }
        ensures kept { OnErr result (self.new ≡ self.old) }
    {
        self.stored.add(self.count + 1, lits)?;
        self.count += 1;
        self.held += 1;
        self.live_lits += lits.len();
        Ok(())
    }

    /// Makes the clause of this number dead, if there is one. Its literals stay until `give_back`.
    pub(crate) fn remove(&mut self, id: u32)
        ensures dead { self.new ≡ record self.old { live = without (id ∷ []) self.old.live } }
    {
        let Some(index) = find_place(&self.stored.places, id) else {
            return;
        };
        let place = self.stored.places[index];
        if place.is_live {
            self.held -= 1;
            self.live_lits -= place.len;
            self.stored.places[index].is_live = false;
        }
    }

    /// Makes the clauses of these numbers dead.
    pub(crate) fn remove_all(&mut self, ids: &[u32])
        ensures dead { self.new ≡ record self.old { live = without ids.now self.old.live } }
    {
        for id in ids {
            self.remove(*id);
        }
    }

    /// Gives back what is kept of dead clauses once it is more than the live ones need, in one pass
    /// over all that is kept. It costs at most twice what died since the last pass.
    pub(crate) fn give_back(&mut self) -> Result<(), NoMemory>
        ensures same { self.new.live ≡ self.old.live }
        ensures numbered { self.new.next ≡ self.old.next }
        ensures bounded { OnOk result (FewDeadClauses self.new) }
    {
        let kept = self.stored.lits.len() + self.stored.places.len();
        let needed = self.live_lits + self.held as usize;
        if kept - needed > needed {
            let alloc = *self.stored.lits.allocator();
            self.stored = gathered(alloc, &self.stored.lits, &self.stored.places)?;
        }
        Ok(())
    }
}
