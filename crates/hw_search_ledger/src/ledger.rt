//! The numbers of a search's clause lines.

ghost use Rattle.std.specs.Prelude.{◌≡◌, ◌+◌, ◌++◌, ◌∷◌, ◌<◌, ◌≤◌, ◌^◌, [], IfOk, None, length, slice_index_or};
ghost use Rattle.hw_search_ledger.specs.Ledgers.{with_events_left, with_clause_line, with_written_number, with_reason};

use hw_model::NoMemory;
use std::alloc::Global;
use std::marker::Model;

/// The numbers of the clause lines that a search wrote. Its methods write what surrounds a lemma:
/// reasons and conflict (naming.rt), the lemma (writing.rt), deletions (going_back.rt).
/// The numbers of the stored lemmas are the store's.
///
/// No reason stands under a number that wasn't given. There is memory for the events of a whole
/// trail from the start.
#[derive(Drop)]
pub struct Ledger {
    pub(crate) alloc: Global,
    /// Beside each event of the trail the number of the line that was written for its reason, if
    /// one was.
    pub(crate) written: Vec<Option<u32>>,
    /// How many clause lines were written.
    pub(crate) clause_lines: u32,
}

impl Model for Ledger {
    ghost use Rattle.std.specs.Prelude.{vec_capacity};
    ghost use Rattle.hw_search_ledger.specs.Ledgers.{LedgerModel, EachGiven};

    ghost Value = { LedgerModel };

    ghost view = { λ l. record { written = l.written.items; clause_lines = l.clause_lines; reserved = vec_capacity l.written } };

    ghost invariant = { λ l. EachGiven (record { written = l.written.items; clause_lines = l.clause_lines; reserved = vec_capacity l.written }) };
}

impl Ledger {
    /// A ledger without lines, with memory for this many events.
    pub fn new(alloc: Global, events: usize) -> Result<Ledger, NoMemory>
        ensures written { IfOk result (λ ledger. ledger.written ≡ []) }
        ensures clause_lines { IfOk result (λ ledger. ledger.clause_lines ≡ 0) }
        ensures reserved { IfOk result (λ ledger. events ≤ ledger.reserved) }
    {
        Ok(Ledger {
            alloc,
            written: Vec::with_capacity(alloc, events)?,
            clause_lines: 0,
        })
    }

    /// One more event came. No line was written for its reason. It takes no memory.
    pub fn add_event(&mut self)
        requires room { length self.old.written < self.old.reserved }
        ensures value { self.new ≡ record self.old { written = self.old.written ++ None ∷ [] } }
    {
        self.written.push_reserved(None);
    }

    /// One more event came, and the next clause line was written for its reason. It takes no memory.
    pub fn add_written(&mut self)
        requires room { length self.old.written < self.old.reserved }
        requires few { self.old.clause_lines + 1 < 2 ^ 32 }
        ensures value { self.new ≡ with_written_number self.old }
    {
        self.clause_lines += 1;
        self.written.push_reserved(Some(self.clause_lines));
    }

    /// Keeps only the first `count` events.
    pub(crate) fn keep_events(&mut self, count: usize)
        ensures value { self.new ≡ with_events_left self.old count }
    {
        self.written.truncate(count);
    }

    /// The number of the line that was written for the reason of the event at a place, if one was.
    pub(crate) fn number_at(&self, place: u32) -> Option<u32>
        requires place_in { place < length self.now.written }
        ensures value { result ≡ slice_index_or self.now.written place None }
    {
        self.written[place as usize]
    }

    /// Gives the number of the next clause line.
    pub(crate) fn give(&mut self) -> u32
        requires few { self.old.clause_lines + 1 < 2 ^ 32 }
        ensures value { self.new ≡ with_clause_line self.old }
        ensures number { result ≡ self.old.clause_lines + 1 }
    {
        self.clause_lines += 1;
        self.clause_lines
    }

    /// Gives the number of the next clause line to the reason of the event at a place.
    pub(crate) fn give_reason(&mut self, place: u32) -> u32
        requires place_in { place < length self.old.written }
        requires few { self.old.clause_lines + 1 < 2 ^ 32 }
        ensures value { self.new ≡ with_reason self.old place }
        ensures number { result ≡ self.old.clause_lines + 1 }
    {
        self.clause_lines += 1;
        self.written[place as usize] = Some(self.clause_lines);
        self.clause_lines
    }
}
