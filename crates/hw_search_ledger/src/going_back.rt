//! What is done after a lemma: the search goes back, adds it, and deletes what nobody names any more.

ghost use Rattle.std.specs.Prelude.{◌≡◌, ◌<◌, ◌≤◌, All, length};
ghost use Rattle.hw_model.specs.Lits.{IsLitOf};
ghost use Rattle.hw_trail_laws.specs.Trails.{back_to, room_of};
ghost use Rattle.hw_cert.specs.Logs.{IsWhole};
ghost use Rattle.hw_search_ledger.specs.GoingBack.{TidiesBy};
ghost use Rattle.hw_search_ledger.specs.Ledgers.{with_events_left};

use crate::dropped::dropped_numbers;
use crate::ledger::Ledger;
use crate::writing::{WrittenLemma, hand_deletion};
use hw_cert::{Log, LogStop};
use hw_store::Store;
use hw_trail::Trail;

impl Ledger {
    // Adds a lemma and deletes the numbers that nobody keeps where the events from a place on are
    // dropped. If memory runs out the lemma may be missing.
    fn tidy<S: Store, L: Log>(
        &self,
        trail: &Trail,
        store: &mut S,
        written: WrittenLemma,
        log: &mut L,
    ) -> Result<(), LogStop>
        requires each_event { length trail.now.events ≤ length self.now.written }
        requires ready { S.ready store.old (room_of trail.now) }
        requires lits { All (IsLitOf (S.ships store.old)) written.lemma }
        requires above { All (λ one. one.number < self.now.clause_lines) (S.clauses store.old) }
        requires whole { IsWhole (L.state log.old) }
        ensures ready { S.ready store.new (room_of trail.now) }
        ensures ships { S.ships store.new ≡ S.ships store.old }
        ensures tidies { TidiesBy self.now (length trail.now.events) written (S.clauses store.old) result (S.clauses store.new) (L.state log.old) (L.state log.new) }
        ensures same_reference { L.anchor log.new ≡ L.anchor log.old }
    {
        let WrittenLemma { lemma, conflict } = written;
        if store.add(self.clause_lines, lemma, trail.room()).is_err() {
            return Err(LogStop::NoMemory);
        }
        let keep = trail.len() as usize;
        let Ok(ids) = dropped_numbers(self.alloc, &self.written, keep, conflict, store) else {
            return Err(LogStop::NoMemory);
        };
        hand_deletion(ids, log)
    }

    /// Goes back to a level, adds the lemma that was written, and deletes the numbers that nobody
    /// keeps. If memory runs out the lemma may be missing.
    pub fn go_back<S: Store, L: Log>(
        &mut self,
        trail: &mut Trail,
        store: &mut S,
        level: u32,
        written: WrittenLemma,
        log: &mut L,
    ) -> Result<(), LogStop>
        requires level { level ≤ trail.old.level }
        requires each_event { length self.old.written ≡ length trail.old.events }
        requires ships { S.ships store.old ≡ trail.old.ships }
        requires lits { All (IsLitOf trail.old.ships) written.lemma }
        requires above { All (λ one. one.number < self.old.clause_lines) (S.clauses store.old) }
        requires whole { IsWhole (L.state log.old) }
        ensures trail { trail.new ≡ back_to trail.old level }
        ensures numbers { self.new ≡ with_events_left self.old (length trail.new.events) }
        ensures ready { S.ready store.new (room_of trail.new) }
        ensures ships { S.ships store.new ≡ S.ships store.old }
        ensures tidies { TidiesBy self.old (length trail.new.events) written (S.clauses store.old) result (S.clauses store.new) (L.state log.old) (L.state log.new) }
        ensures same_reference { L.anchor log.new ≡ L.anchor log.old }
    {
        trail.back_to(level);
        store.undone(trail.room());
        let tidied = self.tidy(trail, store, written, log);
        self.keep_events(trail.len() as usize);
        tidied
    }
}
