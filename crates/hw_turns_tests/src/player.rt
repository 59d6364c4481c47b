//! A searcher that is played by hand: a search over a log of its own.

ghost use Rattle.std.specs.Prelude.{◌≡◌, ◌<◌, false, IfOk, IsTrue, OnOk};
ghost use Rattle.hw_model.specs.Timetables.{Permits};
ghost use Rattle.hw_search_laws.specs.Turns.{is_last};
ghost use Rattle.hw_turns.specs.Members.{Working, Caught, TurnsOwn, UnlessStopped};

use hw_cert::MemoryLog;
use hw_flat::{Flat, NoMemory, Timetable, is_timetable};
use hw_rules::broken;
use hw_search::{Branching, Search, Turn};
use hw_search_sources::{AnyPropagator, propagators};
use hw_store::WatchStore;
use hw_turns::is_above;
use std::alloc::Global;

/// A searcher.
#[derive(Drop)]
pub struct Player<'f> {
    pub search: Search<'f, WatchStore, AnyPropagator>,
    pub log: MemoryLog,
}

/// Whether a timetable is permitted.
fn is_permitted(flat: &Flat, table: &Timetable) -> bool
    ensures { IsTrue result → Permits flat.now table.now }
{
    is_timetable(flat, table) && broken(flat, table).is_none()
}

impl<'f> Player<'f> {
    /// A searcher that has done nothing.
    pub fn new(alloc: Global, flat: &'f Flat, rule: Branching) -> Result<Player<'f>, NoMemory>
        ensures works { IfOk result (λ player. Working flat.now player.search player.log) }
    {
        let _shape = flat.shape();
        let store = WatchStore::new(alloc, flat)?;
        let props = propagators(alloc, flat)?;
        let search = Search::new(alloc, flat, store, props, rule)?;
        Ok(Player {
            search,
            log: MemoryLog::new(alloc),
        })
    }

    /// Is offered the best of all, where that is above its own.
    fn offer(&mut self, flat: &Flat, best: &Option<Timetable>) -> Result<(), NoMemory>
        requires working { Working flat.now self.old.search self.old.log }
        ensures caught { OnOk result (Caught flat.now self.old.search self.old.log self.new.search self.new.log) }
    {
        let Some(best) = best else {
            return Ok(());
        };
        if !is_permitted(flat, best) {
            return Ok(());
        }
        if !is_above(flat, best, self.search.best()) {
            return Ok(());
        }
        match self.search.offer(best, &mut self.log) {
            Turn::Better => Ok(()),
            _other => Err(NoMemory),
        }
    }

    /// Takes a turn.
    fn take_turn(&mut self, flat: &Flat) -> Turn
        requires working { Working flat.now self.old.search self.old.log }
        requires few { self.old.search.lemmas < 100000 }
        ensures turns { UnlessStopped result (TurnsOwn flat.now self.old.search self.old.log result self.new.search self.new.log) }
    {
        let _shape = flat.shape();
        let turn = self.search.turn(&mut self.log);
        let _lemmas = self.search.lemmas();
        turn
    }

    /// Is offered the best of all, where that is above its own, and takes a turn.
    pub fn turn(&mut self, flat: &Flat, best: &Option<Timetable>) -> Turn
        requires working { Working flat.now self.old.search self.old.log }
        ensures goes_on { is_last result ≡ false → Working flat.now self.new.search self.new.log }
    {
        if self.offer(flat, best).is_err() {
            return Turn::NoMemory;
        }
        if self.search.lemmas() >= 100_000 {
            return Turn::NoMemory;
        }
        self.take_turn(flat)
    }
}
