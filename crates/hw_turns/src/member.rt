//! A searcher of a crew, with its own lines.

ghost use Rattle.std.specs.Prelude.{◌≡◌, ℕ, ◌+◌, ◌^◌, ◌<◌, ◌≤◌, [], false, true, IfOk, IfSome, IsTrue, OnOk};
ghost use Rattle.std.specs.Option.{option_copied};
ghost use Rattle.hw_model.specs.Problem.{IsTimetable};
ghost use Rattle.hw_model.specs.Timetables.{Permits};
ghost use Rattle.hw_cert.specs.Logs.{IsWhole};
ghost use Rattle.hw_search_laws.specs.Searches.{new_search};
ghost use Rattle.hw_search_laws.specs.Turns.{is_last};
ghost use Rattle.hw_search.specs.Turning.{turn_of};
ghost use Rattle.hw_turns.specs.Going.{page_of};
ghost use Rattle.hw_turns.specs.Members.{Working, Caught, ComesNearer, CargoIsAbove, KeepsUp, NotAbove, TurnsOn, TurnsOwn, UnlessStopped, TurnCause, StaysTold};

use crate::board::Board;
use crate::handing::{OwnLines, hand_on};
use hw_cert::{Log, MemoryLog};
use hw_flat::{Flat, NoMemory, Timetable};
use hw_rules::cargo;
use hw_search::{Branching, Search, Turn, turn_of};
use hw_search_laws::MOST_BUDGET;
use hw_search_sources::{AnyPropagator, propagators};
use hw_store::WatchStore;
use std::alloc::Global;

/// A searcher: its rule, its search, its own lines, and for each of its own clause lines that were
/// handed on the number of that line in the shared log.
#[derive(Drop)]
pub struct Member<'f> {
    pub rule: Branching,
    pub search: Search<'f, WatchStore, AnyPropagator>,
    pub log: MemoryLog,
    pub numbers: Vec<u32>,
}

/// A searcher that has done nothing.
pub fn new_member<'f>(
    alloc: Global,
    flat: &'f Flat,
    rule: Branching,
) -> Result<Member<'f>, NoMemory>
    ensures search { IfOk result (λ member. member.search ≡ new_search flat.now rule) }
    ensures log { IfOk result (λ member. member.log ≡ []) }
    ensures numbers { IfOk result (λ member. member.numbers.items ≡ []) }
    ensures rule { IfOk result (λ member. member.rule ≡ rule) }
{
    let store = WatchStore::new(alloc, flat)?;
    let props = propagators(alloc, flat)?;
    let search = Search::new(alloc, flat, store, props, rule)?;
    Ok(Member {
        rule,
        search,
        log: MemoryLog::new(alloc),
        numbers: Vec::new(alloc),
    })
}

/// Whether a timetable's cargo is above that of another one, or there is no other.
pub fn is_above(flat: &Flat, table: &Timetable, other: Option<&Timetable>) -> bool
    requires table { IsTimetable flat.now table.now }
    requires other { IfSome (option_copied other) (IsTimetable flat.now) }
    ensures better { IsTrue result → CargoIsAbove flat.now table.now (option_copied other.entry) }
    ensures not_better { result ≡ false → NotAbove flat.now table.now (option_copied other.entry) }
{
    let Some(worth) = cargo(flat, table) else {
        return false;
    };
    match other {
        None => true,
        Some(other) => match cargo(flat, other) {
            None => true,
            Some(most) => most < worth,
        },
    }
}

impl<'f> Member<'f> {
    // Offers the best of all to the search, where it is above its own. The line is the searcher's own,
    // and isn't handed on.
    fn catch_up(&mut self, flat: &Flat, best: &Option<Timetable>) -> Result<(), NoMemory>
        requires working { Working flat.now self.old.search self.old.log }
        requires permitted { IfSome best.now (Permits flat.now) }
        ensures caught { OnOk result (Caught flat.now self.old.search self.old.log self.new.search self.new.log) }
        ensures keeps_up { OnOk result (KeepsUp flat.now self.new.search best.now) }
        ensures numbers { self.new.numbers ≡ self.old.numbers }
        ensures rule { self.new.rule ≡ self.old.rule }
    {
        let Some(best) = best else {
            return Ok(());
        };
        if !is_above(flat, best, self.search.best()) {
            return Ok(());
        }
        match self.search.offer(best, &mut self.log) {
            Turn::Better => Ok(()),
            Turn::NoMemory => Err(NoMemory),
            Turn::Decided | Turn::Lemma | Turn::Ended | Turn::LogFailed => unreachable!(),
        }
    }

    // The search's turn, on its own log, which never fails.
    fn search_turn(&mut self, flat: &Flat) -> Turn
        requires working { Working flat.now self.old.search self.old.log }
        requires few { self.old.search.lemmas < MOST_BUDGET }
        ensures turns { UnlessStopped result (TurnsOwn flat.now self.old.search self.old.log result self.new.search self.new.log) }
        ensures numbers { self.new.numbers ≡ self.old.numbers }
        ensures rule { self.new.rule ≡ self.old.rule }
    {
        let _shape = flat.shape();
        let turn = self.search.turn(&mut self.log);
        let _lemmas = self.search.lemmas();
        turn
    }

    // The search is offered the best of all, and takes its turn on its own log.
    fn own_turn(&mut self, flat: &Flat, best: &Option<Timetable>) -> Turn
        requires working { Working flat.now self.old.search self.old.log }
        requires permitted { IfSome best.now (Permits flat.now) }
        requires few { self.old.search.lemmas < MOST_BUDGET }
        ensures turns { UnlessStopped result (TurnsOwn flat.now self.old.search self.old.log result self.new.search self.new.log) }
        ensures numbers { self.new.numbers ≡ self.old.numbers }
        ensures rule { self.new.rule ≡ self.old.rule }
    {
        match self.catch_up(flat, best) {
            Ok(()) => self.search_turn(flat),
            Err(_stop) => Turn::NoMemory,
        }
    }

    /// Takes a turn: the search is offered the best of all, and takes its turn on its own log. What it
    /// wrote is handed on.
    pub fn take_turn<L: Log>(
        &mut self,
        alloc: Global,
        flat: &Flat,
        board: &mut Board,
        log: &mut L,
    ) -> Turn
        requires working { Working flat.now self.old.search self.old.log }
        requires few_own { self.old.search.lemmas < MOST_BUDGET }
        requires few { board.old.clause_lines + 21264 < 2 ^ 32 }
        requires few_lemmas { board.old.lemmas + 2 < 2 ^ 32 }
        requires permitted { IfSome board.old.best (Permits flat.now) }
        requires whole { IsWhole (L.state log.old) }
        ensures leaves { TurnsOn flat.now (page_of self.old) board.old (L.state log.old) result (page_of self.new) board.new (L.state log.new) }
        ensures working { is_last result ≡ false → Working flat.now self.new.search self.new.log }
        ensures nearer { (budget : ℕ) → ComesNearer budget result self.old.search self.new.search }
        ensures cause { TurnCause result (L.state log.old) (L.state log.new) }
        ensures lemmas { board.new.lemmas ≤ board.old.lemmas + 1 }
        ensures rule { self.new.rule ≡ self.old.rule }
        ensures stays_told { StaysTold (L.state log.old) (L.state log.new) }
        ensures same_reference { L.anchor log.new ≡ L.anchor log.old }
    {
        let from = self.log.lines().len();
        let turn = self.own_turn(flat, &board.best);
        match turn {
            Turn::Decided | Turn::Better | Turn::Lemma | Turn::Ended => {}
            Turn::NoMemory => return Turn::NoMemory,
            Turn::LogFailed => unreachable!(),
        }
        let own = OwnLines {
            lines: self.log.lines(),
            from,
        };
        match hand_on(alloc, flat, &own, &mut self.numbers, board, log) {
            Ok(()) => turn,
            Err(stop) => turn_of(stop),
        }
    }
}
