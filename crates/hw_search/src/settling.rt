//! Settling: store and sources are asked in rounds until all are quiet or a clause has no
//! literal left.

ghost use Rattle.std.specs.Prelude.{◌≡◌, ◌<◌, ◌≤◌, ◌^◌, [], ◌∷◌, false, true, None, Ok, Some, length, slice_set};
ghost use Rattle.hw_model.specs.declared.lit.LitTruth.TheVariants.{Free};
ghost use Rattle.hw_model.specs.declared.narrowing.Narrowed.TheVariants.{Cut as CutBy};
ghost use Rattle.hw_model.specs.Lits.{lit_fits, IsClause};
ghost use Rattle.hw_model.specs.Narrowing.{truth};
ghost use Rattle.hw_model.specs.Problem.{shape_of};
ghost use Rattle.hw_model.specs.Replay.{narrowing};
ghost use Rattle.hw_lits.specs.Active.{IsActive};
ghost use Rattle.hw_trail_laws.specs.Trails.{trail_shape, reason_clause};
ghost use Rattle.hw_search_laws.specs.Searches.{room_in, HasLine, IsReason, IsSearch};
ghost use Rattle.hw_search_laws.specs.Settling.{SettleMeets, with_events};
ghost use Rattle.hw_search_sources.specs.Marks.{AllClear, NextMarked};
ghost use Rattle.hw_search.specs.Askings.{AskMeets, StoreMeets, LemmasQuiet, SourcesQuiet};

use crate::asking::{clause_of, lemma_of};
use crate::engine::Engine;
use hw_lits::{Found, narrowing};
use hw_model::{Lit, Narrowed, NoMemory};
use hw_prop::Propagator;
use hw_search_laws::Settled;
use hw_search_sources::ask_at;
use hw_store::{Held, Store};
use hw_trail_laws::Why;

/// What asking brought: all that was asked is quiet, a literal was implied, or a clause has no
/// literal left.
#[derive(Drop)]
pub enum Asked {
    Quiet,
    Cut,
    Conflict(Why),
}

impl<'f, S: Store + Drop, P: Propagator + Drop> Engine<'f, S, P> {
    /// Takes a literal that a source or a lemma implies, and marks the sources that speak of it. It
    /// takes no memory.
    pub fn imply(&mut self, lit: Lit, why: Why)
        requires fits { lit_fits (trail_shape self.old.search.trail) lit ≡ true }
        requires clause { IsClause (trail_shape self.old.search.trail) (reason_clause why) }
        requires free { truth (room_in self.old.search) lit ≡ Free }
        requires only { narrowing (reason_clause why) (room_in self.old.search) ≡ CutBy lit }
        requires reason { IsReason self.old.search why }
        requires unpriced { HasLine None why }
        ensures search { self.new.search ≡ with_events self.old.search (record { lit = lit; level = self.old.search.trail.level; why = Some why } ∷ []) }
        ensures sources { self.new.sources ≡ self.old.sources }
    {
        self.store.changed(self.trail.room(), lit);
        self.trail.imply(lit, why);
        self.ledger.add_event();
        self.marks.mark(self.speakers.of(lit));
    }

    // Takes the literal that a clause has left, or tells that it has none. It takes no memory.
    fn take(&mut self, why: Why) -> Asked
        requires fits { IsClause (shape_of self.old.search.problem) (reason_clause why) }
        requires active { IsActive (reason_clause why) (room_in self.old.search) }
        requires reason { IsReason self.old.search why }
        requires unpriced { HasLine None why }
        ensures meets { AskMeets ⊥ self.old.search self.new.search (Ok result) }
        ensures sources { self.new.sources ≡ self.old.sources }
    {
        match narrowing(clause_of(&why), self.trail.room()) {
            Narrowed::Cut(lit) => {
                self.imply(lit, why);
                Asked::Cut
            }
            Narrowed::Conflict => Asked::Conflict(why),
            Narrowed::Same | Narrowed::Loose { .. } => unreachable!(),
        }
    }

    // Asks the store once.
    fn look(&mut self) -> Result<Asked, NoMemory>
        ensures meets { AskMeets (LemmasQuiet self.new.search) self.old.search self.new.search result }
        ensures sources { self.new.sources ≡ self.old.sources }
    {
        match self.store.step(self.trail.room())? {
            Held::Quiet => Ok(Asked::Quiet),
            Held::Clause { id } => {
                let why = lemma_of(self.alloc, &self.store, id)?;
                Ok(self.take(why))
            }
        }
    }

    // Asks the store until it is quiet.
    fn ask_store(&mut self) -> Result<Option<Why>, NoMemory>
        ensures meets { StoreMeets self.old.search self.new.search result }
        ensures sources { self.new.sources ≡ self.old.sources }
    {
        loop {
            match self.look()? {
                Asked::Quiet => return Ok(None),
                Asked::Cut => {}
                Asked::Conflict(why) => return Ok(Some(why)),
            }
        }
    }

    // Asks the source at a place once. Where it is quiet it loses its mark.
    fn ask(&mut self, place: usize) -> Result<Asked, NoMemory>
        requires inside { place < length self.old.sources }
        ensures meets { AskMeets (self.new.marks ≡ slice_set self.old.marks place false) self.old.search self.new.search result }
        ensures sources { self.new.sources ≡ self.old.sources }
    {
        let source = self.props[place].source();
        let found = ask_at(
            self.alloc,
            &mut self.props,
            place,
            self.flat,
            self.best.worth,
            self.trail.room(),
        )?;
        match found {
            Found::Quiet => {
                self.marks.clear(place);
                Ok(Asked::Quiet)
            }
            Found::Clause(clause) => Ok(self.take(Why::Source { source, clause })),
        }
    }

    // The first marked source from a place on. Where none is marked each is quiet.
    fn next_marked(&mut self, from: usize) -> Option<usize>
        requires within { from ≤ length self.old.sources }
        ensures next { NextMarked self.new.marks from result }
        ensures same { self.new ≡ self.old }
        ensures search { IsSearch self.new.search }
        ensures each { length self.new.marks ≡ length self.new.sources }
        ensures few { length self.new.sources < 2 ^ 64 }
        ensures quiet { AllClear self.new.marks → SourcesQuiet self.new.search }
    {
        self.marks.next(from)
    }

    // Asks each marked source in turn, each until it is quiet. A round that brings a cut may leave
    // marks. It goes over the marks once, block by block, and asks no other source.
    fn ask_round(&mut self) -> Result<Asked, NoMemory>
        ensures meets { AskMeets (SourcesQuiet self.new.search) self.old.search self.new.search result }
        ensures sources { self.new.sources ≡ self.old.sources }
    {
        let mut cut = false;
        let mut from = 0;
        while let Some(place) = self.next_marked(from) {
            match self.ask(place)? {
                Asked::Quiet => from = place + 1,
                Asked::Cut => {
                    cut = true;
                    from = place;
                }
                Asked::Conflict(why) => return Ok(Asked::Conflict(why)),
            }
        }
        if cut {
            Ok(Asked::Cut)
        } else {
            Ok(Asked::Quiet)
        }
    }

    /// Asks the store and the marked sources, in rounds, until all are quiet or a clause has no
    /// literal left. A round that brought a cut is followed by another one.
    pub fn settle(&mut self) -> Result<Settled, NoMemory>
        ensures meets { SettleMeets self.old.search self.new.search result }
    {
        loop {
            if let Some(why) = self.ask_store()? {
                return Ok(Settled::Conflict(why));
            }
            match self.ask_round()? {
                Asked::Quiet => return Ok(Settled::Quiet),
                Asked::Cut => {}
                Asked::Conflict(why) => return Ok(Settled::Conflict(why)),
            }
        }
    }
}
