//! The search as its callers see it.

ghost use Rattle.std.specs.Prelude.{◌≡◌, ◌<◌, ◌≤◌, [], true, false, All, IfOk, OnOk, length, map};
ghost use Rattle.std.specs.Option.{option_copied};
ghost use Rattle.hw_model.specs.declared.lit.LitTruth.TheVariants.{Free};
ghost use Rattle.hw_model.specs.declared.narrowing.Narrowed.TheVariants.{Cut as CutBy};
ghost use Rattle.hw_model.specs.Lits.{lit_fits, IsClause};
ghost use Rattle.hw_model.specs.Narrowing.{truth};
ghost use Rattle.hw_model.specs.Problem.{shape_of};
ghost use Rattle.hw_model.specs.Replay.{narrowing};
ghost use Rattle.hw_model.specs.Rooms.{IsPoint, whole_room};
ghost use Rattle.hw_model.specs.Timetables.{Permits};
ghost use Rattle.hw_trail_laws.specs.Trails.{trail_shape};
ghost use Rattle.hw_price_laws.specs.Tolls.{IsToll};
ghost use Rattle.hw_price_laws.specs.Prices.{TariffFits};
ghost use Rattle.hw_search_advice.specs.Advisers.{IsOpenIn};
ghost use Rattle.hw_cert.specs.Logs.{IsWhole, WhereTold};
ghost use Rattle.hw_search_laws.specs.declared.outcome.Settled.TheVariants.{Quiet, Conflict};
ghost use Rattle.hw_search_laws.specs.Advised.{with_priced};
ghost use Rattle.hw_search_laws.specs.Offers.{IsBetter, OfferMeets};
ghost use Rattle.hw_search_laws.specs.Prices.{with_tariff, prices_with_toll, DuesAscend};
ghost use Rattle.hw_search_laws.specs.Searches.{best_cargo, new_search, room_in, IsSearch, LogFits, PricesShow};
ghost use Rattle.hw_search_laws.specs.Settling.{AllQuiet, IsConflict, SettleMeets};
ghost use Rattle.hw_search_laws.specs.Starting.{Branches, EachSourceOnce};
ghost use Rattle.hw_search_laws.specs.Turns.{TurnMeets};
ghost use Rattle.hw_search.specs.Faults.{TurnKeepsFaults};
ghost use Rattle.hw_search.specs.Pricing.{standing_of, with_other_prices, HeedMeets, IsBelow, ShowsBound, TellMeets};
ghost use Rattle.hw_search.specs.Turning.{decided_by, turn_of, Decides, TurnsFrom};

use crate::engine::Engine;
use hw_cert::{Log, LogStop};
use hw_flat::{Flat, Room, Timetable};
use hw_lits::Clause;
use hw_model::{Lit, MOST_CARGO, NoMemory};
use hw_price_laws::{MOST_TOLLS, Tariff, Toll};
use hw_prop::Propagator;
use hw_search_advice::Scene;
use hw_search_laws::{Branching, MOST_BUDGET, MOST_PRICED, Settled, Turn};
use hw_store::Store;
use hw_trail_laws::Why;
use std::alloc::Global;
use std::marker::Model;

/// A search on a problem, over a store of lemmas and a propagator for each source.
#[derive(Drop)]
pub struct Search<'f, S: Store + Drop, P: Propagator + Drop> {
    engine: Engine<'f, S, P>,
}

impl<'f, S: Store + Drop, P: Propagator + Drop> Model for Search<'f, S, P> {
    ghost use Rattle.hw_search_laws.specs.Searches.{SearchModel};

    ghost Value = { SearchModel };

    ghost view = { λ s. s.engine.search };
}

impl<'f, S: Store + Drop, P: Propagator + Drop> Search<'f, S, P> {
    /// A search that has done nothing. It keeps the allocator by which it grows. All the memory that it
    /// will need is taken here, but for timetables and copies of clauses.
    pub fn new(
        alloc: Global,
        flat: &'f Flat,
        store: S,
        props: Vec<P>,
        branching: Branching,
    ) -> Result<Search<'f, S, P>, NoMemory>
        requires empty { S.clauses store ≡ [] }
        requires ships { S.ships store ≡ flat.now.ships }
        requires right { S.ready store (whole_room (shape_of flat.now)) }
        requires sources { EachSourceOnce flat.now (map P.source props.items) }
        requires ready { All (λ one. P.ready one flat.now (whole_room (shape_of flat.now))) props.items }
        ensures value { IfOk result (λ search. search ≡ new_search flat.now branching) }
    {
        let engine = Engine::new(alloc, flat, store, props, branching)?;
        Ok(Search { engine })
    }

    /// Asks the store and the marked sources until all are quiet or a clause has no literal left.
    ///
    /// If memory runs out, literals that were Free may have been implied; the lemmas, the best and
    /// the level are as before.
    pub fn settle(&mut self) -> Result<Settled, NoMemory>
        requires going { self.old.over ≡ false }
        requires few { self.old.lemmas < MOST_BUDGET }
        ensures meets { SettleMeets self.old self.new result }
    {
        self.engine.settle()
    }

    /// The literal by which the search decides in its room: that of its branching rule. It looks at
    /// each slot of each range at most twice, and takes no memory.
    pub fn branch(&self) -> Lit
        requires wide { IsPoint (room_in self.now) → ⊥ }
        ensures value { Branches self.now result }
    {
        self.engine.branch()
    }

    /// Settles, and then decides, writes a better table, or learns from a conflict: the lines that
    /// this takes are handed to the log. After `Ended`, `NoMemory` and `LogFailed` the search is
    /// over; what was written stays, and so does the best timetable.
    pub fn turn<L: Log>(&mut self, log: &mut L) -> Turn
        requires few { self.old.lemmas < MOST_BUDGET }
        requires going { self.old.over ≡ false }
        requires fits { WhereTold (L.state log.old) (λ told. LogFits told self.old) }
        ensures turns { TurnMeets self.old (L.state log.old) result self.new (L.state log.new) }
        ensures kept { TurnKeepsFaults result (L.state log.old) (L.state log.new) }
        ensures same_reference { L.anchor log.new ≡ L.anchor log.old }
    {
        self.engine.turn(log)
    }

    /// Takes a permitted timetable that somebody else found, whose cargo beats the best: its line is
    /// handed to the log. It answers `Better`, `NoMemory` or `LogFailed`; after the last two the search is
    /// over. All else of the search is as before. It copies the timetable once, and looks at nothing else.
    pub fn offer<L: Log>(&mut self, table: &Timetable, log: &mut L) -> Turn
        requires going { self.old.over ≡ false }
        requires permitted { Permits self.old.problem table.now }
        requires better { IsBetter self.old table.now }
        requires fits { WhereTold (L.state log.old) (λ told. LogFits told self.old) }
        ensures offers { OfferMeets self.old table.now (L.state log.old) result self.new (L.state log.new) }
        ensures kept { TurnKeepsFaults result (L.state log.old) (L.state log.new) }
        ensures same_reference { L.anchor log.new ≡ L.anchor log.old }
    {
        self.engine.offer(table, log)
    }

    /// The best timetable so far.
    pub fn best(&self) -> Option<&Timetable>
        ensures value { option_copied result ≡ self.now.best }
    {
        self.engine.best()
    }

    /// The best timetable so far, out of the search.
    pub fn into_best(self) -> Option<Timetable>
        ensures value { result ≡ self.entry.best }
        ensures search { IsSearch self.entry }
    {
        self.engine.into_best()
    }

    /// The number of lemmas.
    pub fn lemmas(&self) -> u32
        ensures value { result ≡ self.now.lemmas }
        ensures search { IsSearch self.now }
    {
        self.engine.lemmas()
    }

    /// The trail's level.
    pub fn level(&self) -> u32
        ensures value { result ≡ self.now.trail.level }
    {
        self.engine.level()
    }

    /// The trail's room.
    pub fn room(&self) -> &Room
        ensures value { result.now ≡ room_in self.now }
        ensures search { IsSearch self.now }
    {
        self.engine.room()
    }

    /// The allocator by which it grows.
    pub fn allocator(&self) -> Global {
        self.engine.alloc
    }

    /// What an adviser looks at.
    pub fn scene(&self) -> Scene<'_>
        ensures flat { result.flat.now ≡ self.now.problem }
        ensures best { result.best ≡ best_cargo self.now }
        ensures room { result.room.now ≡ room_in self.now }
        ensures tolls { result.tolls.now ≡ self.now.prices.tolls }
        ensures tariff { option_copied result.tariff ≡ self.now.prices.tariff }
        ensures standing { result.standing ≡ standing_of self.now }
        ensures search { IsSearch self.now }
    {
        self.engine.scene()
    }

    /// How many literals were implied by clauses of prices.
    pub fn priced(&self) -> u32
        ensures value { result ≡ self.now.priced }
    {
        self.engine.priced()
    }

    /// The last bound that was told: no permitted timetable carries more, in tenths of a tonne.
    pub fn told_bound(&self) -> Option<u64>
        ensures value { result ≡ self.now.prices.bound }
    {
        self.engine.told_bound()
    }

    /// The tariff that shows the last bound, where another has come into force since.
    pub fn older_tariff(&self) -> Option<&Tariff>
        ensures value { option_copied result ≡ self.now.prices.older }
        ensures search { IsSearch self.now }
    {
        self.engine.older_tariff()
    }

    /// Decides by the branching rule.
    pub fn decide(&mut self)
        requires quiet { AllQuiet self.old }
        requires wide { IsPoint (room_in self.old) → ⊥ }
        ensures decides { Decides self.old self.new }
    {
        self.engine.decide();
    }

    /// Decides by an open literal.
    pub fn decide_by(&mut self, lit: Lit)
        requires quiet { AllQuiet self.old }
        requires open { IsOpenIn self.old.problem (room_in self.old) lit }
        ensures search { self.new ≡ decided_by self.old lit }
        ensures kept { IsSearch self.new }
    {
        self.engine.decide_by(lit);
    }

    /// Writes the timetable of a quiet point room.
    pub fn improve<L: Log>(&mut self, log: &mut L) -> Turn
        requires quiet { AllQuiet self.old }
        requires point { IsPoint (room_in self.old) }
        requires whole { IsWhole (L.state log.old) }
        ensures turns { TurnsFrom Quiet self.old (L.state log.old) result self.new (L.state log.new) }
        ensures kept { TurnKeepsFaults result (L.state log.old) (L.state log.new) }
        ensures same_reference { L.anchor log.new ≡ L.anchor log.old }
    {
        self.engine.improve(log)
    }

    /// Writes a conflict without literals, and learns from another one.
    pub fn meet_conflict<L: Log>(&mut self, why: &Why, log: &mut L) -> Turn
        requires conflict { IsConflict self.old why.now }
        requires going { self.old.over ≡ false }
        requires few { self.old.lemmas < MOST_BUDGET }
        requires whole { IsWhole (L.state log.old) }
        ensures turns { TurnsFrom (Conflict why.now) self.old (L.state log.old) result self.new (L.state log.new) }
        ensures kept { TurnKeepsFaults result (L.state log.old) (L.state log.new) }
        ensures same_reference { L.anchor log.new ≡ L.anchor log.old }
    {
        self.engine.meet_conflict(why, log)
    }

    /// Declares a toll. Its memory is taken before its line is written.
    pub fn declare<L: Log>(&mut self, toll: Toll, log: &mut L) -> Result<(), LogStop>
        requires toll { IsToll self.old.problem toll }
        requires few { length self.old.prices.tolls < MOST_TOLLS }
        requires fits { WhereTold (L.state log.old) (λ told. LogFits told self.old) }
        ensures search { OnOk result (self.new ≡ with_other_prices self.old (prices_with_toll self.old.prices toll)) }
        ensures heeds { HeedMeets self.old self.new (L.state log.old) (L.state log.new) result }
        ensures same_reference { L.anchor log.new ≡ L.anchor log.old }
    {
        self.engine.declare(toll, log)
    }

    /// Puts a tariff on the declared tolls in force.
    pub fn put_in_force<L: Log>(&mut self, tariff: Tariff, log: &mut L) -> Result<(), LogStop>
        requires tariff { TariffFits (length self.old.prices.tolls) tariff }
        requires ascend { DuesAscend tariff }
        requires fits { WhereTold (L.state log.old) (λ told. LogFits told self.old) }
        ensures search { OnOk result (self.new ≡ with_other_prices self.old (with_tariff self.old.prices tariff)) }
        ensures heeds { HeedMeets self.old self.new (L.state log.old) (L.state log.new) result }
        ensures same_reference { L.anchor log.new ≡ L.anchor log.old }
    {
        self.engine.put_in_force(tariff, log)
    }

    /// Takes a literal that a clause of the prices in force implies, and writes the clause's line.
    pub fn imply_priced<L: Log>(
        &mut self,
        lit: Lit,
        clause: Clause,
        log: &mut L,
    ) -> Result<(), LogStop>
        requires clause { IsClause (shape_of self.old.problem) clause }
        requires shows { PricesShow self.old clause }
        requires lit { lit_fits (trail_shape self.old.trail) lit ≡ true }
        requires free { truth (room_in self.old) lit ≡ Free }
        requires only { narrowing clause (room_in self.old) ≡ CutBy lit }
        requires going { self.old.over ≡ false }
        requires few { self.old.lemmas < MOST_BUDGET }
        requires few_priced { self.old.priced < MOST_PRICED }
        requires fits { WhereTold (L.state log.old) (λ told. LogFits told self.old) }
        ensures search { OnOk result (self.new ≡ with_priced self.old lit clause) }
        ensures heeds { HeedMeets self.old self.new (L.state log.old) (L.state log.new) result }
        ensures same_reference { L.anchor log.new ≡ L.anchor log.old }
    {
        self.engine.imply_priced(lit, clause, log)
    }

    /// Writes a bound that the prices in force show.
    pub fn tell_bound<L: Log>(&mut self, bound: u64, log: &mut L) -> Result<(), LogStop>
        requires small { bound ≤ MOST_CARGO }
        requires below { IsBelow self.old bound }
        requires shows { ShowsBound self.old bound }
        requires fits { WhereTold (L.state log.old) (λ told. LogFits told self.old) }
        ensures tells { TellMeets self.old bound self.new (L.state log.old) (L.state log.new) result }
        ensures same_reference { L.anchor log.new ≡ L.anchor log.old }
    {
        self.engine.tell_bound(bound, log)
    }

    /// The search is over.
    pub fn finish(&mut self)
        ensures search { self.new ≡ record self.old { over = true } }
    {
        self.engine.finish();
    }

    /// The search is over since a line wasn't taken.
    pub fn halt(&mut self, stop: LogStop) -> Turn
        ensures search { self.new ≡ record self.old { over = true } }
        ensures value { result ≡ turn_of stop }
    {
        self.engine.halt(stop)
    }
}
