//! What a search works on: its parts, and what they keep together.

ghost use Rattle.std.specs.Prelude.{◌≡◌, [], All, IfOk, map};
ghost use Rattle.std.specs.Option.{option_copied};
ghost use Rattle.hw_model.specs.Problem.{shape_of};
ghost use Rattle.hw_model.specs.Rooms.{whole_room};
ghost use Rattle.hw_search_laws.specs.Searches.{new_search, room_in, IsSearch};
ghost use Rattle.hw_search_laws.specs.Starting.{EachSourceOnce};

use crate::prices::Declared;
use hw_flat::{Flat, Room, Timetable};
use hw_model::NoMemory;
use hw_price_laws::Tariff;
use hw_prop::Propagator;
use hw_search_laws::Branching;
use hw_search_ledger::Ledger;
use hw_search_sources::{Marks, Speakers, goal_of, sources_of};
use hw_store::Store;
use hw_trail::Trail;
use std::alloc::Global;
use std::marker::Model;

/// The best permitted timetable found so far, with its cargo.
#[derive(Drop)]
pub struct Best {
    pub table: Option<Timetable>,
    /// Its cargo, in tenths of a tonne.
    pub worth: Option<u64>,
}

/// What a search works on. Besides the search, the calls of this crate see its sources in order,
/// and which of them are marked: one without a mark is known to be quiet in the room.
///
/// It keeps the allocator by which it grows.
#[derive(Drop)]
pub struct Engine<'f, S: Store + Drop, P: Propagator + Drop> {
    pub alloc: Global,
    pub flat: &'f Flat,
    pub branching: Branching,
    pub trail: Trail,
    /// The stored lemmas.
    pub store: S,
    /// A propagator for each source, in the order of the sources.
    pub props: Vec<P>,
    /// Beside each propagator whether its source is marked.
    pub marks: Marks,
    pub speakers: Speakers,
    /// The place of the goal among the sources.
    pub goal: usize,
    /// The numbers of the clause lines that were written.
    pub ledger: Ledger,
    pub best: Best,
    /// The tolls and prices that were told.
    pub prices: Declared,
    /// How many lemmas were written.
    pub lemmas: u32,
    /// How many restarts there were.
    pub restarts: u32,
    /// How many lemmas were written since the last restart.
    pub since: u32,
    /// How many literals were implied by clauses of prices.
    pub priced: u32,
    /// Whether the search is over: no turn may follow.
    pub over: bool,
}

impl<'f, S: Store + Drop, P: Propagator + Drop> Model for Engine<'f, S, P> {
    ghost use Rattle.std.specs.Prelude.{◌≡◌, All, map};
    ghost use Rattle.hw_search_laws.specs.Searches.{SearchModel};
    ghost use Rattle.hw_search.specs.Engines.{EngineModel, KeepsEngine};
    ghost use Rattle.hw_search.specs.Prices.{prices_of};
    ghost use Rattle.hw_trail_laws.specs.Trails.{room_of};

    ghost Value = { EngineModel };

    ghost view = { λ s. record { search = record { problem = s.flat.now; branching = s.branching; trail = s.trail; stored = S.clauses s.store; written = s.ledger.written; best = s.best.table; prices = prices_of s.prices; clause_lines = s.ledger.clause_lines; lemmas = s.lemmas; restarts = s.restarts; since = s.since; priced = s.priced; over = s.over }; sources = map P.source s.props.items; marks = s.marks } };

    ghost invariant = { λ s.
        KeepsEngine (record { search = record { problem = s.flat.now; branching = s.branching; trail = s.trail; stored = S.clauses s.store; written = s.ledger.written; best = s.best.table; prices = prices_of s.prices; clause_lines = s.ledger.clause_lines; lemmas = s.lemmas; restarts = s.restarts; since = s.since; priced = s.priced; over = s.over }; sources = map P.source s.props.items; marks = s.marks }) s.speakers s.goal s.best.worth s.ledger.reserved
        × (S.ships s.store ≡ s.flat.now.ships)
        × S.ready s.store (room_of s.trail)
        × All (λ one. P.serves one s.flat.now) s.props.items };
}

impl<'f, S: Store + Drop, P: Propagator + Drop> Engine<'f, S, P> {
    /// A search that has done nothing, with every source marked. The memory for the numbers of lines
    /// and for the marks is taken here.
    pub fn new(
        alloc: Global,
        flat: &'f Flat,
        store: S,
        props: Vec<P>,
        branching: Branching,
    ) -> Result<Engine<'f, S, P>, NoMemory>
        requires empty { S.clauses store ≡ [] }
        requires ships { S.ships store ≡ flat.now.ships }
        requires right { S.ready store (whole_room (shape_of flat.now)) }
        requires sources { EachSourceOnce flat.now (map P.source props.items) }
        requires ready { All (λ one. P.ready one flat.now (whole_room (shape_of flat.now))) props.items }
        ensures value { IfOk result (λ engine. engine.search ≡ new_search flat.now branching) }
    {
        let trail = Trail::new(alloc, flat)?;
        let shape = flat.shape();
        let narrowings = shape.ships * (shape.slots - 1);
        let most = narrowings + shape.ships * (shape.ships - 1) / 2;
        let ledger = Ledger::new(alloc, most as usize)?;
        let sources = sources_of(alloc, &props)?;
        let goal = goal_of(&sources);
        let speakers = Speakers::new(alloc, flat, &sources)?;
        let marks = Marks::all(alloc, props.len())?;
        Ok(Engine {
            alloc,
            flat,
            branching,
            trail,
            store,
            props,
            marks,
            speakers,
            goal,
            ledger,
            best: Best {
                table: None,
                worth: None,
            },
            prices: Declared::none(alloc),
            lemmas: 0,
            restarts: 0,
            since: 0,
            priced: 0,
            over: false,
        })
    }

    /// The best timetable so far.
    pub fn best(&self) -> Option<&Timetable>
        ensures value { option_copied result ≡ self.now.search.best }
    {
        self.best.table.as_ref()
    }

    /// The best timetable so far, out of the search.
    pub fn into_best(self) -> Option<Timetable>
        ensures value { result ≡ self.entry.search.best }
        ensures search { IsSearch self.entry.search }
    {
        self.best.table
    }

    /// The number of lemmas.
    pub fn lemmas(&self) -> u32
        ensures value { result ≡ self.now.search.lemmas }
        ensures search { IsSearch self.now.search }
    {
        self.lemmas
    }

    /// The last bound that was told, in tenths of a tonne.
    pub fn told_bound(&self) -> Option<u64>
        ensures value { result ≡ self.now.search.prices.bound }
    {
        self.prices.bound
    }

    /// The tariff that shows the last bound, where another has come into force since.
    pub fn older_tariff(&self) -> Option<&Tariff>
        ensures value { option_copied result ≡ self.now.search.prices.older }
        ensures search { IsSearch self.now.search }
    {
        self.prices.older.as_ref()
    }

    /// How many literals were implied by clauses of prices.
    pub fn priced(&self) -> u32
        ensures value { result ≡ self.now.search.priced }
    {
        self.priced
    }

    /// The trail's level.
    pub fn level(&self) -> u32
        ensures value { result ≡ self.now.search.trail.level }
    {
        self.trail.level()
    }

    /// The trail's room.
    pub fn room(&self) -> &Room
        ensures value { result.now ≡ room_in self.now.search }
        ensures search { IsSearch self.now.search }
    {
        self.trail.room()
    }
}
