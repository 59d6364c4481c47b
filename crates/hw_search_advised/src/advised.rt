//! A search with an adviser, as its callers see it.

ghost use Rattle.std.specs.Prelude.{◌≡◌, ◌<◌, ◌≤◌, [], false, All, IfOk, map};
ghost use Rattle.std.specs.Option.{option_copied};
ghost use Rattle.hw_model.specs.Problem.{shape_of};
ghost use Rattle.hw_model.specs.Rooms.{whole_room};
ghost use Rattle.hw_cert.specs.Logs.{WhereTold};
ghost use Rattle.hw_search_laws.specs.Searches.{LogFits, new_search, room_in, IsSearch};
ghost use Rattle.hw_search_laws.specs.Advised.{AdvisedMeets, BoundMeets};
ghost use Rattle.hw_search_laws.specs.Closing.{CloseMeets};
ghost use Rattle.hw_search_laws.specs.Proposing.{ProposeMeets};
ghost use Rattle.hw_search_laws.specs.Starting.{EachSourceOnce};
ghost use Rattle.hw_search_advised.specs.Bounding.{BoundKeepsFaults};
ghost use Rattle.hw_search_advised.specs.Closing.{CloseKeepsFaults};
ghost use Rattle.hw_search.specs.Faults.{TurnKeepsFaults};
ghost use Rattle.hw_search_advised.specs.Proposing.{ProposeKeepsFaults};

use crate::advising::advised_turn;
use crate::bounding::advised_bound;
use crate::closing::close;
use crate::proposing::propose;
use hw_cert::Log;
use hw_flat::{Flat, Room, Timetable};
use hw_model::NoMemory;
use hw_prop::Propagator;
use hw_search::Search;
use hw_search_advice::Adviser;
use hw_search_laws::{Bounded, Branching, Closed, MOST_BUDGET, Proposed, Turn};
use hw_store::Store;
use std::alloc::Global;
use std::marker::Model;

/// A search that asks an adviser whenever its sources and lemmas are quiet.
#[derive(Drop)]
pub struct Advised<'f, S: Store + Drop, P: Propagator + Drop, A: Adviser + Drop> {
    search: Search<'f, S, P>,
    adviser: A,
}

impl<'f, S: Store + Drop, P: Propagator + Drop, A: Adviser + Drop> Model for Advised<'f, S, P, A> {
    ghost use Rattle.hw_search_laws.specs.Searches.{SearchModel};

    ghost Value = { SearchModel };

    ghost view = { λ s. s.search };
}

impl<'f, S: Store + Drop, P: Propagator + Drop, A: Adviser + Drop> Advised<'f, S, P, A> {
    /// A search that has done nothing. It keeps the allocator by which it grows. All the memory that it
    /// will need is taken here, but for timetables, copies of clauses, and what is advised.
    pub fn new(
        alloc: Global,
        flat: &'f Flat,
        store: S,
        props: Vec<P>,
        branching: Branching,
        adviser: A,
    ) -> Result<Advised<'f, S, P, A>, NoMemory>
        requires empty { S.clauses store ≡ [] }
        requires ships { S.ships store ≡ flat.now.ships }
        requires right { S.ready store (whole_room (shape_of flat.now)) }
        requires sources { EachSourceOnce flat.now (map P.source props.items) }
        requires ready { All (λ one. P.ready one flat.now (whole_room (shape_of flat.now))) props.items }
        ensures value { IfOk result (λ search. search ≡ new_search flat.now branching) }
    {
        let search = Search::new(alloc, flat, store, props, branching)?;
        Ok(Advised { search, adviser })
    }

    /// Settles and heeds the adviser, until it has nothing more to say, and then decides, writes a
    /// better table, or learns from a conflict: the lines that this takes are handed to the log. After
    /// `Ended`, `NoMemory` and `LogFailed` the search is over; what was written stays, and so does the
    /// best timetable.
    pub fn turn<L: Log>(&mut self, log: &mut L) -> Turn
        requires few { self.old.lemmas < MOST_BUDGET }
        requires going { self.old.over ≡ false }
        requires fits { WhereTold (L.state log.old) (λ told. LogFits told self.old) }
        ensures turns { AdvisedMeets self.old (L.state log.old) result self.new (L.state log.new) }
        ensures kept { TurnKeepsFaults result (L.state log.old) (L.state log.new) }
        ensures same_reference { L.anchor log.new ≡ L.anchor log.old }
    {
        advised_turn(&mut self.search, &mut self.adviser, log)
    }

    /// Asks the adviser for a bound of what any permitted timetable carries, and writes it where it is
    /// below the last one, after the tolls and the tariff by which it holds. After `NoMemory` and
    /// `LogFailed` the search is over; what was written stays.
    pub fn bound<L: Log>(&mut self, log: &mut L) -> Bounded
        requires going { self.old.over ≡ false }
        requires fits { WhereTold (L.state log.old) (λ told. LogFits told self.old) }
        ensures bounds { BoundMeets self.old (L.state log.old) result self.new (L.state log.new) }
        ensures kept { BoundKeepsFaults result (L.state log.old) (L.state log.new) }
        ensures same_reference { L.anchor log.new ≡ L.anchor log.old }
    {
        advised_bound(&mut self.search, &mut self.adviser, log)
    }

    /// Closes the search where its best timetable reaches the last bound: the tariff that shows the bound
    /// comes into force again, and a line without literals ends the certificate. After the last three
    /// answers the search is over; what was written stays.
    pub fn close<L: Log>(&mut self, log: &mut L) -> Closed
        requires going { self.old.over ≡ false }
        requires few { self.old.lemmas ≤ MOST_BUDGET }
        requires fits { WhereTold (L.state log.old) (λ told. LogFits told self.old) }
        ensures closes { CloseMeets self.old (L.state log.old) result self.new (L.state log.new) }
        ensures kept { CloseKeepsFaults result (L.state log.old) (L.state log.new) }
        ensures same_reference { L.anchor log.new ≡ L.anchor log.old }
    {
        close(&mut self.search, log)
    }

    /// Asks the adviser for a timetable, and takes it where it is permitted and beats the best, as
    /// `Search::offer` does. After `NoMemory` and `LogFailed` the search is over; what was written stays.
    pub fn propose<L: Log>(&mut self, log: &mut L) -> Proposed
        requires going { self.old.over ≡ false }
        requires fits { WhereTold (L.state log.old) (λ told. LogFits told self.old) }
        ensures proposes { ProposeMeets self.old (L.state log.old) result self.new (L.state log.new) }
        ensures kept { ProposeKeepsFaults result (L.state log.old) (L.state log.new) }
        ensures same_reference { L.anchor log.new ≡ L.anchor log.old }
    {
        propose(&mut self.search, &mut self.adviser, log)
    }

    /// The best timetable so far.
    pub fn best(&self) -> Option<&Timetable>
        ensures value { option_copied result ≡ self.now.best }
    {
        self.search.best()
    }

    /// The best timetable so far, out of the search.
    pub fn into_best(self) -> Option<Timetable>
        ensures value { result ≡ self.entry.best }
        ensures search { IsSearch self.entry }
    {
        self.search.into_best()
    }

    /// The number of lemmas.
    pub fn lemmas(&self) -> u32
        ensures value { result ≡ self.now.lemmas }
        ensures search { IsSearch self.now }
    {
        self.search.lemmas()
    }

    /// The last bound that was told: no permitted timetable carries more, in tenths of a tonne.
    pub fn told_bound(&self) -> Option<u64>
        ensures value { result ≡ self.now.prices.bound }
    {
        self.search.told_bound()
    }

    /// The trail's level.
    pub fn level(&self) -> u32
        ensures value { result ≡ self.now.trail.level }
    {
        self.search.level()
    }

    /// The trail's room.
    pub fn room(&self) -> &Room
        ensures value { result.now ≡ room_in self.now }
    {
        self.search.room()
    }
}
