//! A whole run, turn by turn.

ghost use Rattle.std.specs.Prelude.{◌≡◌, ◌≤◌, [], IfOk};
ghost use Rattle.hw_cert.specs.Logs.{IsEmpty};
ghost use Rattle.hw_model.specs.Problem.{shape_of};
ghost use Rattle.hw_model.specs.Rooms.{whole_room};
ghost use Rattle.hw_search_laws.specs.Searches.{new_search};

use crate::asking::{Asking, propagators};
use hw_cert::Log;
use hw_flat::{Flat, Room, Timetable};
use hw_model::{Lit, NoMemory};
use hw_search::{Branching, Search, Settled, Turn};
use hw_search_sources::AnyPropagator;
use hw_store::Store;
use std::alloc::Global;
use std::test::Fail;

/// The outcome of a whole run. The levels are those after each lemma with literals.
#[derive(Drop)]
pub struct Run {
    pub ended: bool,
    pub best: Option<Timetable>,
    pub levels: Vec<u32>,
}

// A search over a store, which has done nothing.
fn begin<'f, S: Store + Drop>(
    alloc: Global,
    flat: &'f Flat,
    store: S,
    asking: Asking,
    branching: Branching,
) -> Result<Search<'f, S, AnyPropagator>, Fail>
    requires empty { S.clauses store ≡ [] }
    requires ships { S.ships store ≡ flat.now.ships }
    requires right { S.ready store (whole_room (shape_of flat.now)) }
    ensures value { IfOk result (λ search. search ≡ new_search flat.now branching) }
{
    let props = propagators(alloc, flat, asking)?;
    Ok(Search::new(alloc, flat, store, props, branching)?)
}

// Takes turns of a new search until it has ended or has as many lemmas as the budget says. Returns
// whether it ended, and lists the level after each lemma with literals.
fn take_turns<S: Store + Drop, L: Log>(
    flat: &Flat,
    budget: u32,
    search: &mut Search<'_, S, AnyPropagator>,
    log: &mut L,
    levels: &mut Vec<u32>,
) -> Result<bool, NoMemory>
    requires new { search.old ≡ new_search flat.now Branching.Greatest }
    requires most { budget ≤ 100_000 }
    requires empty { IsEmpty (L.state log.old) }
{
    let _shape = flat.shape();
    for _count in 0..1_000_000 {
        if search.lemmas() >= budget {
            return Ok(false);
        }
        match search.turn(log) {
            Turn::Decided | Turn::Better => {}
            Turn::Lemma => levels.push(search.level())?,
            Turn::Ended => return Ok(true),
            Turn::NoMemory | Turn::LogFailed => return Ok(false),
        }
    }
    Ok(false)
}

/// Turn after turn of a search over a store without clauses.
pub fn whole_run<S: Store + Drop, L: Log>(
    alloc: Global,
    flat: &Flat,
    store: S,
    budget: u32,
    log: &mut L,
) -> Result<Run, Fail>
    requires empty { S.clauses store ≡ [] }
    requires ships { S.ships store ≡ flat.now.ships }
    requires right { S.ready store (whole_room (shape_of flat.now)) }
    requires most { budget ≤ 100_000 }
    requires none { IsEmpty (L.state log.old) }
{
    let mut search = begin(alloc, flat, store, Asking::Made, Branching::Greatest)?;
    let mut levels = Vec::new(alloc);
    let ended = take_turns(flat, budget, &mut search, log, &mut levels)?;
    let best = search.into_best();
    Ok(Run {
        ended,
        best,
        levels,
    })
}

/// How the whole room settles: the answer, and then the level and the room.
#[derive(Drop)]
pub struct End {
    pub answer: Settled,
    pub level: u32,
    pub room: Room,
}

/// How the whole room settles over a store without clauses.
pub fn settled<S: Store + Drop>(
    alloc: Global,
    flat: &Flat,
    store: S,
    asking: Asking,
) -> Result<End, Fail>
    requires empty { S.clauses store ≡ [] }
    requires ships { S.ships store ≡ flat.now.ships }
    requires right { S.ready store (whole_room (shape_of flat.now)) }
{
    let mut search = begin(alloc, flat, store, asking, Branching::Greatest)?;
    let answer = search.settle()?;
    Ok(End {
        answer,
        level: search.level(),
        room: search.room().copy(alloc)?,
    })
}

/// The literal by which a rule decides in the whole room, none where that is a point.
pub fn decided<S: Store + Drop>(
    alloc: Global,
    flat: &Flat,
    store: S,
    branching: Branching,
) -> Result<Option<Lit>, Fail>
    requires empty { S.clauses store ≡ [] }
    requires ships { S.ships store ≡ flat.now.ships }
    requires right { S.ready store (whole_room (shape_of flat.now)) }
{
    let search = begin(alloc, flat, store, Asking::Made, branching)?;
    if search.room().is_point() {
        return Ok(None);
    }
    Ok(Some(search.branch()))
}
