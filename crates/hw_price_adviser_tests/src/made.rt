//! Made timetables: each one is permitted and carries what its maker says, and with small problems many
//! are best.

use crate::drawn::{BY_THE_HOUR, problem};
use hw_flat::{Flat, Room, is_timetable, make_demo};
use hw_price_timetables::{Maker, Ranking};
use hw_rules::{Walked, broken, cargo, walk};
use std::alloc::Global;
use std::process::Abort;
use std::test::Fail;

/// How many problems a test has.
const MANY: u32 = 25;

/// What a timetable carries that is made in the whole room by what ships carry, if there is one. An
/// error where it isn't permitted, or carries something else than the maker says.
fn made(alloc: Global, flat: &Flat, ranking: Ranking) -> Result<Option<u64>, Fail> {
    let mut maker = Maker::new(alloc, flat)?;
    let room = Room::whole(alloc, flat.shape())?;
    maker.make(alloc, &room, None, ranking, None)?;
    let Some(table) = maker.better(alloc, None)? else {
        return Ok(None);
    };
    if !is_timetable(flat, &table) || broken(flat, &table).is_some() {
        return Err(Fail::new("a made timetable that isn't permitted"));
    }
    let carried = cargo(flat, &table);
    if carried != maker.cargo() {
        return Err(Fail::new("a made timetable that carries something else"));
    }
    Ok(carried)
}

/// Whether a cargo is the greatest.
fn is_best(alloc: Global, flat: &Flat, carried: Option<u64>) -> Result<bool, Fail> {
    match walk(alloc, flat, u32::MAX)? {
        Walked::Best { cargo, .. } => Ok(carried == Some(cargo)),
        Walked::NoneLeft | Walked::Spent { .. } => Ok(false),
    }
}

/// Whether at least a tenth of what is made of problems from a number on is best; some of them permit nothing.
fn serve(rt: &impl Abort, alloc: Global, first: u32, ranking: Ranking) -> Result<(), Fail> {
    let mut best = 0u32;
    for count in 0..MANY {
        let flat = problem(alloc, first.saturating_add(count), 1)?;
        let carried = made(alloc, &flat, ranking)?;
        if is_best(alloc, &flat, carried)? {
            best = best.saturating_add(1);
        }
    }
    assert!(rt; MANY <= best.saturating_mul(10), "{best}");
    Ok(())
}

#[test]
fn by_regret(rt: HostRuntime) -> Result<(), Fail> {
    serve(&rt, rt.alloc(), 0, Ranking::Regret)
}

#[test]
fn by_cargo(rt: HostRuntime) -> Result<(), Fail> {
    serve(&rt, rt.alloc(), 25, Ranking::Earnings)
}

#[test]
fn by_fleets_by_the_hour(rt: HostRuntime) -> Result<(), Fail> {
    serve(&rt, rt.alloc(), BY_THE_HOUR, Ranking::Regret)
}

// Forty ships that want the same slots.
#[test]
fn a_large_day(rt: HostRuntime) -> Result<(), Fail> {
    let alloc = rt.alloc();
    let flat = make_demo(alloc, 5, 40, 288)?;
    let carried = made(alloc, &flat, Ranking::Regret)?;
    assert!(&rt; carried.is_some(), "none");
    Ok(())
}
