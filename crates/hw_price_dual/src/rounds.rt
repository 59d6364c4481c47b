//! The prices of the whole room, with tolls that are found on the way, and tolls for other rooms.

use crate::course::{Course, goal, near};
use crate::pricer::Pricer;
use crate::rows::Row;
use crate::settings::{
    COUNTED, COUNTED_IN_ROOM, FOUND, FOUND_IN_ROOM, FULL_PACE, ROOM_PACE, ROOT_STEPS, ROUND_PACE,
    ROUNDS, SAMPLED,
};
use crate::workshop::Workshop;
use hw_flat::{Flat, Room};
use hw_model::NoMemory;
use hw_price_laws::Toll;
use std::alloc::Global;

/// Finds prices for a room from nothing, adds tolls that help, and makes timetables by the prices that
/// it meets. It ends once the room earns no more than the best timetable carries, if there is one:
/// `best`, in tenths of a tonne, or one that was made. Returns what the room earns under the prices,
/// with what they give back, in parts.
pub fn find_prices(
    alloc: Global,
    flat: &Flat,
    pricer: &mut Pricer,
    room: &Room,
    best: Option<u64>,
    shop: &mut Workshop,
) -> Result<i64, NoMemory> {
    let first = Course::towards(best.map(goal), ROOT_STEPS, FULL_PACE);
    let mut least = pricer.improve_sampled(alloc, room, first, SAMPLED)?;
    make_by_samples(alloc, pricer, room, shop)?;
    for _round in 0..ROUNDS {
        let aim = greater(best, shop.cargo()).map(goal);
        if least <= aim.unwrap_or(i64::MIN) {
            break;
        }
        pricer.separator.forget();
        let target = aim.unwrap_or(i64::MAX).max(near(least));
        let counting = Course::counting(aim, COUNTED, target);
        least = least.min(pricer.improve_sampled(alloc, room, counting, SAMPLED)?);
        make_by_samples(alloc, pricer, room, shop)?;
        if !add_found(alloc, flat, pricer, FOUND)? {
            break;
        }
        let improving = Course::towards(aim, ROOT_STEPS, ROUND_PACE);
        least = least.min(pricer.improve_sampled(alloc, room, improving, SAMPLED)?);
        make_by_samples(alloc, pricer, room, shop)?;
    }
    Ok(least)
}

/// The greater of two cargoes that may be known.
fn greater(one: Option<u64>, other: Option<u64>) -> Option<u64> {
    match (one, other) {
        (Some(one), Some(other)) => Some(one.max(other)),
        (None, other) => other,
        (one, None) => one,
    }
}

/// Makes timetables by what ships earn under the prices that were kept as samples.
fn make_by_samples(
    alloc: Global,
    pricer: &Pricer,
    room: &Room,
    shop: &mut Workshop,
) -> Result<(), NoMemory> {
    for prices in pricer.samples.iter() {
        let table = pricer.table(alloc, prices)?;
        shop.make_by(alloc, room, &table, None)?;
    }
    Ok(())
}

/// Adds a few tolls that are overfilled in a room, under prices that were moved for it. Whether there
/// are any. The goal is in parts.
pub fn add_tolls(
    alloc: Global,
    flat: &Flat,
    pricer: &mut Pricer,
    room: &Room,
    goal: i64,
) -> Result<bool, NoMemory> {
    pricer.separator.forget();
    let course = Course::towards(Some(goal), COUNTED_IN_ROOM, ROOM_PACE);
    pricer.improve(room, course)?;
    add_found(alloc, flat, pricer, FOUND_IN_ROOM)
}

/// Adds tolls that the choices since these were forgotten violate, at most this many. Whether there are any.
fn add_found(
    alloc: Global,
    flat: &Flat,
    pricer: &mut Pricer,
    most: usize,
) -> Result<bool, NoMemory> {
    let found = found(alloc, flat, pricer, most)?;
    let some = !found.is_empty();
    for toll in found {
        pricer.add(alloc, flat, toll)?;
    }
    Ok(some)
}

/// Those tolls that are violated most, at most this many. None of them is a row, and none comes twice.
fn found(alloc: Global, flat: &Flat, pricer: &Pricer, most: usize) -> Result<Vec<Toll>, NoMemory> {
    let mut out = Vec::new(alloc);
    for toll in pricer.separator.violated(alloc, flat)? {
        if out.len() < most && is_new(&pricer.rows, &out, &toll) {
            out.push(toll)?;
        }
    }
    Ok(out)
}

fn is_new(rows: &[Row], tolls: &[Toll], toll: &Toll) -> bool {
    tolls.iter().all(|other| !other.is_same(toll)) && rows.iter().all(|row| !row.toll.is_same(toll))
}
