//! What a propagator finds in a room, beside what is wanted and beside trying.

ghost use Rattle.std.specs.Prelude.{◌≡◌, ◌<◌, IsTrue};
ghost use Rattle.hw_model.specs.Refuting.{IsSourceOf};

use crate::rooms::{ANY, OPEN, Rooms, fits, nth_orders, nth_ranges, room_of};
use hw_flat::{Flat, Room, Source};
use hw_lits::{Found, cut, is_lit_of, truth};
use hw_model::{Lit, LitTruth, NoMemory};
use hw_prop::{Propagator, Shaver};
use hw_rules::refuted;
use std::alloc::Global;

/// A literal: `a` at or after, `b` before, `f` first, `n` not first.
pub type Word = (char, u32, u32);

/// The literals of a clause, or none where the source is quiet.
pub type Wanted = Option<&'static [Word]>;

fn word_of(lit: Lit) -> Word {
    match lit {
        Lit::AtOrAfter { ship, slot } => ('a', ship, slot),
        Lit::Before { ship, slot } => ('b', ship, slot),
        Lit::First { v, w } => ('f', v, w),
        Lit::NotFirst { v, w } => ('n', v, w),
    }
}

fn are(lits: &[Lit], words: &[Word]) -> bool {
    if lits.len() != words.len() {
        return false;
    }
    for place in 0..lits.len() {
        if word_of(lits[place]) != words[place] {
            return false;
        }
    }
    true
}

/// Whether this was found.
pub fn says(found: &Option<Found>, wanted: Wanted) -> bool {
    match found {
        None => false,
        Some(Found::Quiet) => wanted.is_none(),
        Some(Found::Clause(clause)) => match wanted {
            None => false,
            Some(words) => are(clause.as_slice(), words),
        },
    }
}

/// Whether the source is one of the problem.
pub fn is_source(flat: &Flat, source: Source) -> bool
    ensures { IsTrue result → IsSourceOf flat.now source }
{
    let ships = flat.shape().ships;
    match source {
        Source::Window { ship } => ship < ships,
        Source::Rule { place } => (place as usize) < flat.rules().len(),
        Source::Order { v, w, x } => v < w && w < x && x < ships,
        Source::Goal => true,
    }
}

/// The room is another one, where it is one of the problem.
fn tell<P: Propagator>(propagator: &mut P, flat: &Flat, room: &Room)
    requires serves { P.serves propagator.old flat.now }
    ensures serves { P.serves propagator.new flat.now }
{
    if fits(flat, room) {
        propagator.undone(flat, room);
    }
}

/// What the propagator finds in the room, or none where it isn't a room of the problem.
pub fn found<P: Propagator>(
    propagator: &mut P,
    alloc: Global,
    flat: &Flat,
    best: Option<u64>,
    room: &Room,
) -> Result<Option<Found>, NoMemory>
    requires serves { P.serves propagator.old flat.now }
    ensures serves { P.serves propagator.new flat.now }
{
    if !fits(flat, room) {
        return Ok(None);
    }
    propagator.undone(flat, room);
    Ok(Some(propagator.step(alloc, flat, best, room)?))
}

/// What trying finds in the room, or none where source and room aren't of the problem.
pub fn tried(
    alloc: Global,
    flat: &Flat,
    source: Source,
    best: Option<u64>,
    room: &Room,
) -> Result<Option<Found>, NoMemory> {
    if !fits(flat, room) || !is_source(flat, source) {
        return Ok(None);
    }
    let mut plain = Shaver::new(source);
    Ok(Some(plain.step(alloc, flat, best, room)?))
}

/// Whether no literal is True and at most one is Free.
fn is_active(lits: &[Lit], room: &Room) -> bool {
    let mut open: u32 = 0;
    for lit in lits {
        if !is_lit_of(room.ships(), *lit) {
            return false;
        }
        open = match truth(*lit, room) {
            LitTruth::False => open,
            LitTruth::Free => open.saturating_add(1),
            LitTruth::True => open.saturating_add(2),
        };
    }
    open < 2
}

/// Cuts the room by a literal, where it is Free.
pub fn follow(room: &mut Room, lit: Lit) {
    if is_lit_of(room.ships(), lit) {
        if let LitTruth::Free = truth(lit, room) {
            cut(lit, room);
        }
    }
}

/// Whether the source refutes the room of all in which none of the literals is true.
fn explains(
    alloc: Global,
    flat: &Flat,
    source: Source,
    best: Option<u64>,
    lits: &[Lit],
) -> Result<bool, NoMemory> {
    let mut denied = Room::whole(alloc, flat.shape())?;
    for lit in lits {
        follow(&mut denied, lit.not());
    }
    Ok(is_source(flat, source) && fits(flat, &denied) && refuted(flat, source, best, &denied))
}

/// Whether the propagator and trying are both quiet in the room, or have both a clause, the first
/// one's active there and explained by the source.
fn agrees<P: Propagator>(
    propagator: &mut P,
    alloc: Global,
    flat: &Flat,
    best: Option<u64>,
    room: &Room,
) -> Result<bool, NoMemory>
    requires serves { P.serves propagator.old flat.now }
    ensures serves { P.serves propagator.new flat.now }
{
    let source = propagator.source();
    let exact = found(propagator, alloc, flat, best, room)?;
    let plain = tried(alloc, flat, source, best, room)?;
    match (&exact, &plain) {
        (Some(Found::Quiet), Some(Found::Quiet)) => Ok(true),
        (Some(Found::Clause(clause)), Some(Found::Clause(_))) => {
            let lits = clause.as_slice();
            Ok(is_active(lits, room) && explains(alloc, flat, source, best, lits)?)
        }
        _ => Ok(false),
    }
}

/// Whether they agree in the room of a number, after the propagator was told of another one.
fn agrees_in<P: Propagator>(
    propagator: &mut P,
    alloc: Global,
    flat: &Flat,
    best: Option<u64>,
    rooms: Rooms,
    number: u32,
) -> Result<bool, NoMemory>
    requires serves { P.serves propagator.old flat.now }
    ensures serves { P.serves propagator.new flat.now }
{
    let ranges = nth_ranges(rooms, number);
    let room = room_of(alloc, flat, &ranges, &nth_orders(rooms, number))?;
    let before = room_of(alloc, flat, &[ranges[1], (1, 1), ANY], &OPEN)?;
    tell(propagator, flat, &before);
    agrees(propagator, alloc, flat, best, &room)
}

/// The first of the rooms in which the propagator doesn't find as trying does. One propagator goes
/// through all rooms, each with what is left from the room before.
pub fn first_apart<P: Propagator>(
    propagator: &mut P,
    alloc: Global,
    flat: &Flat,
    best: Option<u64>,
    rooms: Rooms,
) -> Result<Option<u32>, NoMemory>
    requires serves { P.serves propagator.old flat.now }
{
    for number in 0..rooms.count {
        if !agrees_in(propagator, alloc, flat, best, rooms, number)? {
            return Ok(Some(number));
        }
    }
    Ok(None)
}
