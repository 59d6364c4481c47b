//! Propagators by kind, asked for what a row of a table wants.

ghost use Rattle.std.specs.Prelude.{◌≡◌, ◌<◌, IsTrue};
ghost use Rattle.hw_model.specs.Refuting.{IsSourceOf};
ghost use Rattle.hw_model.specs.Rooms.{RoomFits};
ghost use Rattle.hw_pairs.specs.Kinds.{OfPair, OfOneHole, OfAfter, OfOrder};
ghost use Rattle.hw_tugs.specs.Kinds.{OfTugs};

use crate::found::{Wanted, first_apart, found, is_source, says};
use crate::rooms::{Orders, Ranges, Rooms, fits, room_of};
use hw_flat::{Flat, Room, Rule, Source};
use hw_goal::GoalBound;
use hw_model::NoMemory;
use hw_pairs::{Berth, Channel, OrderTriple, Separation};
use hw_prop::{Propagator, Shaver};
use hw_tugs::TugProfile;
use std::alloc::Global;
use std::process::Abort;
use std::test::Fail;

#[derive(Clone, Copy)]
pub enum Kind {
    Plain,
    ByHoles,
    ByHole,
    ByGap,
    ByOrders,
    ByTugs,
    ByGoal,
}

/// A kind of propagator, and its source.
pub type Asked = (Kind, Source);

/// Name, problem, who is asked, best cargo, ranges, orders, what the step finds.
pub type Row = (
    &'static str,
    &'static [u8],
    Asked,
    Option<u64>,
    Ranges,
    Orders,
    Wanted,
);

/// Name, problem, who is asked, best cargo, in which rooms.
pub type Sweep = (&'static str, &'static [u8], Asked, Option<u64>, Rooms);

/// What is wanted: this in one room, or in each room what trying finds.
#[derive(Clone, Copy)]
enum Task {
    Step(Ranges, Orders, Wanted),
    AsTried(Rooms),
}

pub fn is_pair(flat: &Flat, source: Source) -> bool
    ensures { IsTrue result → OfPair flat.now source }
{
    let _shape = flat.shape();
    match source {
        Source::Rule { place } if (place as usize) < flat.rules().len() => {
            matches!(&flat.rules()[place as usize], Rule::Pair { .. })
        }
        _ => false,
    }
}

fn has_one_hole(flat: &Flat, source: Source) -> bool
    ensures { IsTrue result → OfOneHole flat.now source }
{
    let _shape = flat.shape();
    match source {
        Source::Rule { place } if (place as usize) < flat.rules().len() => {
            match &flat.rules()[place as usize] {
                Rule::Pair { holes, .. } => holes.items.len() == 1,
                _ => false,
            }
        }
        _ => false,
    }
}

fn is_after(flat: &Flat, source: Source) -> bool
    ensures { IsTrue result → OfAfter flat.now source }
{
    let _shape = flat.shape();
    match source {
        Source::Rule { place } if (place as usize) < flat.rules().len() => {
            matches!(&flat.rules()[place as usize], Rule::After { .. })
        }
        _ => false,
    }
}

pub fn is_tugs(flat: &Flat, source: Source) -> bool
    ensures { IsTrue result → OfTugs flat.now source }
{
    let _shape = flat.shape();
    match source {
        Source::Rule { place } if (place as usize) < flat.rules().len() => {
            matches!(&flat.rules()[place as usize], Rule::Tugs { .. })
        }
        _ => false,
    }
}

fn is_order(flat: &Flat, source: Source) -> bool
    ensures { IsTrue result → OfOrder flat.now source }
{
    let ships = flat.shape().ships;
    match source {
        Source::Order { v, w, x } => v < w && w < x && x < ships,
        _ => false,
    }
}

/// The number of the first room in which something else is found than is wanted.
fn first_wrong<P: Propagator>(
    propagator: &mut P,
    alloc: Global,
    flat: &Flat,
    best: Option<u64>,
    task: &Task,
) -> Result<Option<u32>, NoMemory>
    requires serves { P.serves propagator.old flat.now }
{
    match task {
        Task::Step(ranges, orders, wanted) => {
            let room = room_of(alloc, flat, ranges, orders)?;
            let answer = found(propagator, alloc, flat, best, &room)?;
            Ok(if says(&answer, *wanted) {
                None
            } else {
                Some(0)
            })
        }
        Task::AsTried(rooms) => first_apart(propagator, alloc, flat, best, *rooms),
    }
}

/// The same of a Shaver, which is ready for each room of the problem, as this one.
fn plain_wrong(
    alloc: Global,
    flat: &Flat,
    source: Source,
    _room: &Room,
    best: Option<u64>,
    task: &Task,
) -> Result<Option<u32>, NoMemory>
    requires source { IsSourceOf flat.now source }
    requires room { RoomFits flat.now _room.now }
{
    first_wrong(&mut Shaver::new(source), alloc, flat, best, task)
}

/// The same of who is asked; room 0 where the source isn't of the kind.
fn wrong(
    alloc: Global,
    flat: &Flat,
    asked: Asked,
    best: Option<u64>,
    task: &Task,
) -> Result<Option<u32>, NoMemory> {
    let (kind, source) = asked;
    match kind {
        Kind::Plain => {
            let whole = Room::whole(alloc, flat.shape())?;
            if is_source(flat, source) && fits(flat, &whole) {
                plain_wrong(alloc, flat, source, &whole, best, task)
            } else {
                Ok(Some(0))
            }
        }
        Kind::ByHoles if is_pair(flat, source) => {
            first_wrong(&mut Channel::new(flat, source), alloc, flat, best, task)
        }
        Kind::ByHole if has_one_hole(flat, source) => {
            first_wrong(&mut Separation::new(flat, source), alloc, flat, best, task)
        }
        Kind::ByGap if is_after(flat, source) => {
            first_wrong(&mut Berth::new(flat, source), alloc, flat, best, task)
        }
        Kind::ByOrders if is_order(flat, source) => {
            first_wrong(&mut OrderTriple::new(flat, source), alloc, flat, best, task)
        }
        Kind::ByTugs if is_tugs(flat, source) => {
            first_wrong(
                &mut TugProfile::new(alloc, flat, source)?,
                alloc,
                flat,
                best,
                task,
            )
        }
        Kind::ByGoal => { first_wrong(&mut GoalBound::new(alloc, flat)?, alloc, flat, best, task) }
        _ => Ok(Some(0)),
    }
}

/// Each row's step finds what is wanted.
pub fn hold(rt: &impl Abort, alloc: Global, rows: &[Row]) -> Result<(), Fail> {
    for (name, text, asked, best, ranges, orders, wanted) in rows {
        let flat = Flat::read(alloc, text)?;
        let task = Task::Step(*ranges, *orders, *wanted);
        assert_eq!(rt; wrong(alloc, &flat, *asked, *best, &task)?, None, "{name}");
    }
    Ok(())
}

/// In each of the rooms the propagator finds what trying finds.
pub fn agree(rt: &impl Abort, alloc: Global, sweeps: &[Sweep]) -> Result<(), Fail> {
    for (name, text, asked, best, rooms) in sweeps {
        let flat = Flat::read(alloc, text)?;
        let task = Task::AsTried(*rooms);
        assert_eq!(rt; wrong(alloc, &flat, *asked, *best, &task)?, None, "{name}");
    }
    Ok(())
}
