//! The sources of a list of propagators, and one of the list asked.

ghost use Rattle.std.specs.Prelude.{◌≡◌, ◌<◌, All, Contains, IfOk, Some, length, map, slice_get};
ghost use Rattle.hw_model.specs.Rooms.{RoomFits};
ghost use Rattle.hw_model.specs.declared.source.Source.{Source as SourceOf};
ghost use Rattle.hw_model.specs.declared.source.Source.TheVariants.{Goal};
ghost use Rattle.hw_prop.specs.Finds.{Finds};

use hw_flat::{Flat, Room, Source};
use hw_lits::Found;
use hw_model::NoMemory;
use hw_prop::Propagator;
use std::alloc::Global;

/// The sources of the propagators, in order. An error says that memory ran out.
pub fn sources_of<P: Propagator>(alloc: Global, props: &[P]) -> Result<Vec<Source>, NoMemory>
    ensures value { IfOk result (λ sources. sources.items ≡ map P.source props.now) }
{
    let mut sources = Vec::with_capacity(alloc, props.len())?;
    for one in props {
        sources.push(one.source())?;
    }
    Ok(sources)
}

/// The first place of the goal. A step for each source before it.
pub fn goal_of(sources: &[Source]) -> usize
    requires there { Contains sources.now Goal }
    ensures value { slice_get sources.now result ≡ Some Goal }
{
    let mut place = 0;
    while sources[place] != Source::Goal {
        place += 1;
    }
    place
}

// Asks a propagator in a room, whatever room it was asked in before. It brings stale figures up to
// date first.
fn ask_one<P: Propagator>(
    alloc: Global,
    one: &mut P,
    flat: &Flat,
    best: Option<u64>,
    room: &Room,
) -> Result<Found, NoMemory>
    requires serves { P.serves one.old flat.now }
    requires room { RoomFits flat.now room.now }
    ensures source { P.source one.new ≡ P.source one.old }
    ensures serves { P.serves one.new flat.now }
    ensures found { IfOk result (Finds flat.now (P.source one.old) best room.now) }
{
    one.undone(flat, room);
    one.step(alloc, flat, best, room)
}

/// Asks the propagator at a place, whatever room it was asked in before. If memory runs out it serves
/// its source as before.
pub fn ask_at<P: Propagator>(
    alloc: Global,
    props: &mut [P],
    place: usize,
    flat: &Flat,
    best: Option<u64>,
    room: &Room,
) -> Result<Found, NoMemory>
    requires inside { place < length props.old }
    requires serve { All (λ one. P.serves one flat.now) props.old }
    requires room { RoomFits flat.now room.now }
    ensures sources { map P.source props.new ≡ map P.source props.old }
    ensures serve { All (λ one. P.serves one flat.now) props.new }
    ensures found { (source : SourceOf) → slice_get (map P.source props.old) place ≡ Some source → IfOk result (Finds flat.now source best room.now) }
{
    ask_one(alloc, &mut props[place], flat, best, room)
}
