//! The lemmas of a split's forks, from the leaves up.
//!
//! Nothing is promised of them but their form: each is checked before it is taken.

ghost use Rattle.std.specs.Prelude.{◌≡◌, All, IfOk, OnOk, length};
ghost use Rattle.hw_cert_lines.specs.Valid.{LineFits};
ghost use Rattle.hw_model.specs.Rooms.{IsRoom, RoomFits};
ghost use Rattle.hw_cert_join.specs.Climbs.{ClimbFits};

use hw_cert_lines::{Hints, Line};
use hw_flat::{Flat, NoMemory, Room};
use hw_lits::clause_of_room;
use hw_model::{ShipId, Slot};
use hw_split_text::{Node, Split};
use std::alloc::Global;

/// A fork one side of which isn't done.
#[derive(Drop)]
pub struct OpenFork {
    /// The room of its branch.
    pub room: Room,
    pub ship: ShipId,
    pub slot: Slot,
    /// The number of the clause that closes the earlier side; none where that isn't done.
    pub earlier: Option<u32>,
}

/// A way through the nodes of a split, which closes the forks whose sides are closed.
#[derive(Drop)]
pub struct Climb {
    /// The forks above the node that comes next.
    pub forks: Vec<OpenFork>,
    /// The room of that node's branch.
    pub room: Room,
    /// The lemmas of the forks that are done.
    pub lemmas: Vec<Line>,
    /// How many clause lines there are, with these.
    pub clauses: u32,
}

/// The lemmas of a split's forks after this many clause lines, by the numbers of the clauses that close
/// its parts. The last one has no literals.
pub(crate) fn fork_lemmas(
    alloc: Global,
    flat: &Flat,
    split: &Split,
    numbers: &[u32],
    clauses: u32,
) -> Result<Vec<Line>, NoMemory>
    ensures { IfOk result (λ lemmas. All (LineFits flat.now) lemmas.items) }
{
    let mut climb = started(alloc, flat, clauses)?;
    let mut numbers = numbers.iter();
    let nodes: &[Node] = &split.nodes;
    for node in nodes {
        match node {
            Node::Fork { ship, slot } => enter(alloc, flat, &mut climb, *ship, *slot)?,
            Node::Part => match numbers.next() {
                Some(number) => leave(alloc, flat, &mut climb, *number)?,
                None => return Ok(climb.lemmas),
            },
        }
    }
    Ok(climb.lemmas)
}

/// At the root of the tree.
fn started(alloc: Global, flat: &Flat, clauses: u32) -> Result<Climb, NoMemory>
    ensures { IfOk result (ClimbFits flat.now) }
{
    Ok(Climb {
        forks: Vec::new(alloc),
        room: Room::whole(alloc, flat.shape())?,
        lemmas: Vec::new(alloc),
        clauses,
    })
}

/// Goes to the earlier side of a fork.
fn enter(
    alloc: Global,
    flat: &Flat,
    climb: &mut Climb,
    ship: ShipId,
    slot: Slot,
) -> Result<(), NoMemory>
    requires fits { ClimbFits flat.now climb.old }
    ensures { OnOk result (ClimbFits flat.now climb.new) }
{
    let room = climb.room.copy(alloc)?;
    end_before(&mut climb.room, ship, slot);
    climb.forks.push(OpenFork {
        room,
        ship,
        slot,
        earlier: None,
    })?;
    Ok(())
}

/// Leaves a branch that this clause closes: closes the forks both of whose sides are closed now, and goes
/// to the later side of the next one.
fn leave(alloc: Global, flat: &Flat, climb: &mut Climb, number: u32) -> Result<(), NoMemory>
    requires fits { ClimbFits flat.now climb.old }
    ensures { OnOk result (ClimbFits flat.now climb.new) }
{
    let mut number = number;
    while let Some(fork) = climb.forks.pop() {
        match fork.earlier {
            Some(earlier) => number = close(alloc, flat, climb, &fork.room, (earlier, number))?,
            None => return turn(alloc, flat, climb, fork, number),
        }
    }
    Ok(())
}

/// Goes to the later side of a fork, whose earlier one this clause closes.
fn turn(
    alloc: Global,
    flat: &Flat,
    climb: &mut Climb,
    fork: OpenFork,
    number: u32,
) -> Result<(), NoMemory>
    requires fits { ClimbFits flat.now climb.old }
    requires room { RoomFits flat.now fork.room }
    ensures { OnOk result (ClimbFits flat.now climb.new) }
{
    let OpenFork {
        room,
        ship,
        slot,
        earlier: _,
    } = fork;
    let mut later = room.copy(alloc)?;
    begin_at(&mut later, ship, slot);
    climb.room = later;
    climb.forks.push(OpenFork {
        room,
        ship,
        slot,
        earlier: Some(number),
    })?;
    Ok(())
}

/// Adds the lemma of a fork of this room, by the clauses that close its sides. Returns its number.
fn close(
    alloc: Global,
    flat: &Flat,
    climb: &mut Climb,
    room: &Room,
    sides: (u32, u32),
) -> Result<u32, NoMemory>
    requires fits { ClimbFits flat.now climb.old }
    requires room { RoomFits flat.now room.now }
    ensures fits { OnOk result (ClimbFits flat.now climb.new) }
    ensures forks { length climb.new.forks.items ≡ length climb.old.forks.items }
{
    let clause = clause_of_room(alloc, room)?;
    let items = Vec::from_slice(alloc, &[sides.0, sides.1])?;
    climb.lemmas.push(Line::Lemma {
        clause,
        hints: Hints { items },
    })?;
    climb.clauses = climb.clauses.saturating_add(1);
    Ok(climb.clauses)
}

/// Ends a ship's range before a slot, if both sides of it have slots of the range.
fn end_before(room: &mut Room, ship: ShipId, slot: Slot)
    ensures room { IsRoom room.new }
    ensures ships { room.new.ships ≡ room.old.ships }
    ensures slots { room.new.slots ≡ room.old.slots }
{
    if ship < room.ships() {
        let low = room.low(ship);
        if low < slot && slot <= room.high(ship) {
            room.put(ship, low, slot - 1);
        }
    }
    let _ships = room.ships();
}

/// Begins a ship's range at a slot, if both sides of it have slots of the range.
fn begin_at(room: &mut Room, ship: ShipId, slot: Slot)
    ensures room { IsRoom room.new }
    ensures ships { room.new.ships ≡ room.old.ships }
    ensures slots { room.new.slots ≡ room.old.slots }
{
    if ship < room.ships() {
        let high = room.high(ship);
        if room.low(ship) < slot && slot <= high {
            room.put(ship, slot, high);
        }
    }
    let _ships = room.ships();
}
