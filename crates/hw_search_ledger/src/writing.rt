//! The lines of a turn: a table, a lemma after its reasons and its conflict, a deletion.

ghost use Rattle.std.specs.Prelude.{◌≡◌, ◌+◌, ◌^◌, ◌<◌, [], ◌∷◌, All, IfErr, IfOk, OnOk, Some, length};
ghost use Rattle.hw_model.specs.Rooms.{RoomFits, point_of};
ghost use Rattle.hw_cert_lines.specs.declared.line.Line.TheVariants.{Table};
ghost use Rattle.hw_cert_lines.specs.Lemmas.{lemma_of};
ghost use Rattle.hw_cert.specs.Logs.{IsWhole};
ghost use Rattle.hw_cert_laws.specs.Renewing.{deletion};
ghost use Rattle.hw_search_ledger.specs.Handing.{IsTableLine, IsLemma, TakesAll, StopsWithin};
ghost use Rattle.hw_search_ledger.specs.Ledgers.{GivesAtMost};
ghost use Rattle.hw_search_ledger.specs.Naming.{EachOfProblem, HandsLearnt, HandsTaught, IsOfProblem, NamesTaught, WritesLearnt};

use crate::ledger::Ledger;
use hw_cert::{Hints, Line, Log, LogStop};
use hw_flat::{Flat, Room, Timetable};
use hw_learn::Learnt;
use hw_lits::Clause;
use hw_model::NoMemory;
use hw_trail::Trail;
use hw_trail_laws::Why;
use std::alloc::Global;

// The timetable of the lowest slots of a room. One pass over the ranges.
fn lowest(alloc: Global, flat: &Flat, room: &Room) -> Result<Timetable, NoMemory>
    requires room { RoomFits flat.now room.now }
    ensures value { IfOk result (λ table. table ≡ point_of room.now) }
{
    let _ = flat.shape();
    let mut slots = Vec::new(alloc);
    for ship in 0..room.ships() {
        slots.push(room.low(ship))?;
    }
    Timetable::from_slots(alloc, &slots)
}

/// Hands the log the timetable of a room's lowest slots, and returns it.
pub fn hand_table<L: Log>(
    alloc: Global,
    flat: &Flat,
    room: &Room,
    log: &mut L,
) -> Result<Timetable, LogStop>
    requires room { RoomFits flat.now room.now }
    requires whole { IsWhole (L.state log.old) }
    ensures value { IfOk result (λ table. table ≡ point_of room.now) }
    ensures takes { OnOk result (TakesAll (Table (point_of room.now) ∷ []) (L.state log.old) (L.state log.new)) }
    ensures stops { IfErr result (λ stop. StopsWithin stop (Table (point_of room.now) ∷ []) 0 (L.state log.old) (L.state log.new)) }
    ensures same_reference { L.anchor log.new ≡ L.anchor log.old }
{
    let table = lowest(alloc, flat, room)?;
    let line = Line::Table(table);
    match log.line(&line) {
        Ok(()) => Ok(table_in(line)),
        Err(stop) => Err(stop),
    }
}

/// Hands the log a timetable, which it copies, and returns the copy.
pub fn hand_copy<L: Log>(
    alloc: Global,
    table: &Timetable,
    log: &mut L,
) -> Result<Timetable, LogStop>
    requires whole { IsWhole (L.state log.old) }
    ensures value { IfOk result (λ copied. copied ≡ table.now) }
    ensures takes { OnOk result (TakesAll (Table table.now ∷ []) (L.state log.old) (L.state log.new)) }
    ensures stops { IfErr result (λ stop. StopsWithin stop (Table table.now ∷ []) 0 (L.state log.old) (L.state log.new)) }
    ensures same_reference { L.anchor log.new ≡ L.anchor log.old }
{
    let _few = table.len();
    let copied = Timetable::from_slots(alloc, table.as_slice())?;
    let line = Line::Table(copied);
    log.line(&line)?;
    Ok(table_in(line))
}

// The timetable of a table's line.
fn table_in(line: Line) -> Timetable
    requires is_table { IsTableLine line }
    ensures value { line ≡ Table result }
{
    match line {
        Line::Table(table) => table,
        _other => unreachable!(),
    }
}

// The lemma of a lemma's line.
fn lemma_in(line: Line) -> Clause
    requires is_lemma { IsLemma line }
    ensures value { lemma_of line ≡ Some result }
{
    match line {
        Line::Lemma { clause, .. } => clause,
        _other => unreachable!(),
    }
}

/// Hands the log a deletion of these numbers, where there are any.
pub(crate) fn hand_deletion<L: Log>(ids: Vec<u32>, log: &mut L) -> Result<(), LogStop>
    requires whole { IsWhole (L.state log.old) }
    ensures takes { OnOk result (TakesAll (deletion ids.items) (L.state log.old) (L.state log.new)) }
    ensures stops { IfErr result (λ stop. StopsWithin stop (deletion ids.items) 0 (L.state log.old) (L.state log.new)) }
    ensures same_reference { L.anchor log.new ≡ L.anchor log.old }
{
    if ids.is_empty() {
        return Ok(());
    }
    let line = Line::Delete {
        ids: Hints { items: ids },
    };
    log.line(&line)
}

/// A lemma that was written, and the number of its conflict's own line.
#[derive(Drop)]
pub struct WrittenLemma {
    pub lemma: Clause,
    pub conflict: Option<u32>,
}

// The numbers that a lemma names, and the number of its conflict's own line.
#[derive(Drop)]
struct Named {
    hints: Hints,
    conflict: Option<u32>,
}

impl Ledger {
    // Names the reasons at these places and then the conflict, each of which is written where it has
    // no line yet.
    fn name_all<L: Log>(
        &mut self,
        flat: &Flat,
        trail: &Trail,
        why: &Why,
        places: &[u32],
        log: &mut L,
    ) -> Result<Named, LogStop>
        requires places_in { All (λ place. place < length trail.now.events) places.now }
        requires each_event { length self.old.written ≡ length trail.now.events }
        requires sources { EachOfProblem flat.now trail.now }
        requires source { IsOfProblem flat.now why.now }
        requires few { self.old.clause_lines + length places.now + 1 < 2 ^ 32 }
        requires whole { IsWhole (L.state log.old) }
        ensures lines { HandsTaught flat.now trail.now self.old why.now places.now (L.state log.old) (L.state log.new) result }
        ensures names { IfOk result (λ n. NamesTaught flat.now trail.now self.old why.now places.now self.new n.hints n.conflict) }
        ensures gives { GivesAtMost (length places.now + 1) self.old self.new }
        ensures same_reference { L.anchor log.new ≡ L.anchor log.old }
    {
        let mut hints = Vec::new(self.alloc);
        self.name_reasons(flat, trail, places, &mut hints, log)?;
        let conflict = self.name_conflict(flat, why, &mut hints, log)?;
        Ok(Named {
            hints: Hints { items: hints },
            conflict,
        })
    }

    /// Writes a lemma after its reasons and its conflict, those that have no line yet, and returns it.
    /// After a stop fewer numbers were given, and one may have been lost.
    pub fn write_lemma<L: Log>(
        &mut self,
        flat: &Flat,
        trail: &Trail,
        why: &Why,
        learnt: Learnt,
        log: &mut L,
    ) -> Result<WrittenLemma, LogStop>
        requires places_in { All (λ place. place < length trail.now.events) learnt.places.items }
        requires each_event { length self.old.written ≡ length trail.now.events }
        requires sources { EachOfProblem flat.now trail.now }
        requires source { IsOfProblem flat.now why.now }
        requires few { self.old.clause_lines + length learnt.places.items + 2 < 2 ^ 32 }
        requires whole { IsWhole (L.state log.old) }
        ensures lines { HandsLearnt flat.now trail.now self.old why.now learnt (L.state log.old) (L.state log.new) result }
        ensures writes { IfOk result (WritesLearnt flat.now trail.now self.old why.now learnt self.new) }
        ensures gives { GivesAtMost (length learnt.places.items + 2) self.old self.new }
        ensures same_reference { L.anchor log.new ≡ L.anchor log.old }
    {
        let named = self.name_all(flat, trail, why, &learnt.places, log)?;
        let Named { hints, conflict } = named;
        let line = Line::Lemma {
            clause: learnt.lemma,
            hints,
        };
        match log.line(&line) {
            Ok(()) => {
                let _number = self.give();
                let lemma = lemma_in(line);
                Ok(WrittenLemma { lemma, conflict })
            }
            Err(stop) => Err(stop),
        }
    }
}
