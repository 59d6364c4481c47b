//! A timetable that is watched.

ghost use Rattle.std.specs.Prelude.{◌≡◌, ◌<◌, ◌≤◌, length, IfOk, None};
ghost use Rattle.hw_model.specs.Problem.{horizon};
ghost use Rattle.hw_port_model.specs.Numbers.{whole};
ghost use Rattle.hw_port_model.specs.Timetables.{IsPortTimetable};
ghost use Rattle.hw_audit.specs.Audits.{Applies, audited, in_state, with_slot, with_withdrawn};
ghost use Rattle.hw_audit.specs.Watching.{refused_event, watched_after, broken_now};

use crate::applying::refused;
use crate::event::PortEvent;
use crate::fault::AuditWord;
use crate::listing::list_broken;
use crate::marks::{Concern, mend_marks};
use crate::tugs::{first_held, move_job};
use hw_draft::flatten;
use hw_flat::{Flat, Timetable};
use hw_model::{MOST_PLAIN_FLEET, NoMemory, ShipId, Slot};
use hw_port::Port;
use hw_tide::Tide;
use std::alloc::Global;
use std::marker::Model;

/// A timetable of a port that is watched through events, and the restrictions that it now breaks.
///
/// Contracts see the port's flat problem, its fleet, and the state: the slots, which ships have
/// sailed, and how many tugs are withdrawn. Besides these it keeps whether each rule holds, and the
/// tugs held in each sailing slot, so that an event tests again only what it concerns.
#[derive(Drop)]
pub struct Audit {
    flat: Flat,
    fleet: u32,
    table: Vec<Slot>,
    sailed: Vec<bool>,
    withdrawn: u32,
    // of each rule, whether it holds with the tugs that are left
    holds: Vec<bool>,
    // of each sailing slot, the tugs that the jobs hold
    held: Vec<u64>,
    // a place for each restriction; the first `many` places hold the broken ones
    broken: Vec<u32>,
    many: usize,
}

impl Model for Audit {
    ghost use Rattle.hw_audit.specs.Audits.{Audited, IsAudit, state_of};

    ghost Value = { Audited };

    ghost view = { λ a. record { problem = a.flat; fleet = a.fleet; state = state_of a.table.items a.sailed.items a.withdrawn } };

    ghost invariant = { λ a. IsAudit a.flat a.fleet (state_of a.table.items a.sailed.items a.withdrawn) a.holds.items a.held.items a.broken.items a.many };
}

/// The number of tugs of a port.
fn fleet_of(port: &Port) -> u32
    ensures value { result ≡ whole port.now.fleet }
    ensures few { result ≤ MOST_PLAIN_FLEET }
{
    port.parts().fleet.unsigned_abs() as u32
}

impl Audit {
    /// Watches a timetable from now on. It reserves all memory that the audit will ever take, and
    /// tests each rule once.
    pub fn new(alloc: Global, port: &Port, tide: &Tide, table: Timetable) -> Result<Audit, NoMemory>
        requires columns { tide.now.columns ≡ length port.now.waypoints }
        requires listed { IsPortTimetable port.now table }
        ensures value { IfOk result (λ audit. audit ≡ audited port.now tide.now table) }
    {
        let flat = flatten(alloc, port, tide)?;
        let fleet = fleet_of(port);
        let shape = flat.shape();
        let slots = Vec::from_slice(alloc, table.as_slice())?;
        let sailed = vec![in alloc; false; shape.ships as usize]?;
        let held = first_held(alloc, &flat, &table)?;
        let mut holds = vec![in alloc; false; shape.rules as usize]?;
        mend_marks(&flat, &slots, &held, 0, Concern::Every, &mut holds);
        let mut broken = vec![in alloc; 0; (shape.ships + shape.rules) as usize]?;
        let many = list_broken(&flat, &slots, &holds, &mut broken);
        Ok(Audit {
            flat,
            fleet,
            table: slots,
            sailed,
            withdrawn: 0,
            holds,
            held,
            broken,
            many,
        })
    }

    /// Takes an event. Where it refuses, it names the first reason and changes nothing. It takes no
    /// memory.
    ///
    /// A ship's event tests the rules that name the ship, and changes the tugs held in the slots of
    /// its own job. Every event compares the tugs held in each slot with the slot's fleet, looks at
    /// each rule once to see whether it is concerned, and writes the list of what is broken again: so
    /// it takes a step for each restriction and slot, and one for each hole of the rules tested.
    pub fn apply(&mut self, event: PortEvent) -> Result<(), AuditWord>
        ensures { Applies event self.old self.new result }
    {
        match refused(
            &self.flat,
            self.fleet,
            &self.table,
            &self.sailed,
            self.withdrawn,
            event,
        ) {
            Some(word) => Err(word),
            None => {
                self.take(event);
                Ok(())
            }
        }
    }

    /// Changes the state by an event that isn't refused.
    fn take(&mut self, event: PortEvent)
        requires taken { refused_event self.old.problem self.old.fleet self.old.state event ≡ None }
        ensures { self.new ≡ in_state self.old (watched_after self.old.state event) }
    {
        match event {
            PortEvent::Sailed { ship, slot } => {
                self.put(ship, slot);
                self.sailed[ship as usize] = true;
            }
            PortEvent::Delayed { ship, count } => {
                let slot = self.table[ship as usize] + count;
                self.put(ship, slot);
            }
            PortEvent::Withdrawn { count } => self.withdraw(self.withdrawn + count),
            PortEvent::Back { count } => self.withdraw(self.withdrawn - count),
        }
    }

    /// Gives a ship a sailing slot.
    fn put(&mut self, ship: ShipId, slot: Slot)
        requires ship_in { ship < self.old.problem.ships }
        requires slot_in { slot < horizon self.old.problem }
        ensures { self.new ≡ in_state self.old (with_slot self.old.state ship slot) }
    {
        move_job(&self.flat, &self.table, &mut self.held, ship, slot);
        self.table[ship as usize] = slot;
        mend_marks(
            &self.flat,
            &self.table,
            &self.held,
            self.withdrawn,
            Concern::Ship { ship },
            &mut self.holds,
        );
        self.many = list_broken(&self.flat, &self.table, &self.holds, &mut self.broken);
    }

    /// Makes this the number of tugs that are withdrawn.
    fn withdraw(&mut self, withdrawn: u32)
        requires few { withdrawn ≤ self.old.fleet }
        ensures { self.new ≡ in_state self.old (with_withdrawn self.old.state withdrawn) }
    {
        self.withdrawn = withdrawn;
        mend_marks(
            &self.flat,
            &self.table,
            &self.held,
            withdrawn,
            Concern::Fleet,
            &mut self.holds,
        );
        self.many = list_broken(&self.flat, &self.table, &self.holds, &mut self.broken);
    }

    /// The restrictions broken now, ascending, by their numbers in the port's flat problem. It takes
    /// no memory.
    pub fn broken(&self) -> &[u32]
        ensures value { result.now ≡ broken_now self.now.problem self.now.state }
    {
        &self.broken[..self.many]
    }

    /// The slots of the ships now. It takes no memory.
    pub fn slots(&self) -> &[Slot]
        ensures value { result.now ≡ self.now.state.table }
    {
        &self.table
    }

    /// Which ships have sailed. It takes no memory.
    pub fn sailed(&self) -> &[bool]
        ensures value { result.now ≡ self.now.state.sailed }
    {
        &self.sailed
    }

    /// How many tugs are withdrawn now. It takes no memory.
    pub fn withdrawn(&self) -> u32
        ensures value { result ≡ self.now.state.withdrawn }
    {
        self.withdrawn
    }
}
