//! The trail: events in order, each a decision or implied, and the room that they leave.

ghost use Rattle.std.specs.Prelude.{◌≡◌, ◌≤◌, ◌<◌, ◌+◌, ◌↔◌, true, Some, length, slice_get, IfOk, IsTrue};
ghost use Rattle.hw_model.specs.declared.lit.LitTruth.TheVariants.{Free};
ghost use Rattle.hw_model.specs.declared.narrowing.Narrowed.TheVariants.{Cut};
ghost use Rattle.hw_model.specs.Lits.{lit_fits, IsClause};
ghost use Rattle.hw_model.specs.Narrowing.{truth};
ghost use Rattle.hw_model.specs.Replay.{narrowing};
ghost use Rattle.hw_model.specs.Problem.{shape_of};
ghost use Rattle.hw_trail_laws.specs.Trails.{IsTrail, trail_shape, reason_clause, room_of, no_events, decided, implied, back_to};
ghost use Rattle.hw_trail_laws.specs.Learning.{event_of};

use crate::bounds::{makes, range_end};
use crate::cuts::{count_upto, cut_all};
use hw_flat::{Flat, Room};
use hw_lits::{cut, truth};
use hw_model::{Lit, LitTruth, NoMemory};
use hw_trail_laws::{Event, Why};
use std::alloc::Global;
use std::marker::Model;

/// The events so far, the level, and the room that they leave.
///
/// Room for all events that can come is reserved from the start.
#[derive(Drop)]
pub struct Trail {
    ships: u32,
    slots: u32,
    events: Vec<Event>,
    // beside each event the bound that it moved, as it was before; 0 for an order
    bounds: Vec<u32>,
    level: u32,
    // the whole room cut by the events
    room: Room,
}

impl Model for Trail {
    ghost use Rattle.std.specs.Prelude.{vec_capacity};
    ghost use Rattle.hw_trail_laws.specs.Trails.{TrailModel};
    ghost use Rattle.hw_trail.specs.Kept.{KeepsTrail};
    ghost use Rattle.hw_trail.specs.Bounds.{KeepsBounds};

    ghost Value = { TrailModel };

    ghost view = { λ t. record { ships = t.ships; slots = t.slots; events = t.events.items; level = t.level } };

    ghost invariant = { λ t.
        KeepsTrail (record { ships = t.ships; slots = t.slots; events = t.events.items; level = t.level }) t.room (vec_capacity t.events)
        × KeepsBounds (record { ships = t.ships; slots = t.slots; events = t.events.items; level = t.level }) t.bounds.items (vec_capacity t.bounds) };
}

impl Trail {
    /// A trail without events, at level 0, over the whole room.
    pub fn new(alloc: Global, flat: &Flat) -> Result<Trail, NoMemory>
        ensures value { IfOk result (λ trail. trail ≡ no_events (shape_of flat.now)) }
    {
        let shape = flat.shape();
        let room = Room::whole(alloc, shape)?;
        let narrowings = shape.ships * (shape.slots - 1);
        let most = narrowings + shape.ships * (shape.ships - 1) / 2;
        let events = Vec::with_capacity(alloc, most as usize)?;
        let bounds = Vec::with_capacity(alloc, most as usize)?;
        Ok(Trail {
            ships: shape.ships,
            slots: shape.slots,
            events,
            bounds,
            level: 0,
            room,
        })
    }

    /// Decides a literal, at a new level. It changes one bound or one order, and takes no memory.
    pub fn decide(&mut self, lit: Lit)
        requires fits { lit_fits (trail_shape self.old) lit ≡ true }
        requires free { truth (room_of self.old) lit ≡ Free }
        ensures value { self.new ≡ decided self.old lit }
    {
        self.level += 1;
        self.bounds.push_reserved(range_end(lit, &self.room));
        cut(lit, &mut self.room);
        self.events.push_reserved(Event {
            lit,
            level: self.level,
            why: None,
        });
    }

    /// Takes an implied literal, at the current level. It is the only literal of its reason's clause
    /// that isn't False. It changes one bound or one order, and takes no memory.
    pub fn imply(&mut self, lit: Lit, why: Why)
        requires fits { lit_fits (trail_shape self.old) lit ≡ true }
        requires clause_fits { IsClause (trail_shape self.old) (reason_clause why) }
        requires free { truth (room_of self.old) lit ≡ Free }
        requires only { narrowing (reason_clause why) (room_of self.old) ≡ Cut lit }
        ensures value { self.new ≡ implied self.old lit why }
    {
        self.bounds.push_reserved(range_end(lit, &self.room));
        cut(lit, &mut self.room);
        self.events.push_reserved(Event {
            lit,
            level: self.level,
            why: Some(why),
        });
    }

    /// Drops the events above a level, which is then the current one. It looks once at each event,
    /// and makes the room again: one pass over its ranges and orders, and a cut for each event that
    /// stays. It takes no memory.
    pub fn back_to(&mut self, level: u32)
        requires below { level ≤ self.old.level }
        ensures value { self.new ≡ back_to self.old level }
    {
        let kept = count_upto(&self.events, level);
        self.events.truncate(kept);
        self.bounds.truncate(kept);
        self.level = level;
        self.room.reset();
        cut_all(&self.events, level, &mut self.room);
    }

    /// The number of events.
    pub fn len(&self) -> u32
        ensures value { result ≡ length self.now.events }
        ensures trail { IsTrail self.now }
    {
        self.events.len() as u32
    }

    /// The current level.
    pub fn level(&self) -> u32
        ensures value { result ≡ self.now.level }
        ensures trail { IsTrail self.now }
    {
        self.level
    }

    /// The room: the whole one cut by the events.
    pub fn room(&self) -> &Room
        ensures value { result.now ≡ room_of self.now }
        ensures trail { IsTrail self.now }
    {
        &self.room
    }

    /// The event at a place.
    pub fn event(&self, place: u32) -> &Event
        requires place_in { place < length self.now.events }
        ensures value { slice_get self.now.events place ≡ Some result.now }
        ensures trail { IsTrail self.now }
    {
        &self.events[place as usize]
    }

    /// Whether an event is the first one after which a literal is False. It looks at no other event.
    pub fn is_event_of(&self, place: u32, lit: Lit) -> bool
        requires place_in { place < length self.now.events }
        requires fits { lit_fits (trail_shape self.now) lit ≡ true }
        ensures exactly { IsTrue result ↔ (event_of self.now lit ≡ Some place) }
        ensures trail { IsTrail self.now }
    {
        let event = &self.events[place as usize];
        makes(event.lit, self.bounds[place as usize], lit.not())
    }

    /// The place of the first event after which a literal is False, none where it isn't False. It looks
    /// only at the events from there on.
    pub fn event_of(&self, lit: Lit) -> Option<u32>
        requires fits { lit_fits (trail_shape self.now) lit ≡ true }
        ensures value { result ≡ event_of self.now lit }
        ensures trail { IsTrail self.now }
    {
        match truth(lit, self.room()) {
            LitTruth::True | LitTruth::Free => None,
            LitTruth::False => self.last_made(lit),
        }
    }

    // The same, from the last event back.
    fn last_made(&self, lit: Lit) -> Option<u32>
        requires fits { lit_fits (trail_shape self.now) lit ≡ true }
        ensures value { result ≡ event_of self.now lit }
        ensures trail { IsTrail self.now }
    {
        let mut place = self.len();
        while place > 0 {
            place -= 1;
            if self.is_event_of(place, lit) {
                return Some(place);
            }
        }
        None
    }
}
