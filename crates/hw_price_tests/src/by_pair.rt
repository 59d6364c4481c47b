//! Where the rules on two ships stand: which of them to ask first.

ghost use Rattle.std.specs.Prelude.{◌≡◌, ◌↔◌, ◌<◌, None, length, IfSome, IsTrue, is_some};
ghost use Rattle.hw_model.specs.declared.source.Source.TheVariants as sources;
ghost use Rattle.hw_model.specs.Refuting.{Refutes};
ghost use Rattle.hw_model.specs.Rooms.{RoomFits};
ghost use Rattle.hw_price_tests.specs.Asked.{PlaceRefutes, SomeRuleRefutes};

use crate::holding::exceeded;
use hw_flat::{Flat, Room, ShipId, Source};
use hw_model::{NoMemory, Rule};
use hw_price_laws::pair_number;
use hw_rules::refuted;
use std::alloc::Global;

/// The places of a problem's rules by the two ships that they name, and of its rules on tugs.
///
/// It is a hint alone: it says which rules are asked first, and no answer depends on it.
#[derive(Drop)]
pub struct RulesByPair {
    /// The places of the rules on two ships, by the pair's number.
    own: Vec<Vec<u32>>,
    tugs: Vec<u32>,
    /// The place of the rule on tugs, or on other ships, that was found last.
    last: u32,
    /// The same by ship, of pairs in which the ship was.
    last_of: Vec<u32>,
}

impl RulesByPair {
    /// Of no rules: then all are asked.
    pub fn none(alloc: Global) -> RulesByPair {
        RulesByPair {
            own: Vec::new(alloc),
            tugs: Vec::new(alloc),
            last: 0,
            last_of: Vec::new(alloc),
        }
    }

    /// Of the problem's rules. It takes one pass through them, and memory for a place of each and
    /// for a list of each two ships. An error says that memory ran out.
    pub fn new(alloc: Global, flat: &Flat) -> Result<RulesByPair, NoMemory> {
        let mut rules = RulesByPair::none(alloc);
        let shape = flat.shape();
        for _pair in 0..shape.ships * shape.ships {
            rules.own.push(Vec::new(alloc))?;
        }
        for _ship in 0..shape.ships {
            rules.last_of.push(0)?;
        }
        for place in 0..shape.rules {
            rules.add(shape.ships, &flat.rules()[place as usize], place)?;
        }
        Ok(rules)
    }

    /// Adds the rule at a place.
    fn add(&mut self, ships: u32, rule: &Rule, place: u32) -> Result<(), NoMemory> {
        match rule {
            Rule::Pair { v, w, .. } | Rule::After { v, w, .. } => {
                if let Some(places) = self.own.get_mut(pair_number(ships, *v, *w)) {
                    places.push(place)?;
                }
            }
            Rule::Tugs { .. } => self.tugs.push(place)?,
        }
        Ok(())
    }

    /// Whether some rule of the problem refutes the room, in which two ships alone have less than
    /// all their slots.
    ///
    /// The rules on these two ships are asked first, then the rules that were found last among the others,
    /// for any pair and for a pair with one of these ships, then those on tugs. Only where none of these refutes
    /// the room, all are asked. A rule that is found then names not both of the two ships, so it refutes one of
    /// the blocks alone, as `named_or_alone` says, and serves each pair with that block: so among the pairs of a line's
    /// blocks all rules are asked at most once more than there are ships, beside those on tugs, which each pair
    /// asks at most once more.
    pub(crate) fn refute(&mut self, flat: &Flat, room: &Room, v: ShipId, w: ShipId) -> bool
        requires ships { room.now.ships ≡ flat.now.ships }
        requires slots { room.now.slots ≡ flat.now.slots }
        ensures value { IsTrue result ↔ SomeRuleRefutes flat.now room.now }
    {
        let _ships = room.ships();
        if self.own_refutes(flat, room, v, w) {
            return true;
        }
        if self.last_refutes(flat, room, v, w) {
            return true;
        }
        match self.another_refuting(flat, room) {
            None => false,
            Some(place) => {
                self.keep(v, w, place);
                true
            }
        }
    }

    /// Whether a rule that was found last refutes the room, for any pair or for one with one of the ships.
    fn last_refutes(&self, flat: &Flat, room: &Room, v: ShipId, w: ShipId) -> bool
        requires room { RoomFits flat.now room.now }
        ensures sound { IsTrue result → SomeRuleRefutes flat.now room.now }
    {
        if place_refutes(flat, room, self.last) {
            return true;
        }
        let (first, second) = (self.last_of.get(v as usize), self.last_of.get(w as usize));
        place_refutes(flat, room, first.copied().unwrap_or(self.last))
            || place_refutes(flat, room, second.copied().unwrap_or(self.last))
    }

    /// Keeps the place of a rule that was found for a pair.
    fn keep(&mut self, v: ShipId, w: ShipId, place: u32) {
        self.last = place;
        if let Some(last) = self.last_of.get_mut(v as usize) {
            *last = place;
        }
        if let Some(last) = self.last_of.get_mut(w as usize) {
            *last = place;
        }
    }

    /// The place of a rule that refutes the room, one on tugs if such a one is found.
    fn another_refuting(&self, flat: &Flat, room: &Room) -> Option<u32>
        requires room { RoomFits flat.now room.now }
        ensures value { IsTrue (is_some result) ↔ SomeRuleRefutes flat.now room.now }
        ensures place { IfSome result (λ place. PlaceRefutes flat.now place room.now) }
    {
        match self.tugs_refuting(flat, room) {
            None => first_refuting(flat, room),
            Some(place) => Some(place),
        }
    }

    /// Whether one of the rules on the two ships refutes the room.
    fn own_refutes(&self, flat: &Flat, room: &Room, v: ShipId, w: ShipId) -> bool
        requires room { RoomFits flat.now room.now }
        ensures sound { IsTrue result → SomeRuleRefutes flat.now room.now }
    {
        match self.own.get(pair_number(flat.shape().ships, v, w)) {
            None => false,
            Some(places) => one_refutes(flat, room, places),
        }
    }

    /// The place of a rule on tugs that refutes the room.
    fn tugs_refuting(&self, flat: &Flat, room: &Room) -> Option<u32>
        requires room { RoomFits flat.now room.now }
        ensures sound { IfSome result (λ place. SomeRuleRefutes flat.now room.now) }
        ensures place { IfSome result (λ place. PlaceRefutes flat.now place room.now) }
    {
        for place in &self.tugs {
            if place_refutes(flat, room, *place) {
                return Some(*place);
            }
        }
        None
    }
}

/// Whether a rule at one of these places refutes the room.
fn one_refutes(flat: &Flat, room: &Room, places: &[u32]) -> bool
    requires room { RoomFits flat.now room.now }
    ensures sound { IsTrue result → SomeRuleRefutes flat.now room.now }
{
    for place in places {
        if place_refutes(flat, room, *place) {
            return true;
        }
    }
    false
}

/// Whether there is a rule at this place, and it refutes the room.
fn place_refutes(flat: &Flat, room: &Room, place: u32) -> bool
    requires room { RoomFits flat.now room.now }
    ensures sound { IsTrue result → SomeRuleRefutes flat.now room.now }
    ensures place { IsTrue result → PlaceRefutes flat.now place room.now }
{
    place < flat.shape().rules && rule_refutes(flat, room, place)
}

/// Whether the rule at this place refutes the room. A rule on tugs costs what [`exceeded`] does, and one on
/// two ships what its holes do, squared.
fn rule_refutes(flat: &Flat, room: &Room, place: u32) -> bool
    requires room { RoomFits flat.now room.now }
    requires place_in { place < length flat.now.rules }
    ensures value { IsTrue result ↔ Refutes flat.now (sources.Rule place) None room.now }
{
    match &flat.rules()[place as usize] {
        Rule::Pair { .. } | Rule::After { .. } => refuted(flat, Source::Rule { place }, None, room),
        Rule::Tugs { fleet, later, jobs } => exceeded(
            flat,
            *fleet,
            &later.items,
            &jobs.items,
            room,
        ),
    }
}

/// The place of a rule that refutes the room, or none.
fn first_refuting(flat: &Flat, room: &Room) -> Option<u32>
    requires room { RoomFits flat.now room.now }
    ensures value { IsTrue (is_some result) ↔ SomeRuleRefutes flat.now room.now }
    ensures place { IfSome result (λ place. PlaceRefutes flat.now place room.now) }
{
    for place in 0..flat.shape().rules {
        if rule_refutes(flat, room, place) {
            return Some(place);
        }
    }
    None
}
