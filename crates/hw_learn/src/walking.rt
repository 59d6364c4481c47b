//! The walk back over a trail: which events are resolved, and what the room then holds.

ghost use Rattle.std.specs.Prelude.{◌≡◌, ℕ, ◌≤◌, ◌<◌, ◌++◌, ◌∷◌, [], length, All, List, MatchBool, IfOk, reverse, true, false};
ghost use Rattle.hw_model.specs.declared.lit.Lit.{Lit as LitOf};
ghost use Rattle.hw_model.specs.Rooms.{RoomModel, IsRoom};
ghost use Rattle.hw_model.specs.Lits.{IsLitOf};
ghost use Rattle.hw_trail_laws.specs.Knowing.{knows, widened};
ghost use Rattle.hw_trail_laws.specs.Walks.{Hit, Miss};
ghost use Rattle.hw_trail_laws.specs.Bridge.{story_of};
ghost use Rattle.hw_trail_laws.specs.Trails.{reason_clause};
ghost use Rattle.hw_trail_laws.specs.Passes.{HitBefore, NoHit, DeniesOthers, DeniesAll, StepKeeps, When, Walks};
ghost use Rattle.hw_learn.specs.Sames.{SameShape, OfTrail};
ghost use Rattle.hw_learn.specs.Steps.{DeniesOneMore, IsDue, IsPassed};

use crate::sides::{deny, most, widen};
use hw_flat::Room;
use hw_lits::Clause;
use hw_model::Lit;
use hw_trail::{Trail, Why};
use std::alloc::{AllocFailed, Global};

/// Whether the event at a place made the greatest literal that the room knows of its side known.
pub fn hit(trail: &Trail, held: &Room, place: u32) -> bool
    requires inside { place < length trail.now.events }
    requires shape { OfTrail trail.now held.now }
    ensures answer { MatchBool result (Hit (story_of trail.now) place (knows held.now)) (Miss (story_of trail.now) place (knows held.now)) }
{
    match most(held, trail.event(place).lit) {
        None => false,
        Some(most) => trail.is_event_of(place, most.not()),
    }
}

/// Whether some event from `first` on and before a place is a hit. It looks at the later ones first:
/// the walk stops there next, so that all of it looks at each event at most twice.
pub fn another(trail: &Trail, held: &Room, first: u32, place: u32) -> bool
    requires inside { place ≤ length trail.now.events }
    requires shape { OfTrail trail.now held.now }
    ensures answer { MatchBool result (HitBefore (story_of trail.now) first place (knows held.now)) (NoHit (story_of trail.now) first place (knows held.now)) }
{
    let mut earlier = place;
    while earlier > first {
        earlier -= 1;
        if hit(trail, held, earlier) {
            return true;
        }
    }
    false
}

fn same(l: Lit, m: Lit) -> bool
    ensures value { MatchBool result (l ≡ m) (l ≡ m → ⊥) }
{
    l == m
}

fn deny_unless(held: &mut Room, lit: Lit, but: Lit)
    requires fits { IsLitOf held.old.ships lit }
    ensures shape { SameShape held.new held.old }
    ensures denies { DeniesOneMore held.new held.old lit but }
{
    if same(lit, but) {
        return;
    }
    deny(held, lit);
}

/// Denies a clause's literals but one.
pub fn deny_others(held: &mut Room, clause: &[Lit], but: Lit)
    requires fits { All (IsLitOf held.old.ships) clause.now }
    ensures shape { SameShape held.new held.old }
    ensures denies { DeniesOthers (knows held.old) (knows held.new) clause.now but }
{
    for lit in clause {
        deny_unless(held, *lit, but);
    }
}

/// Denies each literal of a clause.
pub fn deny_all(held: &mut Room, clause: &[Lit])
    requires fits { All (IsLitOf held.old.ships) clause.now }
    ensures shape { SameShape held.new held.old }
    ensures denies { DeniesAll (knows held.old) (knows held.new) clause.now }
{
    for lit in clause {
        deny(held, *lit);
    }
}

/// Whether to resolve an event.
pub fn due(trail: &Trail, top: u32, first: u32, held: &Room, place: u32) -> bool
    requires inside { place < length trail.now.events }
    requires shape { OfTrail trail.now held.now }
    ensures answer { MatchBool result (IsDue trail.now held.now place top first) (IsPassed trail.now held.now place top first) }
{
    if !hit(trail, held, place) {
        return false;
    }
    let level = trail.event(place).level;
    if level == 0 {
        return true;
    }
    if level != top {
        return false;
    }
    another(trail, held, first, place)
}

/// Takes back a literal's side and denies a clause's other literals.
pub fn replace(held: &mut Room, lit: Lit, clause: &[Lit])
    requires lit { IsLitOf held.old.ships lit }
    requires clause { All (IsLitOf held.old.ships) clause.now }
    ensures shape { SameShape held.new held.old }
    ensures before { IsRoom held.old }
    ensures room { IsRoom held.new }
    ensures replaced { DeniesOthers (knows (widened lit held.old)) (knows held.new) clause.now lit }
{
    widen(held, lit);
    deny_others(held, clause, lit);
    let _ = held.ships();
}

fn clause_of(why: &Why) -> &Clause
    ensures value { result.now ≡ reason_clause why.now }
{
    match why {
        Why::Lemma { clause, .. } => clause,
        Why::Source { clause, .. } => clause,
        Why::Priced { clause } => clause,
    }
}

/// One event of the walk: whether it was resolved.
pub fn step(trail: &Trail, top: u32, first: u32, held: &mut Room, place: u32) -> bool
    requires inside { place < length trail.now.events }
    requires shape { OfTrail trail.now held.old }
    ensures shape { SameShape held.new held.old }
    ensures keeps { StepKeeps (story_of trail.now) place top first (knows held.old) (knows held.new) result }
{
    if !due(trail, top, first, held, place) {
        return false;
    }
    let event = trail.event(place);
    match &event.why {
        None => false,
        Some(why) => {
            replace(held, event.lit, clause_of(why).as_slice());
            true
        }
    }
}

/// Walks back over the events before `last`. Returns the places of those that were resolved,
/// ascending. After an error `held` is still a room of the trail's shape, with any content.
pub fn walk_back(
    alloc: Global,
    trail: &Trail,
    top: u32,
    first: u32,
    last: u32,
    held: &mut Room,
) -> Result<Vec<u32>, AllocFailed<u32>>
    requires inside { last ≤ length trail.now.events }
    requires shape { OfTrail trail.now held.old }
    ensures shape { SameShape held.new held.old }
    ensures walked { IfOk result (λ places. Walks (story_of trail.now) last top first 0 (knows held.old) (knows held.new) places.items) }
{
    let mut places = Vec::new(alloc);
    let mut place = last;
    while place > 0 {
        place -= 1;
        if step(trail, top, first, held, place) {
            places.push(place)?;
        }
    }
    places.reverse();
    Ok(places)
}
