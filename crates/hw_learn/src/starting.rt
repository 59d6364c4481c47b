//! Where the walk back over a trail begins, and the level of what it ends with.

ghost use Rattle.std.specs.Prelude.{◌≡◌, ◌<◌, ◌≤◌, ◌++◌, ◌∷◌, [], length, List, true, All, IfOk};
ghost use Rattle.hw_model.specs.declared.lit.Lit.{Lit as LitOf};
ghost use Rattle.hw_model.specs.declared.lit.LitTruth.TheVariants.{False};
ghost use Rattle.hw_model.specs.Lits.{lit_fits};
ghost use Rattle.hw_model.specs.Rooms.{IsRoom, whole_room};
ghost use Rattle.hw_model.specs.Narrowing.{truth};
ghost use Rattle.hw_model.specs.Lits.{IsLitOf};
ghost use Rattle.hw_trail_laws.specs.Knowing.{knows};
ghost use Rattle.hw_trail_laws.specs.Trails.{trail_shape, room_of};
ghost use Rattle.hw_trail_laws.specs.Passes.{DeniesAll};
ghost use Rattle.hw_learn.specs.Sames.{OfTrail};
ghost use Rattle.hw_learn.specs.Starts.{IsLastFalsified, IsLevelOf, IsFirst, IsBack};

use crate::walking::deny_all;
use hw_flat::Room;
use hw_model::{Lit, NoMemory};
use hw_trail::Trail;
use std::alloc::Global;

fn past(trail: &Trail, last: u32, lit: Lit) -> u32
    requires fits { lit_fits (trail_shape trail.now) lit ≡ true }
    requires all_false { truth (room_of trail.now) lit ≡ False }
    ensures last { (clause : List LitOf) → IsLastFalsified trail.now clause last → IsLastFalsified trail.now (clause ++ lit ∷ []) result }
{
    let _ = trail.len();
    match trail.event_of(lit) {
        None => last,
        Some(place) => if last <= place { place + 1 } else { last },
    }
}

/// One past the last event that made a literal of a clause False.
pub fn last_of(trail: &Trail, clause: &[Lit]) -> u32
    requires fits { All (λ lit. lit_fits (trail_shape trail.now) lit ≡ true) clause.now }
    requires all_false { All (λ lit. truth (room_of trail.now) lit ≡ False) clause.now }
    ensures last { IsLastFalsified trail.now clause.now result }
{
    let mut last = 0;
    for lit in clause {
        last = past(trail, last, *lit);
    }
    last
}

/// The level of the last of the first `last` events.
pub fn top_of(trail: &Trail, last: u32) -> u32
    requires inside { last ≤ length trail.now.events }
    ensures level { IsLevelOf trail.now last result }
{
    if last == 0 {
        return 0;
    }
    trail.event(last - 1).level
}

/// The first place from which all of the first `last` events are of this level.
pub fn first_of(trail: &Trail, last: u32, top: u32) -> u32
    requires inside { last ≤ length trail.now.events }
    ensures first { IsFirst trail.now last top result }
{
    let mut first = last;
    while first > 0 {
        if trail.event(first - 1).level != top {
            return first;
        }
        first -= 1;
    }
    first
}

fn least_back(trail: &Trail, top: u32, back: u32, lit: Lit) -> u32
    requires fits { lit_fits (trail_shape trail.now) lit ≡ true }
    ensures back { (lemma : List LitOf) → IsBack trail.now top lemma back → IsBack trail.now top (lemma ++ lit ∷ []) result }
{
    let _ = trail.len();
    match trail.event_of(lit) {
        None => back,
        Some(place) => {
            let level = trail.event(place).level;
            if level < top && back < level {
                level
            } else {
                back
            }
        }
    }
}

/// The greatest level below the top one that a literal of a lemma has.
pub fn back_of(trail: &Trail, top: u32, lemma: &[Lit]) -> u32
    requires fits { All (λ lit. lit_fits (trail_shape trail.now) lit ≡ true) lemma.now }
    ensures back { IsBack trail.now top lemma.now result }
{
    let mut back = 0;
    for lit in lemma {
        back = least_back(trail, top, back, *lit);
    }
    back
}

/// The room in which each literal of a clause is denied, and nothing else.
pub fn denied_by(alloc: Global, trail: &Trail, clause: &[Lit]) -> Result<Room, NoMemory>
    requires fits { All (IsLitOf trail.now.ships) clause.now }
    ensures shape { IfOk result (λ held. OfTrail trail.now held) }
    ensures room { IfOk result (λ held. IsRoom held) }
    ensures denies { IfOk result (λ held. DeniesAll (knows (whole_room (trail_shape trail.now))) (knows held) clause.now) }
{
    let mut held = trail.room().copy(alloc)?;
    held.reset();
    deny_all(&mut held, clause);
    let _ = held.ships();
    Ok(held)
}
