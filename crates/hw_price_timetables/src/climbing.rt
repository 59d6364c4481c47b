//! Better slots for single ships, and for one ship with others moved out of its way.

use crate::draft::Draft;
use crate::given::Given;
use hw_flat::ShipId;
use hw_model::Slot;

/// Rounds over all ships at most.
const ROUNDS: u32 = 64;

/// Exchanges that are tried at most.
const TRIES: u32 = 1_000;

/// A slot that is ruled out more often than this isn't tried.
const CONTESTED: i64 = 4;

/// Moves single ships to better slots, while there are any.
pub(crate) fn climb(given: &Given, draft: &mut Draft) {
    for _round in 0..ROUNDS {
        let mut better = false;
        for ship in 0..given.ships {
            better = rise(given, draft, ship) || better;
        }
        if !better {
            return;
        }
    }
}

/// Moves a ship to its best free slot. Whether that is a better one.
fn rise(given: &Given, draft: &mut Draft, ship: ShipId) -> bool {
    let old = draft.slot(ship);
    let before = draft.carried(given, ship);
    draft.take(given, ship);
    match draft.best_gain(given, ship) {
        Some(slot) if before < given.gain(ship, slot) => {
            draft.put(given, ship, slot);
            true
        }
        _ => {
            draft.give(given, ship, old);
            false
        }
    }
}

/// One ship that takes a slot, and up to two that make room for it.
#[derive(Clone, Copy)]
struct Push {
    ship: ShipId,
    slot: Slot,
    first: Option<ShipId>,
    second: Option<ShipId>,
}

/// Pushes others away for better slots, while that pays and tries are left.
pub(crate) fn exchange(given: &Given, draft: &mut Draft) {
    let mut tries = TRIES;
    for _round in 0..ROUNDS {
        let mut better = false;
        for ship in 0..given.ships {
            better = push_for(given, draft, ship, &mut tries) || better;
        }
        if !better || tries == 0 {
            return;
        }
        climb(given, draft);
    }
}

/// Tries each better slot of a ship. Whether it takes one.
fn push_for(given: &Given, draft: &mut Draft, ship: ShipId, tries: &mut u32) -> bool {
    let mut better = false;
    for slot in 0..given.slots {
        if *tries == 0 {
            return better;
        }
        if draft.carried(given, ship) < given.gain(ship, slot) {
            if let Some(push) = push_to(given, draft, ship, slot) {
                *tries = tries.saturating_sub(1);
                better = is_pushed(given, draft, push) || better;
            }
        }
    }
    better
}

/// Who makes room for a ship in a slot; none where these are more than two.
fn push_to(given: &Given, draft: &Draft, ship: ShipId, slot: Slot) -> Option<Push> {
    if CONTESTED < draft.bans(ship, slot) {
        return None;
    }
    let mut push = Push {
        ship,
        slot,
        first: None,
        second: None,
    };
    for other in 0..given.ships {
        if is_in_the_way(given, draft, push, other) {
            if push.second.is_some() {
                return None;
            }
            push.second = push.first;
            push.first = Some(other);
        }
    }
    Some(push)
}

fn is_in_the_way(given: &Given, draft: &Draft, push: Push, other: ShipId) -> bool {
    match draft.slot(other) {
        None => false,
        Some(at) => other != push.ship && given.forbids(other, at, push.ship, push.slot),
    }
}

/// Whether a push leads to more cargo. Where it doesn't all stays as it was.
fn is_pushed(given: &Given, draft: &mut Draft, push: Push) -> bool {
    let before = draft.cargo(given);
    let old = draft.slot(push.ship);
    let first = slot_of(draft, push.first);
    let second = slot_of(draft, push.second);
    lift(given, draft, push);
    if draft.has_tugs(push.ship, push.slot) {
        draft.put(given, push.ship, push.slot);
        let placed = place(given, draft, push.first) && place(given, draft, push.second);
        if placed && before < draft.cargo(given) {
            return true;
        }
    }
    lift(given, draft, push);
    draft.give(given, push.ship, old);
    put_back(given, draft, push.first, first);
    put_back(given, draft, push.second, second);
    false
}

fn slot_of(draft: &Draft, ship: Option<ShipId>) -> Option<Slot> {
    match ship {
        None => None,
        Some(ship) => draft.slot(ship),
    }
}

/// Takes the slots of all three.
fn lift(given: &Given, draft: &mut Draft, push: Push) {
    draft.take(given, push.ship);
    put_back(given, draft, push.first, None);
    put_back(given, draft, push.second, None);
}

fn put_back(given: &Given, draft: &mut Draft, ship: Option<ShipId>, slot: Option<Slot>) {
    if let Some(ship) = ship {
        draft.give(given, ship, slot);
    }
}

/// Gives a ship its best free slot. Whether there is one.
fn place(given: &Given, draft: &mut Draft, ship: Option<ShipId>) -> bool {
    let Some(ship) = ship else {
        return true;
    };
    match draft.best_gain(given, ship) {
        None => false,
        Some(slot) => {
            draft.put(given, ship, slot);
            true
        }
    }
}
