//! A trail decided, implied and taken back, with its room and its events worked out by hand.

ghost use Rattle.std.specs.Prelude.{◌≡◌, ◌≤◌, ◌<◌, length};

use crate::levels::{Step, clause_of, trail_of};
use hw_flat::Flat;
use hw_model::Lit;
use hw_model::Lit::{AtOrAfter, Before, First, NotFirst};
use hw_trail::Trail;
use std::alloc::Global;
use std::process::Abort;
use std::test::Fail;

// Three ships of four slots and no rule.
const THREE_SHIPS: &[u8] = b"flat 1\nsize 3 4\nv 1 1 1 1\nv 1 1 1 1\nv 1 1 1 1\nend\n";

// Two levels, in which the first ship's range is narrowed three times.
const TWO_LEVELS: [Step; 5] = [
    Step::Decide(Before { ship: 0, slot: 3 }),
    Step::Imply(&[
        AtOrAfter { ship: 0, slot: 3 },
        AtOrAfter { ship: 1, slot: 1 },
    ]),
    Step::Decide(Before { ship: 0, slot: 2 }),
    Step::Imply(&[
        AtOrAfter { ship: 0, slot: 2 },
        Before { ship: 1, slot: 1 },
        First { v: 1, w: 2 },
    ]),
    Step::Imply(&[AtOrAfter { ship: 0, slot: 1 }, NotFirst { v: 1, w: 2 }]),
];

/// The literal of each event, its level, whether it was decided.
const EVENTS: [(Lit, u32, bool); 5] = [
    (Before { ship: 0, slot: 3 }, 1, true),
    (AtOrAfter { ship: 1, slot: 1 }, 1, false),
    (Before { ship: 0, slot: 2 }, 2, true),
    (First { v: 1, w: 2 }, 2, false),
    (AtOrAfter { ship: 0, slot: 1 }, 2, false),
];

/// A literal, and the place of the first event after which it is False: at level 2, and gone back.
type Made = (&'static str, Lit, Option<u32>, Option<u32>);

const MADE: [Made; 7] = [
    (
        "false since the first event",
        AtOrAfter { ship: 0, slot: 3 },
        Some(0),
        Some(0),
    ),
    (
        "false since the second bound",
        AtOrAfter { ship: 0, slot: 2 },
        Some(2),
        None,
    ),
    (
        "false since an implied bound",
        Before { ship: 0, slot: 1 },
        Some(4),
        None,
    ),
    (
        "false since a bound that stays",
        Before { ship: 1, slot: 1 },
        Some(1),
        Some(1),
    ),
    (
        "false since an order",
        NotFirst { v: 1, w: 2 },
        Some(3),
        None,
    ),
    (
        "true, and open before",
        AtOrAfter { ship: 0, slot: 1 },
        None,
        None,
    ),
    ("open", Before { ship: 1, slot: 2 }, None, None),
];

// Whether the event at a place has this literal and level, and was decided.
fn is_told(trail: &Trail, place: u32, lit: Lit, level: u32, decided: bool) -> bool {
    if place >= trail.len() {
        return false;
    }
    let event = trail.event(place);
    event.lit == lit && event.level == level && event.why.is_none() == decided
}

// The place of the first event that isn't told.
fn first_untold(trail: &Trail) -> Option<u32> {
    let mut place = 0u32;
    for (lit, level, decided) in EVENTS {
        if !is_told(trail, place, lit, level, decided) {
            return Some(place);
        }
        place = place.saturating_add(1);
    }
    None
}

// The place of the first event after which a literal is False.
fn made(alloc: Global, trail: &Trail, lit: Lit) -> Result<Option<u32>, Fail> {
    clause_of(alloc, trail, &[lit])?;
    Ok(trail.event_of(lit))
}

// The name of the first literal of which another event is told.
fn first_other(alloc: Global, trail: &Trail, back: bool) -> Result<Option<&'static str>, Fail> {
    for (name, lit, first, after) in MADE {
        let wanted = if back { after } else { first };
        if made(alloc, trail, lit)? != wanted {
            return Ok(Some(name));
        }
    }
    Ok(None)
}

// Whether the first ship's range and the level are these.
fn is_left(trail: &Trail, low: u32, high: u32, level: u32) -> bool {
    let room = trail.room();
    room.ships() > 0 && room.low(0) == low && room.high(0) == high && trail.level() == level
}

// Whether the trail goes back to level 1, and has two events then.
fn goes_back(trail: &mut Trail) -> bool {
    if trail.level() != 2 {
        return false;
    }
    trail.back_to(1);
    trail.len() == 2
}

#[test]
fn tells_its_story(rt: HostRuntime) -> Result<(), Fail> {
    let alloc = rt.alloc();
    let flat = Flat::read(alloc, THREE_SHIPS)?;
    let mut trail = trail_of(alloc, &flat, &TWO_LEVELS)?;
    assert_eq!(rt; first_untold(&trail), None);
    assert_eq!(rt; first_other(alloc, &trail, false)?, None);
    assert!(rt; is_left(&trail, 1, 1, 2));
    assert!(rt; goes_back(&mut trail));
    assert!(rt; is_left(&trail, 0, 2, 1));
    assert_eq!(rt; first_other(alloc, &trail, true)?, None);
    Ok(())
}
