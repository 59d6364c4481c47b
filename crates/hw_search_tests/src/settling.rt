//! How the whole room settles, and by which literal a search decides then.

use crate::asking::Asking;
use crate::problems::{APART, NONE_FITS, PRECEDENCE};
use crate::turns::{decided, settled};
use hw_flat::{Flat, Order, Room, Source};
use hw_model::Lit;
use hw_search::{Branching, Settled};
use hw_store::ScanStore;
use hw_trail_laws::Why;
use std::alloc::Global;
use std::process::Abort;
use std::test::Fail;

// Whether the two ships have these ranges, and this order.
fn is_room(room: &Room, ranges: [u32; 4], order: Order) -> bool {
    let [low, high, other_low, other_high] = ranges;
    room.ships() == 2
        && room.low(0) == low
        && room.high(0) == high
        && room.low(1) == other_low
        && room.high(1) == other_high
        && room.order(0, 1) == order
}

const QUIET: [(&[u8], [u32; 4], Order); 2] = [
    (PRECEDENCE, [0, 0, 2, 2], Order::First),
    (APART, [0, 2, 0, 2], Order::Unset),
];

// Whether the whole room of a problem settles to this room, at level 0.
fn settles_to(
    alloc: Global,
    text: &[u8],
    asking: Asking,
    ranges: [u32; 4],
    order: Order,
) -> Result<bool, Fail> {
    let flat = Flat::read(alloc, text)?;
    let end = settled(alloc, &flat, ScanStore::new(alloc, &flat), asking)?;
    let quiet = matches!(&end.answer, Settled::Quiet);
    Ok(quiet && end.level == 0 && is_room(&end.room, ranges, order))
}

// Whether the only rule of a problem has a conflict with the whole room, at level 0.
fn conflicts(alloc: Global, text: &[u8], asking: Asking) -> Result<bool, Fail> {
    let flat = Flat::read(alloc, text)?;
    let end = settled(alloc, &flat, ScanStore::new(alloc, &flat), asking)?;
    let by_rule = match &end.answer {
        Settled::Conflict(Why::Source { source, .. }) => *source == Source::Rule { place: 0 },
        _ => false,
    };
    Ok(by_rule && end.level == 0)
}

#[test]
fn settles(rt: HostRuntime) -> Result<(), Fail> {
    for asking in [Asking::Trying, Asking::Made] {
        for (text, ranges, order) in QUIET {
            let right = settles_to(rt.alloc(), text, asking, ranges, order)?;
            assert!(rt; right, "{asking:?} to {ranges:?}");
        }
        assert!(rt; conflicts(rt.alloc(), NONE_FITS, asking)?, "{asking:?}");
    }
    Ok(())
}

// Whether this is the literal by which a rule decides in the whole room.
fn decides_by(alloc: Global, text: &[u8], branching: Branching, lit: Lit) -> Result<bool, Fail> {
    let flat = Flat::read(alloc, text)?;
    let store = ScanStore::new(alloc, &flat);
    Ok(decided(alloc, &flat, store, branching)? == Some(lit))
}

const TWO_SHIPS: &[u8] = b"flat 1\nsize 2 2\nv 5 9\nv 9 1\nend\n";

const TWO_SLOTS: &[u8] = b"flat 1\nsize 1 3\nv 9 3 9\nend\n";

const NONE_AND_ZERO: &[u8] = b"flat 1\nsize 1 2\nv - 0\nend\n";

const ZERO_AND_ONE: &[u8] = b"flat 1\nsize 2 2\nv - 0\nv - 1\nend\n";

const AFTER: Lit = Lit::AtOrAfter { ship: 0, slot: 1 };

const BEFORE: Lit = Lit::Before { ship: 0, slot: 1 };

const OTHER_SHIP: Lit = Lit::AtOrAfter { ship: 1, slot: 1 };

const LAST: Lit = Lit::AtOrAfter { ship: 0, slot: 2 };

const DECIDED: [(&[u8], Branching, Lit); 6] = [
    (TWO_SHIPS, Branching::Greatest, AFTER),
    (TWO_SLOTS, Branching::Greatest, BEFORE),
    (NONE_AND_ZERO, Branching::Greatest, BEFORE),
    (ZERO_AND_ONE, Branching::Greatest, OTHER_SHIP),
    (TWO_SHIPS, Branching::Earliest, BEFORE),
    (TWO_SLOTS, Branching::Latest, LAST),
];

#[test]
fn decides(rt: HostRuntime) -> Result<(), Fail> {
    for (text, branching, lit) in DECIDED {
        assert!(rt; decides_by(rt.alloc(), text, branching, lit)?);
    }
    Ok(())
}
