//! Both stores in the same rooms, which are drawn.

ghost use Rattle.std.specs.Prelude.{◌≡◌, ◌<◌, ◌+◌, [], All, OnOk};
ghost use Rattle.hw_model.specs.Problem.{shape_of};
ghost use Rattle.hw_model.specs.Rooms.{whole_room};

use hw_flat::{Flat, Room, make_demo};
use hw_lits::{Clause, cut, is_lit_of, truth};
use hw_model::{Lit, LitTruth, NoMemory};
use hw_store::{Held, ScanStore, Store, WatchStore};
use std::alloc::Global;
use std::process::Abort;
use std::test::Fail;

/// A clause each.
const ROWS: [[Lit; 3]; 7] = [
    [
        Lit::AtOrAfter { ship: 0, slot: 3 },
        Lit::Before { ship: 1, slot: 2 },
        Lit::First { v: 0, w: 2 },
    ],
    [
        Lit::Before { ship: 0, slot: 2 },
        Lit::AtOrAfter { ship: 1, slot: 4 },
        Lit::NotFirst { v: 1, w: 3 },
    ],
    [
        Lit::AtOrAfter { ship: 2, slot: 3 },
        Lit::Before { ship: 2, slot: 2 },
        Lit::NotFirst { v: 0, w: 3 },
    ],
    [
        Lit::Before { ship: 2, slot: 4 },
        Lit::Before { ship: 3, slot: 2 },
        Lit::First { v: 1, w: 2 },
    ],
    [
        Lit::AtOrAfter { ship: 1, slot: 2 },
        Lit::AtOrAfter { ship: 3, slot: 3 },
        Lit::NotFirst { v: 0, w: 2 },
    ],
    [
        Lit::First { v: 0, w: 2 },
        Lit::NotFirst { v: 0, w: 3 },
        Lit::First { v: 1, w: 3 },
    ],
    [
        Lit::AtOrAfter { ship: 0, slot: 1 },
        Lit::Before { ship: 1, slot: 5 },
        Lit::Before { ship: 3, slot: 1 },
    ],
];

// The next state of the generator.
fn next(state: u32) -> u32 {
    state.wrapping_mul(1103).wrapping_add(12345) % 65521
}

// A literal of four ships and six slots.
fn lit_of(state: u32) -> Lit {
    let ship = state / 4 % 4;
    let slot = 1 + state / 16 % 5;
    match state % 4 {
        0 => Lit::AtOrAfter { ship, slot },
        1 => Lit::Before { ship, slot },
        2 => Lit::First {
            v: ship / 2,
            w: 2 + slot % 2,
        },
        _ => Lit::NotFirst {
            v: ship / 2,
            w: 2 + slot % 2,
        },
    }
}

// Cuts the room by a literal, where it is open.
fn follow<S: Store>(store: &mut S, room: &mut Room, lit: Lit)
    requires ships { S.ships store.old ≡ room.old.ships }
    requires ready { S.ready store.old room.old }
    ensures kept { S.ships store.new ≡ S.ships store.old }
    ensures ships { S.ships store.new ≡ room.new.ships }
    ensures ready { S.ready store.new room.new }
    ensures same { S.clauses store.new ≡ S.clauses store.old }
{
    if is_lit_of(room.ships(), lit) {
        if let LitTruth::Free = truth(lit, room) {
            store.changed(room, lit);
            cut(lit, room);
        }
    }
}

// Another room: one ship's range is narrow, everything else is open.
fn open<S: Store>(store: &mut S, room: &mut Room, state: u32)
    requires ships { S.ships store.old ≡ room.old.ships }
    requires ready { S.ready store.old room.old }
    ensures kept { S.ships store.new ≡ S.ships store.old }
    ensures ships { S.ships store.new ≡ room.new.ships }
    ensures ready { S.ready store.new room.new }
    ensures same { S.clauses store.new ≡ S.clauses store.old }
{
    let ship = state / 2 % 4;
    let low = state / 8 % 6;
    let high = low + (5 - low) / 2;
    room.reset();
    if ship < room.ships() && high < room.slots() {
        room.put(ship, low, high);
    }
    store.undone(room);
}

// Opens another room one time in five, else makes a cut. Returns whether the store names a clause
// then. A clause of `step` says that what it names is right.
fn names_a_clause<S: Store>(store: &mut S, room: &mut Room, state: u32) -> Result<bool, NoMemory>
    requires ships { S.ships store.old ≡ room.old.ships }
    requires ready { S.ready store.old room.old }
    ensures kept { S.ships store.new ≡ S.ships store.old }
    ensures ships { S.ships store.new ≡ room.new.ships }
    ensures ready { S.ready store.new room.new }
    ensures same { S.clauses store.new ≡ S.clauses store.old }
{
    if state % 5 == 0 {
        open(store, room, state / 5);
    } else {
        follow(store, room, lit_of(state / 5));
    }
    Ok(store.step(room)? != Held::Quiet)
}

// Forty rooms: the generator's next state, and a bit for each room in which the store names a clause.
fn rounds<S: Store>(store: &mut S, room: &mut Room, start: u32) -> Result<(u32, u64), NoMemory>
    requires ships { S.ships store.old ≡ room.old.ships }
    requires ready { S.ready store.old room.old }
    ensures kept { S.ships store.new ≡ S.ships store.old }
    ensures ships { S.ships store.new ≡ room.new.ships }
    ensures ready { S.ready store.new room.new }
    ensures same { S.clauses store.new ≡ S.clauses store.old }
{
    let mut state = start;
    let mut named: u64 = 0;
    for count in 0..40u32 {
        state = next(state);
        if names_a_clause(store, room, state)? {
            named |= 1 << count;
        }
    }
    Ok((state, named))
}

// One more clause.
#[tactic(auto, using(hw_lits::proofs::Forms::clause_lits))]
fn add<S: Store>(
    alloc: Global,
    flat: &Flat,
    store: &mut S,
    room: &Room,
    id: u32,
    lits: &[Lit],
) -> Result<(), Fail>
    requires id { id < 100 }
    requires above { All (λ one. one.number < id) (S.clauses store.old) }
    requires fits { S.ships store.old ≡ flat.now.ships }
    requires ships { S.ships store.old ≡ room.now.ships }
    requires ready { S.ready store.old room.now }
    ensures fits { S.ships store.new ≡ flat.now.ships }
    ensures ships { S.ships store.new ≡ room.now.ships }
    ensures ready { S.ready store.new room.now }
    ensures above { OnOk result (All (λ one. one.number < id + 1) (S.clauses store.new)) }
{
    let clause = Clause::from_lits(alloc, flat.shape(), lits)?;
    store.add(id, clause, room)?;
    Ok(())
}

// In which of forty rooms a store names a clause, after each clause that it was given.
fn named_rooms<S: Store + Drop>(alloc: Global, flat: &Flat, store: S) -> Result<[u64; 7], Fail>
    requires empty { S.clauses store ≡ [] }
    requires ships { S.ships store ≡ flat.now.ships }
    requires right { S.ready store (whole_room (shape_of flat.now)) }
{
    let mut store = store;
    let mut room = Room::whole(alloc, flat.shape())?;
    let mut state = 7;
    let mut named = [0; 7];
    for at in 0..7u32 {
        add(alloc, flat, &mut store, &room, at + 1, &ROWS[at as usize])?;
        let (next, bits) = rounds(&mut store, &mut room, state)?;
        named[at as usize] = bits;
        state = next;
    }
    Ok(named)
}

fn count(named: [u64; 7]) -> u32 {
    let mut sum: u32 = 0;
    for bits in named {
        sum = sum.saturating_add(bits.count_ones());
    }
    sum
}

#[test]
fn both_stores_agree(rt: HostRuntime) -> Result<(), Fail> {
    let flat = make_demo(rt.alloc(), 1, 4, 6)?;
    let plain = named_rooms(rt.alloc(), &flat, ScanStore::new(rt.alloc(), &flat))?;
    let watching = named_rooms(rt.alloc(), &flat, WatchStore::new(rt.alloc(), &flat)?)?;
    assert_eq!(rt; plain, watching, "both are quiet, or neither, in each room");
    let named = count(plain);
    assert!(rt; 50 < named && named < 250, "{named} of 280 rooms");
    Ok(())
}
