//! The plain store: each step looks at every clause.

ghost use Rattle.std.specs.Prelude.{◌≡◌, IsOk, MatchOption};

use crate::looking::is_quiet;
use crate::store::{Held, Store, Stored};
use hw_flat::{Flat, Room};
use hw_lits::Clause;
use hw_model::{Lit, NoMemory};
use std::alloc::Global;
use std::marker::Model;

/// Clauses in the order in which they were added. Each step looks at every one of them.
#[derive(Drop)]
pub struct ScanStore {
    ships: u32,
    held: Vec<Stored>,
}

impl Model for ScanStore {
    ghost use Rattle.hw_store.specs.Scans.{ScanModel};
    ghost use Rattle.hw_store.specs.Stores.{KeepsClauses};

    ghost Value = { ScanModel };

    ghost view = { λ s. record { ships = s.ships; held = s.held.items } };

    ghost invariant = { λ s. KeepsClauses s.ships s.held.items };
}

impl ScanStore {
    /// A store without clauses, ready for every room.
    pub fn new(alloc: Global, flat: &Flat) -> ScanStore
        ensures value { IsNewScan flat.now.ships result }
    {
        ScanStore {
            ships: flat.shape().ships,
            held: Vec::new(alloc),
        }
    }
}

impl Store for ScanStore {
    ghost use Rattle.hw_store.specs.Scans.{scan_ships, scan_clauses, ScanReady};
    ghost use Rattle.hw_store.specs.Stores.{StoreFinds};

    ghost ships = { scan_ships };

    ghost clauses = { scan_clauses };

    ghost ready = { ScanReady };

    fn add(&mut self, id: u32, clause: Clause, _room: &Room) -> Result<(), NoMemory> {
        self.held.push(Stored { number: id, clause })?;
        Ok(())
    }

    /// Looks at each clause up to the first one that isn't quiet. It takes no memory, and so always
    /// answers.
    fn step(&mut self, room: &Room) -> Result<Held, NoMemory>
        requires ready { ScanReady self.old room.now }
        ensures same { scan_clauses self.new ≡ scan_clauses self.old }
        ensures ships { scan_ships self.new ≡ scan_ships self.old }
        ensures ready { ScanReady self.new room.now }
        ensures found { StoreFinds (scan_clauses self.old) room.now result }
        ensures ok { IsOk result }
    {
        Ok(first_active(&self.held, room))
    }

    // A binary search.
    fn clause(&self, id: u32) -> Option<&Clause> {
        find(&self.held, id)
    }

    fn changed(&mut self, _before: &Room, _lit: Lit) {}

    fn undone(&mut self, _room: &Room) {}
}

ghost use Rattle.hw_store.specs.Scans.{IsNewScan};
ghost use Rattle.hw_store.specs.Stores.{FindsStored, IsNotHeld, IsClauseOf, StoredAscend, FitsShips};

// The first clause that isn't quiet.
fn first_active(held: &[Stored], room: &Room) -> Held
    requires fits { FitsShips room.now.ships held.now }
    ensures found { FindsStored held.now room.now result }
{
    for one in held {
        if !is_quiet(&one.clause, room) {
            return Held::Clause { id: one.number };
        }
    }
    Held::Quiet
}

/// The clause of a number, by binary search.
pub fn find(held: &[Stored], id: u32) -> Option<&Clause>
    requires ascends { StoredAscend held.now }
    ensures tells { MatchOption result (IsNotHeld held.now id) (λ clause. IsClauseOf held.now id clause.now) }
{
    let mut low = 0;
    let mut high = held.len();
    while low < high {
        let middle = low + (high - low) / 2;
        let one = &held[middle];
        if one.number == id {
            return Some(&one.clause);
        }
        if one.number < id {
            low = middle + 1;
        } else {
            high = middle;
        }
    }
    None
}
