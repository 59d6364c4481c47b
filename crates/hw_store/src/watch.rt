//! The store that looks only at clauses that lost a watched literal.

ghost use Rattle.std.specs.Prelude.{◌≡◌, ◌<◌, ◌≤◌, [], ◌∷◌, List, ℕ, All, Contains, IfOk, OnOk, OnErr, length, slice_index_or};
ghost use Rattle.hw_model.specs.Rooms.{RoomModel};
ghost use Rattle.hw_model.specs.Lits.{IsLitOf};
ghost use Rattle.hw_store.specs.declared.store.Stored.{Stored as StoredOf};
ghost use Rattle.hw_store.specs.Numbering.{bucket};
ghost use Rattle.hw_store.specs.Watches.{WatchModel, WatchReady, SameClauses, IsNewWatch, NextIs, Watches, IsWatchOf, IsOpenWatch};
ghost use Rattle.hw_store.specs.Watches.{GainsPlace, SiftsOne, MissedRun, MarksDue, IsLastDue, GetsWatch};

use crate::buckets::BucketMap;
use crate::looking::{Look, look_at};
use crate::places::{Places, no_places};
use crate::scan::find;
use crate::store::{Held, Store, Stored};
use crate::watching::{Watch, Watched};
use hw_flat::{Flat, Room};
use hw_lits::Clause;
use hw_model::{Lit, NoMemory};
use std::alloc::Global;
use std::marker::Model;

/// Clauses with two watched literals each. A step looks only at the clauses that lost a watched
/// literal, and at those that it has not yet seen to be quiet.
#[derive(Drop)]
pub struct WatchStore {
    // the clauses, by ascending numbers
    held: Vec<Stored>,
    // what is watched of each
    watched: Watched,
    // for each bucket the places of the clauses that watch it, and maybe others
    lists: Vec<Places>,
    // the room of the last step: in it neither of two watched literals is False
    seen: Room,
}

impl Model for WatchStore {
    ghost use Rattle.hw_store.specs.Watches.{WatchModel, KeepsWatches};

    ghost Value = { WatchModel };

    ghost view = { λ s. record { held = s.held.items; watched = s.watched; lists = s.lists.items; seen = s.seen } };

    ghost invariant = { λ s. KeepsWatches (record { held = s.held.items; watched = s.watched; lists = s.lists.items; seen = s.seen }) };
}

// What was seen of the next due clause.
#[derive(Clone, Copy)]
enum Next {
    Found(Held),
    Went,
}

impl WatchStore {
    /// A store without clauses, ready for every room. It makes a room, and an empty list for each slot of
    /// either bound of a ship and for each two ships: 4,800 lists for 40 ships and 40 slots.
    pub fn new(alloc: Global, flat: &Flat) -> Result<WatchStore, NoMemory>
        ensures value { IfOk result (λ store. IsNewWatch flat.now.ships store) }
    {
        let shape = flat.shape();
        let buckets = BucketMap {
            ships: shape.ships,
            slots: shape.slots,
        };
        let lists = no_places(alloc, buckets.count())?;
        let seen = Room::whole(alloc, shape)?;
        Ok(WatchStore {
            held: Vec::new(alloc),
            watched: Watched::new(alloc, buckets),
            lists,
            seen,
        })
    }

    // Looks at the next due clause, up to its second literal that isn't False. If memory runs out, the
    // clause is still due.
    fn look_next(&mut self, room: &Room) -> Result<Next, NoMemory>
        requires ready { WatchReady self.old room.now }
        requires seen { self.old.seen ≡ room.now }
        ensures same { SameClauses self.old self.new }
        ensures ships { self.new.watched.ships ≡ self.old.watched.ships }
        ensures ready { WatchReady self.new room.now }
        ensures next { IfOk result (λ next. NextIs self.old self.new room.now next) }
    {
        let place = match self.watched.next() {
            None => return Ok(Next::Found(Held::Quiet)),
            Some(place) => place,
        };
        let one = &self.held[place as usize];
        match look_at(one.clause.as_slice(), room) {
            Look::Dead => Ok(Next::Found(Held::Clause { id: one.number })),
            Look::Unit { lit: _lit } => Ok(Next::Found(Held::Clause { id: one.number })),
            Look::Sure { lit } => {
                self.watched.watch_one(place, lit);
                Ok(Next::Went)
            }
            Look::Two { first, second } => {
                self.watch_two(place, first, second)?;
                Ok(Next::Went)
            }
        }
    }

    // Watches two literals of the next due clause. If memory runs out, the clause is still due.
    fn watch_two(&mut self, place: u32, first: Lit, second: Lit) -> Result<(), NoMemory>
        requires last { IsLastDue self.old.watched place }
        requires watches { (d : StoredOf) → Watches (slice_index_or self.old.held place d).clause (Watch.Two first second) }
        requires fits { IsWatchOf self.old.watched.ships (Watch.Two first second) }
        requires open { IsOpenWatch self.old.seen (Watch.Two first second) }
        ensures same { SameClauses self.old self.new }
        ensures watch { OnOk result (GetsWatch place (Watch.Two first second) self.old.watched self.new.watched) }
        ensures still { OnErr result (self.new.watched ≡ self.old.watched) }
    {
        let one = self.enlist(place, first)?;
        let two = self.enlist(place, second)?;
        self.watched.watch_two(place, (first, second), (one, two));
        Ok(())
    }

    // Puts a clause's place into the list of a literal's bucket, unless it is known to stand there.
    // Returns the bucket.
    fn enlist(&mut self, place: u32, lit: Lit) -> Result<usize, NoMemory>
        requires inside { place < length self.old.watched.watches }
        requires fits { IsLitOf self.old.watched.ships lit }
        ensures same { SameClauses self.old self.new }
        ensures watched { self.new.watched ≡ self.old.watched }
        ensures grows { GainsPlace place self.old.lists self.new.lists }
        ensures value { IfOk result (λ at. at ≡ bucket self.old.watched.ships self.old.watched.slots lit) }
        ensures there { IfOk result (λ at. Contains (slice_index_or self.new.lists at []) place) }
    {
        let bucket = self.watched.buckets().bucket_of(lit);
        if !self.watched.stands_at(place, bucket) {
            self.lists[bucket].take_in(place)?;
        }
        Ok(bucket)
    }

    // Goes through the lists of these buckets, without the end, after a cut.
    fn mark_run(&mut self, first: usize, end: usize, cutting: Lit)
        requires inside { end ≤ length self.old.lists }
        ensures same { SameClauses self.old self.new }
        ensures marks { MarksDue self.old.watched self.new.watched }
        ensures missed { MissedRun first end cutting self.new.watched.watches self.old.lists }
    {
        for bucket in first..end {
            self.mark_at(bucket, cutting);
        }
    }

    // Goes through the list of a bucket after a cut.
    fn mark_at(&mut self, bucket: usize, cutting: Lit)
        requires inside { bucket < length self.old.lists }
        ensures same { SameClauses self.old self.new }
        ensures marks { MarksDue self.old.watched self.new.watched }
        ensures sifted { SiftsOne self.old.watched.ships self.old.watched.slots bucket cutting self.new.watched.watches self.old.lists self.new.lists }
    {
        self.lists[bucket].mark(&mut self.watched, bucket, cutting);
    }
}

impl Store for WatchStore {
    ghost use Rattle.hw_store.specs.Watches.{watch_ships, watch_clauses, WatchReady};

    ghost ships = { watch_ships };

    ghost clauses = { watch_clauses };

    ghost ready = { WatchReady };

    // The clause is due. All its memory is taken before anything is changed.
    fn add(&mut self, id: u32, clause: Clause, _room: &Room) -> Result<(), NoMemory> {
        self.held.reserve(1)?;
        self.watched.add()?;
        self.held.push_reserved(Stored { number: id, clause });
        Ok(())
    }

    // It copies the room and looks once at each due clause, up to the first one that isn't quiet. Due
    // are clauses that were added, or of which a watched literal became False, since they were last
    // seen to be quiet. It allocates only where a watched bucket's list grows.
    fn step(&mut self, room: &Room) -> Result<Held, NoMemory> {
        self.seen.copy_from(room);
        loop {
            match self.look_next(room)? {
                Next::Found(held) => return Ok(held),
                Next::Went => {}
            }
        }
    }

    // A binary search.
    fn clause(&self, id: u32) -> Option<&Clause> {
        find(&self.held, id)
    }

    // One pass over the list of each bound or order that the cut makes False and that wasn't False
    // before. Clauses whose watch it hits become due.
    fn changed(&mut self, before: &Room, lit: Lit) {
        let _ships = before.ships();
        let (first, end) = self.watched.buckets().buckets_hit(before, lit);
        self.mark_run(first, end, lit);
    }

    // One look at each clause with one watched literal, and one pass over the room. Only if the room
    // doesn't hold the one of the last step, one look at the watch of each clause.
    fn undone(&mut self, room: &Room) {
        self.watched.recheck(room, &self.seen);
    }
}
