//! The watched literals of clauses, the clauses that are due, and the lists of the watched buckets.

ghost use Rattle.std.specs.Prelude.{◌≡◌, ◌≢◌, ◌⊎◌, ◌-◌, ◌^◌, ◌<◌, false, [], All, Contains, Some, OnErr, OnOk, length, take, slice_set, slice_index_or, vec_capacity, MatchBool};
ghost use Rattle.hw_model.specs.Narrowing.{truth};
ghost use Rattle.hw_model.specs.Lits.{IsLitOf};
ghost use Rattle.hw_store.specs.Numbering.{hits};
ghost use Rattle.hw_store.specs.Watches.{is_hit, is_due, is_on, is_bucket, is_among, other_bucket, nowhere};
ghost use Rattle.hw_store.specs.Watches.{IsWatchOf, Shows, ShowsAll, ShowsOnes, StayShown, KeepsDue, KeepsOnes, KeepsSeen};
ghost use Rattle.hw_store.specs.Watches.{DropsSome, Sifted, Leaves, MarksDue, IsUnwatched, IsNextDue, IsLastDue, IsOneMore, GetsWatch};

use crate::buckets::BucketMap;
use crate::places::Places;
use crate::within::is_within;
use hw_flat::Room;
use hw_lits::truth;
use hw_model::{Lit, LitTruth, NoMemory};
use std::alloc::Global;
use std::marker::Model;

/// What is watched of a clause.
#[derive(Clone, Copy)]
pub enum Watch {
    /// Nothing: the clause is due, which means that a step has to look at it.
    Due,
    /// A literal that is True.
    One { lit: Lit },
    /// Two literals that aren't False.
    Two { first: Lit, second: Lit },
}

/// The buckets in whose lists a clause's place is known to stand.
#[derive(Clone, Copy)]
pub struct Buckets {
    pub first: Option<usize>,
    pub second: Option<usize>,
}

impl Places {
    /// Adds a place, even if it is there already.
    pub fn take_in(&mut self, place: u32) -> Result<(), NoMemory>
        ensures kept { (p : ℕ) → Contains self.old p → Contains self.new p }
        ensures only { (p : ℕ) → Contains self.new p → Contains self.old p ⊎ (p ≡ place) }
        ensures there { OnOk result (Contains self.new place) }
    {
        self.items.push(place)?;
        Ok(())
    }

    /// Marks as due each listed clause whose watched literal the cut made False, and drops the places of
    /// the clauses that no longer watch the bucket. One pass over the list, without an allocation.
    pub fn mark(&mut self, watched: &mut Watched, bucket: usize, cutting: Lit)
        requires inside { All (λ place. place < length watched.old.watches) self.old }
        ensures marks { MarksDue watched.old watched.new }
        ensures sifted { Sifted watched.old.ships watched.old.slots bucket cutting watched.new.watches self.old self.new }
        ensures leaves { Leaves bucket watched.new.stands self.old self.new }
    {
        let kept = sift(&mut self.items, watched, bucket, cutting);
        self.items.truncate(kept);
    }
}

/// What is watched of each clause, by the clauses' places.
#[derive(Drop)]
pub struct Watched {
    buckets: BucketMap,
    watches: Vec<Watch>,
    // beside each watch the buckets in whose lists the place is known to stand, so that no list is
    // searched for it
    stands: Vec<Buckets>,
    // the places of the due clauses, the next one last
    due: Vec<u32>,
    // the places of the clauses with one watched literal
    ones: Vec<u32>,
}

impl Model for Watched {
    ghost use Rattle.std.specs.Prelude.{vec_capacity};
    ghost use Rattle.hw_store.specs.Watches.{WatchedModel, KeepsWatched};

    ghost Value = { WatchedModel };

    ghost view = { λ s. record { ships = s.buckets.ships; slots = s.buckets.slots; watches = s.watches.items; stands = s.stands.items; due = s.due.items } };

    ghost invariant = { λ s. KeepsWatched (record { ships = s.buckets.ships; slots = s.buckets.slots; watches = s.watches.items; stands = s.stands.items; due = s.due.items }) s.ones.items (vec_capacity s.due) (vec_capacity s.ones) };
}

impl Watched {
    /// No clauses yet.
    pub fn new(alloc: Global, buckets: BucketMap) -> Watched
        ensures value { IsUnwatched buckets.ships buckets.slots result }
    {
        Watched {
            buckets,
            watches: Vec::new(alloc),
            stands: Vec::new(alloc),
            due: Vec::new(alloc),
            ones: Vec::new(alloc),
        }
    }

    /// The numbers of the buckets.
    pub fn buckets(&self) -> BucketMap
        ensures ships { result.ships ≡ self.now.ships }
        ensures slots { result.slots ≡ self.now.slots }
    {
        self.buckets
    }

    /// Whether a clause's place is known to stand in a bucket's list.
    pub fn stands_at(&self, place: u32, bucket: usize) -> bool
        requires inside { place < length self.now.watches }
        ensures value { result ≡ is_among (slice_index_or self.now.stands place nowhere) bucket }
    {
        is_among(self.stands[place as usize], bucket)
    }

    /// The place of the next due clause, none where no clause is due.
    pub fn next(&self) -> Option<u32>
        ensures next { IsNextDue self.now result }
    {
        if self.due.is_empty() {
            return None;
        }
        Some(self.due[self.due.len() - 1])
    }

    /// Adds a due clause at the end. It reserves all the memory that the clause will need in `due` and
    /// `ones`, so that no other call allocates. If memory runs out, nothing has changed.
    pub fn add(&mut self) -> Result<(), NoMemory>
        requires few { length self.old.watches < 2 ^ 32 }
        ensures added { OnOk result (IsOneMore self.old self.new) }
        ensures same { OnErr result (self.new ≡ self.old) }
    {
        self.watches.reserve(1)?;
        self.stands.reserve(1)?;
        let place = self.watches.len();
        self.ones.reserve(place + 1)?;
        self.due.reserve(place + 1)?;
        self.watches.push_reserved(Watch::Due);
        self.stands.push_reserved(Buckets {
            first: None,
            second: None,
        });
        self.due.push_reserved(place as u32);
        Ok(())
    }

    /// Watches one literal of the next due clause, which is due no longer.
    pub fn watch_one(&mut self, place: u32, lit: Lit)
        requires last { IsLastDue self.old place }
        requires fits { IsLitOf self.old.ships lit }
        ensures watch { GetsWatch place (Watch.One lit) self.old self.new }
        ensures stands { self.new.stands ≡ self.old.stands }
    {
        self.ones.push_reserved(place);
        resolve(place, Watch::One { lit }, &mut self.watches, &mut self.due);
    }

    /// Watches two literals of the next due clause, which is due no longer and whose place stands in the
    /// lists of their buckets.
    pub fn watch_two(&mut self, place: u32, lits: (Lit, Lit), buckets: (usize, usize))
        requires last { IsLastDue self.old place }
        requires fits { IsLitOf self.old.ships lits.0 × IsLitOf self.old.ships lits.1 }
        ensures watch { GetsWatch place (Watch.Two lits.0 lits.1) self.old self.new }
        ensures stands { self.new.stands ≡ slice_set self.old.stands place (record { first = Some buckets.0; second = Some buckets.1 }) }
    {
        self.stands[place as usize] = Buckets {
            first: Some(buckets.0),
            second: Some(buckets.1),
        };
        let watch = Watch::Two {
            first: lits.0,
            second: lits.1,
        };
        resolve(place, watch, &mut self.watches, &mut self.due);
    }

    /// Marks as due each clause whose watch doesn't show that it is quiet. It looks at the clauses with
    /// one watched literal, and at the others only if the room doesn't hold the one that was seen. It
    /// allocates nothing.
    pub fn recheck(&mut self, room: &Room, seen: &Room)
        requires fits { room.now.ships ≡ self.old.ships }
        requires seen { KeepsSeen self.old.ships seen.now self.old.watches }
        ensures marks { MarksDue self.old self.new }
        ensures shown { ShowsAll room.now self.new.watches }
    {
        recheck(room, seen, &mut self.ones, &mut self.watches, &mut self.due);
    }

    // Marks a clause as due if the cut made its watch False. Returns whether it still watches the bucket.
    fn stays(&mut self, bucket: usize, cutting: Lit, place: u32) -> bool
        requires inside { place < length self.old.watches }
        ensures marks { MarksDue self.old self.new }
        ensures missed { is_hit cutting (slice_index_or self.new.watches place Watch.Due) ≡ false }
        ensures value { result ≡ is_on self.old.ships self.old.slots bucket (slice_index_or self.new.watches place Watch.Due) }
    {
        let watch = self.watches[place as usize];
        if is_hit(cutting, watch) {
            make_due(place, &mut self.watches, &mut self.due);
            return false;
        }
        is_on(&self.buckets, bucket, watch)
    }

    // Forgets that a clause's place stands in the list of a bucket.
    fn leave(&mut self, place: u32, bucket: usize)
        requires inside { place < length self.old.watches }
        ensures marks { MarksDue self.old self.new }
        ensures watches { self.new.watches ≡ self.old.watches }
        ensures gone { is_among (slice_index_or self.new.stands place nowhere) bucket ≡ false }
    {
        let buckets = self.stands[place as usize];
        self.stands[place as usize] = Buckets {
            first: other_bucket(buckets.first, bucket),
            second: other_bucket(buckets.second, bucket),
        };
    }
}

// Marks as due each clause at these places whose watch the cut made False, and moves the places that
// stay to the front. Returns how many stay.
fn sift(places: &mut [u32], watched: &mut Watched, bucket: usize, cutting: Lit) -> usize
    requires inside { All (λ place. place < length watched.old.watches) places.old }
    ensures marks { MarksDue watched.old watched.new }
    ensures same { length places.new ≡ length places.old }
    ensures sifted { Sifted watched.old.ships watched.old.slots bucket cutting watched.new.watches places.old (take result places.new) }
    ensures leaves { Leaves bucket watched.new.stands places.old (take result places.new) }
{
    let mut kept = 0;
    for at in 0..places.len() {
        let place = places[at];
        if watched.stays(bucket, cutting, place) {
            places[kept] = place;
            kept += 1;
        } else {
            watched.leave(place, bucket);
        }
    }
    kept
}

ghost use Rattle.std.specs.Prelude.{ℕ};

// Whether a cut by the first literal makes the second one False.
fn hits(cutting: Lit, lit: Lit) -> bool
    ensures value { result ≡ hits cutting lit }
{
    match (cutting, lit) {
        (Lit::Before { ship: v, slot: j }, Lit::AtOrAfter { ship: w, slot: k }) => v == w && j <= k,
        (Lit::AtOrAfter { ship: v, slot: j }, Lit::Before { ship: w, slot: k }) => v == w && k <= j,
        (Lit::First { v, w }, Lit::NotFirst { v: a, w: b }) => v == a && w == b,
        (Lit::NotFirst { v, w }, Lit::First { v: a, w: b }) => v == a && w == b,
        _ => false,
    }
}

fn is_hit(cutting: Lit, watch: Watch) -> bool
    ensures value { result ≡ is_hit cutting watch }
{
    match watch {
        Watch::Due => false,
        Watch::One { lit: _lit } => false,
        Watch::Two { first, second } => hits(cutting, first) || hits(cutting, second),
    }
}

fn is_open(lit: Lit, room: &Room) -> bool
    requires fits { IsLitOf room.now.ships lit }
    ensures value { MatchBool result (truth room.now lit ≢ LitTruth.False) (truth room.now lit ≡ LitTruth.False) }
{
    match truth(lit, room) {
        LitTruth::False => false,
        LitTruth::True | LitTruth::Free => true,
    }
}

// Whether what is watched shows that the clause is quiet.
fn shows(watch: Watch, room: &Room) -> bool
    requires fits { IsWatchOf room.now.ships watch }
    ensures value { MatchBool result (Shows room.now watch) (Shows room.now watch → ⊥) }
{
    match watch {
        Watch::Due => true,
        Watch::One { lit } => match truth(lit, room) {
            LitTruth::True => true,
            LitTruth::False | LitTruth::Free => false,
        },
        Watch::Two { first, second } => is_open(first, room) && is_open(second, room),
    }
}

// Marks a clause as due, unless it is.
fn make_due(place: u32, watches: &mut [Watch], due: &mut Vec<u32>)
    requires inside { place < length watches.old }
    requires keeps { KeepsDue watches.old due.old.items (vec_capacity due.old) }
    ensures watches { watches.new ≡ slice_set watches.old place Watch.Due }
    ensures keeps { KeepsDue watches.new due.new.items (vec_capacity due.new) }
{
    if !is_due(watches[place as usize]) {
        watches[place as usize] = Watch::Due;
        due.push_reserved(place);
    }
}

fn is_due(watch: Watch) -> bool
    ensures value { result ≡ is_due watch }
{
    match watch {
        Watch::Due => true,
        Watch::One { lit: _lit } => false,
        Watch::Two {
            first: _first,
            second: _second,
        } => false,
    }
}

// Takes the next clause off the due ones, and gives it the watch that was found.
fn resolve(place: u32, watch: Watch, watches: &mut [Watch], due: &mut Vec<u32>)
    requires some { 0 < length due.old.items }
    requires last { place ≡ slice_index_or due.old.items (length due.old.items - 1) place }
    requires found { is_due watch ≡ false }
    requires inside { place < length watches.old }
    requires keeps { KeepsDue watches.old due.old.items (vec_capacity due.old) }
    ensures watches { watches.new ≡ slice_set watches.old place watch }
    ensures due { length due.new.items < length due.old.items }
    ensures keeps { KeepsDue watches.new due.new.items (vec_capacity due.new) }
{
    let last = due.len() - 1;
    watches[place as usize] = watch;
    due.truncate(last);
}

// Whether one of two watched literals is in a bucket.
fn is_on(buckets: &BucketMap, bucket: usize, watch: Watch) -> bool
    requires fits { IsWatchOf buckets.now.ships watch }
    ensures value { result ≡ is_on buckets.now.ships buckets.now.slots bucket watch }
{
    match watch {
        Watch::Due => false,
        Watch::One { lit: _lit } => false,
        Watch::Two { first, second } => buckets.bucket_of(first) == bucket
            || buckets.bucket_of(second) == bucket,
    }
}

fn is_bucket(one: Option<usize>, bucket: usize) -> bool
    ensures value { result ≡ is_bucket one bucket }
{
    match one {
        None => false,
        Some(at) => at == bucket,
    }
}

fn is_among(buckets: Buckets, bucket: usize) -> bool
    ensures value { result ≡ is_among buckets bucket }
{
    is_bucket(buckets.first, bucket) || is_bucket(buckets.second, bucket)
}

fn other_bucket(one: Option<usize>, bucket: usize) -> Option<usize>
    ensures value { result ≡ other_bucket one bucket }
{
    match one {
        None => None,
        Some(at) => { if at == bucket { None } else { Some(at) } }
    }
}

// Marks as due each clause at these places whose watch doesn't show that it is quiet, and moves the
// other places to the front. Returns how many these are.
fn pass(room: &Room, ones: &mut [u32], watches: &mut [Watch], due: &mut Vec<u32>) -> usize
    requires fits { All (IsWatchOf room.now.ships) watches.old }
    requires keeps { KeepsDue watches.old due.old.items (vec_capacity due.old) }
    requires ones { KeepsOnes watches.old ones.old }
    ensures keeps { KeepsDue watches.new due.new.items (vec_capacity due.new) }
    ensures drops { DropsSome watches.old watches.new }
    ensures ones { KeepsOnes watches.new (take result ones.new) }
    ensures shown { ShowsOnes room.now watches.new }
{
    let mut kept = 0;
    for at in 0..ones.len() {
        let place = ones[at];
        if shows(watches[place as usize], room) {
            ones[kept] = place;
            kept += 1;
        } else {
            make_due(place, watches, due);
        }
    }
    kept
}

// Marks as due each clause whose watch doesn't show that it is quiet. It looks at each watch once.
fn review(room: &Room, watches: &mut [Watch], due: &mut Vec<u32>)
    requires fits { All (IsWatchOf room.now.ships) watches.old }
    requires keeps { KeepsDue watches.old due.old.items (vec_capacity due.old) }
    ensures keeps { KeepsDue watches.new due.new.items (vec_capacity due.new) }
    ensures drops { DropsSome watches.old watches.new }
    ensures stay { StayShown room.now watches.old watches.new }
    ensures shown { ShowsAll room.now watches.new }
{
    for place in 0..watches.len() {
        if !shows(watches[place], room) {
            make_due(place as u32, watches, due);
        }
    }
}

// `Watched::recheck` over the fields, since their invariant is broken in between.
fn recheck(room: &Room, seen: &Room, ones: &mut Vec<u32>, watches: &mut [Watch], due: &mut Vec<u32>)
    requires fits { All (IsWatchOf room.now.ships) watches.old }
    requires keeps { KeepsDue watches.old due.old.items (vec_capacity due.old) }
    requires ones { KeepsOnes watches.old ones.old.items }
    requires seen { KeepsSeen room.now.ships seen.now watches.old }
    ensures keeps { KeepsDue watches.new due.new.items (vec_capacity due.new) }
    ensures drops { DropsSome watches.old watches.new }
    ensures ones { KeepsOnes watches.new ones.new.items }
    ensures reserved { vec_capacity ones.new ≡ vec_capacity ones.old }
    ensures shown { ShowsAll room.now watches.new }
{
    let kept = pass(room, ones, watches, due);
    ones.truncate(kept);
    if !is_within(seen, room) {
        review(room, watches, due);
    }
}
