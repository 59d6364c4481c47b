//! For each two ships a hole of theirs, by which groups of ships are grown.

ghost use Rattle.std.specs.Prelude.{◌≡◌, ◌<◌, ℕ, [], All, IfSome, slice_get, slice_index_or, None};
ghost use Rattle.hw_model.specs.Limits.{HoleFits, RuleFits};
ghost use Rattle.hw_model.specs.declared.limits.TheConstants.{MOST_SHIPS};
ghost use Rattle.hw_flat_programme.specs.Rows.{IsHoleTable, hole_between, hole_in, mirrored_hole, turned_of};

use crate::limits::MOST_GROUP;
use hw_flat::Flat;
use hw_model::{Hole, Rule, ShipId};
use std::marker::Model;

/// The first of some holes.
fn first_hole(holes: &[Hole]) -> Option<Hole>
    requires fit { All HoleFits holes.now }
    ensures value { result ≡ slice_get holes.now 0 }
    ensures fits { IfSome result HoleFits }
{
    holes.first().copied()
}

/// A hole, seen from the second ship.
fn turned(hole: Hole) -> Hole
    requires fits { HoleFits hole }
    ensures { result ≡ mirrored_hole hole }
{
    Hole {
        lo: -hole.hi,
        hi: -hole.lo,
    }
}

/// The first hole of some, seen from the second ship.
fn turned_hole(holes: &[Hole]) -> Option<Hole>
    requires fit { All HoleFits holes.now }
    ensures { result ≡ turned_of (slice_get holes.now 0) }
{
    match first_hole(holes) {
        None => None,
        Some(hole) => Some(turned(hole)),
    }
}

/// The first hole of a pair, seen from the first of these two ships, or `None` for a rule on others.
fn hole_in(flat: &Flat, rule: &Rule, v: ShipId, w: ShipId) -> Option<Hole>
    requires { RuleFits flat.now.ships rule.now }
    ensures { result ≡ hole_in rule.now v w }
{
    match rule {
        Rule::Pair {
            v: first,
            w: second,
            holes,
        } => {
            if *first == v && *second == w {
                first_hole(&holes.items)
            } else if *first == w && *second == v {
                turned_hole(&holes.items)
            } else {
                None
            }
        }
        Rule::After { .. } => None,
        Rule::Tugs { .. } => None,
    }
}

/// That of the first pair of these two ships.
fn hole_between(flat: &Flat, v: ShipId, w: ShipId) -> Option<Hole>
    ensures { result ≡ hole_between flat.now.rules v w }
{
    for rule in flat.rules() {
        let found = hole_in(flat, rule, v, w);
        if found.is_some() {
            return found;
        }
    }
    None
}

/// Those of a ship and each other one.
fn holes_of(flat: &Flat, v: ShipId) -> [Option<Hole>; MOST_GROUP]
    ensures { (w : ℕ) → w < MOST_SHIPS → slice_index_or result w None ≡ hole_between flat.now.rules v w }
{
    let mut holes = [None; MOST_GROUP];
    for w in 0..MOST_GROUP {
        holes[w] = hole_between(flat, v, w as ShipId);
    }
    holes
}

/// A hole of each two ships or none, seen as rows of a ship and each other one.
#[derive(Drop)]
pub struct HoleTable {
    rows: [[Option<Hole>; MOST_GROUP]; MOST_GROUP],
}

impl Model for HoleTable {
    ghost use Rattle.std.specs.Prelude.{List, Option};
    ghost use Rattle.hw_model.specs.declared.rule.Hole.{Hole};

    ghost Value = { List (List (Option Hole)) };

    ghost view = { λ t. t.rows };
}

impl HoleTable {
    /// Those of a problem. It goes through the rules once for each two ships.
    pub fn new(flat: &Flat) -> HoleTable
        ensures { IsHoleTable flat.now result }
    {
        let mut rows = [[None; MOST_GROUP]; MOST_GROUP];
        for v in 0..MOST_GROUP {
            rows[v] = holes_of(flat, v as ShipId);
        }
        HoleTable { rows }
    }

    /// That of two ships.
    fn hole(&self, v: ShipId, w: ShipId) -> Option<Hole>
        requires first_in { v < MOST_SHIPS }
        requires second_in { w < MOST_SHIPS }
        ensures { result ≡ slice_index_or (slice_index_or self.now v []) w None }
    {
        self.rows[v as usize][w as usize]
    }
}

/// A flat problem with a hole of each two of its ships, seen as the problem.
#[derive(Drop)]
pub struct Apart<'f> {
    flat: &'f Flat,
    table: &'f HoleTable,
}

impl<'f> Model for Apart<'f> {
    ghost use Rattle.hw_model.specs.Problem.{Problem};
    ghost use Rattle.hw_flat_programme.specs.Rows.{IsHoleTable};

    ghost Value = { Problem };

    ghost view = { λ a. a.flat.now };

    ghost invariant = { λ a. IsHoleTable a.flat.now a.table.now };
}

impl<'f> Apart<'f> {
    /// A problem and its holes.
    pub fn new(flat: &'f Flat, table: &'f HoleTable) -> Apart<'f>
        requires own { IsHoleTable flat.now table.now }
        ensures { result ≡ flat.now }
    {
        Apart { flat, table }
    }

    /// The problem.
    pub fn flat(&self) -> &Flat
        ensures { result.now ≡ self.now }
    {
        self.flat
    }

    /// The first hole of the first pair of two ships, seen from the first of these.
    pub fn hole(&self, v: ShipId, w: ShipId) -> Option<Hole>
        requires first_in { v < MOST_SHIPS }
        requires second_in { w < MOST_SHIPS }
        ensures value { result ≡ hole_between self.now.rules v w }
        ensures fits { IfSome result HoleFits }
    {
        let _limits = self.flat.rules();
        self.table.hole(v, w)
    }
}
