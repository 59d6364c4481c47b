//! Which sources speak of a ship or of a pair, in lists that are made once.

ghost use Rattle.std.specs.Prelude.{◌≡◌, ◌++◌, ◌^◌, ◌<◌, ◌==◌, ◌&&◌, ◌||◌, [], ◌∷◌, All, AllPairs, IfOk, OnOk, false, length, nat_lt, slice_get, Some};
ghost use Rattle.std.specs.List.{list_any};
ghost use Rattle.hw_model.specs.Lits.{IsLitOf};
ghost use Rattle.hw_model.specs.Quiet.{names_ship, names_order, rule_names_ship, rule_names_order};
ghost use Rattle.hw_model.specs.Refuting.{IsSourceOf};
ghost use Rattle.hw_model.specs.Limits.{RuleFits, JobFits};
ghost use Rattle.hw_model.specs.declared.lit.Lit.{Lit as LitOf};
ghost use Rattle.hw_search_sources.specs.Speaking.{TellsSpeakers, AddsPlace, speakers_of, speaking};

use hw_flat::{Flat, Job, Rule, ShipId, Source};
use hw_model::{Lit, NoMemory};
use hw_store::{Places, no_places};
use std::alloc::Global;
use std::marker::Model;

/// Which sources speak of a ship or of a pair: their places, in lists that are made once.
///
/// At 40 ships there are 780 pairs and some 10,000 sources, with 32,000 places in all.
#[derive(Drop)]
pub struct Speakers {
    ships: u32,
    by_ship: Vec<Places>,
    by_pair: Vec<Places>,
}

impl Model for Speakers {
    ghost use Rattle.hw_search_sources.specs.Speaking.{SpeakersModel, KeepsLists};

    ghost Value = { SpeakersModel };

    ghost view = { λ s. record { ships = s.ships; by_ship = s.by_ship.items; by_pair = s.by_pair.items } };

    ghost invariant = { λ s. KeepsLists (record { ships = s.ships; by_ship = s.by_ship.items; by_pair = s.by_pair.items }) };
}

impl Speakers {
    /// The places of these sources of a problem. It costs a step for each place that it lists.
    pub fn new(alloc: Global, flat: &Flat, sources: &[Source]) -> Result<Speakers, NoMemory>
        requires sources { All (IsSourceOf flat.now) sources.now }
        ensures tells { IfOk result (TellsSpeakers flat.now sources.now) }
        ensures exact { IfOk result (λ speakers. (lit : LitOf) → IsLitOf flat.now.ships lit → speakers_of speakers lit ≡ speaking flat.now sources.now lit) }
    {
        let ships = flat.shape().ships;
        let by_ship = no_places(alloc, ships)?;
        let by_pair = no_places(alloc, ships * ships)?;
        let mut speakers = Speakers {
            ships,
            by_ship,
            by_pair,
        };
        for (at, source) in sources.iter().enumerate() {
            let Ok(place) = u32::try_from(at) else {
                return Err(NoMemory);
            };
            speakers.add(flat, *source, place)?;
        }
        Ok(speakers)
    }

    /// The places, ascending, of the sources that speak of what a literal speaks of. One look.
    pub fn of(&self, lit: Lit) -> &[u32]
        requires fits { IsLitOf self.now.ships lit }
        ensures value { result.now ≡ speakers_of self.now lit }
    {
        match lit {
            Lit::AtOrAfter { ship, .. } | Lit::Before { ship, .. } => {
                self.by_ship[ship as usize].as_slice()
            }
            Lit::First { v, w } | Lit::NotFirst { v, w } => {
                self.by_pair[(v * self.ships + w) as usize].as_slice()
            }
        }
    }

    // Adds the place of a source to the lists of what it speaks of.
    fn add(&mut self, flat: &Flat, source: Source, place: u32) -> Result<(), NoMemory>
        requires source_in { IsSourceOf flat.now source }
        requires same { self.old.ships ≡ flat.now.ships }
        ensures adds { OnOk result (AddsPlace place (names_ship flat.now source) (names_order flat.now source) self.old self.new) }
    {
        match source {
            Source::Window { ship } => self.add_ship(ship, place),
            Source::Rule { place: rule } => self.add_rule(&flat.rules()[rule as usize], place),
            Source::Order { v, w, x } => self.add_three(v, w, x, place),
            Source::Goal => self.add_all(place),
        }
    }

    fn add_ship(&mut self, ship: ShipId, place: u32) -> Result<(), NoMemory>
        requires ship_in { ship < self.old.ships }
        ensures adds { OnOk result (AddsPlace place (λ u. u == ship) (λ a b. false) self.old self.new) }
    {
        self.by_ship[ship as usize].push(place)
    }

    fn add_pair(&mut self, v: ShipId, w: ShipId, place: u32) -> Result<(), NoMemory>
        requires ascends { v < w }
        requires ship_in { w < self.old.ships }
        ensures adds { OnOk result (AddsPlace place (λ u. false) (λ a b. a == v && b == w) self.old self.new) }
    {
        self.by_pair[(v * self.ships + w) as usize].push(place)
    }

    fn add_two(&mut self, v: ShipId, w: ShipId, place: u32) -> Result<(), NoMemory>
        requires ascends { v < w }
        requires ship_in { w < self.old.ships }
        ensures adds { OnOk result (AddsPlace place (λ u. u == v || u == w) (λ a b. a == v && b == w) self.old self.new) }
    {
        self.add_ship(v, place)?;
        self.add_ship(w, place)?;
        self.add_pair(v, w, place)
    }

    fn add_three(&mut self, v: ShipId, w: ShipId, x: ShipId, place: u32) -> Result<(), NoMemory>
        requires first { v < w }
        requires second { w < x }
        requires ship_in { x < self.old.ships }
        ensures adds { OnOk result (AddsPlace place (λ u. false) (λ a b. (a == v && b == w) || ((a == w && b == x) || (a == v && b == x))) self.old self.new) }
    {
        self.add_pair(v, w, place)?;
        self.add_pair(w, x, place)?;
        self.add_pair(v, x, place)
    }

    fn add_rule(&mut self, rule: &Rule, place: u32) -> Result<(), NoMemory>
        requires fits { RuleFits self.old.ships rule.now }
        ensures adds { OnOk result (AddsPlace place (rule_names_ship (Some rule.now)) (rule_names_order (Some rule.now)) self.old self.new) }
    {
        match rule {
            Rule::Pair { v, w, .. } => self.add_two(*v, *w, place),
            Rule::After { v, w, .. } => self.add_two((*v).min(*w), (*v).max(*w), place),
            Rule::Tugs { jobs, .. } => self.add_jobs(&jobs.items, place),
        }
    }

    fn add_jobs(&mut self, jobs: &[Job], place: u32) -> Result<(), NoMemory>
        requires each { All (JobFits self.old.ships) jobs.now }
        requires ascends { AllPairs (λ a b. a.ship < b.ship) jobs.now }
        ensures adds { OnOk result (AddsPlace place (λ u. list_any (λ job. job.ship == u) jobs.now) (λ a b. false) self.old self.new) }
    {
        for job in jobs {
            self.add_ship(job.ship, place)?;
        }
        Ok(())
    }

    fn add_all(&mut self, place: u32) -> Result<(), NoMemory>
        ensures adds { OnOk result (AddsPlace place (λ u. nat_lt u self.old.ships) (λ a b. false) self.old self.new) }
    {
        for ship in 0..self.ships {
            self.add_ship(ship, place)?;
        }
        Ok(())
    }
}
