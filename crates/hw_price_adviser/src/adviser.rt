//! The adviser that finds prices.

use crate::answering::open_bound;
use crate::relaxation::Relaxation;
use crate::settings::FIRST;
use crate::variation::Variation;
use hw_flat::Timetable;
use hw_model::{Lit, NoMemory};
use hw_price_dual::Workshop;
use hw_search_advice::{Advice, AdviceStop, Adviser, Bounding, Scene};
use std::alloc::Global;

/// Advises a search by prices on tolls. It looks for prices for the whole problem once, and then moves
/// them a little in each room that it is shown.
///
/// It is silent in the first 32 lemmas, in a point room, and as long as there is no best. As long as there
/// is none it proposes timetables from the first lemma on, and later those that it makes by its prices
/// now and then. It gives a bound after 32 lemmas, or when a smaller budget is spent; when the budget is
/// spent it looks for a lower one. It looks at no clock, and each call ends after a fixed number of
/// steps.
#[derive(Drop)]
pub struct PricingAdviser {
    /// How many lemmas the search finds at most.
    budget: u32,
    variation: Variation,
    /// None before it is needed.
    relaxation: Option<Relaxation>,
    /// None before it is needed.
    shop: Option<Workshop>,
    /// After how many lemmas a timetable was last made without prices.
    made: u32,
}

impl PricingAdviser {
    /// An adviser of a search of at most `budget` lemmas. The seed chooses in which order it prefers to
    /// decide ships, of which 0 is the usual one. It has not looked at a problem yet, and takes no memory.
    pub fn new(budget: u32, seed: u32) -> PricingAdviser {
        PricingAdviser {
            budget,
            variation: Variation::of(seed),
            relaxation: None,
            shop: None,
            made: 0,
        }
    }

    /// Looks at the problem of a scene, unless it did so before.
    fn look(&mut self, alloc: Global, scene: &Scene<'_>) -> Result<(), NoMemory> {
        self.get_ready(alloc, scene)?;
        if self.relaxation.is_none() {
            if let Some(shop) = &mut self.shop {
                self.relaxation = Some(Relaxation::new(alloc, scene, shop, self.variation)?);
            }
        }
        Ok(())
    }

    /// Gets ready to make timetables.
    fn get_ready(&mut self, alloc: Global, scene: &Scene<'_>) -> Result<(), NoMemory> {
        if self.shop.is_none() {
            self.shop = Some(Workshop::new(alloc, scene.flat)?);
        }
        Ok(())
    }

    /// Makes a timetable without prices, where none is known: once after each of the first lemmas.
    fn make(&mut self, alloc: Global, scene: &Scene<'_>) -> Result<(), NoMemory> {
        let lemmas = scene.standing.lemmas;
        if scene.best.is_some() || FIRST <= lemmas || lemmas <= self.made {
            return Ok(());
        }
        self.made = lemmas;
        self.get_ready(alloc, scene)?;
        match &mut self.shop {
            None => Ok(()),
            Some(shop) => shop.make(alloc, scene.room),
        }
    }
}

impl Adviser for PricingAdviser {
    fn advise(&mut self, alloc: Global, scene: &Scene<'_>) -> Result<Option<Advice>, AdviceStop> {
        if scene.standing.lemmas < FIRST || scene.room.is_point() {
            return Ok(None);
        }
        self.look(alloc, scene)?;
        match (&mut self.relaxation, &mut self.shop) {
            (Some(relaxation), Some(shop)) => Ok(relaxation.advise(alloc, scene, shop)?),
            _ => Ok(None),
        }
    }

    fn bound(&mut self, alloc: Global, scene: &Scene<'_>) -> Result<Option<Bounding>, NoMemory> {
        let spent = self.budget <= scene.standing.lemmas;
        if scene.standing.lemmas < FIRST && !spent {
            return Ok(None);
        }
        self.look(alloc, scene)?;
        match &mut self.relaxation {
            None => Ok(None),
            Some(relaxation) => relaxation.bound(alloc, scene, spent),
        }
    }

    fn propose(&mut self, alloc: Global, scene: &Scene<'_>) -> Result<Option<Timetable>, NoMemory> {
        self.make(alloc, scene)?;
        match &self.shop {
            None => Ok(None),
            Some(shop) => shop.better(alloc, scene.best),
        }
    }

    fn prefer(&mut self, scene: &Scene<'_>) -> Option<Lit> {
        if scene.standing.lemmas < FIRST {
            return None;
        }
        match &self.relaxation {
            None => None,
            Some(relaxation) => open_bound(scene, relaxation.prefer(scene)),
        }
    }
}
