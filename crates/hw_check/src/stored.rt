//! The literals of clauses in one list, each clause with its place.

ghost use Rattle.std.specs.Prelude.{◌≡◌, ◌∷◌, ◌++◌, [], ◌+◌, ◌^◌, ◌<◌, ◌≤◌, length, All, IfOk, OnOk, OnErr};
ghost use Rattle.hw_check.specs.Places.{PlacesAscend, FindsPlace, PlaceFits, Gathers, lits_at, new_place};

use crate::place::Place;
use hw_model::{Lit, NoMemory};
use std::alloc::Global;

/// The literals of many clauses, and where those of each stand, by ascending numbers.
#[derive(Drop)]
pub(crate) struct Stored {
    pub(crate) lits: Vec<Lit>,
    pub(crate) places: Vec<Place>,
}

impl Stored {
    pub(crate) fn new(alloc: Global) -> Stored
        ensures no_lits { result.lits.items ≡ [] }
        ensures no_places { result.places.items ≡ [] }
    {
        Stored {
            lits: Vec::new(alloc),
            places: Vec::new(alloc),
        }
    }

    /// Adds a live clause after the others.
    pub(crate) fn add(&mut self, id: u32, lits: &[Lit]) -> Result<(), NoMemory>
        ensures lits { OnOk result (self.new.lits.items ≡ self.old.lits.items ++ lits.now) }
        ensures places { OnOk result (self.new.places.items ≡ self.old.places.items ++ new_place id self.old.lits.items lits.now ∷ []) }
        ensures same_lits { OnErr result (self.new.lits.items ≡ self.old.lits.items) }
        ensures same_places { OnErr result (self.new.places.items ≡ self.old.places.items) }
    {
        let place = Place {
            id,
            start: self.lits.len(),
            len: lits.len(),
            is_live: true,
        };
        self.places.reserve(1)?;
        self.lits.extend_from_slice(lits)?;
        self.places.push_reserved(place);
        Ok(())
    }
}

/// The live clauses alone, moved together: one pass over the places and over what is live.
pub(crate) fn gathered(alloc: Global, lits: &[Lit], places: &[Place]) -> Result<Stored, NoMemory>
    requires fit { All (PlaceFits (length lits.now)) places.now }
    requires ascend { PlacesAscend places.now }
    ensures gathered { IfOk result (λ stored. Gathers lits.now places.now stored.lits.items stored.places.items) }
{
    let mut stored = Stored::new(alloc);
    for place in places {
        if place.is_live {
            stored.add(place.id, lits_at(lits, *place))?;
        }
    }
    Ok(stored)
}

/// The literals at a place.
pub(crate) fn lits_at(lits: &[Lit], place: Place) -> &[Lit]
    requires fits { PlaceFits (length lits.now) place }
    ensures value { result.now ≡ lits_at lits.now place }
{
    &lits[place.start..place.start + place.len]
}

/// Where the place of a number stands, in as many steps as the number of places has bits.
pub(crate) fn find_place(places: &[Place], id: u32) -> Option<usize>
    requires ascend { PlacesAscend places.now }
    ensures found { FindsPlace places.now id result }
{
    match places.binary_search_by_key(&id, |place| place.id) {
        Ok(index) => Some(index),
        Err(_) => None,
    }
}
