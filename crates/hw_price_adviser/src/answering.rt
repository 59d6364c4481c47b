//! Answers that passed the exact tests.

ghost use Rattle.std.specs.Prelude.{◌<◌, ◌≤◌, length, All, IfOk, IfSome, IsTrue};
ghost use Rattle.hw_model.specs.Rooms.{RoomFits, low_of, high_of};
ghost use Rattle.hw_price_laws.specs.Tolls.{IsToll};
ghost use Rattle.hw_search_advice.specs.Advisers.{IsAdviceIn, IsBoundIn, IsOpenIn, IsScene};

use crate::exact::{are_priced, bound_of, joined, tested};
use hw_flat::Room;
use hw_model::{Lit, NoMemory};
use hw_price_laws::{MOST_TOLLS, Tariff, Toll};
use hw_price_tests::{InForce, RulesByPair};
use hw_search_advice::{Advice, Bounding, Scene};
use std::alloc::Global;

/// A tariff, and the tolls that must be declared for it.
#[derive(Drop)]
pub(crate) struct Offer {
    pub(crate) tolls: Vec<Toll>,
    pub(crate) tariff: Tariff,
}

/// The advice of these literals under the tariff in force, if it passes all tests.
pub(crate) fn advice_in_force(
    alloc: Global,
    scene: &Scene<'_>,
    lits: Vec<Lit>,
) -> Result<Option<Advice>, NoMemory>
    requires { IsScene scene.now }
    ensures advice { IfOk result (λ answer. IfSome answer (IsAdviceIn scene.now)) }
{
    let Some(tariff) = scene.tariff else {
        return Ok(None);
    };
    let tariff = tariff.copy(alloc)?;
    let prices = InForce::new(alloc, scene.flat, scene.tolls, tariff)?;
    match tested(alloc, scene, scene.tolls, &prices, lits)? {
        None => Ok(None),
        Some(clause) => Ok(Some(Advice {
            tolls: Vec::new(alloc),
            tariff: None,
            clause,
        })),
    }
}

/// The advice of these literals under another tariff, if it passes all tests.
pub(crate) fn advice_anew(
    alloc: Global,
    scene: &Scene<'_>,
    rules: &mut RulesByPair,
    offer: Offer,
    lits: Vec<Lit>,
) -> Result<Option<Advice>, NoMemory>
    requires room { RoomFits scene.now.flat.now scene.now.room.now }
    requires tolls { All (IsToll scene.now.flat.now) scene.now.tolls.now }
    requires few { length scene.now.tolls.now ≤ MOST_TOLLS }
    ensures advice { IfOk result (λ answer. IfSome answer (IsAdviceIn scene.now)) }
{
    let Offer { tolls, tariff } = offer;
    if !are_priced(alloc, scene, rules, &tolls, &tariff)? {
        return Ok(None);
    }
    let all = joined(alloc, scene.tolls, &tolls)?;
    let prices = InForce::new(alloc, scene.flat, &all, tariff)?;
    match tested(alloc, scene, &all, &prices, lits)? {
        None => Ok(None),
        Some(clause) => Ok(Some(Advice {
            tolls,
            tariff: Some(prices.into_tariff()),
            clause,
        })),
    }
}

/// The least bound of the whole problem under a tariff, if it passes all tests.
pub(crate) fn bounding(
    alloc: Global,
    scene: &Scene<'_>,
    rules: &mut RulesByPair,
    offer: Offer,
) -> Result<Option<Bounding>, NoMemory>
    requires tolls { All (IsToll scene.now.flat.now) scene.now.tolls.now }
    requires few { length scene.now.tolls.now ≤ MOST_TOLLS }
    ensures bound { IfOk result (λ answer. IfSome answer (IsBoundIn scene.now)) }
{
    let Offer { tolls, tariff } = offer;
    if !are_priced(alloc, scene, rules, &tolls, &tariff)? {
        return Ok(None);
    }
    let all = joined(alloc, scene.tolls, &tolls)?;
    match bound_of(alloc, scene.flat, &all, &tariff)? {
        None => Ok(None),
        Some(bound) => Ok(Some(Bounding {
            tolls,
            tariff: Some(tariff),
            bound,
        })),
    }
}

/// The literal, if the room leaves it open and it is a bound.
pub(crate) fn open_bound(scene: &Scene<'_>, lit: Option<Lit>) -> Option<Lit>
    requires room { RoomFits scene.now.flat.now scene.now.room.now }
    ensures open { IfSome result (IsOpenIn scene.now.flat.now scene.now.room.now) }
{
    match lit {
        Some(Lit::AtOrAfter { ship, slot }) if splits(scene.room, ship, slot) => {
            Some(Lit::AtOrAfter { ship, slot })
        }
        Some(Lit::Before { ship, slot }) if splits(scene.room, ship, slot) => {
            Some(Lit::Before { ship, slot })
        }
        _ => None,
    }
}

/// Whether the ship's range has slots before this one and others from it on.
fn splits(room: &Room, ship: u32, slot: u32) -> bool
    ensures value { IsTrue result → (ship < room.now.ships) × (low_of room.now ship < slot) × (slot ≤ high_of room.now ship) × (slot < room.now.slots) }
{
    ship < room.ships() && room.low(ship) < slot && slot <= room.high(ship)
}
