//! The best balance of each ship under a tariff, and those of all ships together.
ghost use Rattle.std.specs.Prelude.{◌≡◌, ℕ, ◌+◌, ◌*◌, ◌<◌, ◌≤◌, length, All, IfSome, unwrap_or, option_map, slice_index};
ghost use Rattle.hw_model.specs.Limits.{IsFlat};
ghost use Rattle.hw_model.specs.Rooms.{RoomFits};
ghost use Rattle.hw_price_laws.specs.Tolls.{IsToll};
ghost use Rattle.hw_price_laws.specs.Prices.{TariffFits};
ghost use Rattle.hw_price_laws.specs.Computed as computed;
ghost use Rattle.hw_price_laws.specs.Computed.{BalanceFits};

use crate::charging::charge;
use hw_flat::{Flat, Room, Slot};
use hw_model::{MOST_SHIPS, MOST_VALUE};
use hw_price_laws::{Balance, Block, MOST_COST, MOST_GAIN, MOST_SCALE, Tariff, Toll};

/// A value, in tenths of a tonne, as parts.
fn scaled(scale: u32, value: u64) -> u128
    requires small_scale { scale ≤ MOST_SCALE }
    requires small_value { value ≤ MOST_VALUE }
    ensures value { result ≡ scale * value }
    ensures small { result ≤ MOST_GAIN }
{
    u128::from(scale) * u128::from(value)
}

/// The first of two balances, unless the second is better.
pub fn better(first: Option<Balance>, second: Option<Balance>) -> Option<Balance>
    requires small_first { IfSome first (BalanceFits 1) }
    requires small_second { IfSome second (BalanceFits 1) }
    ensures value { result ≡ computed.better first second }
    ensures small { IfSome result (BalanceFits 1) }
{
    match (first, second) {
        (None, _) => second,
        (Some(_), None) => first,
        (Some(a), Some(b)) => {
            if a.gain + b.cost < b.gain + a.cost {
                second
            } else {
                first
            }
        }
    }
}

/// The best balance of a ship in a range of its slots, or none where it has no value there. `costs`
/// is scratch space, one number for each slot of the problem.
///
/// Each due costs one look at its toll's blocks or jobs, and a step for each slot of the range that
/// they charge.
pub fn best_charged(
    flat: &Flat,
    tolls: &[Toll],
    tariff: &Tariff,
    range: Block,
    costs: &mut [u128],
) -> Option<Balance>
    requires tolls { All (IsToll flat.now) tolls.now }
    requires fits { TariffFits (length tolls.now) tariff.now }
    requires ship_in { range.ship < flat.now.ships }
    requires slot_in { range.high < flat.now.slots }
    requires each_slot { length costs.old ≡ flat.now.slots }
    ensures value { result ≡ computed.best_balance flat.now tolls.now tariff.now range.ship range.low range.high }
    ensures small { IfSome result (BalanceFits 1) }
{
    charge(costs, flat, tolls, &tariff.dues.items, range);
    best_by_costs(flat, tolls, tariff, range, costs)
}

/// The same by what the ship pays in the slots of the range.
pub(crate) fn best_by_costs(
    flat: &Flat,
    tolls: &[Toll],
    tariff: &Tariff,
    range: Block,
    costs: &[u128],
) -> Option<Balance>
    requires fits { TariffFits (length tolls.now) tariff.now }
    requires ship_in { range.ship < flat.now.ships }
    requires slot_in { range.high < flat.now.slots }
    requires each_slot { length costs.now ≡ flat.now.slots }
    requires told { (k : ℕ) → range.low ≤ k → k ≤ range.high → slice_index costs.now k ≡ computed.pays flat.now tolls.now tariff.now.dues range.ship k }
    requires small { All (λ c. c ≤ MOST_COST) costs.now }
    ensures value { result ≡ computed.best_balance flat.now tolls.now tariff.now range.ship range.low range.high }
    ensures small { IfSome result (BalanceFits 1) }
{
    let _tolls = tolls;
    let mut most: Option<Balance> = None;
    for slot in range.low..slot_after(flat, range.high) {
        let next = costed(
            tariff.scale,
            flat.value(range.ship, slot),
            costs[slot as usize],
        );
        most = better(most, next);
    }
    most
}

/// The balance of a value and what is paid, or none without a value.
fn costed(scale: u32, value: Option<u64>, cost: u128) -> Option<Balance>
    requires small_scale { scale ≤ MOST_SCALE }
    requires small_value { unwrap_or value 0 ≤ MOST_VALUE }
    requires small_cost { cost ≤ MOST_COST }
    ensures value { result ≡ option_map (λ v. record { gain = scale * v; cost = cost }) value }
    ensures small { IfSome result (BalanceFits 1) }
{
    match value {
        None => None,
        Some(value) => Some(Balance {
            gain: scaled(scale, value),
            cost,
        }),
    }
}

/// The number after a slot.
fn slot_after(flat: &Flat, slot: Slot) -> Slot
    requires slot_in { slot < flat.now.slots }
    ensures value { result ≡ slot + 1 }
    ensures in_slots { result ≤ flat.now.slots }
{
    let _slots = flat.shape();
    slot + 1
}

/// The sum of two balances, or none where one is missing.
pub(crate) fn together(sum: Option<Balance>, next: Option<Balance>) -> Option<Balance>
    requires small_sum { IfSome sum (BalanceFits 39) }
    requires small_next { IfSome next (BalanceFits 1) }
    ensures value { result ≡ computed.together sum next }
    ensures parts { (ships : ℕ) → IfSome sum (BalanceFits ships) → IfSome result (BalanceFits (ships + 1)) }
{
    match (sum, next) {
        (Some(sum), Some(next)) => Some(Balance {
            gain: sum.gain + next.gain,
            cost: sum.cost + next.cost,
        }),
        (None, _) | (Some(_), None) => None,
    }
}

/// The ships' best balances in their ranges together, or none where a ship has no value in its
/// range. `costs` is scratch space, one number for each slot of the problem.
///
/// Each due costs one look at its toll's blocks or jobs for each ship, and a step for each slot of
/// the ranges that they charge.
pub fn charged_balances(
    flat: &Flat,
    tolls: &[Toll],
    tariff: &Tariff,
    room: &Room,
    costs: &mut [u128],
) -> Option<Balance>
    requires tolls { All (IsToll flat.now) tolls.now }
    requires fits { TariffFits (length tolls.now) tariff.now }
    requires room { RoomFits flat.now room.now }
    requires each_slot { length costs.old ≡ flat.now.slots }
    ensures value { result ≡ computed.best_balances flat.now tolls.now tariff.now room.now }
    ensures small { IfSome result (BalanceFits MOST_SHIPS) }
    ensures limits { IsFlat flat.now }
{
    let mut sum: Option<Balance> = Some(Balance { gain: 0, cost: 0 });
    for ship in 0..flat.shape().ships {
        let range = Block {
            ship,
            low: room.low(ship),
            high: room.high(ship),
        };
        sum = together(sum, best_charged(flat, tolls, tariff, range, costs));
    }
    sum
}
