//! Whether prices leave a room, or the whole problem, no more than a given cargo.
ghost use Rattle.std.specs.Prelude.{◌≡◌, ◌↔◌, ◌*◌, ◌≤◌, length, All, IfSome, IsTrue};
ghost use Rattle.hw_model.specs.Rooms.{RoomFits};
ghost use Rattle.hw_price_laws.specs.Tolls.{IsToll};
ghost use Rattle.hw_price_laws.specs.Prices as prices;
ghost use Rattle.hw_price_laws.specs.Prices.{TariffFits, PricesRefute};
ghost use Rattle.hw_price_laws.specs.Computed as computed;
ghost use Rattle.hw_price_laws.specs.Computed.{BalanceFits};

use crate::balancing::charged_balances;
use crate::taking::allowance_of;
use hw_flat::{Flat, Room};
use hw_model::MOST_SHIPS;
use hw_price_laws::{Balance, MOST_COST, MOST_SCALE, Tariff, Toll};

/// Whether the prices refute the room under the best, in tenths of a tonne. `costs` is scratch space,
/// one number for each slot of the problem.
///
/// Each list of slots of the ranges, permitted or not, in which each ship has a value must stay
/// below the aim: what it gains, less what it pays, with the allowance added. Orders play no part.
/// Then a permitted timetable inside, which pays no more than the allowance, carries no more than
/// the best, and without a best there is none inside.
///
/// It takes no memory. Each due costs one look at its toll's blocks or jobs for each ship, and a
/// step for each slot of the ranges that they charge.
pub fn charged_refute(
    flat: &Flat,
    tolls: &[Toll],
    tariff: &Tariff,
    best: Option<u64>,
    room: &Room,
    costs: &mut [u128],
) -> bool
    requires tolls { All (IsToll flat.now) tolls.now }
    requires fits { TariffFits (length tolls.now) tariff.now }
    requires room { RoomFits flat.now room.now }
    requires each_slot { length costs.old ≡ flat.now.slots }
    ensures computed { result ≡ computed.prices_refute flat.now tolls.now tariff.now best room.now }
    ensures means { IsTrue result ↔ PricesRefute flat.now tolls.now tariff.now best room.now }
{
    let allowed = allowance_of(tolls, &tariff.dues.items);
    let aimed = aim(tariff.scale, best);
    let balance = charged_balances(flat, tolls, tariff, room, costs);
    falls_short(allowed, aimed, balance)
}

/// The least that a timetable above the best gains, in parts; nothing without a best.
pub(crate) fn aim(scale: u32, best: Option<u64>) -> u128
    requires small_scale { scale ≤ MOST_SCALE }
    ensures value { result ≡ prices.aim scale best }
    ensures small { result ≤ 18_446_744_073_709_551_616_000_000 }
{
    match best {
        None => 0,
        Some(best) => u128::from(scale) * (u128::from(best) + 1),
    }
}

/// Whether a balance with the allowance added stays below the aim. A room without a balance has no
/// list of slots that could reach it.
pub(crate) fn falls_short(allowed: u128, aimed: u128, balance: Option<Balance>) -> bool
    requires small_allowance { allowed ≤ MOST_COST }
    requires small_aim { aimed ≤ 18_446_744_073_709_551_616_000_000 }
    requires small_balance { IfSome balance (BalanceFits MOST_SHIPS) }
    ensures value { result ≡ computed.falls_short allowed aimed balance }
{
    match balance {
        None => true,
        Some(balance) => balance.gain + allowed < aimed + balance.cost,
    }
}
