//! How much a permitted timetable takes of a toll, and pays, at most.
ghost use Rattle.std.specs.Prelude.{◌≡◌, ◌*◌, ◌<◌, ◌≤◌, length, All, Some};
ghost use Rattle.hw_price_laws.specs.Tolls.{capacity};
ghost use Rattle.hw_price_laws.specs.Prices.{DueFits, allowance, toll_at};

use hw_model::MOST_HELD;
use hw_price_laws::{Due, MOST_COST, MOST_DUES, MOST_PRICE, Toll};

/// The toll of this number, which counts from 1.
pub(crate) fn toll_at(tolls: &[Toll], number: u32) -> &Toll
    requires from_one { 0 < number }
    requires toll_in { number ≤ length tolls.now }
    ensures value { toll_at tolls.now number ≡ Some result.now }
{
    let place = number as usize - 1;
    &tolls[place]
}

/// How much a permitted timetable takes of a toll at most.
pub fn capacity_of(toll: &Toll) -> u64
    requires small { capacity toll.now ≤ MOST_HELD }
    ensures value { result ≡ capacity toll.now }
    ensures small { result ≤ MOST_HELD }
{
    match toll {
        Toll::Narrows { .. } => 1,
        Toll::Tugs { most, .. } => u64::from(*most),
    }
}

/// The price of this many units, in parts.
fn priced(price: u64, units: u64) -> u128
    requires small_price { price ≤ MOST_PRICE }
    requires few_units { units ≤ MOST_HELD }
    ensures value { result ≡ price * units }
    ensures small { result ≤ MOST_HELD * MOST_PRICE }
{
    u128::from(price) * u128::from(units)
}

/// What a permitted timetable pays for the dues at most, in parts.
pub fn allowance_of(tolls: &[Toll], dues: &[Due]) -> u128
    requires small { All (λ toll. capacity toll ≤ MOST_HELD) tolls.now }
    requires few { length dues.now ≤ MOST_DUES }
    requires fit { All (DueFits (length tolls.now)) dues.now }
    ensures value { result ≡ allowance tolls.now dues.now }
    ensures small { result ≤ MOST_COST }
{
    let mut sum: u128 = 0;
    for due in dues {
        sum += priced(due.price, capacity_of(toll_at(tolls, due.toll)));
    }
    sum
}
