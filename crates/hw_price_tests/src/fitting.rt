//! Whether a tariff keeps its limits and names only tolls that are there.
ghost use Rattle.std.specs.Prelude.{◌↔◌, All, IsTrue};
ghost use Rattle.hw_price_laws.specs.Prices.{DueFits, TariffFits};

use hw_price_laws::{Due, MOST_DUES, MOST_PRICE, MOST_SCALE, Tariff};

/// Whether a tariff on this many tolls fits: its scale, the number of its dues and each price keep
/// their limits, and each due names one of the tolls. It looks once at each due.
pub fn tariff_fits(tolls: usize, tariff: &Tariff) -> bool
    ensures value { IsTrue result ↔ TariffFits tolls tariff.now }
{
    let dues = &tariff.dues.items;
    tariff.scale <= MOST_SCALE && dues.len() <= MOST_DUES && each_due_fits(tolls, dues)
}

/// Whether each due names one of this many tolls, at a price within its limit.
fn each_due_fits(tolls: usize, dues: &[Due]) -> bool
    ensures value { IsTrue result ↔ All (DueFits tolls) dues.now }
{
    for due in dues {
        if !due_fits(tolls, *due) {
            return false;
        }
    }
    true
}

/// Whether a due names one of this many tolls, at a price within its limit.
fn due_fits(tolls: usize, due: Due) -> bool
    ensures value { IsTrue result ↔ DueFits tolls due }
{
    0 < due.toll && due.toll as usize <= tolls && due.price <= MOST_PRICE
}
