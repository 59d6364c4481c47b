//! The limits of tolls and prices.

use hw_model::{MOST_HELD, MOST_VALUE};

/// Tolls that a certificate declares.
pub const MOST_TOLLS: usize = 10_000;

/// Dues of a tariff.
pub const MOST_DUES: usize = 100_000;

/// What one unit of a toll costs, in parts.
pub const MOST_PRICE: u64 = 1_000_000_000_000_000_000;

/// Parts of a tenth of a tonne.
pub const MOST_SCALE: u32 = 1_000_000;

/// What a ship gains, in parts.
pub const MOST_GAIN: u64 = MOST_SCALE as u64 * MOST_VALUE;

/// What a ship pays, in parts.
pub const MOST_COST: u128 = MOST_DUES as u128 * MOST_PRICE as u128 * MOST_HELD as u128;
