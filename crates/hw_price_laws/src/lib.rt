//! Tolls: resources of which every permitted timetable takes at most a given amount, and their prices.
//!
//! Where prices leave a room no more than the best, no permitted timetable inside carries more. The
//! laws are public functions without a body whose clause is the statement.
#![tactic(auto)]

mod laws;
mod limits;
mod pairs;
mod tariff;
mod toll;

pub use laws::{
    balance_changed, more_tolls, only_ranges, price_rows, prices_computed, prices_within,
    rising_prices, sound_bound, sound_prices, teams_are_tolls, toll_judged, toll_kept, toll_rows,
    toll_usage, wider_prices, without_dues,
};
pub use limits::{MOST_COST, MOST_DUES, MOST_GAIN, MOST_PRICE, MOST_SCALE, MOST_TOLLS};
pub use pairs::pair_number;
pub use tariff::{Balance, Due, Dues, Tariff};
pub use toll::{Block, Blocks, Charge, Toll, Weights, are_light};
