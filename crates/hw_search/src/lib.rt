//! The certified search: settling, a turn, and a whole solution.
//!
//! Every line that a search hands to its log is valid, lean and new after those before it, and says
//! nothing of tolls or prices: tolls are declared, tariffs put in force and bounds told only where
//! somebody above asks a search for it.
#![tactic(auto)]

mod asking;
mod engine;
mod prices;
mod pricing;
mod search;
mod settling;
mod solving;
mod turning;

pub use hw_search_laws::{Branching, Settled, Solved, Turn};
pub use search::Search;
pub use settling::Asked;
pub use solving::{proved, solve};
pub use turning::turn_of;
