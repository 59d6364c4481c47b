//! Plain tests on timetables and rooms: rules, cargo, the first broken restriction, refutation,
//! and the walk through all timetables.
//!
//! Every answer is that of a definition of `hw_model`.
#![tactic(auto)]

mod breach;
mod fleets;
mod goal;
mod laws;
mod listing;
mod lists;
mod numbering;
mod orders;
mod outcome;
mod pair;
mod precedence;
mod refuting;
mod spacing;
mod timetables;
mod tugs;
mod walking;
mod window;

pub use breach::Breach;
pub use fleets::{Fleet, rule_fleet, rule_jobs};
pub use goal::{beats, cargo, greatest_sum, greatest_value};
pub use hw_model_laws::{point_room, rising_best, sound_refutation, whole_walk};
pub use laws::{each_list_once, no_source_twice, rank_follows_order, restriction_numbers};
pub use listing::sources;
pub use numbering::{number_of, source_of};
pub use outcome::Walked;
pub use precedence::{OneHole, forbidden_above, forbidden_below, one_hole};
pub use refuting::refuted;
pub use spacing::{Freeing, Two, covered, sailing_slots, two_of, two_refuted};
pub use timetables::{allowed_pair, broken};
pub use tugs::{busy, forced_tugs};
pub use walking::walk;
