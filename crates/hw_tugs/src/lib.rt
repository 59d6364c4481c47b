//! The propagator of a rule on tugs: it keeps the tugs that are certainly held in each slot, and they
//! follow the room.
#![tactic(auto)]

mod cutting;
mod explaining;
mod figures;
mod fleets;
mod mending;
mod profile;
mod rule;

pub use profile::TugProfile;
