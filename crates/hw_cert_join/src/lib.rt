//! The certificates of a split's parts joined into one.
//!
//! Their lines are renumbered and taken one after another by the checker that has taken all lines before.
//! Where they close each part, the lemmas of the split's forks follow, and the line without literals. So
//! nothing is trusted of where a certificate comes from, nor of what it says of its part.
#![tactic(auto)]

mod forks;
mod joined;
mod joining;
mod junction;
mod numbering;
mod parts;

pub use joined::Joined;
pub use joining::join;
