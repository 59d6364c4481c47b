//! `split`, `part` and `join` of any subject: a problem is split into parts, several runs at once search
//! within one part each, and their certificates become one.
#![tactic(auto)]

mod certificates;
mod joining;
mod parting;
mod split_input;
mod splitting;

pub use joining::join_subject;
pub use parting::{PartWords, part_subject};
pub use splitting::{SplitWords, split_subject};
