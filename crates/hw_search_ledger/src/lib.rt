//! The lines of a search, and the numbers of those that are clauses.
//!
//! Each function that hands lines to a log says which ones it took, and at which it stopped. A `Ledger`
//! knows the numbers: it writes a lemma after its reasons and its conflict, those that have no line yet,
//! and deletes the lines that nobody names any more.
#![tactic(auto)]

mod dropped;
mod going_back;
mod handing;
mod ledger;
mod naming;
mod telling;
mod writing;

pub use handing::{hand_priced, hand_why};
pub use ledger::Ledger;
pub use telling::{hand_bound, hand_tariff, hand_toll};
pub use writing::{WrittenLemma, hand_copy, hand_table};
