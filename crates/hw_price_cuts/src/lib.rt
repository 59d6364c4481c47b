//! Cuts for the prices of a problem: tolls that may be worth a price.
//!
//! In the field's words: valid inequalities as candidates for a relaxation. Clique cuts are narrows, of which each ship may
//! take a block of its slots, and cover cuts are tolls on tugs. Some are listed at first; others are found by heuristic
//! separation, where they are violated by the slots that ships chose on average. See H. Crowder, E. L. Johnson and M.
//! Padberg, "Solving Large-Scale Zero-One Linear Programming Problems", Operations Research 31, 1983.
//!
//! Nothing is promised of them. Whoever declares one tests it.
#![tactic(auto)]

mod candidates;
mod counts;
mod covers;
mod distances;
mod finds;
mod separation;
mod separator;
mod settings;

pub use separator::Separator;
