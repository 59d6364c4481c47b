//! Makes splits of a problem: at most so many parts, chosen by prices.
//!
//! In the field's words: a tree of rooms in which each time the leaf of the greatest Lagrangian bound is branched on, by strong
//! branching: the bounds of both children are computed for a few candidates, and the product of what they gain decides. See T.
//! Achterberg, T. Koch and A. Martin, "Branching Rules Revisited", Operations Research Letters 33, 2005.
#![tactic(auto)]

mod chosen;
mod settings;
mod splitting;
mod tree;

pub use chosen::{ChosenSplit, MOST_PARTS, choose_split, undivided};
