//! Timetables made from what ships earn: one ship after another, then better slots for single ships, then
//! a better slot for one ship with others moved out of its way.
//!
//! Nothing is promised of them. Whoever takes one tests it.
#![tactic(auto)]

mod bans;
mod climbing;
mod draft;
mod given;
mod holds;
mod maker;
mod ranking;

pub use maker::Maker;
pub use ranking::Ranking;
