//! Flat problems, their timetables and their rooms.
//!
//! A value of `Flat` keeps the limits of a flat problem, and a `Room` never has an empty range.
#![tactic(auto)]

mod demo;
mod fault;
mod flat;
mod forms;
mod hours;
mod laws;
mod reading;
mod room;
mod rules;
mod timetable;
mod writing;

pub use demo::make_demo;
pub use fault::{FlatFault, FlatWord};
pub use flat::Flat;
pub use hw_model::{
    Hole, Holes, Job, Jobs, NoMemory, Order, Rule, Shape, ShipId, Slot, Source, Step, Steps,
};
pub use laws::{one_text, reads_back};
pub use room::Room;
pub use timetable::{Timetable, is_timetable};
