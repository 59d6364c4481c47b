//! Finds prices on tolls by which ships earn little in a room, so that little can be carried there.
//!
//! In the field's words: the Lagrangian dual of the problem, by a deflected subgradient method with Polyak's steps in whole
//! numbers. The relaxed constraints, the rows, are valid inequalities (tolls): candidates of `hw_price_cuts`, and cuts that it
//! separates on the way. A price is a multiplier, a ship with its best slot a subproblem, and what all ships earn with what
//! the prices give back a bound. See M. L. Fisher, "The Lagrangian Relaxation Method for Solving Integer Programming
//! Problems", Management Science 27, 1981; `course.rt` and `row_states.rt` name the sources of the steps and of the
//! directions.
//!
//! Prices and earnings are counted in parts, of which `SCALE` make a tenth of a tonne. Slots count from 0, and a range has its
//! first and its last slot.
//!
//! Nothing is promised of the numbers: it is safe and ends. Whoever answers by them tests the answer.
#![tactic(auto)]

mod course;
mod pricer;
mod rounds;
mod row_states;
mod rows;
mod settings;
mod subproblems;
mod table;
mod workshop;

pub use course::{Course, goal, near};
pub use pricer::{Pricer, price_at};
pub use rounds::{add_tolls, find_prices};
pub use rows::Row;
pub use settings::{FULL_PACE, ROOM_PACE, SCALE};
pub use table::Table;
pub use workshop::Workshop;
