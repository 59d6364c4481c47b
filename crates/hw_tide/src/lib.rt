//! Tide tables: the heights of the water at each waypoint in each slot, as they stand in a table
//! or between high and low waters by the rule of twelfths.
#![tactic(auto)]

mod fault;
mod filling;
mod kind;
mod laws;
mod levels;
mod reading;
mod records;
mod table;
mod tide;
mod twelfths;

pub use fault::TideFault;
pub use kind::TableKind;
pub use laws::{fault_told, one_list, some_list, table_told, tide_told};
pub use reading::{read_heights, read_tides, read_waters};
pub use tide::Tide;
