//! The table of a port's plan as CSV: a header, and a record for each ship by its slot.
//!
//! The text is a function of the port, its tide and a timetable, and takes no memory. A record says of a ship that sails when
//! and with which draft, what limits it and where, its cargo, and when it passes each waypoint.
#![tactic(auto)]

mod field;
mod laws;
mod passes;
mod record;
mod sailing;
mod table;
mod time;

pub use laws::{
    records_are_true, same_columns, ships_in_order, table_reads_back, table_rows, times_are_true,
};
pub use table::put_table;
