//! Dates and times: what stands some minutes after a start, and how it is written.
//!
//! The calendar is the one of the texts of `hw_port`: from 1970 on, with no time zones, no summer time and no leap seconds. No
//! call takes memory. A picture's axis writes a day as `weekday_name`, the number of the day and `month_name`.
#![tactic(auto)]

mod date;
mod laws;
mod moment;
mod text;

pub use date::Date;
pub use laws::{
    count_tells, counts_are_exact, date_rows, moments_compose, start_reads_back, text_tells,
};
pub use moment::{Moment, moment_after};
pub use text::{month_name, put_moment, weekday_name};
