//! The top call: the words of a command line become a command, whose work over a desk ends in a report.
//!
//! The forms of the commands are a table, and each command is read by it. What a command has to do is its
//! task (`task_of`), which `run` carries out by the crate of that command; the laws speak of several runs
//! and of their reports. What every command keeps is said and proved in `hw_command`.
#![tactic(auto)]

mod calm;
mod command;
mod form;
mod laws;
mod report_laws;
mod running;
mod search_laws;
mod usage;
mod wanted;
mod words;

pub use calm::run_calm;
pub use form::{FORMS, Form};
pub use hw_command::Status;
pub use laws::{fault_causes, own_certificate, renewed_certificate, shows_valid};
pub use report_laws::{
    charts_as_checked, charts_as_verified, one_certificate_report, one_chart, one_clash_report,
    one_flat_text, printed_bounds, verified_as_checked,
};
pub use running::run;
pub use search_laws::{own_clash, own_report, own_status, resumed_report, zero_is_usual};
pub use usage::put_usage;
