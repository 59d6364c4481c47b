//! Why nothing fits, as commands: restrictions that can't be met together are found and checked.
//!
//! A clash is searched in memory, and its certificate is sent whole once it is there. The text of a
//! clash is the same for a flat problem and for a port, whose restrictions `explain port` names.
#![tactic(auto)]

mod asking;
mod checking;
mod laws;
mod part_input;
mod searching;
mod sending;

pub use checking::{CheckedClash, check_clash, part_report, read_checked};
pub use laws::{one_clash_report, texts_decide_clash};
pub use searching::clash;
