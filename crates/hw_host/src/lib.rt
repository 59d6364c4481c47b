//! The edge of the program: files and standard output as a desk.
#![tactic(auto)]

mod files;
mod host;
mod output;

pub use files::{FileId, HostFile};
pub use host::HostDesk;
pub use output::Output;
