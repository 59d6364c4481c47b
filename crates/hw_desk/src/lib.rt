//! The outside world as the program sees it: feeds that are read, and trays that are written.
//!
//! What a desk holds, has left and has sent is known to a contract as far as the desk tells it, and a
//! call fails only where one of the desk's two counts of faults rises.
#![tactic(auto)]

mod buffer;
mod calm;
mod desk;
mod feeds;
mod memory;
mod name;
mod sent;
mod slots;
mod whole;
mod writer;

pub use calm::CalmDesk;
pub use desk::{Desk, DeskFailed, Feed, Tray};
pub use feeds::Feeds;
pub use hw_model::NoMemory;
pub use memory::{DeskCall, FailAt, MemoryDesk, failed};
pub use slots::NamedBytes;
pub use whole::{ReadStop, read_whole, write_all};
pub use writer::{TrayWriter, Writer};
