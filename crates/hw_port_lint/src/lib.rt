//! What is told of an instance and a tide table beside a refusal, and what is likely meant otherwise where both are read.
//!
//! A hint is a line that begins with `hint`. Beside a refusal hints say what the file looks like; they judge its bytes alone.
//! Of a port with its tide they name numbers that look like ones of another unit, and ships for which the table is too short;
//! and waters between which a clock may have been changed.
#![tactic(auto)]

mod clock;
mod doubt;
mod encoding;
mod instance;
mod pieces;
mod port;
mod ships;
mod table;

pub use encoding::{Encoding, encoding_of};
pub use instance::{field_hints, json_hints};
pub use pieces::Piece;
pub use port::lint_text;
pub use table::table_hints;
