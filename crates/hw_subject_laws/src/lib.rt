//! Laws of subjects: what is said of them is said in the words of a flat problem, of a port, and of a
//! plan's repair; and what valid lines of a port's flat problem prove by the port's own rules.
//!
//! There is no code. Each law is a public function without a body whose clause is the statement.
#![tactic(auto)]

mod laws;
mod ports;

pub use laws::same_words;
pub use ports::{sound_port_bounds, sound_port_verdict};
