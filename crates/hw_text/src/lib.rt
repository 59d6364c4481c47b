//! The parts of a text: lines, words and numbers, each with one spelling.
//!
//! A line is a run of bytes other than LF, ended by LF. Words in a line are separated by exactly one
//! space. A number is decimal digits without a leading zero, and a signed number may have one `-`
//! in front of a number other than 0.
#![tactic(auto)]

mod laws;
mod numbers;
mod parts;
mod words;
mod writing;

pub use laws::{ended_lines_cut, number_spelled, parts_joined, signed_spelled};
pub use numbers::{read_number, read_signed, read_small};
pub use parts::{cut, cut_line, is_end, is_text};
pub use words::Words;
pub use writing::{put_number, put_signed, put_spaced};
