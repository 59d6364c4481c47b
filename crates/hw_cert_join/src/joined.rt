//! What comes of certificates that are joined.

use hw_cert_lines::{Line, Verdict};

/// Certificates that were joined: their lines, and what these show.
#[derive(Drop)]
pub struct Joined {
    pub lines: Vec<Line>,
    pub verdict: Verdict,
    /// The last bound, in tenths of a tonne; none where no line shows one.
    pub bound: Option<u64>,
    /// The number of the first part, from 1, that the lines don't close; none where they close each.
    pub first_open: Option<u64>,
}
