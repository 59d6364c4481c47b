//! Events of a trail, and why they were implied.

use hw_lits::Clause;
use hw_model::{Lit, Source};

/// Why a literal was implied: its clause had this literal Free and all others False.
#[derive(Drop)]
pub enum Why {
    /// The stored lemma of this number, which is the number of its line.
    Lemma { id: u32, clause: Clause },
    /// A clause of the problem's own, which this source refutes when it is denied.
    Source { source: Source, clause: Clause },
    /// A clause that prices on tolls refute when it is denied. Where it is the reason of an event, its
    /// line was written as the event came.
    Priced { clause: Clause },
}

/// A literal that was Free and became true, and by which the room was cut.
#[derive(Drop)]
pub struct Event {
    pub lit: Lit,
    /// How many decisions there were up to this event: 0 before the first one.
    pub level: u32,
    /// None for a decision.
    pub why: Option<Why>,
}
