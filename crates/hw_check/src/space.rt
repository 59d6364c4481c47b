//! How much a checker keeps of clauses, live and dead.

/// How much a checker keeps of clauses.
#[derive(Clone, Copy)]
pub struct Space {
    /// The literals of the live clauses.
    pub live_lits: usize,
    /// The live clauses.
    pub live_clauses: usize,
    /// The literals that are kept, those of dead clauses among them.
    pub kept_lits: usize,
    /// The places of clauses that are kept, one for each live clause and for some dead ones.
    pub kept_places: usize,
}
