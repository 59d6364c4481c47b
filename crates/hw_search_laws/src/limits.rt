//! The limits of a search.

/// Lemmas of a search.
pub const MOST_BUDGET: u32 = 100_000;

/// Literals that clauses of prices imply in a search. Once there are that many, no adviser is asked
/// any more, so that each line of the certificate has a number.
pub const MOST_PRICED: u32 = 1_000_000_000;
