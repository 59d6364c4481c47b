//! The answer to a question about a room: quiet, or a clause.

use crate::clause::Clause;

/// What was found in a room: nothing, or a clause that is not quiet there.
#[derive(Drop)]
pub enum Found {
    Quiet,
    Clause(Clause),
}
