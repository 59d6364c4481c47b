//! Where a clause stands in the list of all literals.

/// Where the literals of a clause stand in a list of the literals of many.
#[derive(Clone, Copy)]
pub(crate) struct Place {
    /// The number of the clause's line.
    pub(crate) id: u32,
    pub(crate) start: usize,
    pub(crate) len: usize,
    pub(crate) is_live: bool,
}
