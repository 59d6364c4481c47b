//! The two kinds of tide tables.

/// What a tide table gives, as the first word of its header says.
#[derive(Clone, Copy)]
pub enum TableKind {
    /// A height in each slot, one after another: `slot`.
    Heights,
    /// High and low waters, with slots between them: `water`.
    Waters,
}
