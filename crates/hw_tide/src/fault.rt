//! Why a tide table is refused.

ghost use Rattle.std.specs.Prelude.{◌≡◌};
ghost use Rattle.hw_tide.specs.declared.fault.TideFault.TheVariants.{NoMemory};

use std::alloc::{AllocError, AllocFailed};
use thiserror::Error;

/// The first fault of a tide table. Rows are records, the header being 0; columns are fields.
#[derive(Clone, Copy, Debug, Error)]
pub enum TideFault {
    /// The first column of the header that is wrong, missing or extra.
    #[error("the header is wrong in column {column}")]
    Header { column: u32 },
    /// A record whose number of fields isn't the header's.
    #[error("record {row} has too few or too many fields")]
    Length { row: u64 },
    /// A field that isn't the slot or the height that is wanted there.
    #[error("record {row} is wrong in column {column}")]
    Field { row: u64, column: u32 },
    /// No record comes after the header.
    #[error("there is no record after the header")]
    Few,
    /// Memory ran out.
    #[error("memory was wanting")]
    NoMemory,
}

impl From<AllocError> for TideFault {
    ghost from_gives = { λ _ e. e ≡ NoMemory };

    fn from(_e: AllocError) -> TideFault {
        TideFault::NoMemory
    }
}

impl<T: Drop> From<AllocFailed<T>> for TideFault {
    ghost from_gives = { λ _ e. e ≡ NoMemory };

    fn from(_e: AllocFailed<T>) -> TideFault {
        TideFault::NoMemory
    }
}
