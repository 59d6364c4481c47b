//! Why a text is no flat problem.

ghost use Rattle.std.specs.Prelude.{◌≡◌};
ghost use Rattle.hw_flat.specs.declared.fault.FlatFault.TheVariants.{NoMemory};

use std::alloc::{AllocError, AllocFailed};
use thiserror::Error;

/// What was demanded at the first bad line.
#[derive(Clone, Copy, Debug)]
pub enum FlatWord {
    /// The first line, `flat` and a number from 1 to 4.
    Header,
    /// The numbers of ships and slots.
    Size,
    /// The values of a ship.
    Values,
    /// A rule or `end`; under `flat 3` and `flat 4` `end` comes after a rule that needs hours.
    Rule,
    /// `end`, since the greatest number of rules came before.
    Many,
    /// The end of the text.
    Tail,
}

/// Why `Flat::read` gave no problem. Lines are numbered from 1.
#[derive(Clone, Copy, Debug, Error)]
pub enum FlatFault {
    #[error("line {number} is bad: {word:?}")]
    Line { number: u64, word: FlatWord },
    #[error("out of memory")]
    NoMemory,
}

impl From<AllocError> for FlatFault {
    ghost from_gives = { λ _ e. e ≡ NoMemory };

    fn from(_e: AllocError) -> FlatFault {
        FlatFault::NoMemory
    }
}

impl<T: Drop> From<AllocFailed<T>> for FlatFault {
    ghost from_gives = { λ _ e. e ≡ NoMemory };

    fn from(_e: AllocFailed<T>) -> FlatFault {
        FlatFault::NoMemory
    }
}
