//! Why a small text, as that of a plan, gives nothing.

ghost use Rattle.std.specs.Prelude.{◌≡◌};
ghost use Rattle.hw_plan_texts.specs.declared.fault.LineFault.TheVariants.{NoMemory};

use hw_model::NoMemory;
use std::alloc::{AllocError, AllocFailed};

/// Why a text wasn't read. Lines are numbered from 1.
#[derive(Clone, Copy)]
pub enum LineFault<W> {
    /// Its first bad line, and the word for what should have stood there.
    Line { number: u64, word: W },
    NoMemory,
}

impl<W> From<AllocError> for LineFault<W> {
    ghost from_gives = { λ _ e. e ≡ NoMemory };

    fn from(_e: AllocError) -> LineFault<W> {
        LineFault::NoMemory
    }
}

impl<W, T: Drop> From<AllocFailed<T>> for LineFault<W> {
    ghost from_gives = { λ _ e. e ≡ NoMemory };

    fn from(_e: AllocFailed<T>) -> LineFault<W> {
        LineFault::NoMemory
    }
}

impl<W> From<NoMemory> for LineFault<W> {
    ghost from_gives = { λ _ e. e ≡ NoMemory };

    fn from(_e: NoMemory) -> LineFault<W> {
        LineFault::NoMemory
    }
}
