//! Why a line wasn't taken.

ghost use Rattle.std.specs.Prelude.{◌≡◌};
ghost use Rattle.hw_check.specs.declared.stop.CheckStop.TheVariants.{NoMemory};

use hw_cert_lines::Refusal;
use std::alloc::{AllocError, AllocFailed};

/// Why a checker took no line.
#[derive(Clone, Copy, Debug)]
pub enum CheckStop {
    /// The line isn't valid.
    Refused(Refusal),
    NoMemory,
}

impl From<hw_model::NoMemory> for CheckStop {
    ghost from_gives = { λ _ e. e ≡ NoMemory };

    fn from(_e: hw_model::NoMemory) -> CheckStop {
        CheckStop::NoMemory
    }
}
