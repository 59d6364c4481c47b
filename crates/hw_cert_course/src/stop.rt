//! Why a course takes no more lines.

ghost use Rattle.std.specs.Prelude.{◌≡◌};
ghost use Rattle.hw_cert_course.specs.declared.stop.CourseStop.TheVariants.{NoMemory};

use hw_cert_lines::Refusal;
use std::alloc::AllocFailed;

/// Why a course takes no more lines.
#[derive(Clone, Copy)]
pub enum CourseStop {
    /// The checker refused a line, which would have had this number in the certificate, counted from 1
    /// with the header.
    Refused { number: u64, refusal: Refusal },
    NoMemory,
}

impl<T: Drop> From<AllocFailed<T>> for CourseStop {
    ghost from_gives = { λ _ e. e ≡ NoMemory };

    fn from(_e: AllocFailed<T>) -> CourseStop {
        CourseStop::NoMemory
    }
}

impl From<hw_model::NoMemory> for CourseStop {
    ghost from_gives = { λ _ e. e ≡ NoMemory };

    fn from(_e: hw_model::NoMemory) -> CourseStop {
        CourseStop::NoMemory
    }
}
