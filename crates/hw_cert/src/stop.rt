//! Why a line of a certificate can't be read, and why no line came.

ghost use Rattle.std.specs.Prelude.{◌≡◌};
ghost use Rattle.hw_cert.specs.declared.stop.LineStop.TheVariants.{NoMemory};

use std::alloc::AllocError;

/// Why a line of a certificate can't be read, in the order of the tests.
#[derive(Clone, Copy)]
pub enum FormWord {
    /// Line 1 isn't the header of a version that the reader takes, `cert 1` or `cert 2` and up to
    /// version 3 `cert 3`, or is missing.
    Header,
    /// The line isn't of one of the forms of its version, a number is above its limit, or the line has
    /// no end.
    Form,
    /// The first bad word is out of range, doesn't ascend, or the count of slots, blocks or weights is
    /// wrong.
    Range,
    /// The first bad word is a literal in range that breaks the normal form.
    Normal,
}

/// Why no line came. Each uses the reader up.
#[derive(Clone, Copy)]
pub enum LineStop {
    /// The line of this number, counted from 1 with the header, is no spelling of a line.
    Form { number: u64, word: FormWord },
    /// A read failed.
    Fault,
    /// The line that comes next has more than 1,048,576 bytes without its end, or ends past 2^40
    /// bytes of the certificate.
    TooLong,
    NoMemory,
}

impl From<AllocError> for LineStop {
    ghost from_gives = { λ _ e. e ≡ NoMemory };

    fn from(_e: AllocError) -> LineStop {
        LineStop::NoMemory
    }
}
