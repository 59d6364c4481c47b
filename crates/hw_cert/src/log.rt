//! Where the lines of a certificate are handed, one by one.

ghost use Rattle.std.specs.Prelude.{◌≡◌};
ghost use Rattle.hw_cert.specs.declared.log.LogStop.TheVariants.{NoMemory};
ghost use Rattle.hw_cert.specs.Logs.{LogAnchor, LogModel, IsWhole, TakesLine};

use hw_cert_lines::Line;
use std::alloc::AllocFailed;

/// Why a log did not take a line.
#[derive(Clone, Copy)]
pub enum LogStop {
    /// A write failed: a proper prefix of the line's text follows the lines.
    Failed,
    /// Memory ran out: nothing was added.
    NoMemory,
}

impl<T: Drop> From<AllocFailed<T>> for LogStop {
    ghost from_gives = { λ _ e. e ≡ NoMemory };

    fn from(_e: AllocFailed<T>) -> LogStop {
        LogStop::NoMemory
    }
}

impl From<hw_model::NoMemory> for LogStop {
    ghost from_gives = { λ _ e. e ≡ NoMemory };

    fn from(_e: hw_model::NoMemory) -> LogStop {
        LogStop::NoMemory
    }
}

/// A log of lines.
///
/// Its lines and the bytes after them are told together, or not. After `Failed` the lines are as they
/// were, and the line that failed is the one of this call.
pub trait Log {
    /// The lines so far, the bytes after them, and how often the log has failed.
    ghost state: { Self → LogModel };

    /// The borrow that the log holds and all that is outside it, which no call changes.
    ghost anchor: { Self → LogAnchor };

    /// Adds a line.
    fn line(&mut self, line: &Line) -> Result<(), LogStop>
        requires whole { IsWhole (state self.old) }
        ensures takes { TakesLine line.now (state self.old) (state self.new) result }
        ensures same_reference { anchor self.new ≡ anchor self.old };
}
