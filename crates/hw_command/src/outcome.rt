//! The outcome of a certificate.

ghost use Rattle.std.specs.Prelude.{◌≡◌};
ghost use Rattle.hw_command.specs.Starting.{shows_nothing, stop_outcome};

use hw_cert::Verdict;
use hw_cert_course::CourseStop;
use hw_report::RefusedWord;

/// The outcome of a certificate, whether its problem is a flat text's or a port's.
#[derive(Clone, Copy)]
pub enum CertOutcome {
    /// All its lines are valid and show this.
    Shows(Verdict),
    /// Its first wrong line, counted from 1 with the header, and the number of a clause or of a toll that the word names.
    Wrong {
        number: u64,
        word: RefusedWord,
        hint: Option<u32>,
    },
    /// After valid lines comes one that passes a limit.
    TooLong,
}

/// Why the outcome of a certificate isn't known.
#[derive(Clone, Copy)]
pub enum CertStop {
    /// A begin or a read failed.
    Fault,
    NoMemory,
}

/// Whether an outcome is that of a certificate that is refused.
pub fn shows_nothing(outcome: CertOutcome) -> bool
    ensures { result ≡ shows_nothing outcome }
{
    match outcome {
        CertOutcome::Shows(_) => false,
        CertOutcome::Wrong { .. } | CertOutcome::TooLong => true,
    }
}

/// Why lines don't go on, told as of a certificate: the first one that isn't taken, or no memory.
pub fn stop_outcome(stop: CourseStop) -> Result<CertOutcome, CertStop>
    ensures { result ≡ stop_outcome stop }
{
    match stop {
        CourseStop::Refused { number, refusal } => Ok(CertOutcome::Wrong {
            number,
            word: RefusedWord::Check(refusal.word),
            hint: refusal.hint,
        }),
        CourseStop::NoMemory => Err(CertStop::NoMemory),
    }
}
