//! How a run ends, as a status and as the number that the process ends with.

ghost use Rattle.std.specs.Prelude.{◌≡◌};
ghost use Rattle.hw_command.specs.Statuses.{code_of, status_of, status_of_head, status_of_part, status_of_verdict};
ghost use Rattle.hw_report.specs.Seen.{report_seen};

use hw_cert::Verdict;
use hw_report::{Head, Report};

/// How a run ends.
#[derive(Clone, Copy, PartialEq, Eq)]
pub enum Status {
    /// A best timetable was found.
    Optimal,
    /// No timetable is permitted.
    Infeasible,
    /// The budget was spent.
    Unfinished,
    /// The words are no command.
    Words,
    /// An input is bad.
    BadInput,
    /// A certificate is refused.
    Refused,
    /// A begin or a read failed.
    ReadFault,
    /// A make or a write failed, and nothing more was sent.
    WriteFault,
    /// A limit is passed.
    TooLong,
    /// Memory ran out.
    NoMemory,
}

impl Status {
    /// The number that the process ends with.
    pub fn code(self) -> u8
        ensures { result ≡ code_of self }
    {
        match self {
            Status::Optimal => 0,
            Status::Infeasible => 1,
            Status::Unfinished => 2,
            Status::Words => 3,
            Status::BadInput => 4,
            Status::Refused => 5,
            Status::ReadFault => 6,
            Status::WriteFault => 7,
            Status::TooLong => 8,
            Status::NoMemory => 9,
        }
    }
}

fn status_of_head(head: Head) -> Status
    ensures { result ≡ status_of_head head }
{
    match head {
        Head::Optimal { .. } => Status::Optimal,
        Head::Infeasible => Status::Infeasible,
        Head::Unfinished { .. } => Status::Unfinished,
        Head::Memory => Status::NoMemory,
    }
}

/// How a run ends that says what a certificate shows.
pub fn status_of_verdict(verdict: Verdict) -> Status
    ensures { result ≡ status_of_verdict verdict }
{
    match verdict {
        Verdict::Optimal(_) => Status::Optimal,
        Verdict::Infeasible => Status::Infeasible,
        Verdict::Unfinished(_) => Status::Unfinished,
    }
}

fn status_of_part(is_closed: bool) -> Status
    ensures { result ≡ status_of_part is_closed }
{
    if is_closed {
        Status::Optimal
    } else {
        Status::Unfinished
    }
}

/// How a run ends whose report was sent.
pub fn status_of(report: &Report) -> Status
    ensures { result ≡ status_of (report_seen report.now) }
{
    match *report {
        Report::Solved { head, .. } | Report::Demo { head, .. } => status_of_head(head),
        Report::Checked { verdict, .. } => status_of_verdict(verdict),
        Report::Words { .. } => Status::Words,
        Report::BadFlat { .. }
        | Report::BadJson
        | Report::BadField { .. }
        | Report::BadTides { .. }
        | Report::BadText { .. } => Status::BadInput,
        Report::Refused { .. } => Status::Refused,
        Report::ReadFault { .. } => Status::ReadFault,
        Report::TooLong { .. } => Status::TooLong,
        Report::Memory => Status::NoMemory,
        Report::Clashed { .. } | Report::ClashHolds => Status::Infeasible,
        Report::Met { .. }
        | Report::After { .. }
        | Report::AuditEnd
        | Report::Parts { .. }
        | Report::WholeText { .. } => Status::Optimal,
        Report::Step { .. } | Report::OpenPart { .. } => Status::Unfinished,
        Report::Part { is_closed, .. } => status_of_part(is_closed),
    }
}
