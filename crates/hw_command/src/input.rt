//! Reading an input.

ghost use Rattle.std.specs.Prelude.{◌≡◌, IfErr, IfOk, false};
ghost use Rattle.hw_command.specs.Inputs.{ReadsFlat, ReadsInput, StopsAtFlat, report_of_fault, report_of_stop};
ghost use Rattle.hw_report.specs.Printing.{CanPrint};
ghost use Rattle.hw_report.specs.Seen.{report_seen};

use hw_desk::{Desk, Feed, ReadStop, read_whole};
use hw_flat::{Flat, FlatFault};
use hw_report::Report;
use std::alloc::Global;

/// The most bytes of a feed other than the certificate.
const MOST_BYTES: u64 = 4_194_304;

/// Begins an input under its name and reads it to its end.
pub fn read_input<D: Desk>(
    alloc: Global,
    desk: &mut D,
    feed: Feed,
    name: &str,
) -> Result<Vec<u8>, ReadStop>
    requires { ((D.state desk.old).feeds feed).begun ≡ false }
    ensures { ReadsInput feed name.now (D.state desk.old) (D.state desk.new) result }
{
    if desk.begin(feed, name).is_err() {
        return Err(ReadStop::Fault);
    }
    read_whole(alloc, desk, feed, MOST_BYTES)
}

/// Begins the flat text under its name, reads it to its end and parses it. An error is the report of
/// why there is no problem.
pub fn read_flat<D: Desk>(alloc: Global, desk: &mut D, name: &str) -> Result<Flat, Report<'static>>
    requires { ((D.state desk.old).feeds Feed.Flat).begun ≡ false }
    ensures flat { IfOk result (λ flat. ReadsFlat name.now (D.state desk.old) (D.state desk.new) flat) }
    ensures no_flat { IfErr result (λ report. StopsAtFlat name.now (D.state desk.old) (D.state desk.new) (report_seen report)) }
    ensures printed { IfErr result (λ report. CanPrint (report_seen report)) }
{
    let bytes = match read_input(alloc, desk, Feed::Flat, name) {
        Ok(bytes) => bytes,
        Err(stop) => return Err(stopped(Feed::Flat, stop)),
    };
    match Flat::read(alloc, &bytes) {
        Ok(flat) => {
            // The call shows that the problem is within the limits.
            let _shape = flat.shape();
            Ok(flat)
        }
        Err(fault) => Err(bad_text(fault)),
    }
}

/// The report of an input that isn't read to its end.
pub fn stopped(feed: Feed, stop: ReadStop) -> Report<'static>
    ensures value { report_seen result ≡ report_of_stop feed stop }
    ensures printed { CanPrint (report_seen result) }
{
    match stop {
        ReadStop::Fault => Report::ReadFault { feed },
        ReadStop::TooLong => Report::TooLong { feed },
        ReadStop::NoMemory => Report::Memory,
    }
}

/// The report of bytes that give no problem.
fn bad_text(fault: FlatFault) -> Report<'static>
    ensures value { report_seen result ≡ report_of_fault fault }
    ensures printed { CanPrint (report_seen result) }
{
    match fault {
        FlatFault::Line { number, word } => Report::BadFlat { number, word },
        FlatFault::NoMemory => Report::Memory,
    }
}
