//! Reading a clash text, and the part of the problem that it keeps.

ghost use Rattle.std.specs.Prelude.{◌≡◌, IfErr, IfOk, false};
ghost use Rattle.hw_report.specs.Printing.{CanPrint};
ghost use Rattle.hw_report.specs.Seen.{report_seen};
ghost use Rattle.hw_command_clash.specs.Inputs.{ReadsPart, StopsAtPart, report_of_clash_fault};

use hw_clash::{ClashFault, ClashText, WishedFlat, part, read_clash};
use hw_command::{read_input, stopped};
use hw_desk::{Desk, Feed};
use hw_flat::Flat;
use hw_report::Report;
use std::alloc::Global;

/// A clash that was read, and the part of the problem that keeps its restrictions.
#[derive(Drop)]
pub struct Part {
    pub clash: ClashText,
    pub flat: Flat,
}

/// Begins the clash text as this input under its name, reads it to its end, and makes the part of the
/// problem that keeps its restrictions. An error is the report of why there is none.
pub fn read_part<D: Desk>(
    alloc: Global,
    desk: &mut D,
    wished: &WishedFlat,
    feed: Feed,
    name: &str,
) -> Result<Part, Report<'static>>
    requires unread { ((D.state desk.old).feeds feed).begun ≡ false }
    ensures part { IfOk result (λ made. ReadsPart feed wished.now name.now (D.state desk.old) (D.state desk.new) made) }
    ensures no_part { IfErr result (λ report. StopsAtPart feed wished.now name.now (D.state desk.old) (D.state desk.new) (report_seen report)) }
    ensures printed { IfErr result (λ report. CanPrint (report_seen report)) }
{
    let bytes = match read_input(alloc, desk, feed, name) {
        Ok(bytes) => bytes,
        Err(stop) => return Err(stopped(feed, stop)),
    };
    let clash = match read_clash(alloc, &bytes, wished) {
        Ok(clash) => clash,
        Err(fault) => return Err(bad_clash(feed, fault)),
    };
    match part(alloc, wished, &clash.kept) {
        Ok(flat) => {
            // The call shows that the part is within the limits.
            let _shape = flat.shape();
            Ok(Part { clash, flat })
        }
        Err(_) => Err(Report::Memory),
    }
}

/// The report of bytes that are no clash of the problem.
fn bad_clash(feed: Feed, fault: ClashFault) -> Report<'static>
    ensures value { report_seen result ≡ report_of_clash_fault feed fault }
    ensures printed { CanPrint (report_seen result) }
{
    match fault {
        ClashFault::Line { number, word } => Report::BadText {
            feed,
            number,
            word: word.text(),
        },
        ClashFault::NoMemory => Report::Memory,
    }
}
