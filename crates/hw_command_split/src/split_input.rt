//! Reading a split, and a part of it.

ghost use Rattle.std.specs.Prelude.{◌≡◌, IfErr, IfOk, false};
ghost use Rattle.hw_model.specs.Problem.{shape_of};
ghost use Rattle.hw_report.specs.Printing.{CanPrint};
ghost use Rattle.hw_report.specs.Seen.{report_seen};
ghost use Rattle.hw_split_text.specs.Splits.{IsSplit};
ghost use Rattle.hw_command_split.specs.Parts.{IsPartRoom, NoPartRoom};
ghost use Rattle.hw_command_split.specs.Splits.{ReadsSplit, StopsAtSplit, report_of_split};

use hw_command::{read_input, stopped};
use hw_desk::{Desk, Feed};
use hw_flat::{Flat, Room};
use hw_report::Report;
use hw_split_text::{Split, SplitFault, SplitWord, literals_of, read_split, room_of};
use std::alloc::Global;

/// Begins the split under its name, reads it to its end and parses it, as one of the problem. An error
/// is the report of why there is none.
pub(crate) fn read_split_input<D: Desk>(
    alloc: Global,
    desk: &mut D,
    flat: &Flat,
    name: &str,
) -> Result<Split, Report<'static>>
    requires unread { ((D.state desk.old).feeds Feed.Split).begun ≡ false }
    ensures split { IfOk result (λ split. ReadsSplit flat.now name.now (D.state desk.old) (D.state desk.new) split) }
    ensures no_split { IfErr result (λ report. StopsAtSplit flat.now name.now (D.state desk.old) (D.state desk.new) (report_seen report)) }
    ensures printed { IfErr result (λ report. CanPrint (report_seen report)) }
{
    let bytes = match read_input(alloc, desk, Feed::Split, name) {
        Ok(bytes) => bytes,
        Err(stop) => return Err(stopped(Feed::Split, stop)),
    };
    match read_split(alloc, &bytes, flat) {
        Ok(split) => Ok(split),
        Err(fault) => Err(bad_split(fault)),
    }
}

/// The report of bytes that are no split of the problem.
fn bad_split(fault: SplitFault) -> Report<'static>
    ensures value { report_seen result ≡ report_of_split fault }
    ensures printed { CanPrint (report_seen result) }
{
    match fault {
        SplitFault::Line { number, word } => Report::BadText {
            feed: Feed::Split,
            number,
            word: word.text(),
        },
        SplitFault::NoMemory => Report::Memory,
    }
}

/// The room of the part of this number. Where the split has fewer parts, an error says that its last
/// line lacks the part.
pub(crate) fn part_room(
    alloc: Global,
    flat: &Flat,
    split: &Split,
    number: u32,
) -> Result<Room, Report<'static>>
    requires split { IsSplit (shape_of flat.now) split.now }
    ensures room { IfOk result (IsPartRoom flat.now split.now number) }
    ensures no_room { IfErr result (λ report. NoPartRoom split.now number (report_seen report)) }
    ensures printed { IfErr result (λ report. CanPrint (report_seen report)) }
{
    match literals_of(alloc, split, number) {
        Ok(Some(branch)) => match room_of(alloc, flat.shape(), &branch) {
            Ok(room) => Ok(room),
            Err(_) => Err(Report::Memory),
        },
        Ok(None) => Err(Report::BadText {
            feed: Feed::Split,
            number: split.nodes.len() as u64 + 2,
            word: SplitWord::Node.text(),
        }),
        Err(_) => Err(Report::Memory),
    }
}
