//! Reading a plan, and the events that happened since.

ghost use Rattle.std.specs.Prelude.{◌≡◌, ◌<◌, All, IfOk, false, length};
ghost use Rattle.hw_model.specs.Limits.{ShapeFits};
ghost use Rattle.hw_audit.specs.Text.{events_text, timetable_of_text};
ghost use Rattle.hw_report.specs.Printing.{CanPrint};
ghost use Rattle.hw_report.specs.Seen.{report_seen};
ghost use Rattle.hw_command_audit.specs.Reading.{ReadsText, report_of_text, stop_of_text};

use hw_audit::{AuditWord, Events, TextFault, read_events, read_table};
use hw_command::{read_input, stopped};
use hw_desk::{Desk, Feed, ReadStop};
use hw_flat::Timetable;
use hw_model::Shape;
use hw_report::Report;
use std::alloc::Global;

/// Why a text gives nothing.
#[derive(Clone, Copy)]
pub(crate) enum TextStop {
    /// It couldn't be read to its end.
    Input(ReadStop),
    /// Its first bad line, or the line of the first event that is refused, counted from 1.
    Line { number: u64, word: AuditWord },
}

/// Why bytes hold no timetable or no events.
fn bad_text(fault: TextFault) -> TextStop
    ensures { result ≡ stop_of_text fault }
{
    match fault {
        TextFault::Line { number, word } => TextStop::Line { number, word },
        TextFault::NoMemory => TextStop::Input(ReadStop::NoMemory),
    }
}

/// Begins the plan under its name, reads it to its end, and reads from it a timetable with these
/// numbers of ships and slots.
pub(crate) fn read_plan<D: Desk>(
    alloc: Global,
    desk: &mut D,
    name: &str,
    shape: Shape,
) -> Result<Timetable, TextStop>
    requires fits { ShapeFits shape }
    requires unread { ((D.state desk.old).feeds Feed.Plan).begun ≡ false }
    ensures reads { ReadsText Feed.Plan (timetable_of_text shape) name.now (D.state desk.old) (D.state desk.new) result }
    ensures each_ship { IfOk result (λ table. length table ≡ shape.ships) }
    ensures each_slot { IfOk result (λ table. All (λ slot. slot < shape.slots) table) }
{
    let bytes = match read_input(alloc, desk, Feed::Plan, name) {
        Ok(bytes) => bytes,
        Err(stop) => return Err(TextStop::Input(stop)),
    };
    match read_table(alloc, &bytes, shape) {
        Ok(table) => Ok(table),
        Err(fault) => Err(bad_text(fault)),
    }
}

/// Begins the events under their name, reads them to their end, and parses them.
pub(crate) fn read_happened<D: Desk>(
    alloc: Global,
    desk: &mut D,
    name: &str,
) -> Result<Events, TextStop>
    requires unread { ((D.state desk.old).feeds Feed.Events).begun ≡ false }
    ensures reads { ReadsText Feed.Events events_text name.now (D.state desk.old) (D.state desk.new) result }
{
    let bytes = match read_input(alloc, desk, Feed::Events, name) {
        Ok(bytes) => bytes,
        Err(stop) => return Err(TextStop::Input(stop)),
    };
    match read_events(alloc, &bytes) {
        Ok(events) => Ok(events),
        Err(fault) => Err(bad_text(fault)),
    }
}

/// The report of a text that gives nothing.
pub(crate) fn no_text(feed: Feed, stop: TextStop) -> Report<'static>
    ensures value { report_seen result ≡ report_of_text feed stop }
    ensures printed { CanPrint (report_seen result) }
{
    match stop {
        TextStop::Input(stop) => stopped(feed, stop),
        TextStop::Line { number, word } => Report::BadText {
            feed,
            number,
            word: word.text(),
        },
    }
}
