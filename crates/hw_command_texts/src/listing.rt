//! A text of what was read is sent.

ghost use Rattle.std.specs.Prelude.{◌≡◌, ◌∷◌, [], option_map};
ghost use Rattle.hw_desk.specs.Whole.{SendsText};
ghost use Rattle.hw_desk.specs.Writers.{Puts};
ghost use Rattle.hw_report.specs.Printing.{CanPrint};
ghost use Rattle.hw_report.specs.Reports.{whole_text};
ghost use Rattle.hw_report.specs.Seen.{report_seen};
ghost use Rattle.hw_command.specs.Ends.{Ends};
ghost use Rattle.hw_subject.specs.Reading.{naming_of};
ghost use Rattle.hw_command_texts.specs.Listed.{CanList, HasTable, text_report, listing_text};
ghost use Rattle.hw_command_texts.specs.Listings.{programme_text};
ghost use Rattle.hw_command_texts.specs.Tables.{listing_table};

use hw_command::{Status, finish};
use hw_desk::{Desk, DeskFailed, Tray, TrayWriter, Writer};
use hw_flat::{Flat, Timetable};
use hw_flat_programme::{Format, put_model, put_opb};
use hw_model::NoMemory;
use hw_port::Port;
use hw_port_csv::put_table;
use hw_port_windows::put_windows;
use hw_report::Report;
use hw_subject::Named;
use hw_tide::Tide;

/// What is listed without memory.
#[derive(Clone, Copy)]
pub(crate) enum Listing<'g> {
    /// When each ship of a port may sail.
    Windows {
        port: &'g Port,
        tide: &'g Tide,
    },
    /// The linear programme of a problem.
    Model {
        flat: &'g Flat,
        format: Format,
    },
    /// The table of a port's plan, with a timetable or none.
    Table {
        named: &'g Named,
        table: Option<&'g Timetable>,
    },
}

/// Sends it piece by piece. Returns `Optimal`, or `WriteFault` if a write failed.
pub(crate) fn list<D: Desk>(desk: &mut D, listing: Listing) -> Status
    requires { CanList listing }
    ensures { Ends (whole_text (listing_text listing.entry) ∷ []) (D.state desk.old) (D.state desk.new) result }
{
    match send_listing(desk, listing) {
        Ok(()) => Status::Optimal,
        Err(_) => Status::WriteFault,
    }
}

/// Sends a text that was made in memory, or reports that it ran out.
pub(crate) fn list_held<D: Desk>(desk: &mut D, text: &Result<Vec<u8>, NoMemory>) -> Status
    ensures { Ends (text_report text.now ∷ []) (D.state desk.old) (D.state desk.new) result }
{
    match text {
        Ok(text) => finish(desk, &whole_report(text)),
        Err(_) => finish(desk, &Report::Memory),
    }
}

/// The report that is a text.
pub(crate) fn whole_report(text: &[u8]) -> Report
    ensures value { report_seen result ≡ whole_text text.now }
    ensures printed { CanPrint (report_seen result) }
{
    Report::WholeText { text }
}

/// Sends its text. It takes no memory.
pub(crate) fn send_listing<D: Desk>(desk: &mut D, listing: Listing) -> Result<(), DeskFailed>
    requires { CanList listing }
    ensures { SendsText Tray.Report (listing_text listing.entry) (D.state desk.old) (D.state desk.new) result }
{
    let mut out = TrayWriter::new(desk, Tray::Report);
    put_listing(&mut out, listing);
    out.flush()
}

/// Puts its text. It takes no memory.
fn put_listing<W: Writer>(out: &mut W, listing: Listing)
    requires { CanList listing }
    ensures { Puts (listing_text listing.entry) (W.state out.old) (W.state out.new) }
{
    match listing {
        Listing::Windows { port, tide } => put_windows(out, port, tide),
        Listing::Model { flat, format } => put_programme(out, flat, format),
        Listing::Table { named, table } => put_plan(out, named, table),
    }
}

/// Puts the linear programme of a problem.
fn put_programme<W: Writer>(out: &mut W, flat: &Flat, format: Format)
    ensures { Puts (programme_text format flat.now) (W.state out.old) (W.state out.new) }
{
    match format {
        Format::Lp => put_model(out, flat),
        Format::Opb => put_opb(out, flat),
    }
}

/// Puts the table of a port's plan; of a flat text nothing.
fn put_plan<W: Writer>(out: &mut W, named: &Named, table: Option<&Timetable>)
    requires { HasTable named.now }
    ensures { Puts (listing_table (naming_of named.now) (option_map (λ table. table.now) table.entry)) (W.state out.old) (W.state out.new) }
{
    match named {
        Named::ByNumber => out.put(b""),
        Named::ByName { port, tide } => match table {
            Some(table) => put_table(out, port, tide, Some(table.as_slice())),
            None => put_table(out, port, tide, None),
        },
    }
}
