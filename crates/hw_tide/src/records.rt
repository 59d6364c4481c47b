//! The records of a text, one by one.

ghost use Rattle.std.specs.Prelude.{◌≡◌, ◌<◌, IfOk, OnSome, true};
ghost use Rattle.csv.specs.Reading.{error_kind, owned_rows_left, stops_reader, strip_bom};
ghost use Rattle.csv.specs.declared.parser.State.TheVariants as st;
ghost use Rattle.hw_tide.specs.declared.fault.TideFault.TheVariants.{NoMemory};
ghost use Rattle.hw_tide.specs.Coming.{IsAt, IsReading, Takes};

use crate::fault::TideFault;
use csv::{ByteRecord, ByteRecordsIntoIter, Error, ReaderBuilder};
use std::alloc::Global;

/// The records of a text that are still to come. No other is held.
pub type Records<'t> = ByteRecordsIntoIter<&'t [u8]>;

/// The records of a whole text, however many fields each has.
pub fn records_of(alloc: Global, text: &[u8]) -> Records<'_>
    ensures { IsAt result st.StartRecord (strip_bom text.now) }
{
    ReaderBuilder::new()
        .has_headers(false)
        .flexible(true)
        .from_reader(alloc, text)
        .into_byte_records()
}

/// Takes the next record, if one is left. After an error there are no more.
pub fn next_record(records: &mut Records<'_>) -> Result<Option<ByteRecord>, TideFault>
    requires { IsReading records.old }
    ensures takes { Takes records.old result records.new }
    ensures fewer { IfOk result (λ taken. OnSome taken (owned_rows_left records.new < owned_rows_left records.old)) }
{
    match records.next() {
        None => Ok(None),
        Some(Ok(record)) => Ok(Some(record)),
        Some(Err(error)) => Err(stopped(&error)),
    }
}

/// What is left of an error of `csv` over bytes in memory: memory ran out, or, as its clauses leave
/// open, a read of the bytes failed. No other one comes here.
fn stopped(error: &Error) -> TideFault
    requires { stops_reader (error_kind error.now) ≡ true }
    ensures { result ≡ NoMemory }
{
    let _kind = error.kind();
    TideFault::NoMemory
}
