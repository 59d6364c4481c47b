//! Reading a port: its instance, its tide table, and its flat problem.

ghost use Rattle.std.specs.Prelude.{◌≡◌, IfErr, IfOk, false};
ghost use Rattle.hw_desk.specs.State.{IsNewDesk};
ghost use Rattle.hw_command.specs.PortInputs.{ReadsInstance, ReadsNamed, ReadsTide, StopsNamed, report_of_instance, report_of_tide, stop_of_instance, stop_of_tide};
ghost use Rattle.hw_report.specs.Printing.{CanPrint};
ghost use Rattle.hw_report.specs.Seen.{report_seen};

use crate::input::{read_input, stopped};
use hw_desk::{Desk, Feed, ReadStop};
use hw_draft::flatten;
use hw_flat::Flat;
use hw_port::{Port, PortFault};
use hw_read::{ReadFault, read_port};
use hw_report::Report;
use hw_tide::{Tide, TideFault, read_tides};
use std::alloc::Global;

/// The names under which a port's instance and its tide table are begun.
#[derive(Clone, Copy)]
pub struct PortNames<'n> {
    pub instance: &'n str,
    pub tides: &'n str,
}

/// Why there is no port.
#[derive(Clone, Copy)]
pub enum InstanceStop {
    /// The instance wasn't read to its end.
    Input(ReadStop),
    /// It is no JSON text.
    NotJson,
    /// Its first fault, of form or of meaning.
    Field(PortFault),
}

/// Why there is no tide.
#[derive(Clone, Copy)]
pub enum TideStop {
    /// The table wasn't read to its end.
    Input(ReadStop),
    /// Its first fault, other than out of memory.
    Table(TideFault),
}

/// A port with its tide, and its flat problem.
#[derive(Drop)]
pub struct PortProblem {
    pub port: Port,
    pub tide: Tide,
    pub flat: Flat,
}

/// Reads the instance and then its tide table, each begun under its name, and makes the flat problem
/// of the port. An error is the report of why there is none.
pub fn read_port_problem<D: Desk>(
    alloc: Global,
    desk: &mut D,
    names: PortNames,
) -> Result<PortProblem, Report<'static>>
    requires { IsNewDesk (D.state desk.old) }
    ensures problem { IfOk result (λ read. ReadsNamed names.entry (D.state desk.old) (D.state desk.new) read) }
    ensures no_problem { IfErr result (λ report. StopsNamed names.entry (D.state desk.old) (D.state desk.new) (report_seen report)) }
    ensures printed { IfErr result (λ report. CanPrint (report_seen report)) }
{
    let port = match read_instance(alloc, desk, names.instance) {
        Ok(port) => port,
        Err(stop) => return Err(no_port(stop)),
    };
    let tide = match read_table(alloc, desk, &port, names.tides) {
        Ok(tide) => tide,
        Err(stop) => return Err(no_tide(stop)),
    };
    match flatten(alloc, &port, &tide) {
        Ok(flat) => {
            // The call shows that the problem is within the limits.
            let _shape = flat.shape();
            Ok(PortProblem { port, tide, flat })
        }
        Err(_) => Err(Report::Memory),
    }
}

/// Why bytes give no port.
fn bad_instance(fault: ReadFault) -> InstanceStop
    ensures { result ≡ stop_of_instance fault }
{
    match fault {
        ReadFault::NotJson => InstanceStop::NotJson,
        ReadFault::Field(fault) => InstanceStop::Field(fault),
        ReadFault::NoMemory => InstanceStop::Input(ReadStop::NoMemory),
    }
}

/// Why bytes give no tide.
fn bad_table(fault: TideFault) -> TideStop
    ensures { result ≡ stop_of_tide fault }
{
    match fault {
        TideFault::NoMemory => TideStop::Input(ReadStop::NoMemory),
        _ => TideStop::Table(fault),
    }
}

/// Begins the instance under its name, reads it to its end, and reads the port from it.
fn read_instance<D: Desk>(alloc: Global, desk: &mut D, name: &str) -> Result<Port, InstanceStop>
    requires { ((D.state desk.old).feeds Feed.Instance).begun ≡ false }
    ensures { ReadsInstance name.now (D.state desk.old) (D.state desk.new) result }
{
    let bytes = match read_input(alloc, desk, Feed::Instance, name) {
        Ok(bytes) => bytes,
        Err(stop) => return Err(InstanceStop::Input(stop)),
    };
    match read_port(alloc, &bytes) {
        Ok(port) => {
            // The call shows that the port keeps the meaning rules.
            let _parts = port.parts();
            Ok(port)
        }
        Err(fault) => Err(bad_instance(fault)),
    }
}

/// Begins the tide table under its name, reads it to its end, and reads the port's tide from it.
fn read_table<D: Desk>(
    alloc: Global,
    desk: &mut D,
    port: &Port,
    name: &str,
) -> Result<Tide, TideStop>
    requires { ((D.state desk.old).feeds Feed.Tides).begun ≡ false }
    ensures { ReadsTide port.now name.now (D.state desk.old) (D.state desk.new) result }
{
    let bytes = match read_input(alloc, desk, Feed::Tides, name) {
        Ok(bytes) => bytes,
        Err(stop) => return Err(TideStop::Input(stop)),
    };
    match read_tides(alloc, &bytes, port) {
        Ok(tide) => {
            // Reading a field shows that the tide is within its limits.
            let _rows = tide.rows;
            Ok(tide)
        }
        Err(fault) => Err(bad_table(fault)),
    }
}

/// The report of an instance that gives no port.
fn no_port(stop: InstanceStop) -> Report<'static>
    ensures value { report_seen result ≡ report_of_instance stop }
    ensures printed { CanPrint (report_seen result) }
{
    match stop {
        InstanceStop::Input(stop) => stopped(Feed::Instance, stop),
        InstanceStop::NotJson => Report::BadJson,
        InstanceStop::Field(fault) => Report::BadField { fault },
    }
}

/// The report of a table that gives no tide.
fn no_tide(stop: TideStop) -> Report<'static>
    ensures value { report_seen result ≡ report_of_tide stop }
    ensures printed { CanPrint (report_seen result) }
{
    match stop {
        TideStop::Input(stop) => stopped(Feed::Tides, stop),
        TideStop::Table(fault) => Report::BadTides { fault },
    }
}
