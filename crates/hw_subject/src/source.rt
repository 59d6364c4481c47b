//! What a plan is made for: a flat text, or a port.

use hw_command::PortNames;
use hw_port::Port;
use hw_tide::Tide;

/// The names under which a flat text, or a port with its tides, is begun.
#[derive(Clone, Copy)]
pub enum Source<'n> {
    Flat { name: &'n str },
    Port { names: PortNames<'n> },
}

/// By what ships are named in reports: by their numbers, or by a port's names.
#[derive(Drop)]
pub enum Named {
    ByNumber,
    ByName { port: Port, tide: Tide },
}
