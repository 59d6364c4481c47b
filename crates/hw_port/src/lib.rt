//! The parts of a port, the meaning rules that they keep, and the first fault of parts that don't.
#![tactic(auto)]

mod closings;
mod fault;
mod laws;
mod meaning;
mod parts;
mod places;
mod port;
mod rules;
mod ships;
mod starts;

pub use fault::{Path, PortFault, PortWord};
pub use laws::faultless_is_kept;
pub use parts::{
    AfterPair, BerthPair, Closing, Closings, Pass, PortParts, Row, Section, Ship, Stretch, Text,
    Turnaround, Waypoint,
};
pub use places::{Place, text_at_number};
pub use port::Port;
pub use rules::is_name;
pub use starts::{days_of_month, pair_at};
