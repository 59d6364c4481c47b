//! What every command keeps: its inputs, a certificate that is checked or written, and its end.
//!
//! A command is a function over a desk, with names and numbers as arguments. What it touches, the
//! causes of its faults and how its reports are sent are said and proved here once. What its answer
//! says stands in a file of the command's own.
#![tactic(auto)]

mod cert;
mod ending;
mod finishing;
mod input;
mod outcome;
mod port_input;
mod sending;
mod starting;
mod status;
mod taking;

pub use cert::{ReadCert, check_report, read_cert};
pub use ending::Ending;
pub use finishing::finish;
pub use input::{read_flat, read_input, stopped};
pub use outcome::{CertOutcome, CertStop, shows_nothing, stop_outcome};
pub use port_input::{PortNames, PortProblem, read_port_problem};
pub use sending::send_lines;
pub use starting::read_start;
pub use status::{Status, status_of, status_of_verdict};
pub use taking::{LastTable, LineTaker};
