//! The program: from its command line, over files and standard output, to its exit code.
#![tactic(auto)]

mod help;
mod info;
mod laws;
mod words;

use crate::words::end_of;
use hw_host::HostDesk;
use std::env;
use std::process::ExitCode;

fn main(rt: HostRuntime) -> ExitCode {
    let mut desk = HostDesk::new(&rt);
    end_of(rt.alloc(), env::args(&rt), &mut desk)
}
