//! Files of cases, read line by line.

use crate::case::Case;
use crate::runner::Runner;
use crate::stop::Stop;
use hw_desk::NoMemory;
use std::alloc::Global;
use std::io::{BufRead, BufReader, Write};
use std::{env, fs, io};

/// Takes a line of a file, with its number, and says whether it has a form. Where it ends a case, what is
/// printed for that is appended.
fn take_line<R: Runner>(
    alloc: Global,
    case: &mut Option<Case>,
    number: u64,
    line: &str,
    out: &mut Vec<u8>,
) -> Result<bool, NoMemory> {
    if line.is_empty() || line.starts_with('#') {
        return Ok(true);
    }
    if let Some(name) = line.strip_prefix("case ") {
        end_case(alloc, case, out)?;
        *case = Some(Case::new(alloc, String::from_str(alloc, name)?));
        return Ok(true);
    }
    match case {
        Some(case) => case.take::<R>(alloc, number, line),
        None => Ok(false),
    }
}

/// Ends the case, if there is one, and appends what is printed for it.
fn end_case(alloc: Global, case: &mut Option<Case>, out: &mut Vec<u8>) -> Result<(), NoMemory> {
    match case.take() {
        Some(case) => Ok(case.finish(alloc, out)?),
        None => Ok(()),
    }
}

/// Runs the cases of a file, and prints what comes of each.
fn run_file<R: Runner>(rt: &HostRuntime, name: &str) -> Result<(), Stop> {
    let alloc = rt.alloc();
    let mut case = None;
    let mut number: u64 = 0;
    for line in BufReader::new(alloc, fs::open(rt, name)?)?.lines(alloc) {
        let line = line?;
        number = number.saturating_add(1);
        let mut out = Vec::new(alloc);
        if !take_line::<R>(alloc, &mut case, number, line.as_str(), &mut out)? {
            let file = String::from_str(alloc, name)?;
            return Err(Stop::Line { file, number });
        }
        io::writer(rt).write_all(&out)?;
    }
    let mut out = Vec::new(alloc);
    end_case(alloc, &mut case, &mut out)?;
    io::writer(rt).write_all(&out)?;
    Ok(())
}

/// Runs the cases of each file that the arguments name, and prints what comes of each.
pub fn run_files<R: Runner>(rt: &HostRuntime) -> Result<(), Stop> {
    let mut names = env::args(rt)?;
    let _program = names.next();
    for name in names {
        run_file::<R>(rt, name.as_str())?;
    }
    Ok(())
}
