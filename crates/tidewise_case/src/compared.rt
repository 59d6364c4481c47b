//! A run, with the lines that came of it and the lines that are wanted of it.

ghost use Rattle.std.specs.Prelude.{◌≤◌, length};

use hw_text::{cut_line, put_number};
use std::alloc::{AllocError, Global};

/// A run, with the lines that came of it and the lines that are wanted of it.
#[derive(Drop)]
pub struct Compared {
    /// The line that asked for it, and the number of that line.
    line: String,
    number: u64,
    came: Vec<u8>,
    wanted: Vec<u8>,
}

/// The lines of bytes, without their ends.
fn lines_of<'b>(alloc: Global, bytes: &'b [u8]) -> Result<Vec<&'b [u8]>, AllocError> {
    let mut lines = Vec::new(alloc);
    let mut rest = bytes;
    while let Some((line, after)) = cut_line(rest) {
        lines.push(line)?;
        rest = after;
    }
    Ok(lines)
}

/// How many lines both begin with.
fn same_start(wanted: &[&[u8]], came: &[&[u8]]) -> usize
    ensures wanted { result ≤ length wanted.now }
    ensures came { result ≤ length came.now }
{
    let most = wanted.len().min(came.len());
    let mut count = 0;
    while count < most && wanted[count] == came[count] {
        count += 1;
    }
    count
}

/// How many lines both end with.
fn same_end(wanted: &[&[u8]], came: &[&[u8]]) -> usize
    ensures wanted { result ≤ length wanted.now }
    ensures came { result ≤ length came.now }
{
    let most = wanted.len().min(came.len());
    let mut count = 0;
    while count < most && wanted[wanted.len() - 1 - count] == came[came.len() - 1 - count] {
        count += 1;
    }
    count
}

fn put_marked(out: &mut Vec<u8>, mark: u8, lines: &[&[u8]]) -> Result<(), AllocError> {
    for line in lines {
        out.push(mark)?;
        out.extend_from_slice(line)?;
        out.push(b'\n')?;
    }
    Ok(())
}

/// Whether the line is one of those that are printed for a run.
fn is_printed(line: &str) -> bool {
    match line.as_bytes() {
        [b'|' | b'+', ..] => true,
        _ => line.starts_with("status ") || line.starts_with("runs "),
    }
}

impl Compared {
    /// A run of which these lines came. None is wanted so far.
    pub fn new(
        alloc: Global,
        number: u64,
        line: &str,
        came: Vec<u8>,
    ) -> Result<Compared, AllocError> {
        Ok(Compared {
            line: String::from_str(alloc, line)?,
            number,
            came,
            wanted: Vec::new(alloc),
        })
    }

    /// Wants one more line, if it is one that is printed for a run, and says whether it is.
    pub fn want(&mut self, line: &str) -> Result<bool, AllocError> {
        if !is_printed(line) {
            return Ok(false);
        }
        self.wanted.extend_from_slice(line.as_bytes())?;
        self.wanted.push(b'\n')?;
        Ok(true)
    }

    /// Appends the line that asked for the run, and after it the lines that are wanted and didn't come,
    /// each after `-`, and those that came and aren't wanted, each after `+`; nothing where all is as
    /// wanted. Lines that both begin or end with are left out.
    pub fn put_difference(&self, alloc: Global, out: &mut Vec<u8>) -> Result<(), AllocError> {
        if self.wanted == self.came {
            return Ok(());
        }
        put_number(out, self.number)?;
        out.extend_from_slice(b": ")?;
        out.extend_from_slice(self.line.as_str().as_bytes())?;
        out.push(b'\n')?;
        let wanted = lines_of(alloc, &self.wanted)?;
        let came = lines_of(alloc, &self.came)?;
        let start = same_start(&wanted, &came);
        let end = same_end(&wanted[start..], &came[start..]);
        put_marked(out, b'-', &wanted[start..wanted.len() - end])?;
        put_marked(out, b'+', &came[start..came.len() - end])
    }
}
