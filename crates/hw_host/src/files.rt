//! Files of the system: read, or made and written, with each failure counted.

ghost use Rattle.std.specs.Prelude.{◌≡◌, ◌≤◌, ◌<◌, ◌↔◌, length, true, IfOk, IsOk, IsErr, IsTrue, OnErr, OnOk, MatchResult};
ghost use Rattle.hw_desk.specs.State.{Rose};
ghost use Rattle.hw_host.specs.Opened.{IsApart, IsFeed, IsFoundFeed, IsOpen, IsOpenAs, IsOther, IsPlanFeed, IsProblem, was_opened};

use crate::output::Output;
use hw_desk::{DeskFailed, Feeds, failed};
use std::fs::{File, Metadata, OpenOptions};
use std::io::{ErrorKind, Read, Write};
use std::os::unix::fs::MetadataExt;
use std::{fs, io};

/// Which file of the system it is, under whatever name or link it was opened.
#[derive(Clone, Copy, PartialEq, Eq)]
pub struct FileId {
    pub device: u64,
    pub inode: u64,
}

/// The file of a feed or of Proof: not asked for, failed to open, or open.
#[derive(Drop)]
pub enum HostFile {
    Fresh,
    Failed,
    Open { file: File, id: FileId },
}

impl HostFile {
    /// Whether it is open, and is this file.
    fn is_open_as(&self, id: FileId) -> bool
        ensures { IsTrue result ↔ IsOpenAs self.now id }
    {
        match self {
            HostFile::Open { id: own, .. } => *own == id,
            HostFile::Fresh | HostFile::Failed => false,
        }
    }
}

pub fn id_of(metadata: &Metadata) -> FileId {
    FileId {
        device: metadata.dev(),
        inode: metadata.ino(),
    }
}

/// Whether one of the inputs that a problem has is read from this file.
fn is_problem(feeds: &Feeds<HostFile>, id: FileId) -> bool
    ensures { IsTrue result ↔ IsProblem feeds.now id }
{
    feeds.flat.is_open_as(id) || feeds.instance.is_open_as(id) || feeds.tides.is_open_as(id)
}

/// Whether a plan or the events after it are read from this file.
fn is_plan(feeds: &Feeds<HostFile>, id: FileId) -> bool
    ensures { IsTrue result ↔ IsPlanFeed feeds.now id }
{
    feeds.plan.is_open_as(id) || feeds.events.is_open_as(id)
}

/// Whether something that a search found is read from this file: a certificate, a clash or a split.
fn is_found(feeds: &Feeds<HostFile>, id: FileId) -> bool
    ensures { IsTrue result ↔ IsFoundFeed feeds.now id }
{
    feeds.certificate.is_open_as(id) || feeds.clash.is_open_as(id) || feeds.split.is_open_as(id)
}

/// Whether one of the other inputs is read from this file.
fn is_other(feeds: &Feeds<HostFile>, id: FileId) -> bool
    ensures { IsTrue result ↔ IsOther feeds.now id }
{
    is_plan(feeds, id) || is_found(feeds, id)
}

/// Whether one of the feeds is read from this file.
#[tactic(auto, using(crate::proofs::Feeds::found, crate::proofs::Feeds::parted))]
fn is_feed(feeds: &Feeds<HostFile>, id: FileId) -> bool
    ensures { IsTrue result ↔ IsFeed feeds.now id }
{
    is_problem(feeds, id) || is_other(feeds, id)
}

/// Opens a file to be read.
fn open_file(rt: &HostRuntime, name: &str) -> io::Result<HostFile>
    ensures { IfOk result IsOpen }
{
    let file = fs::open(rt, name)?;
    let id = id_of(&file.metadata()?);
    Ok(HostFile::Open { file, id })
}

/// Makes a file for writing, or empties the one that is there. A file that a feed is read from, or that
/// standard output goes to, is left as it is, and that is an error: no file is emptied before it is known
/// to be another one.
fn make_file(
    rt: &HostRuntime,
    feeds: &Feeds<HostFile>,
    output: &Output,
    name: &str,
) -> io::Result<HostFile>
    ensures made { IfOk result IsOpen }
    ensures apart { IfOk result (λ made. IsApart feeds.now output.now made) }
{
    let file = OpenOptions::new()
        .write(true)
        .create(true)
        .truncate(false)
        .open(rt, name)?;
    let metadata = file.metadata()?;
    let id = id_of(&metadata);
    if is_feed(feeds, id) || output.goes_to(id) {
        return Err(io::Error::from(ErrorKind::PermissionDenied));
    }
    // Pipes and devices hold nothing, and can't be emptied.
    if metadata.is_file() {
        file.set_len(0)?;
    }
    Ok(HostFile::Open { file, id })
}

/// Opens the file of a feed, or counts a fault.
pub fn open_feed(
    rt: &HostRuntime,
    feed: &mut HostFile,
    name: &str,
    faults: &mut u64,
) -> Result<(), DeskFailed>
    ensures begun { was_opened feed.new ≡ true }
    ensures open { OnOk result (IsOpen feed.new) }
    ensures later { faults.old ≤ faults.new }
    ensures cause { OnErr result (Rose faults.old faults.new) }
    ensures kept { OnOk result (faults.new ≡ faults.old) }
{
    match open_file(rt, name) {
        Ok(file) => {
            *feed = file;
            Ok(())
        }
        Err(_) => {
            *feed = HostFile::Failed;
            Err(failed(faults))
        }
    }
}

/// A read's answer, where an error is a fault.
fn count_read(answer: io::Result<usize>, faults: &mut u64) -> Result<usize, DeskFailed>
    ensures same { MatchResult result (λ n. IfOk answer (λ m. n ≡ m) × IsOk answer) (λ _. IsErr answer) }
    ensures later { faults.old ≤ faults.new }
    ensures cause { OnErr result (Rose faults.old faults.new) }
    ensures kept { OnOk result (faults.new ≡ faults.old) }
{
    match answer {
        Ok(count) => Ok(count),
        Err(_) => Err(failed(faults)),
    }
}

/// Reads some bytes, or counts a fault. A feed whose begin failed has none.
pub fn read_feed(
    feed: &mut HostFile,
    into: &mut [u8],
    faults: &mut u64,
) -> Result<usize, DeskFailed>
    ensures begun { was_opened feed.new ≡ was_opened feed.old }
    ensures bound { IfOk result (λ n. n ≤ length into.new) }
    ensures later { faults.old ≤ faults.new }
    ensures cause { OnErr result (Rose faults.old faults.new) }
    ensures kept { OnOk result (faults.new ≡ faults.old) }
{
    match feed {
        HostFile::Open { file, .. } => {
            let answer = file.read(into);
            count_read(answer, faults)
        }
        HostFile::Fresh | HostFile::Failed => Ok(0),
    }
}

/// A write's answer, where taking nothing is a fault too.
pub fn count_write(answer: io::Result<usize>, faults: &mut u64) -> Result<usize, DeskFailed>
    ensures same { MatchResult result (λ n. (0 < n) × IfOk answer (λ m. n ≡ m) × IsOk answer) (λ _. IfOk answer (λ m. m ≡ 0)) }
    ensures later { faults.old ≤ faults.new }
    ensures cause { OnErr result (Rose faults.old faults.new) }
    ensures kept { OnOk result (faults.new ≡ faults.old) }
{
    match answer {
        Ok(count) if count > 0 => Ok(count),
        _ => Err(failed(faults)),
    }
}

/// Makes the file of Proof, which no feed is read from and standard output doesn't go to, or counts a
/// fault.
pub fn make_proof(
    rt: &HostRuntime,
    feeds: &Feeds<HostFile>,
    output: &Output,
    proof: &mut HostFile,
    name: &str,
    faults: &mut u64,
) -> Result<(), DeskFailed>
    ensures made { was_opened proof.new ≡ true }
    ensures open { OnOk result (IsOpen proof.new) }
    ensures apart { IsApart feeds.now output.now proof.new }
    ensures later { faults.old ≤ faults.new }
    ensures cause { OnErr result (Rose faults.old faults.new) }
    ensures kept { OnOk result (faults.new ≡ faults.old) }
{
    match make_file(rt, feeds, output, name) {
        Ok(file) => {
            *proof = file;
            Ok(())
        }
        Err(_) => {
            *proof = HostFile::Failed;
            Err(failed(faults))
        }
    }
}

/// Writes some bytes, or counts a fault.
pub fn write_proof(
    proof: &mut HostFile,
    bytes: &[u8],
    faults: &mut u64,
) -> Result<usize, DeskFailed>
    ensures made { was_opened proof.new ≡ was_opened proof.old }
    ensures bound { IfOk result (λ n. (0 < n) × (n ≤ length bytes.now)) }
    ensures later { faults.old ≤ faults.new }
    ensures cause { OnErr result (Rose faults.old faults.new) }
    ensures kept { OnOk result (faults.new ≡ faults.old) }
{
    match proof {
        HostFile::Open { file, .. } => {
            let answer = file.write(bytes);
            count_write(answer, faults)
        }
        HostFile::Fresh | HostFile::Failed => Err(failed(faults)),
    }
}
