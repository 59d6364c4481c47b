//! From the command line to the process's end.

ghost use Rattle.std.specs.Prelude.{◌≡◌, IfOk, codes, drop, map, string_bytes};
ghost use Rattle.std.specs.Process.{exit_status};
ghost use Rattle.std.specs.Vec.Iter.{into_iter_items};
ghost use Rattle.hw_desk.specs.State.{IsNewDesk};
ghost use Rattle.hw_command.specs.Statuses.{code_of};
ghost use Rattle.tidewise.specs.Info.{info_text};
ghost use Rattle.tidewise.specs.Words.{AreWordsOf, EndsBy, EndsSending, ProgramEnds, sent_status};

use crate::info::{Info, info_of, send_info};
use hw_app::{Status, run};
use hw_desk::{Desk, DeskFailed, Tray, write_all};
use std::alloc::{AllocError, Global};
use std::env::Args;
use std::io::{self, ErrorKind};
use std::process::ExitCode;

/// The words of a command line after the program's name.
fn words_after(alloc: Global, mut args: Args) -> Result<Vec<String>, AllocError>
    ensures { IfOk result (λ words. words.items ≡ drop 1 (into_iter_items args)) }
{
    let mut words = Vec::new(alloc);
    let _name = args.next();
    while let Some(word) = args.next() {
        words.push(word)?;
    }
    Ok(words)
}

/// The words of a command line without the program's name. A line that isn't text has none, and if
/// memory ran out for the line, it ran out for its words.
fn words_of(alloc: Global, args: io::Result<Args>) -> Result<Vec<String>, AllocError>
    ensures { AreWordsOf args result }
{
    match args {
        Ok(args) => words_after(alloc, args),
        Err(e) if e.kind() == ErrorKind::OutOfMemory => Err(AllocError),
        Err(_) => Ok(Vec::new(alloc)),
    }
}

/// The process ends with the status's code.
fn exit_of(status: Status) -> ExitCode
    ensures { exit_status result ≡ code_of status }
{
    ExitCode::from(status.code())
}

/// How the process ends after a text was sent: with this status, or with that of a write that failed.
fn exit_after(sent: Result<(), DeskFailed>, status: Status) -> ExitCode
    ensures { exit_status result ≡ code_of (sent_status status sent) }
{
    match sent {
        Ok(()) => exit_of(status),
        Err(_) => exit_of(Status::WriteFault),
    }
}

/// Sends what the program tells of itself.
fn tell<D: Desk>(desk: &mut D, info: Info) -> ExitCode
    ensures { EndsSending (info_text info) Status.Optimal (D.state desk.old) (D.state desk.new) (exit_status result) }
{
    exit_after(send_info(desk, info), Status::Optimal)
}

/// Reports that memory ran out for the words.
fn end_without_words<D: Desk>(desk: &mut D) -> ExitCode
    ensures { EndsSending (codes "memory\n") Status.NoMemory (D.state desk.old) (D.state desk.new) (exit_status result) }
{
    let sent = write_all(desk, Tray::Report, b"memory\n");
    exit_after(sent, Status::NoMemory)
}

/// Answers words that ask about the program itself, and runs all others.
fn end_of_words<D: Desk>(alloc: Global, words: &[String], desk: &mut D) -> ExitCode
    requires { IsNewDesk (D.state desk.old) }
    ensures { EndsBy (map string_bytes words.now) (D.state desk.old) (D.state desk.new) (exit_status result) }
{
    match info_of(words) {
        Some(info) => tell(desk, info),
        None => exit_of(run(alloc, words, desk)),
    }
}

/// What the whole program does with its command line, over a desk on which nothing was begun or made,
/// and the code with which its process ends.
///
/// `--help` and `--version`, each alone, are answered here. All other words are run, and where memory
/// ran out for them `memory` is reported.
pub fn end_of<D: Desk>(alloc: Global, args: io::Result<Args>, desk: &mut D) -> ExitCode
    requires { IsNewDesk (D.state desk.old) }
    ensures { ProgramEnds args (D.state desk.old) (D.state desk.new) (exit_status result) }
{
    match words_of(alloc, args) {
        Ok(words) => end_of_words(alloc, &words, desk),
        Err(_) => end_without_words(desk),
    }
}
