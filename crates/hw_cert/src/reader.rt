//! Reading a certificate from a feed, one line at a time.

ghost use Rattle.std.specs.Prelude.{◌≡◌, ◌≤◌, ◌+◌, ◌^◌, [], true, IfOk, IsSome, None};
ghost use Rattle.hw_cert.specs.Stream.{start, start_to};

use crate::fitting::{LineFault, read_line};
use crate::pending::{BLOCK, Pending};
use crate::spelling::header_version;
use crate::stop::{FormWord, LineStop};
use crate::taking::{MOST_OF_LINE, TakenLine, take_line};
use crate::version::Version;
use hw_cert_lines::Line;
use hw_desk::{Desk, Feed, NoMemory};
use hw_model::{MOST_SHIPS, Shape};
use std::alloc::Global;
use std::marker::Model;

/// A reader of a certificate's lines. It keeps one line's buffer and the bytes of one read past it,
/// and gives the same lines however the reads are cut.
///
/// Contracts see it as the problem's shape, the feed, where the reading stands, and the bytes that
/// were read after that place.
#[derive(Drop)]
pub struct LineReader {
    alloc: Global,
    shape: Shape,
    feed: Feed,
    // the greatest one that the header may name
    most: Version,
    // none before the header
    version: Option<Version>,
    // of the line that comes next, the header being line 1
    number: u64,
    // how many bytes the lines before it have with their ends
    taken: u64,
    // bytes that were read after these and that no line has taken yet
    pending: Pending,
    // the bytes of the line taken last, without its end
    line: Vec<u8>,
}

impl Model for LineReader {
    ghost use Rattle.hw_cert.specs.Reader.{ReaderModel, ReaderKeeps};

    ghost Value = { ReaderModel };

    ghost view = { λ r. record { shape = r.shape; feed = r.feed; at = record { most = r.most; version = r.version; number = r.number; taken = r.taken }; pending = r.pending } };

    ghost invariant = { λ r. ReaderKeeps (record { shape = r.shape; feed = r.feed; at = record { most = r.most; version = r.version; number = r.number; taken = r.taken }; pending = r.pending }) };
}

/// What comes next of a certificate.
#[derive(Drop)]
pub enum Next {
    /// A line, and the reader of those after it.
    Line { reader: LineReader, line: Line },
    /// Nothing, after a whole line.
    End,
}

impl LineReader {
    ghost use Rattle.hw_cert.specs.Nexts.{TakesNextLine, TakesHeader};

    /// A reader of a certificate of version 1 or 2 for a problem of this shape, before its header.
    /// It takes one line's buffer and that of one read, which no call of the reader makes greater.
    pub fn new(alloc: Global, shape: Shape, feed: Feed) -> Result<LineReader, NoMemory>
        requires few_ships { shape.ships ≤ MOST_SHIPS }
        ensures value { IfOk result (λ r. r ≡ record { shape = shape; feed = feed; at = start; pending = [] }) }
    {
        LineReader::up_to(alloc, shape, feed, Version::Two)
    }

    /// The same of a certificate of this version or an earlier one.
    pub fn up_to(
        alloc: Global,
        shape: Shape,
        feed: Feed,
        most: Version,
    ) -> Result<LineReader, NoMemory>
        requires few_ships { shape.ships ≤ MOST_SHIPS }
        ensures value { IfOk result (λ r. r ≡ record { shape = shape; feed = feed; at = start_to most; pending = [] }) }
    {
        let pending = Pending::new(alloc)?;
        let line = Vec::with_capacity(alloc, MOST_OF_LINE as usize + BLOCK)?;
        Ok(LineReader {
            alloc,
            shape,
            feed,
            most,
            version: None,
            number: 1,
            taken: 0,
            pending,
            line,
        })
    }

    /// The number of the line that comes next, counted from 1 with the header.
    pub fn number(&self) -> u64
        ensures value { result ≡ self.now.at.number }
        ensures few { result ≤ 2 ^ 40 + 1 }
    {
        self.number
    }

    /// Takes the header.
    fn take_header<D: Desk>(mut self, desk: &mut D) -> Result<LineReader, LineStop>
        requires begun { ((D.state desk.old).feeds self.feed).begun ≡ true }
        requires before { self.at.version ≡ None }
        ensures { TakesHeader self (D.state desk.old) (D.state desk.new) result }
    {
        match take_line(
            desk,
            self.feed,
            self.taken,
            &mut self.pending,
            &mut self.line,
        )? {
            TakenLine::Whole => {}
            _ => {
                return Err(LineStop::Form {
                    number: self.number,
                    word: FormWord::Header,
                });
            }
        }
        let Some(version) = header_version(self.most, &self.line) else {
            return Err(LineStop::Form {
                number: self.number,
                word: FormWord::Header,
            });
        };
        self.version = Some(version);
        self.number += 1;
        self.taken += self.line.len() as u64 + 1;
        Ok(self)
    }

    /// Takes a line after the header.
    fn next_line<D: Desk>(mut self, desk: &mut D) -> Result<Next, LineStop>
        requires begun { ((D.state desk.old).feeds self.feed).begun ≡ true }
        requires header { IsSome self.at.version }
        ensures { TakesNextLine self (D.state desk.old) (D.state desk.new) result }
    {
        let Some(version) = self.version else {
            unreachable!()
        };
        let number = self.number;
        match take_line(
            desk,
            self.feed,
            self.taken,
            &mut self.pending,
            &mut self.line,
        )? {
            TakenLine::Nothing => return Ok(Next::End),
            TakenLine::Unended => {
                return Err(LineStop::Form {
                    number,
                    word: FormWord::Form,
                });
            }
            TakenLine::Whole => {}
        }
        match read_line(self.alloc, self.shape, version, &self.line) {
            Ok(line) => {
                self.number = number + 1;
                self.taken += self.line.len() as u64 + 1;
                Ok(Next::Line { reader: self, line })
            }
            Err(LineFault::Bad(word)) => Err(LineStop::Form { number, word }),
            Err(LineFault::NoMemory) => Err(LineStop::NoMemory),
        }
    }

    /// The next line, and before the first one the header. It goes once through the bytes of the
    /// line. Each refusal uses the reader up.
    ///
    /// # Errors
    ///
    /// `Form` where the next line is no spelling of a line, `TooLong` where it passes a limit,
    /// `Fault` where a read failed, and `NoMemory`.
    pub fn next<D: Desk>(self, desk: &mut D) -> Result<Next, LineStop>
        requires begun { ((D.state desk.old).feeds self.feed).begun ≡ true }
        ensures { TakesNextLine self (D.state desk.old) (D.state desk.new) result }
    {
        if self.version.is_some() {
            return self.next_line(desk);
        }
        let reader = self.take_header(desk)?;
        reader.next_line(desk)
    }
}
