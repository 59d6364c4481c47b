//! The bytes of one read that no line has taken yet.

ghost use Rattle.std.specs.Prelude.{◌≡◌, ◌==◌, [], ◌≤◌, ◌<◌, length, true, take, position, IfOk, IfSome};
ghost use Rattle.hw_desk.specs.Calls.{Reads};
ghost use Rattle.hw_cert.specs.Reader.{Scans, ScansUsed, Fills};

use hw_desk::{Desk, DeskFailed, Feed};
use std::alloc::{AllocError, Global};
use std::marker::Model;

/// How many bytes a read asks for at most.
pub const BLOCK: usize = 65_536;

/// The bytes of one read that no line has taken yet, seen as their list.
#[derive(Drop)]
pub struct Pending {
    block: Vec<u8>,
    at: usize,
    end: usize,
}

impl Model for Pending {
    ghost use Rattle.std.specs.Prelude.{List, ℕ, ◌≡◌, ◌≤◌, ◌-◌, length, take, drop};
    ghost use Rattle.hw_cert.specs.declared.pending.TheConstants.{BLOCK};

    ghost Value = { List ℕ };

    ghost view = { λ p. take (p.end - p.at) (drop p.at p.block.items) };

    ghost invariant = { λ p. (p.at ≤ p.end) × (p.end ≤ length p.block.items) × (length p.block.items ≡ BLOCK) };
}

/// The place of the first line feed.
fn find_end(bytes: &[u8]) -> Option<usize>
    ensures { result ≡ position (λ b. b == 10) bytes.now }
{
    bytes.iter().position(|b| *b == b'\n')
}

/// Appends the bytes before the first line feed, or all of them if there is none. Returns how many were
/// used, including the line feed, or none without a line feed.
fn scan_bytes(bytes: &[u8], line: &mut Vec<u8>) -> Result<Option<usize>, AllocError>
    ensures used { IfOk result (λ used. IfSome used (λ n. n ≤ length bytes.now)) }
    ensures scans { IfOk result (λ used. ScansUsed used bytes.now line.old.items line.new.items) }
{
    match find_end(bytes) {
        Some(place) => {
            line.extend_from_slice(&bytes[..place])?;
            Ok(Some(place + 1))
        }
        None => {
            line.extend_from_slice(bytes)?;
            Ok(None)
        }
    }
}

/// One read into the first `room` bytes of the block.
fn read_block<D: Desk>(
    desk: &mut D,
    feed: Feed,
    block: &mut [u8],
    room: usize,
) -> Result<usize, DeskFailed>
    requires begun { ((D.state desk.old).feeds feed).begun ≡ true }
    requires some { 0 < room }
    requires within { room ≤ length block.old }
    ensures reads { Reads feed (take room block.new) (D.state desk.old) (D.state desk.new) result }
{
    desk.read(feed, &mut block[..room])
}

impl Pending {
    /// No bytes yet, with room for one read.
    pub fn new(alloc: Global) -> Result<Pending, AllocError>
        ensures { IfOk result (λ p. p ≡ []) }
    {
        let block = vec![in alloc; 0u8; BLOCK]?;
        Ok(Pending {
            block,
            at: 0,
            end: 0,
        })
    }

    /// Takes the bytes up to and including the first line feed, or all of them if there is none.
    /// Returns whether there was one.
    pub fn scan(&mut self, line: &mut Vec<u8>) -> Result<bool, AllocError>
        ensures { IfOk result (λ found. Scans self.old self.new line.old.items line.new.items found) }
    {
        let bytes = &self.block[self.at..self.end];
        match scan_bytes(bytes, line)? {
            Some(used) => {
                self.at += used;
                Ok(true)
            }
            None => {
                self.at = self.end;
                Ok(false)
            }
        }
    }

    /// Drops the bytes and reads the next ones, at most `most`.
    pub fn fill<D: Desk>(
        &mut self,
        desk: &mut D,
        feed: Feed,
        most: u64,
    ) -> Result<usize, DeskFailed>
        requires begun { ((D.state desk.old).feeds feed).begun ≡ true }
        requires some { 0 < most }
        ensures { Fills feed most self.new (D.state desk.old) (D.state desk.new) result }
    {
        let room = if most < BLOCK as u64 {
            most as usize
        } else {
            BLOCK
        };
        self.at = 0;
        self.end = 0;
        let count = read_block(desk, feed, &mut self.block, room)?;
        self.end = count;
        Ok(count)
    }
}
