//! The bytes sent to a tray in memory.

ghost use Rattle.std.specs.Prelude.{◌≡◌, ◌≤◌, ◌<◌, ◌-◌, ◌++◌, [], ◌↔◌, IfOk, IfSome, IsNone, MatchOption, length, min, take};

use hw_model::NoMemory;
use std::alloc::Global;
use std::marker::Model;

/// The bytes sent to a tray, and for how many in all it has room.
#[derive(Drop)]
pub struct SentBytes {
    room: usize,
    bytes: Vec<u8>,
}

impl Model for SentBytes {
    ghost use Rattle.hw_desk.specs.Sent.{SentModel};
    ghost use Rattle.std.specs.Prelude.{◌≤◌, length, vec_capacity};

    ghost Value = { SentModel };

    ghost view = { λ s. record { room = s.room; bytes = s.bytes.items } };

    ghost invariant = { λ s. (s.room ≤ vec_capacity s.bytes) × (length s.bytes.items ≤ s.room) };
}

impl SentBytes {
    /// No bytes yet, with room for `room` bytes.
    pub fn new(alloc: Global, room: usize) -> Result<SentBytes, NoMemory>
        ensures { IfOk result (λ sent. sent ≡ record { room = room; bytes = [] }) }
    {
        let bytes = Vec::with_capacity(alloc, room)?;
        Ok(SentBytes { room, bytes })
    }

    /// The bytes.
    pub fn as_slice(&self) -> &[u8]
        ensures { result.now ≡ self.now.bytes }
    {
        &self.bytes
    }

    /// Forgets the bytes.
    pub fn clear(&mut self)
        ensures { self.new ≡ record self.old { bytes = [] } }
    {
        self.bytes.clear();
    }

    /// Sends at most `most` of the bytes, as many as have room. Returns how many were sent, or none
    /// where the room is full.
    pub fn send(&mut self, most: usize, bytes: &[u8]) -> Option<usize>
        requires { 1 ≤ most }
        ensures full { IsNone result ↔ self.old.room ≤ length self.old.bytes }
        ensures count { IfSome result (λ n. n ≡ min (length bytes.now) (min most (self.old.room - length self.old.bytes))) }
        ensures sent { MatchOption result (self.new ≡ self.old) (λ n. self.new ≡ record self.old { bytes = self.old.bytes ++ take n bytes.now }) }
    {
        let left = self.room - self.bytes.len();
        if left == 0 {
            return None;
        }
        let count = bytes.len().min(most).min(left);
        self.bytes.extend_from_slice(&bytes[..count]).unwrap();
        Some(count)
    }
}
