//! The fixed buffer in which text waits before it is sent.

ghost use Rattle.std.specs.Prelude.{◌≡◌, ◌≤◌, ◌+◌, ◌++◌, ◌↔◌, [], IsTrue, length};

use std::marker::Model;

/// How many bytes wait at most: a report with 40 ships of a port fits.
const ROOM: usize = 8192;

/// Text in a fixed buffer.
#[derive(Drop)]
pub struct TextBuffer {
    text: [u8; ROOM],
    len: usize,
}

impl Model for TextBuffer {
    ghost use Rattle.std.specs.Prelude.{List, ℕ, take, ◌≤◌};

    ghost Value = { List ℕ };

    ghost view = { λ b. take b.len b.text };

    ghost invariant = { λ b. b.len ≤ 8192 };
}

impl TextBuffer {
    /// No text.
    pub fn new() -> TextBuffer
        ensures { result ≡ [] }
    {
        TextBuffer {
            text: [0; ROOM],
            len: 0,
        }
    }

    /// The text.
    pub fn as_slice(&self) -> &[u8]
        ensures { result.now ≡ self.now }
    {
        &self.text[..self.len]
    }

    /// Whether `count` more bytes have room.
    pub fn has_room(&self, count: usize) -> bool
        ensures { IsTrue result ↔ (length self.now + count ≤ 8192) }
    {
        count <= ROOM - self.len
    }

    /// Appends bytes.
    pub fn push(&mut self, bytes: &[u8])
        requires room { length self.old + length bytes.now ≤ 8192 }
        ensures text { self.new ≡ self.old ++ bytes.now }
    {
        let end = self.len + bytes.len();
        self.text[self.len..end].copy_from_slice(bytes);
        self.len = end;
    }

    /// Forgets the text.
    pub fn clear(&mut self)
        ensures { self.new ≡ [] }
    {
        self.len = 0;
    }
}
