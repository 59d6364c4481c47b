//! Text sent to a tray through a buffer, in as few writes as it allows.

ghost use Rattle.std.specs.Prelude.{◌≡◌, ◌++◌, ◌<◌, [], length, take, decimal, is_err, true, false};
ghost use Rattle.hw_desk.specs.State.{DeskState, CanSend, can_send};
ghost use Rattle.hw_desk.specs.Whole.{SendsText};
ghost use Rattle.hw_desk.specs.Writers.{WriterState, Puts, Opens, Flushes, answer_of, writer_state};

use crate::buffer::TextBuffer;
use crate::{Desk, DeskFailed, Tray, write_all};
use itoa::Buffer;

/// A writer of text to a tray: bytes wait in a fixed buffer, and are sent when it is full and at the end.
///
/// It takes no memory. A text that fits the buffer, 8192 bytes, is sent at once, by `flush` alone.
/// After a failed write the writer is spent: it sends nothing more, and `flush` answers the failure.
pub trait Writer {
    /// The desk as it is, the bytes that wait, and whether a write has failed.
    ghost state: { Self → WriterState };

    /// Appends bytes.
    fn put(&mut self, bytes: &[u8])
        ensures puts { Puts bytes.now (state self.old) (state self.new) };

    /// Appends a number, in digits.
    fn put_number(&mut self, number: u64)
        ensures puts { Puts (decimal number) (state self.old) (state self.new) };

    /// Sends the bytes that wait.
    fn flush(&mut self) -> Result<(), DeskFailed>
        ensures flushes { Flushes (state self.old) (state self.new) result };
}

/// Sends bytes unless a write has failed before, and says whether one has failed now.
fn is_spent<D: Desk>(desk: &mut D, tray: Tray, spent: bool, bytes: &[u8]) -> bool
    requires made { CanSend tray (D.state desk.old) }
    ensures stays { spent ≡ true → (result ≡ true) × (D.state desk.new ≡ D.state desk.old) }
    ensures sends { spent ≡ false → SendsText tray bytes.now (D.state desk.old) (D.state desk.new) (answer_of result) }
    ensures made { CanSend tray (D.state desk.new) }
{
    spent || write_all(desk, tray, bytes).is_err()
}

/// A writer over a tray of a borrowed desk.
#[derive(Drop)]
pub struct TrayWriter<'d, D: Desk> {
    pub desk: &'d mut D,
    pub tray: Tray,
    pub waiting: TextBuffer,
    pub spent: bool,
    ghost made: { can_send tray (D.state desk.now) ≡ true },
}

impl<'d, D: Desk> TrayWriter<'d, D> {
    /// A writer to which nothing was given yet.
    pub fn new(desk: &'d mut D, tray: Tray) -> TrayWriter<'d, D>
        requires { CanSend tray (D.state desk.old) }
        ensures same_reference { result.desk.ghost_name ≡ desk.entry.ghost_name }
        ensures opens { Opens tray (D.state desk.old) (writer_state (D.state result.desk.now) result.desk.ghost_name result.tray result.waiting result.spent) }
    {
        TrayWriter {
            desk,
            tray,
            waiting: TextBuffer::new(),
            spent: false,
        }
    }
}

impl<D: Desk> Writer for TrayWriter<'_, D> {
    ghost state = { λ w. writer_state (D.state w.desk.now) w.desk.ghost_name w.tray w.waiting w.spent };

    fn put(&mut self, bytes: &[u8]) {
        if self.waiting.has_room(bytes.len()) {
            self.waiting.push(bytes);
            return;
        }
        let _answer = self.flush();
        if self.waiting.has_room(bytes.len()) {
            self.waiting.push(bytes);
        } else {
            self.spent = is_spent(self.desk, self.tray, self.spent, bytes);
        }
    }

    fn put_number(&mut self, number: u64) {
        let mut digits = Buffer::new();
        self.put(digits.format(number).as_bytes());
    }

    fn flush(&mut self) -> Result<(), DeskFailed> {
        self.spent = is_spent(self.desk, self.tray, self.spent, self.waiting.as_slice());
        self.waiting.clear();
        if self.spent { Err(DeskFailed) } else { Ok(()) }
    }
}
