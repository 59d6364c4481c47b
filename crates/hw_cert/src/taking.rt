//! Taking the bytes of one line from a feed.

ghost use Rattle.std.specs.Prelude.{◌≡◌, ◌≤◌, ◌<◌, ◌+◌, ◌^◌, length, true, nat_lt, if◌then◌else◌};
ghost use Rattle.hw_cert.specs.Stream.{line_passes_limit};
ghost use Rattle.hw_cert.specs.Taking.{TakesLine};

use crate::pending::Pending;
use crate::stop::LineStop;
use hw_desk::{Desk, Feed};

/// How many bytes a line may have without its end.
pub const MOST_OF_LINE: u64 = 1 << 20;

/// How many bytes a certificate may have.
const MOST_OF_ALL: u64 = 1 << 40;

/// What stands at the place of the next line: a line that ends, bytes without an end, or nothing.
#[derive(Clone, Copy)]
pub enum TakenLine {
    Whole,
    Unended,
    Nothing,
}

/// Whether a line of `size` bytes with an end of `end` bytes, after `taken` bytes, passes a limit.
fn passes_limit(taken: u64, size: u64, end: u64) -> bool
    requires { taken + size + end < 2 ^ 64 }
    ensures { result ≡ line_passes_limit taken size end }
{
    size > MOST_OF_LINE || taken + size + end > MOST_OF_ALL
}

/// Bytes at the end of the feed, or nothing.
fn tail_line(line: &[u8]) -> TakenLine
    ensures { result ≡ (if nat_lt 0 (length line.now) then TakenLine.Unended else TakenLine.Nothing) }
{
    if line.is_empty() {
        TakenLine::Nothing
    } else {
        TakenLine::Unended
    }
}

/// Takes the bytes up to the next line feed. It looks at each byte once, and reads block by block.
pub fn take_line<D: Desk>(
    desk: &mut D,
    feed: Feed,
    taken: u64,
    pending: &mut Pending,
    line: &mut Vec<u8>,
) -> Result<TakenLine, LineStop>
    requires begun { ((D.state desk.old).feeds feed).begun ≡ true }
    requires room { taken + length pending.old ≤ 2 ^ 40 + 1 }
    ensures { TakesLine feed taken pending.old pending.new line.new.items (D.state desk.old) (D.state desk.new) result }
{
    line.clear();
    'reading: loop {
        let found = pending.scan(line)?;
        let size = line.len() as u64;
        if found {
            return if passes_limit(taken, size, 1) {
                Err(LineStop::TooLong)
            } else {
                Ok(TakenLine::Whole)
            };
        }
        if passes_limit(taken, size, 0) {
            return Err(LineStop::TooLong);
        }
        let count = match pending.fill(desk, feed, MOST_OF_ALL + 1 - taken - size) {
            Ok(count) => count,
            Err(_) => return Err(LineStop::Fault),
        };
        if count == 0 {
            return Ok(tail_line(line));
        }
    }
}
