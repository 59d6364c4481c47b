//! Lines of a small text, read one after the other.

ghost use Rattle.std.specs.Prelude.{◌≢◌, IfErr};
ghost use Rattle.hw_text.specs.Parts.{parts_of};
ghost use Rattle.hw_plan_texts.specs.Reading.{TextReadGives, formed_line_at, only_at};

use crate::fault::LineFault;
use hw_text::{cut_line, is_text};

/// The next line without its end, and the bytes after it. If the bytes end before a line does, the
/// fault has this number and this word. It takes no memory.
pub fn line_of<W: Copy>(bytes: &[u8], number: u64, word: W) -> Result<(&[u8], &[u8]), LineFault<W>>
    ensures gives { TextReadGives (λ x. (x.0.now, parts_of 10 x.1.now)) result (formed_line_at number word (parts_of 10 bytes.now)) }
    ensures told { IfErr result (λ fault. fault ≢ LineFault.NoMemory) }
{
    match cut_line(bytes) {
        Some((line, rest)) => Ok((line, rest)),
        None => Err(LineFault::Line { number, word }),
    }
}

/// Expects exactly this line and returns the bytes after it; otherwise fails at line `number` with
/// `word`. It takes no memory.
pub fn only<'b, W: Copy>(
    bytes: &'b [u8],
    number: u64,
    word: W,
    text: &[u8],
) -> Result<&'b [u8], LineFault<W>>
    ensures gives { TextReadGives (λ rest. parts_of 10 rest.now) result (only_at number word text.now (parts_of 10 bytes.now)) }
    ensures told { IfErr result (λ fault. fault ≢ LineFault.NoMemory) }
{
    let (line, rest) = line_of(bytes, number, word)?;
    if !is_text(line, text) {
        return Err(LineFault::Line { number, word });
    }
    Ok(rest)
}
