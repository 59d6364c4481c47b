//! Bytes as they stand in the input and in what is printed.

use hw_text::cut_line;
use std::alloc::AllocError;

/// How far an escaped byte was read.
#[derive(Clone, Copy)]
enum Escape {
    Out,
    Begun,
    High(u8),
}

fn digit_value(byte: u8) -> Option<u8> {
    match byte {
        b'0'..=b'9' => Some(byte - b'0'),
        b'a'..=b'f' => Some(byte - b'a' + 10),
        _ => None,
    }
}

/// Appends the bytes of a text, and says whether each `\` in it has two digits.
pub fn put_bytes(out: &mut Vec<u8>, text: &[u8]) -> Result<bool, AllocError> {
    let mut escape = Escape::Out;
    for byte in text {
        let byte = *byte;
        escape = match (escape, digit_value(byte)) {
            (Escape::Out, _) if byte == b'\\' => Escape::Begun,
            (Escape::Out, _) => {
                out.push(byte)?;
                Escape::Out
            }
            (Escape::Begun, Some(high)) => Escape::High(high),
            (Escape::High(high), Some(low)) => {
                out.push(high.wrapping_mul(16).wrapping_add(low))?;
                Escape::Out
            }
            _ => return Ok(false),
        };
    }
    Ok(matches!(escape, Escape::Out))
}

fn digit_of(value: u8) -> u8 {
    if value < 10 {
        b'0' + value
    } else {
        b'a'.wrapping_add(value).wrapping_sub(10)
    }
}

fn put_shown(out: &mut Vec<u8>, bytes: &[u8]) -> Result<(), AllocError> {
    for byte in bytes {
        let byte = *byte;
        if byte < 32 || byte > 126 || byte == b'\\' {
            out.push(b'\\')?;
            out.push(digit_of(byte / 16))?;
            out.push(digit_of(byte % 16))?;
        } else {
            out.push(byte)?;
        }
    }
    Ok(())
}

/// Appends a line for each line of the bytes, after `|`, and one for what has no line end, after `+`,
/// up to this many lines with an end.
pub fn put_lines(out: &mut Vec<u8>, bytes: &[u8], most: u32) -> Result<(), AllocError> {
    let mut rest = bytes;
    let mut left = most;
    while let Some((line, after)) = cut_line(rest) {
        if left == 0 {
            return Ok(());
        }
        left -= 1;
        out.push(b'|')?;
        put_shown(out, line)?;
        out.push(b'\n')?;
        rest = after;
    }
    if !rest.is_empty() {
        out.push(b'+')?;
        put_shown(out, rest)?;
        out.push(b'\n')?;
    }
    Ok(())
}
