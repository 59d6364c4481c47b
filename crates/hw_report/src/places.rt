//! The places of an instance, as they are printed.

ghost use Rattle.hw_desk.specs.Writers.{Puts};
ghost use Rattle.hw_port.specs.Places.{filled, number_text, path_text};

use hw_desk::Writer;
use hw_port::{Path, text_at_number};

/// Puts a number, if there is one.
fn put_some<W: Writer>(out: &mut W, number: Option<u32>)
    ensures { Puts (number_text number) (W.state out.old) (W.state out.new) }
{
    match number {
        Some(number) => out.put_number(u64::from(number)),
        None => out.put(b""),
    }
}

/// Puts a place of at most 40 bytes, with its numbers set in for its stars.
fn put_filled<W: Writer>(out: &mut W, place: &[u8], first: Option<u32>, second: Option<u32>)
    ensures { Puts (filled place.now first second) (W.state out.old) (W.state out.new) }
{
    if let [byte, rest @ ..] = place {
        if *byte == b'*' {
            put_some(out, first);
            put_filled(out, rest, second, None);
        } else {
            out.put(&[*byte]);
            put_filled(out, rest, first, second);
        }
    }
}

/// Puts a path.
#[tactic(auto, unfolding(hw_port::specs::Places::path_text))]
pub fn put_path<W: Writer>(out: &mut W, path: Path)
    ensures { Puts (path_text path) (W.state out.old) (W.state out.new) }
{
    put_filled(out, text_at_number(path.field), path.first, path.second);
}
