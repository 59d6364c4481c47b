//! Names as the text of an element.

ghost use Rattle.std.specs.Prelude.{◌≡◌, ◌≤◌, ◌*◌, nat_lt, length, sum_by};
ghost use Rattle.hw_desk.specs.Writers.{Puts};
ghost use Rattle.hw_chart_svg.specs.Names.{byte_text, escaped};
ghost use Rattle.hw_chart_svg.specs.Shortened.{beginning_within};
ghost use Rattle.hw_chart_svg.specs.Widths.{advance, small_width, width_of};

use hw_desk::Writer;

/// How wide an ellipsis is at most in the type of a name.
pub const ELLIPSIS_WIDTH: u64 = 12;

/// Puts a byte of a name, spelled out where it is a mark of the text around it.
#[tactic(auto, unfolding(crate::specs::Names::byte_text))]
fn put_byte<W: Writer>(out: &mut W, byte: u8)
    ensures { Puts (byte_text byte) (W.state out.old) (W.state out.new) }
{
    match byte {
        38 => out.put(b"&amp;"),
        60 => out.put(b"&lt;"),
        62 => out.put(b"&gt;"),
        34 => out.put(b"&quot;"),
        39 => out.put(b"&#39;"),
        _ => out.put(&[byte]),
    }
}

/// Puts a name.
pub fn put_name<W: Writer>(out: &mut W, name: &[u8])
    ensures { Puts (escaped name.now) (W.state out.old) (W.state out.new) }
{
    for byte in name {
        put_byte(out, *byte);
    }
}

/// The most that a byte is wide in the type of a name.
#[tactic(auto, unfolding(crate::specs::Widths::advance))]
fn advance(byte: u8) -> u64
    ensures value { result ≡ advance byte }
    ensures few { result ≤ 14 }
{
    if b" ',-./:;IJ\\ijl|".contains(&byte) {
        5
    } else if b"!\"()*?[]_`frtz".contains(&byte) {
        7
    } else if b"%@MWmw".contains(&byte) {
        14
    } else if b"#&+<=>ABDGHKNOQRUVX^~".contains(&byte) {
        11
    } else {
        9
    }
}

/// Whether a name may be wider than its place.
pub fn is_wider(name: &[u8], place: u64) -> bool
    ensures { result ≡ nat_lt place (width_of name.now) }
{
    let mut left = place;
    for byte in name {
        let width = advance(*byte);
        if width > left {
            return true;
        }
        left -= width;
    }
    false
}

/// The most that a text is wide in the type of a name, in units of the picture.
pub fn width(text: &[u8]) -> u64
    requires { length text.now ≤ 10_000 }
    ensures value { result ≡ width_of text.now }
    ensures few { result ≤ 14 * length text.now }
{
    match text {
        [] => 0,
        [byte, more @ ..] => advance(*byte) + width(more),
    }
}

/// The most that a text is wide in the small type, in units of the picture.
pub fn small_width(text: &[u8]) -> u64
    requires { length text.now ≤ 10_000 }
    ensures value { result ≡ small_width text.now }
    ensures few { result ≤ 12 * length text.now }
{
    (6 * width(text)).div_ceil(7)
}

/// How many bytes the longest beginning of a name has that is at most this wide.
pub(crate) fn fitting(name: &[u8], room: u64) -> usize
    ensures value { result ≡ length (beginning_within room name.now) }
    ensures few { result ≤ length name.now }
{
    let mut left = room;
    let mut count = 0;
    for byte in name {
        let width = advance(*byte);
        if width > left {
            return count;
        }
        left -= width;
        count += 1;
    }
    count
}
