//! The encoding of a file's bytes.

ghost use Rattle.std.specs.Prelude.{◌≡◌};
ghost use Rattle.std.specs.Str.{is_utf8};
ghost use Rattle.hw_port_lint.specs.Encodings.{byte_at, encoding_of, instance_line, table_line};

/// How the bytes of a file look.
#[derive(Clone, Copy)]
pub enum Encoding {
    /// Plain UTF-8, of which ASCII is a part.
    Plain,
    /// A byte order mark of UTF-8 stands before the text.
    Marked,
    /// UTF-16, the low byte first: by its mark, or since the second byte is 0.
    LittleEndian,
    /// UTF-16, the high byte first: by its mark, or since the first byte is 0.
    BigEndian,
    /// No UTF-8: perhaps Latin-1.
    Other,
}

/// The byte of a place, or 256 past the end.
fn byte_at(bytes: &[u8], place: usize) -> u32
    ensures { result ≡ byte_at bytes.now place }
{
    match bytes.get(place) {
        Some(byte) => u32::from(*byte),
        None => 256,
    }
}

/// Whether bytes are UTF-8.
fn is_text(bytes: &[u8]) -> bool
    ensures { result ≡ is_utf8 bytes.now }
{
    str::from_utf8(bytes).is_ok()
}

/// How bytes look.
pub fn encoding_of(bytes: &[u8]) -> Encoding
    ensures { result ≡ encoding_of bytes.now }
{
    let first = byte_at(bytes, 0);
    let second = byte_at(bytes, 1);
    if first == 239 && second == 187 && byte_at(bytes, 2) == 191 {
        Encoding::Marked
    } else if first == 255 && second == 254 || second == 0 {
        Encoding::LittleEndian
    } else if first == 254 && second == 255 || first == 0 {
        Encoding::BigEndian
    } else if is_text(bytes) {
        Encoding::Plain
    } else {
        Encoding::Other
    }
}

/// The line on the encoding of an instance that is no JSON.
pub fn instance_line(encoding: Encoding) -> &'static [u8]
    ensures { result.now ≡ instance_line encoding }
{
    match encoding {
        Encoding::Plain => b"",
        Encoding::Marked => b"hint instance mark utf-8\n",
        Encoding::LittleEndian => b"hint instance utf-16 little endian\n",
        Encoding::BigEndian => b"hint instance utf-16 big endian\n",
        Encoding::Other => b"hint instance not utf-8\n",
    }
}

/// The line on the encoding of a tide table. A mark of UTF-8 is skipped there, and no cause of a refusal.
pub fn table_line(encoding: Encoding) -> &'static [u8]
    ensures { result.now ≡ table_line encoding }
{
    match encoding {
        Encoding::Plain | Encoding::Marked => b"",
        Encoding::LittleEndian => b"hint tides utf-16 little endian\n",
        Encoding::BigEndian => b"hint tides utf-16 big endian\n",
        Encoding::Other => b"hint tides not utf-8\n",
    }
}
