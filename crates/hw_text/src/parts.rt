//! The parts of a text with a byte between them: lines with LF, words with a space.

ghost use Rattle.std.specs.Prelude.{◌≡◌, ◌==◌, ◌<◌, [], ◌∷◌, length, MatchOption, IfSome, position, option_map, bytes_eq};
ghost use Rattle.hw_text.specs.Parts.{parts_of, first_part, at_end};

fn place_of(bytes: &[u8], at: u8) -> Option<usize>
    ensures { result ≡ position (λ b. b == at) bytes.now }
{
    bytes.iter().position(|b| *b == at)
}

/// The first part, and what stands after the byte that ends it; none where the byte does not
/// occur. It looks at no byte after that one.
pub fn cut(bytes: &[u8], at: u8) -> Option<(&[u8], &[u8])>
    ensures parts { MatchOption result (parts_of at bytes.now ≡ bytes.now ∷ []) (λ x. parts_of at bytes.now ≡ x.0.now ∷ parts_of at x.1.now) }
    ensures shorter { IfSome result (λ x. length x.1.now < length bytes.now) }
{
    match place_of(bytes, at) {
        None => None,
        Some(place) => {
            let (_, rest) = bytes.split_at(place + 1);
            Some((&bytes[..place], rest))
        }
    }
}

/// The next line without its end, and the bytes after its end; none where no LF is left.
pub fn cut_line(bytes: &[u8]) -> Option<(&[u8], &[u8])>
    ensures line { option_map (λ x. (x.0.now, parts_of 10 x.1.now)) result ≡ first_part (parts_of 10 bytes.now) }
    ensures shorter { IfSome result (λ x. length x.1.now < length bytes.now) }
{
    match cut(bytes, b'\n') {
        None => None,
        Some((line, rest)) => Some((line, rest)),
    }
}

/// Whether no byte is left after the last line.
pub fn is_end(bytes: &[u8]) -> bool
    ensures { result ≡ at_end (parts_of 10 bytes.now) }
{
    bytes.is_empty()
}

/// Whether the word is this text.
pub fn is_text(word: &[u8], text: &[u8]) -> bool
    ensures { result ≡ bytes_eq word.now text.now }
{
    let same = word == text;
    same
}
