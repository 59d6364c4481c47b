//! The keywords of a certificate.

ghost use Rattle.std.specs.Prelude.{◌≡◌, codes, bytes_eq};
ghost use Rattle.hw_cert.specs.Keywords.{key_words};

use hw_lexicon::{Lexicon, each_word};

/// The words that lines begin with, in the order of the forms, and that of the header.
pub fn keywords() -> Lexicon<'static>
    ensures { result ≡ key_words }
{
    Lexicon::new(b"t e o g l d n u y p b cert")
}

/// Whether the word is the header's.
pub fn is_header_word(word: &[u8]) -> bool
    ensures { result ≡ bytes_eq (codes "cert") word.now }
{
    each_word!(keywords().find(word); 11 => true, else false)
}
