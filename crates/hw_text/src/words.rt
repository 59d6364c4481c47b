//! A cursor over the words of a line.

ghost use Rattle.std.specs.Prelude.{◌≡◌, ◌≤◌, ◌+◌, ◌∷◌, ◌≢◌, [], length, MatchOption};
ghost use Rattle.hw_text.specs.Parts.{parts_of, words_of};

use crate::parts::cut;
use std::marker::Model;

/// The words that are still to be read, with one byte between two of them.
///
/// Contracts see it as the list of these words. Its calls take no memory, and look at each byte
/// once.
#[derive(Drop)]
pub struct Words<'t> {
    between: u8,
    left: Option<&'t [u8]>,
}

impl<'t> Model for Words<'t> {
    ghost use Rattle.std.specs.Prelude.{ℕ, List};
    ghost use Rattle.hw_text.specs.Parts.{left_parts};

    ghost Value = { List (List ℕ) };

    ghost view = { λ s. left_parts s.between s.left };
}

impl<'t> Words<'t> {
    /// The words of a line, with a space between two of them. There is always one.
    pub fn of(line: &'t [u8]) -> Words<'t>
        ensures words { result ≡ words_of line.now }
        ensures few { length result ≤ length line.now + 1 }
    {
        Words::parted_by(b' ', line)
    }

    /// The parts of a text with this byte between two of them. There is always one.
    pub fn parted_by(between: u8, text: &'t [u8]) -> Words<'t>
        ensures parts { result ≡ parts_of between text.now }
        ensures few { length result ≤ length text.now + 1 }
    {
        Words {
            between,
            left: Some(text),
        }
    }

    /// The next word; none where none is left.
    pub fn word(&mut self) -> Option<&'t [u8]>
        ensures { MatchOption result ((self.old ≡ []) × (self.new ≡ [])) (λ word. self.old ≡ word.now ∷ self.new) }
    {
        let text = self.left?;
        match cut(text, self.between) {
            Some((word, rest)) => {
                self.left = Some(rest);
                Some(word)
            }
            None => {
                self.left = None;
                Some(text)
            }
        }
    }

    /// Nothing, where no word is left.
    pub fn end(&self) -> Option<()>
        ensures { MatchOption result (self.now ≢ []) (λ _. self.now ≡ []) }
    {
        match self.left {
            None => Some(()),
            Some(_) => None,
        }
    }
}
