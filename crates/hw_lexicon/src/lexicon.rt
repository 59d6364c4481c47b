//! A list of different words.

ghost use Rattle.std.specs.Prelude.{◌≡◌, ◌<◌, ◌^◌, IsTrue, Some, length, option_map};
ghost use Rattle.std.specs.List.{slice_get};
ghost use Rattle.hw_lexicon.specs.Words.{words_in, is_lexicon, find_from};

use hw_text::{Words, is_text};
use std::marker::Model;

/// A list of different nonempty words in one text, one space between two of them.
///
/// Contracts see it as the list of its words. Its calls take no memory.
#[derive(Drop)]
pub struct Lexicon<'w> {
    words: &'w [u8],
}

impl<'w> Model for Lexicon<'w> {
    ghost use Rattle.std.specs.Prelude.{ℕ, List, IsTrue};
    ghost use Rattle.hw_lexicon.specs.Words.{words_in, is_lexicon};

    ghost Value = { List (List ℕ) };

    ghost view = { λ s. words_in s.words.now };

    ghost invariant = { λ s. IsTrue (is_lexicon s.words.now) };
}

fn place_of(mut words: Words<'_>, word: &[u8]) -> Option<usize>
    requires { length words < 2 ^ 64 }
    ensures { result ≡ find_from 0 word.now words.entry }
{
    let mut place: usize = 0;
    while let Some(first) = words.word() {
        if is_text(first, word) {
            return Some(place);
        }
        place += 1;
    }
    None
}

fn word_at(mut words: Words<'_>, place: usize) -> Option<&[u8]>
    ensures { option_map (λ w. w.now) result ≡ slice_get words.entry place }
{
    for _ in 0..place {
        words.word()?;
    }
    words.word()
}

impl<'w> Lexicon<'w> {
    /// The lexicon of a constant text. The empty text has no words.
    pub fn new(words: &'w [u8]) -> Lexicon<'w>
        requires { IsTrue (is_lexicon words.now) }
        ensures { result ≡ words_in words.now }
    {
        Lexicon { words }
    }

    /// The place of a word, from 0, and none exactly where no word equals it.
    ///
    /// It goes through the text at most once. The laws `is_word_found`, `finds_its_word` and
    /// `misses_absent_words` say what the place is.
    pub fn find(&self, word: &[u8]) -> Option<usize>
        ensures { result ≡ find_from 0 word.now self.now }
    {
        if self.words.is_empty() {
            return None;
        }
        place_of(Words::of(self.words), word)
    }

    /// The word at a place. It goes through the words before it.
    pub fn word(&self, place: usize) -> &'w [u8]
        requires { place < length self.now }
        ensures { slice_get self.now place ≡ Some result.now }
    {
        match word_at(Words::of(self.words), place) {
            Some(word) => word,
            None => unreachable!(),
        }
    }
}
