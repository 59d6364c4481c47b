//! Keyword tables: a list of different words in one constant text, found by word and by place.
#![tactic(auto)]

mod each;
mod laws;
mod lexicon;

pub use laws::{finds_its_word, is_word_found, misses_absent_words};
pub use lexicon::Lexicon;
