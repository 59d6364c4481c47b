//! Finding a word and taking the word at a place are inverse.

ghost use Rattle.hw_lexicon.specs.Laws.{FindsItsWord, IsWordFound, MissesAbsentWords};

/// Where the words differ, each is found at its own place.
pub fn finds_its_word()
    ensures { FindsItsWord }
{}

/// What is found at a place is the word there.
pub fn is_word_found()
    ensures { IsWordFound }
{}

/// Nothing is found exactly where no word equals what is looked for.
pub fn misses_absent_words()
    ensures { MissesAbsentWords }
{}
