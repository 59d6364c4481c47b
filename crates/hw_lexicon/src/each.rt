//! One arm for each word.

/// One arm for each word of a lexicon, by the word's place, and one for all others:
/// `each_word!(words.find(name); 0 => first, 1 => second, else other)`.
///
/// The arms may stand in any order; a place without an arm goes to the last one.
#[macro_export]
macro_rules! each_word {
    ($place:expr; $($word:literal => $arm:expr,)+ else $other:expr) => {
        match $place {
            $(Some($word) => $arm,)+
            _ => $other,
        }
    };
}
