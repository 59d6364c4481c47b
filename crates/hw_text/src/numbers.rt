//! Numbers in a text. Each has one spelling.

ghost use Rattle.std.specs.Prelude.{◌≡◌, ◌≤◌, ◌<◌, ◌^◌, ◌≤ℤ◌, pos, neg_ℤ, length, true, MatchOption, IfSome};
ghost use Rattle.std.specs.List.{list_all};
ghost use Rattle.std.specs.Str.Parse.{digits_value};
ghost use Rattle.hw_text.specs.Numbers.{number_up_to, number_from_to, signed_up_to, is_digit, is_number};

use std::str;

fn all_digits(word: &[u8]) -> bool
    ensures { result ≡ list_all is_digit word.now }
{
    word.iter().all(|b| 48 <= *b && *b <= 57)
}

fn is_plain(word: &[u8]) -> bool
    ensures { result ≡ is_number word.now }
{
    all_digits(word) && !word.is_empty() && (word.len() == 1 || 48 < word[0])
}

/// The number that digits spell, where it fits.
fn value(word: &[u8]) -> Option<u64>
    requires digits { list_all is_digit word.now ≡ true }
    requires some { 0 < length word.now }
    ensures { MatchOption result (2 ^ 64 ≤ digits_value 10 word.now) (λ n. n ≡ digits_value 10 word.now) }
{
    match str::from_utf8(word) {
        Ok(text) => text.parse::<u64>().ok(),
        Err(_) => None,
    }
}

/// The number that the word spells, where it is at most `most`.
pub fn read_number(word: &[u8], most: u64) -> Option<u64>
    ensures value { result ≡ number_up_to most word.now }
    ensures bound { IfSome result (λ n. n ≤ most) }
{
    if !is_plain(word) {
        return None;
    }
    match value(word) {
        Some(n) if n <= most => Some(n),
        _ => None,
    }
}

/// The number that the word spells, where it is from `least` to `most`.
pub fn read_small(word: &[u8], least: u32, most: u32) -> Option<u32>
    ensures value { result ≡ number_from_to least most word.now }
    ensures least { IfSome result (λ n. least ≤ n) }
    ensures most { IfSome result (λ n. n ≤ most) }
{
    match read_number(word, u64::from(most)) {
        Some(n) if u64::from(least) <= n => Some(n as u32),
        _ => None,
    }
}

/// The signed number that the word spells, where it is no further from 0 than `most`.
pub fn read_signed(word: &[u8], most: u32) -> Option<i32>
    requires { most < 2 ^ 31 }
    ensures value { result ≡ signed_up_to most word.now }
    ensures least { IfSome result (λ z. neg_ℤ (pos most) ≤ℤ z) }
    ensures most { IfSome result (λ z. z ≤ℤ pos most) }
{
    match word {
        [b'-', rest @ ..] => match read_small(rest, 1, most) {
            Some(n) => Some(-(n as i32)),
            None => None,
        },
        _ => match read_small(word, 0, most) {
            Some(n) => Some(n as i32),
            None => None,
        },
    }
}
