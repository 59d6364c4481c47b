//! The words of reports.

ghost use Rattle.std.specs.Prelude.{◌≡◌};
ghost use Rattle.hw_report.specs.Words.{feed_text, flat_word_text, refused_word_text, form_word_text, check_word_text};

use crate::report::RefusedWord;
use hw_cert::{CheckWord, FormWord};
use hw_desk::Feed;
use hw_flat::FlatWord;

pub fn refused_word(word: RefusedWord) -> &'static [u8]
    ensures { result.now ≡ refused_word_text word }
{
    match word {
        RefusedWord::Form(word) => form_word(word),
        RefusedWord::Check(word) => check_word(word),
    }
}

pub fn form_word(word: FormWord) -> &'static [u8]
    ensures { result.now ≡ form_word_text word }
{
    match word {
        FormWord::Header => b"header",
        FormWord::Form => b"form",
        FormWord::Range => b"range",
        FormWord::Normal => b"normal",
    }
}

pub fn check_word(word: CheckWord) -> &'static [u8]
    ensures { result.now ≡ check_word_text word }
{
    match word {
        CheckWord::Ended => b"ended",
        CheckWord::Table => b"table",
        CheckWord::Worse => b"worse",
        CheckWord::Refute => b"refute",
        CheckWord::Hint => b"hint",
        CheckWord::Loose => b"loose",
        CheckWord::Conflict => b"conflict",
        CheckWord::Many => b"many",
        CheckWord::Dead => b"dead",
        CheckWord::Toll => b"toll",
        CheckWord::Due => b"due",
        CheckWord::Looser => b"looser",
    }
}

pub fn feed_name(feed: Feed) -> &'static [u8]
    ensures { result.now ≡ feed_text feed }
{
    match feed {
        Feed::Flat => b"flat",
        Feed::Instance => b"instance",
        Feed::Tides => b"tides",
        Feed::Certificate => b"certificate",
        Feed::Plan => b"plan",
        Feed::Events => b"events",
        Feed::Clash => b"clash",
        Feed::Split => b"split",
    }
}

pub fn flat_word(word: FlatWord) -> &'static [u8]
    ensures { result.now ≡ flat_word_text word }
{
    match word {
        FlatWord::Header => b"header",
        FlatWord::Size => b"size",
        FlatWord::Values => b"values",
        FlatWord::Rule => b"rule",
        FlatWord::Many => b"many",
        FlatWord::Tail => b"tail",
    }
}
