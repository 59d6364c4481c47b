//! The words of a form as a text for people: `solve flat NAME BUDGET PROOF`.

ghost use Rattle.std.specs.Prelude.{◌≡◌};
ghost use Rattle.hw_desk.specs.Writers.{Puts};
ghost use Rattle.hw_app.specs.Usage.{input_text, quantity_text, usage_text, usage_value_text, wanted_text, words_text};

use crate::form::{Form, words_of};
use crate::wanted::{Quantity, Value, Wanted, keyword_text};
use hw_desk::{Feed, Writer};

/// Puts the words of a form: its keywords, and a name in capitals for each other word.
pub fn put_usage<W: Writer>(out: &mut W, form: Form)
    ensures { Puts (usage_text form) (W.state out.old) (W.state out.new) }
{
    put_words(out, words_of(form));
}

/// Puts some words, with a space between two.
fn put_words<W: Writer>(out: &mut W, words: &[Wanted])
    ensures { Puts (words_text words.now) (W.state out.old) (W.state out.new) }
{
    match words {
        [] => {}
        [last] => out.put(wanted_text(*last).as_bytes()),
        [word, more @ ..] => {
            out.put(wanted_text(*word).as_bytes());
            out.put(b" ");
            put_words(out, more);
        }
    }
}

fn wanted_text(wanted: Wanted) -> &'static str
    ensures { result.now ≡ wanted_text wanted }
{
    match wanted {
        Wanted::Keyword(keyword) => keyword_text(keyword),
        Wanted::Value(value) => value_text(value),
    }
}

fn value_text(value: Value) -> &'static str
    ensures { result.now ≡ usage_value_text value }
{
    match value {
        Value::Input(feed) => input_text(feed),
        Value::Start => "START",
        Value::Certificates => "CERTS",
        Value::SplitMade => "SPLIT",
        Value::Proof => "PROOF",
        Value::Order => "ORDER",
        Value::Number(quantity) => quantity_text(quantity),
    }
}

fn input_text(feed: Feed) -> &'static str
    ensures { result.now ≡ input_text feed }
{
    match feed {
        Feed::Flat => "NAME",
        Feed::Instance => "INSTANCE",
        Feed::Tides => "TIDES",
        Feed::Certificate => "CERT",
        Feed::Plan => "PLAN",
        Feed::Events => "EVENTS",
        Feed::Clash => "CLASH",
        Feed::Split => "SPLIT",
    }
}

fn quantity_text(quantity: Quantity) -> &'static str
    ensures { result.now ≡ quantity_text quantity }
{
    match quantity {
        Quantity::Demonstration => "NUMBER",
        Quantity::Ships => "SHIPS",
        Quantity::Slots => "SLOTS",
        Quantity::Budget => "BUDGET",
        Quantity::Seed => "SEED",
        Quantity::Parts => "PARTS",
        Quantity::Part => "NUMBER",
    }
}
