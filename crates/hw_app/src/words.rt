//! The words of the command line, read by the table of forms.

ghost use Rattle.std.specs.Prelude.{◌≡◌, ◌≤◌, IfOk, length, map, string_bytes};
ghost use Rattle.hw_command_search.specs.Orders.{order_in};
ghost use Rattle.hw_subject.specs.Subjects.{origin_seen, plan_seen, topic_seen};
ghost use Rattle.hw_command_search.specs.Demo.{CanDraw};
ghost use Rattle.hw_app.specs.Commands.{KeepsLimits, command_by, command_in, command_of, command_seen, origin_in, part_in, read_seen, search_in, topic_in};
ghost use Rattle.hw_app.specs.Forms.{agreed, first_fitting, form_of_words, furthest, is_value, least_of, most_of, name_in_words, number_in_words, takes_word, word_in, word_where};

use crate::command::Command;
use crate::form::{
    AUDIT, CARRY, CHART, CHECK, CLASH, CREW, EXPLAIN, FLATTEN, FORMS, Form, JOIN, LINT, MODEL, OPB,
    PART, PROVE, RENEW, REPAIR, RESUME, SOLVE, SPLITS, TABLE, VERIFY, WINDOWS, words_of,
};
use crate::wanted::{Quantity, Value, Wanted, keyword_text, least_of, most_of};
use hw_command::PortNames;
use hw_command_search::{Draw, Order, Search};
use hw_command_split::{PartWords, SplitWords};
use hw_desk::Feed;
use hw_flat_programme::Format;
use hw_search::Branching;
use hw_subject::{Source, Subject};
use hw_text::read_small;

/// Whether a word is what is wanted.
fn takes(wanted: Wanted, word: &str) -> bool
    ensures { result ≡ takes_word wanted word.now }
{
    match wanted {
        Wanted::Keyword(keyword) => word == keyword_text(keyword),
        Wanted::Value(value) => is_value(value, word),
    }
}

/// Whether a word is a value of this kind.
fn is_value(value: Value, word: &str) -> bool
    ensures { result ≡ is_value value word.now }
{
    match value {
        Value::Input(_) | Value::Start | Value::Certificates | Value::SplitMade | Value::Proof =>
            !word.is_empty(),
        Value::Order => Order::read(word).is_some(),
        Value::Number(quantity) => {
            read_small(word.as_bytes(), least_of(quantity), most_of(quantity)).is_some()
        }
    }
}

/// How many of the words, from the first on, are what is wanted.
fn agreed(wanted: &[Wanted], words: &[String]) -> usize
    ensures count { result ≡ agreed wanted.now (map string_bytes words.now) }
    ensures few { result ≤ length words.now }
{
    match wanted {
        [] => 0,
        [first, more @ ..] => match words {
            [] => 0,
            [word, rest @ ..] => {
                if takes(*first, word.as_str()) {
                    agreed(more, rest) + 1
                } else {
                    0
                }
            }
        },
    }
}

/// The first of the forms that the words are of.
fn find_fitting(forms: &[Form], words: &[String]) -> Option<Form>
    ensures { result ≡ first_fitting forms.now (map string_bytes words.now) }
{
    match forms {
        [] => None,
        [form, more @ ..] => {
            let wanted = words_of(*form);
            if words.len() == wanted.len() && agreed(wanted, words) == wanted.len() {
                Some(*form)
            } else {
                find_fitting(more, words)
            }
        }
    }
}

/// How many of the words some form goes on with.
fn furthest(forms: &[Form], words: &[String]) -> usize
    ensures count { result ≡ furthest forms.now (map string_bytes words.now) }
    ensures few { result ≤ length words.now }
{
    match forms {
        [] => 0,
        [form, more @ ..] => agreed(words_of(*form), words).max(furthest(more, words)),
    }
}

/// The form that the words are of, or the place of the first bad word.
fn read_form(words: &[String]) -> Result<Form, u64>
    ensures { result ≡ form_of_words (map string_bytes words.now) }
{
    match find_fitting(&FORMS, words) {
        Some(form) => Ok(form),
        None => Err(furthest(&FORMS, words) as u64 + 1),
    }
}

/// The command that the words are, or the place of the first bad word, counted from 1. A missing word
/// has the place after the last one, and an extra word its own.
pub fn read_command(words: &[String]) -> Result<Command<'_>, u64>
    ensures command { read_seen result ≡ command_of (map string_bytes words.now) }
    ensures limits { IfOk result (λ command. KeepsLimits (command_seen command)) }
{
    match read_form(words) {
        Ok(form) => Ok(command_in(form, words)),
        Err(place) => Err(place),
    }
}

/// The command of a form that the words are of.
fn command_in(form: Form, words: &[String]) -> Command<'_>
    ensures command { command_seen result ≡ command_in form (map string_bytes words.now) }
    ensures limits { KeepsLimits (command_seen result) }
{
    command_by(words_of(form), form, words)
}

/// The same, by what the words of the form have to be.
fn command_by<'w>(wanted: &[Wanted], form: Form, words: &'w [String]) -> Command<'w>
    ensures command { command_seen result ≡ command_by wanted.now form (map string_bytes words.now) }
    ensures limits { KeepsLimits (command_seen result) }
{
    match wanted {
        [SOLVE | REPAIR, ..] => search_in(form, words, Search::Solve),
        [PROVE, ..] => {
            let seed = number_in(form, words, Quantity::Seed);
            search_in(form, words, Search::Prove { seed })
        }
        [CREW, ..] => {
            let order = order_in(form, words);
            search_in(form, words, Search::Crew { order })
        }
        [RESUME, ..] => Command::Resume {
            subject: subject_in(form, words),
            cert: input_in(form, words, Feed::Certificate),
            budget: number_in(form, words, Quantity::Budget),
            proof: name_in(form, words, Value::Proof),
        },
        [SPLITS, ..] => Command::Split {
            subject: subject_in(form, words),
            words: SplitWords {
                start: name_in(form, words, Value::Start),
                split: name_in(form, words, Value::SplitMade),
            },
            parts: number_in(form, words, Quantity::Parts),
        },
        [PART, ..] => part_in(form, words),
        [JOIN, ..] => Command::Join {
            subject: subject_in(form, words),
            split: input_in(form, words, Feed::Split),
            certs: name_in(form, words, Value::Certificates),
            proof: name_in(form, words, Value::Proof),
        },
        [CHECK, CLASH, REPAIR, ..] => Command::CheckClash {
            subject: subject_in(form, words),
            clash: input_in(form, words, Feed::Clash),
            cert: input_in(form, words, Feed::Certificate),
        },
        [CHECK, CLASH, ..] => Command::CheckClash {
            subject: Subject {
                of: source_in(form, words),
                plan: None,
            },
            clash: input_in(form, words, Feed::Plan),
            cert: input_in(form, words, Feed::Certificate),
        },
        [CHECK, ..] => Command::Check {
            subject: subject_in(form, words),
            cert: input_in(form, words, Feed::Certificate),
        },
        [VERIFY, ..] => Command::Verify {
            subject: subject_in(form, words),
            cert: input_in(form, words, Feed::Certificate),
        },
        [RENEW, ..] => Command::Renew {
            subject: subject_in(form, words),
            cert: input_in(form, words, Feed::Certificate),
            proof: name_in(form, words, Value::Proof),
        },
        [CHART, CLASH, ..] => Command::ChartClash {
            port: port_in(form, words),
            clash: input_in(form, words, Feed::Clash),
            cert: input_in(form, words, Feed::Certificate),
        },
        [CHART, ..] => Command::Chart {
            subject: subject_in(form, words),
            cert: input_in(form, words, Feed::Certificate),
        },
        [TABLE, ..] => Command::Table {
            subject: subject_in(form, words),
            cert: input_in(form, words, Feed::Certificate),
        },
        [CLASH, ..] => Command::Clash {
            subject: subject_in(form, words),
            budget: number_in(form, words, Quantity::Budget),
            proof: name_in(form, words, Value::Proof),
        },
        [EXPLAIN, REPAIR, ..] => Command::ExplainRepair {
            source: source_in(form, words),
            plan: input_in(form, words, Feed::Plan),
            cert: input_in(form, words, Feed::Certificate),
        },
        [EXPLAIN, ..] => Command::Explain {
            port: port_in(form, words),
        },
        [WINDOWS, ..] => Command::Windows {
            port: port_in(form, words),
        },
        [LINT, ..] => Command::Lint {
            port: port_in(form, words),
        },
        [MODEL, ..] => Command::Model {
            source: source_in(form, words),
            format: Format::Lp,
        },
        [OPB, ..] => Command::Model {
            source: source_in(form, words),
            format: Format::Opb,
        },
        [AUDIT, ..] => Command::Audit {
            port: port_in(form, words),
            plan: input_in(form, words, Feed::Plan),
            events: input_in(form, words, Feed::Events),
        },
        [CARRY, ..] => Command::Carry {
            port: port_in(form, words),
            plan: input_in(form, words, Feed::Plan),
            events: input_in(form, words, Feed::Events),
        },
        [FLATTEN, ..] => Command::Flatten {
            port: port_in(form, words),
        },
        _ => Command::Demo {
            draw: draw_in(form, words),
            budget: number_in(form, words, Quantity::Budget),
            proof: name_in(form, words, Value::Proof),
        },
    }
}

/// The word that stands where a value is wanted, or none where it isn't.
fn word_where<'w>(value: Value, wanted: &[Wanted], words: &'w [String]) -> Option<&'w str>
    ensures { plan_seen result ≡ word_where value wanted.now (map string_bytes words.now) }
{
    match wanted {
        [] => None,
        [first, more @ ..] => match words {
            [] => None,
            [word, rest @ ..] => match first {
                Wanted::Value(other) if *other == value => Some(word.as_str()),
                _ => word_where(value, more, rest),
            },
        },
    }
}

/// The form's word for a value, or none where it asks for no such value.
fn word_in(form: Form, words: &[String], value: Value) -> Option<&str>
    ensures { plan_seen result ≡ word_in form (map string_bytes words.now) value }
{
    word_where(value, words_of(form), words)
}

/// The name that it is, which is empty where the form asks for none.
fn name_in(form: Form, words: &[String], value: Value) -> &str
    ensures { result.now ≡ name_in_words form (map string_bytes words.now) value }
{
    match word_in(form, words, value) {
        Some(name) => name,
        None => "",
    }
}

/// The name of an input.
fn input_in(form: Form, words: &[String], feed: Feed) -> &str
    ensures { result.now ≡ name_in_words form (map string_bytes words.now) (Value.Input feed) }
{
    name_in(form, words, Value::Input(feed))
}

/// The names of a port's inputs.
fn port_in(form: Form, words: &[String]) -> PortNames<'_>
    ensures instance { result.instance.now ≡ name_in_words form (map string_bytes words.now) (Value.Input Feed.Instance) }
    ensures tides { result.tides.now ≡ name_in_words form (map string_bytes words.now) (Value.Input Feed.Tides) }
{
    PortNames {
        instance: input_in(form, words, Feed::Instance),
        tides: input_in(form, words, Feed::Tides),
    }
}

/// A flat text, where the form asks for one, or a port.
fn source_in(form: Form, words: &[String]) -> Source<'_>
    ensures { origin_seen result ≡ origin_in form (map string_bytes words.now) }
{
    match word_in(form, words, Value::Input(Feed::Flat)) {
        Some(name) => Source::Flat { name },
        None => Source::Port {
            names: port_in(form, words),
        },
    }
}

/// The same, or the repair of its plan, where the form asks for one.
fn subject_in(form: Form, words: &[String]) -> Subject<'_>
    ensures { topic_seen result ≡ topic_in form (map string_bytes words.now) }
{
    Subject {
        of: source_in(form, words),
        plan: word_in(form, words, Value::Input(Feed::Plan)),
    }
}

/// The order of a crew. It is one searcher with Greatest where the form asks for none.
fn order_in(form: Form, words: &[String]) -> Order
    ensures { result ≡ order_in (name_in_words form (map string_bytes words.now) Value.Order) }
{
    match Order::read(name_in(form, words, Value::Order)) {
        Some(order) => order,
        None => Order::one(Branching::Greatest),
    }
}

/// The number of this kind, and the least one where the form asks for none.
fn number_in(form: Form, words: &[String], quantity: Quantity) -> u32
    ensures number { result ≡ number_in_words form (map string_bytes words.now) quantity }
    ensures least { least_of quantity ≤ result }
    ensures most { result ≤ most_of quantity }
{
    let least = least_of(quantity);
    let name = name_in(form, words, Value::Number(quantity));
    match read_small(name.as_bytes(), least, most_of(quantity)) {
        Some(number) => number,
        None => least,
    }
}

/// The numbers of a demonstration.
fn draw_in(form: Form, words: &[String]) -> Draw
    ensures number { result.number ≡ number_in_words form (map string_bytes words.now) Quantity.Demonstration }
    ensures ships { result.ships ≡ number_in_words form (map string_bytes words.now) Quantity.Ships }
    ensures slots { result.slots ≡ number_in_words form (map string_bytes words.now) Quantity.Slots }
    ensures size { CanDraw result.ships result.slots }
{
    Draw {
        number: number_in(form, words, Quantity::Demonstration),
        ships: number_in(form, words, Quantity::Ships),
        slots: number_in(form, words, Quantity::Slots),
    }
}

/// A search of the form's subject.
fn search_in(form: Form, words: &[String], how: Search) -> Command<'_>
    ensures command { command_seen result ≡ search_in form (map string_bytes words.now) how }
    ensures limits { KeepsLimits (command_seen result) }
{
    Command::Search {
        subject: subject_in(form, words),
        how,
        budget: number_in(form, words, Quantity::Budget),
        proof: name_in(form, words, Value::Proof),
    }
}

/// A search within a part of the form's subject.
fn part_in(form: Form, words: &[String]) -> Command<'_>
    ensures command { command_seen result ≡ part_in form (map string_bytes words.now) }
    ensures limits { KeepsLimits (command_seen result) }
{
    Command::Part {
        subject: subject_in(form, words),
        words: PartWords {
            split: input_in(form, words, Feed::Split),
            number: number_in(form, words, Quantity::Part),
            start: name_in(form, words, Value::Start),
            proof: name_in(form, words, Value::Proof),
        },
        budget: number_in(form, words, Quantity::Budget),
    }
}
