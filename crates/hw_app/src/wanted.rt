//! What a word of a form has to be: a keyword, a name or a number.

ghost use Rattle.std.specs.Prelude.{◌≡◌};
ghost use Rattle.hw_app.specs.Forms.{keyword_text, least_of, most_of};

use hw_desk::Feed;
use hw_model::{MOST_SHIPS, MOST_SLOTS};
use hw_search_laws::MOST_BUDGET;
use hw_split_choice::MOST_PARTS;

/// A word that stands for itself.
#[derive(Clone, Copy, PartialEq, Eq)]
pub enum Keyword {
    Solve,
    Prove,
    Resume,
    Split,
    Part,
    Join,
    Check,
    Verify,
    Chart,
    Table,
    Renew,
    Crew,
    Repair,
    Clash,
    Explain,
    Windows,
    Lint,
    Model,
    Opb,
    Audit,
    Carry,
    Flat,
    Port,
    Flatten,
    Demo,
}

/// What a number of a form counts.
#[derive(Clone, Copy, PartialEq, Eq)]
pub enum Quantity {
    /// Nothing: it names a demonstration.
    Demonstration,
    /// The ships of a demonstration.
    Ships,
    /// The slots of a demonstration.
    Slots,
    /// The lemmas of a search, at most.
    Budget,
    /// Nothing: it chooses a way through a search.
    Seed,
    /// How many parts a split has at most.
    Parts,
    /// The parts of a split, up to one.
    Part,
}

/// A value that a form asks for.
#[derive(Clone, Copy, PartialEq, Eq)]
pub enum Value {
    /// The name of an input.
    Input(Feed),
    /// The name of a certificate from which a search within a part goes on.
    Start,
    /// The name of certificates one after another.
    Certificates,
    /// The name of a split that is made.
    SplitMade,
    /// The name under which the proof is made.
    Proof,
    /// The letters of the searchers of a crew, in the order of their turns.
    Order,
    /// A number in plain decimal within the limits of what it counts.
    Number(Quantity),
}

/// What a word of a form has to be. No form asks twice for the same value.
#[derive(Clone, Copy, PartialEq, Eq)]
pub enum Wanted {
    Keyword(Keyword),
    Value(Value),
}

/// How a keyword is written.
pub fn keyword_text(keyword: Keyword) -> &'static str
    ensures { result.now ≡ keyword_text keyword }
{
    match keyword {
        Keyword::Solve => "solve",
        Keyword::Prove => "prove",
        Keyword::Resume => "resume",
        Keyword::Split => "split",
        Keyword::Part => "part",
        Keyword::Join => "join",
        Keyword::Check => "check",
        Keyword::Verify => "verify",
        Keyword::Chart => "chart",
        Keyword::Table => "table",
        Keyword::Renew => "renew",
        Keyword::Crew => "crew",
        Keyword::Repair => "repair",
        Keyword::Clash => "clash",
        Keyword::Explain => "explain",
        Keyword::Windows => "windows",
        Keyword::Lint => "lint",
        Keyword::Model => "model",
        Keyword::Opb => "opb",
        Keyword::Audit => "audit",
        Keyword::Carry => "carry",
        Keyword::Flat => "flat",
        Keyword::Port => "port",
        Keyword::Flatten => "flatten",
        Keyword::Demo => "demo",
    }
}

/// The least number of this kind.
pub fn least_of(quantity: Quantity) -> u32
    ensures { result ≡ least_of quantity }
{
    match quantity {
        Quantity::Demonstration | Quantity::Seed => 0,
        Quantity::Ships | Quantity::Slots | Quantity::Budget | Quantity::Parts | Quantity::Part =>
            1,
    }
}

/// The greatest number of this kind.
pub fn most_of(quantity: Quantity) -> u32
    ensures { result ≡ most_of quantity }
{
    match quantity {
        Quantity::Demonstration | Quantity::Seed | Quantity::Part => u32::MAX,
        Quantity::Ships => MOST_SHIPS,
        Quantity::Slots => MOST_SLOTS,
        Quantity::Budget => MOST_BUDGET,
        Quantity::Parts => MOST_PARTS,
    }
}
