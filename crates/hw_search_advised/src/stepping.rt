//! The steps of a solution with advice: a turn, and what comes between turns.

ghost use Rattle.std.specs.Prelude.{◌≡◌, ◌<◌};
ghost use Rattle.hw_search_advised.specs.Stepping.{CanGoOn, StepKeepsFaults, StepLooked, StepMeets};

use crate::advised::Advised;
use hw_cert::Log;
use hw_search_advice::Adviser;
use hw_search_laws::{Bounded, Closed, MOST_BUDGET, Proposed, Turn};
use hw_search_sources::AnyPropagator;
use hw_store::WatchStore;

/// The search of which a solution with advice is made.
pub type Prover<'f, A> = Advised<'f, WatchStore, AnyPropagator, A>;

/// What a step did. After the last three the search is over.
#[derive(Clone, Copy)]
pub enum Step {
    GoesOn,
    /// A line without literals was written.
    Ended,
    NoMemory,
    LogFailed,
}

/// Closes the search where its own bound lets it.
pub fn close<A: Adviser + Drop, L: Log>(search: &mut Prover<'_, A>, log: &mut L) -> Step
    requires goes { CanGoOn search.old (L.state log.old) }
    ensures step { StepMeets 0 search.old (L.state log.old) result search.new (L.state log.new) }
    ensures looked { StepLooked search.old result search.new }
    ensures kept { StepKeepsFaults result (L.state log.old) (L.state log.new) }
    ensures goes { result ≡ Step.GoesOn → CanGoOn search.new (L.state log.new) }
    ensures same_reference { L.anchor log.new ≡ L.anchor log.old }
{
    match search.close(log) {
        Closed::Open => Step::GoesOn,
        Closed::Ended => Step::Ended,
        Closed::NoMemory => Step::NoMemory,
        Closed::LogFailed => Step::LogFailed,
    }
}

/// Asks for a bound, and closes the search where that lets it.
pub fn look<A: Adviser + Drop, L: Log>(search: &mut Prover<'_, A>, log: &mut L) -> Step
    requires goes { CanGoOn search.old (L.state log.old) }
    ensures step { StepMeets 0 search.old (L.state log.old) result search.new (L.state log.new) }
    ensures looked { StepLooked search.old result search.new }
    ensures kept { StepKeepsFaults result (L.state log.old) (L.state log.new) }
    ensures goes { result ≡ Step.GoesOn → CanGoOn search.new (L.state log.new) }
    ensures same_reference { L.anchor log.new ≡ L.anchor log.old }
{
    match search.bound(log) {
        Bounded::Lower | Bounded::Same => close(search, log),
        Bounded::NoMemory => Step::NoMemory,
        Bounded::LogFailed => Step::LogFailed,
    }
}

// Asks for a timetable, and closes the search where that lets it.
fn ask_table<A: Adviser + Drop, L: Log>(search: &mut Prover<'_, A>, log: &mut L) -> Step
    requires goes { CanGoOn search.old (L.state log.old) }
    ensures step { StepMeets 0 search.old (L.state log.old) result search.new (L.state log.new) }
    ensures kept { StepKeepsFaults result (L.state log.old) (L.state log.new) }
    ensures goes { result ≡ Step.GoesOn → CanGoOn search.new (L.state log.new) }
    ensures same_reference { L.anchor log.new ≡ L.anchor log.old }
{
    match search.propose(log) {
        Proposed::Better => close(search, log),
        Proposed::Same => Step::GoesOn,
        Proposed::NoMemory => Step::NoMemory,
        Proposed::LogFailed => Step::LogFailed,
    }
}

// A turn. After a better timetable the search may be closed, and after a lemma it asks for a bound.
fn take_turn<A: Adviser + Drop, L: Log>(search: &mut Prover<'_, A>, log: &mut L) -> Step
    requires goes { CanGoOn search.old (L.state log.old) }
    requires few { search.old.lemmas < MOST_BUDGET }
    ensures step { StepMeets 1 search.old (L.state log.old) result search.new (L.state log.new) }
    ensures kept { StepKeepsFaults result (L.state log.old) (L.state log.new) }
    ensures same_reference { L.anchor log.new ≡ L.anchor log.old }
{
    match search.turn(log) {
        Turn::Decided => Step::GoesOn,
        Turn::Better => close(search, log),
        Turn::Lemma => look(search, log),
        Turn::Ended => Step::Ended,
        Turn::NoMemory => Step::NoMemory,
        Turn::LogFailed => Step::LogFailed,
    }
}

/// Asks for a timetable, and takes a turn.
pub fn proceed<A: Adviser + Drop, L: Log>(search: &mut Prover<'_, A>, log: &mut L) -> Step
    requires goes { CanGoOn search.old (L.state log.old) }
    requires few { search.old.lemmas < MOST_BUDGET }
    ensures step { StepMeets 1 search.old (L.state log.old) result search.new (L.state log.new) }
    ensures kept { StepKeepsFaults result (L.state log.old) (L.state log.new) }
    ensures same_reference { L.anchor log.new ≡ L.anchor log.old }
{
    match ask_table(search, log) {
        Step::GoesOn => take_turn(search, log),
        Step::Ended => Step::Ended,
        Step::NoMemory => Step::NoMemory,
        Step::LogFailed => Step::LogFailed,
    }
}
