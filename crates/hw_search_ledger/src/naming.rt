//! The reasons of a lemma and its conflict, named by the numbers of their lines.

ghost use Rattle.std.specs.Prelude.{◌≡◌, ◌+◌, ◌^◌, ◌<◌, [], ◌∷◌, ◌++◌, All, IfErr, IfOk, OnOk, length};
ghost use Rattle.hw_cert.specs.declared.log.LogStop.TheVariants.{NoMemory};
ghost use Rattle.hw_cert.specs.Logs.{IsWhole};
ghost use Rattle.hw_search_ledger.specs.Ledgers.{GivesAtMost};
ghost use Rattle.hw_search_ledger.specs.Naming.{EachOfProblem, HandsConflict, HandsReasons, IsOfProblem, NamesConflict, NamesReasons};

use crate::handing::{hand_why, known_number};
use crate::ledger::Ledger;
use hw_cert::{Log, LogStop};
use hw_flat::Flat;
use hw_trail::Trail;
use hw_trail_laws::Why;

// Names one more number.
fn push_hint(hints: &mut Vec<u32>, number: u32) -> Result<(), LogStop>
    ensures named { OnOk result (hints.new.items ≡ hints.old.items ++ number ∷ []) }
    ensures memory { IfErr result (λ stop. stop ≡ NoMemory) }
{
    hints.push(number)?;
    Ok(())
}

impl Ledger {
    // Names the reason of the event at a place, and writes it where it has no line yet. A decision
    // has none. After a stop fewer numbers were given, and one may have been lost.
    fn name_reason<L: Log>(
        &mut self,
        flat: &Flat,
        trail: &Trail,
        place: u32,
        hints: &mut Vec<u32>,
        log: &mut L,
    ) -> Result<(), LogStop>
        requires place_in { place < length trail.now.events }
        requires each_event { length self.old.written ≡ length trail.now.events }
        requires sources { EachOfProblem flat.now trail.now }
        requires few { self.old.clause_lines + 1 < 2 ^ 32 }
        requires whole { IsWhole (L.state log.old) }
        ensures lines { HandsReasons flat.now trail.now self.old hints.old.items (place ∷ []) (L.state log.old) (L.state log.new) result }
        ensures names { NamesReasons flat.now trail.now self.old hints.old.items (place ∷ []) self.new hints.new.items result }
        ensures gives { GivesAtMost 1 self.old self.new }
        ensures same_reference { L.anchor log.new ≡ L.anchor log.old }
    {
        let event = trail.event(place);
        let Some(why) = &event.why else {
            return Ok(());
        };
        match known_number(why, self.number_at(place)) {
            Some(number) => push_hint(hints, number),
            None => {
                hand_why(self.alloc, flat, why, log)?;
                let number = self.give_reason(place);
                push_hint(hints, number)
            }
        }
    }

    /// Names the reasons of the events at these places, in order, and writes each that has no line
    /// yet. After a stop fewer numbers were given, and one may have been lost.
    pub(crate) fn name_reasons<L: Log>(
        &mut self,
        flat: &Flat,
        trail: &Trail,
        places: &[u32],
        hints: &mut Vec<u32>,
        log: &mut L,
    ) -> Result<(), LogStop>
        requires places_in { All (λ place. place < length trail.now.events) places.now }
        requires each_event { length self.old.written ≡ length trail.now.events }
        requires sources { EachOfProblem flat.now trail.now }
        requires few { self.old.clause_lines + length places.now < 2 ^ 32 }
        requires whole { IsWhole (L.state log.old) }
        ensures lines { HandsReasons flat.now trail.now self.old hints.old.items places.now (L.state log.old) (L.state log.new) result }
        ensures names { NamesReasons flat.now trail.now self.old hints.old.items places.now self.new hints.new.items result }
        ensures gives { GivesAtMost (length places.now) self.old self.new }
        ensures same_reference { L.anchor log.new ≡ L.anchor log.old }
    {
        for place in places {
            self.name_reason(flat, trail, *place, hints, log)?;
        }
        Ok(())
    }

    /// Names a conflict, and writes it where it is no stored lemma. Returns the number of that line.
    pub(crate) fn name_conflict<L: Log>(
        &mut self,
        flat: &Flat,
        why: &Why,
        hints: &mut Vec<u32>,
        log: &mut L,
    ) -> Result<Option<u32>, LogStop>
        requires source { IsOfProblem flat.now why.now }
        requires few { self.old.clause_lines + 1 < 2 ^ 32 }
        requires whole { IsWhole (L.state log.old) }
        ensures lines { HandsConflict flat.now hints.old.items why.now (L.state log.old) (L.state log.new) result }
        ensures names { IfOk result (NamesConflict self.old hints.old.items why.now self.new hints.new.items) }
        ensures gives { GivesAtMost 1 self.old self.new }
        ensures same_reference { L.anchor log.new ≡ L.anchor log.old }
    {
        match known_number(why, None) {
            Some(number) => {
                push_hint(hints, number)?;
                Ok(None)
            }
            None => {
                hand_why(self.alloc, flat, why, log)?;
                let number = self.give();
                push_hint(hints, number)?;
                Ok(Some(number))
            }
        }
    }
}
