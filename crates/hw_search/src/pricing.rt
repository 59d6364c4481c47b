//! Tolls, tariffs and bounds that are told, and literals that prices imply.

ghost use Rattle.std.specs.Prelude.{◌≡◌, ◌<◌, ◌≤◌, true, false, OnOk, length};
ghost use Rattle.std.specs.Option.{option_copied};
ghost use Rattle.hw_model.specs.declared.lit.LitTruth.TheVariants.{Free};
ghost use Rattle.hw_model.specs.declared.narrowing.Narrowed.TheVariants.{Cut as CutBy};
ghost use Rattle.hw_model.specs.Lits.{lit_fits, IsClause};
ghost use Rattle.hw_model.specs.Narrowing.{truth};
ghost use Rattle.hw_model.specs.Problem.{shape_of};
ghost use Rattle.hw_model.specs.Replay.{narrowing};
ghost use Rattle.hw_trail_laws.specs.Trails.{trail_shape};
ghost use Rattle.hw_price_laws.specs.Tolls.{IsToll};
ghost use Rattle.hw_price_laws.specs.Prices.{TariffFits};
ghost use Rattle.hw_cert.specs.Logs.{WhereTold};
ghost use Rattle.hw_search_laws.specs.Prices.{with_tariff, prices_with_toll, DuesAscend};
ghost use Rattle.hw_search_laws.specs.Searches.{best_cargo, room_in, IsSearch, LogFits, PricesShow};
ghost use Rattle.hw_search_laws.specs.Advised.{with_priced};
ghost use Rattle.hw_search.specs.Pricing.{standing_of, with_other_prices, HeedMeets, IsBelow, ShowsBound, TellMeets};

use crate::engine::Engine;
use hw_cert::{Log, LogStop};
use hw_lits::Clause;
use hw_model::{Lit, MOST_CARGO};
use hw_price_laws::{MOST_TOLLS, Tariff, Toll};
use hw_prop::Propagator;
use hw_search_advice::{Scene, Standing};
use hw_search_laws::{MOST_BUDGET, MOST_PRICED};
use hw_search_ledger::{hand_bound, hand_priced, hand_tariff, hand_toll};
use hw_store::Store;
use hw_trail_laws::Why;

impl<'f, S: Store + Drop, P: Propagator + Drop> Engine<'f, S, P> {
    /// What an adviser looks at.
    pub fn scene(&self) -> Scene<'_>
        ensures flat { result.flat.now ≡ self.now.search.problem }
        ensures best { result.best ≡ best_cargo self.now.search }
        ensures room { result.room.now ≡ room_in self.now.search }
        ensures tolls { result.tolls.now ≡ self.now.search.prices.tolls }
        ensures tariff { option_copied result.tariff ≡ self.now.search.prices.tariff }
        ensures standing { result.standing ≡ standing_of self.now.search }
        ensures search { IsSearch self.now.search }
    {
        Scene {
            flat: self.flat,
            best: self.best.worth,
            room: self.trail.room(),
            tolls: &self.prices.tolls,
            tariff: self.prices.tariff.as_ref(),
            standing: Standing {
                lemmas: self.lemmas,
                restarts: self.restarts,
                level: self.trail.level(),
            },
        }
    }

    /// Declares a toll. Its memory is taken before its line is written.
    pub fn declare<L: Log>(&mut self, toll: Toll, log: &mut L) -> Result<(), LogStop>
        requires toll { IsToll self.old.search.problem toll }
        requires few { length self.old.search.prices.tolls < MOST_TOLLS }
        requires fits { WhereTold (L.state log.old) (λ told. LogFits told self.old.search) }
        ensures search { OnOk result (self.new.search ≡ with_other_prices self.old.search (prices_with_toll self.old.search.prices toll)) }
        ensures heeds { HeedMeets self.old.search self.new.search (L.state log.old) (L.state log.new) result }
        ensures same_reference { L.anchor log.new ≡ L.anchor log.old }
    {
        let Ok(()) = self.prices.tolls.reserve(1) else {
            return Err(LogStop::NoMemory);
        };
        hand_toll(self.alloc, &toll, log)?;
        self.prices.tolls.push_reserved(toll);
        Ok(())
    }

    /// Puts a tariff on the declared tolls in force.
    pub fn put_in_force<L: Log>(&mut self, tariff: Tariff, log: &mut L) -> Result<(), LogStop>
        requires tariff { TariffFits (length self.old.search.prices.tolls) tariff }
        requires ascend { DuesAscend tariff }
        requires fits { WhereTold (L.state log.old) (λ told. LogFits told self.old.search) }
        ensures search { OnOk result (self.new.search ≡ with_other_prices self.old.search (with_tariff self.old.search.prices tariff)) }
        ensures heeds { HeedMeets self.old.search self.new.search (L.state log.old) (L.state log.new) result }
        ensures same_reference { L.anchor log.new ≡ L.anchor log.old }
    {
        hand_tariff(self.alloc, &tariff, log)?;
        self.prices.change_to(tariff);
        Ok(())
    }

    /// Takes a literal that a clause of the prices in force implies, and writes the clause's line.
    pub fn imply_priced<L: Log>(
        &mut self,
        lit: Lit,
        clause: Clause,
        log: &mut L,
    ) -> Result<(), LogStop>
        requires clause { IsClause (shape_of self.old.search.problem) clause }
        requires shows { PricesShow self.old.search clause }
        requires lit { lit_fits (trail_shape self.old.search.trail) lit ≡ true }
        requires free { truth (room_in self.old.search) lit ≡ Free }
        requires only { narrowing clause (room_in self.old.search) ≡ CutBy lit }
        requires going { self.old.search.over ≡ false }
        requires few { self.old.search.lemmas < MOST_BUDGET }
        requires few_priced { self.old.search.priced < MOST_PRICED }
        requires fits { WhereTold (L.state log.old) (λ told. LogFits told self.old.search) }
        ensures search { OnOk result (self.new.search ≡ with_priced self.old.search lit clause) }
        ensures heeds { HeedMeets self.old.search self.new.search (L.state log.old) (L.state log.new) result }
        ensures same_reference { L.anchor log.new ≡ L.anchor log.old }
    {
        hand_priced(self.alloc, &clause, log)?;
        self.store.changed(self.trail.room(), lit);
        self.trail.imply(lit, Why::Priced { clause });
        self.ledger.add_written();
        self.priced += 1;
        self.marks.mark(self.speakers.of(lit));
        Ok(())
    }

    /// Writes a bound that the prices in force show.
    pub fn tell_bound<L: Log>(&mut self, bound: u64, log: &mut L) -> Result<(), LogStop>
        requires small { bound ≤ MOST_CARGO }
        requires below { IsBelow self.old.search bound }
        requires shows { ShowsBound self.old.search bound }
        requires fits { WhereTold (L.state log.old) (λ told. LogFits told self.old.search) }
        ensures tells { TellMeets self.old.search bound self.new.search (L.state log.old) (L.state log.new) result }
        ensures same_reference { L.anchor log.new ≡ L.anchor log.old }
    {
        let _ = &self.trail;
        hand_bound(bound, log)?;
        self.prices.lower_to(bound);
        Ok(())
    }
}
