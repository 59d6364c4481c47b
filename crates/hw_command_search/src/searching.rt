//! A search whose lines go to Proof.

ghost use Rattle.std.specs.Prelude.{◌≡◌, ◌≤◌, false, true};
ghost use Rattle.hw_cert.specs.Logs.{IsEmpty, outside_of};
ghost use Rattle.hw_cert.specs.Told.{is_told, log_of};
ghost use Rattle.hw_cert.specs.declared.version.Version.TheVariants.{Two, Three};
ghost use Rattle.hw_search_laws.specs.Proving.{ProveMeets};
ghost use Rattle.hw_search_laws.specs.Solving.{SolveMeets};
ghost use Rattle.hw_search.specs.Faults.{SolvedKeepsFaults};
ghost use Rattle.hw_turns.specs.Working.{CrewMeets};
ghost use Rattle.hw_command_search.specs.Searchers.{searcher_of};
ghost use Rattle.hw_command_search.specs.Searching.{SearchesOn, SearchesTo};

use crate::finding::{Found, found_by_crew, found_of};
use crate::order::Order;
use crate::searcher::Search;
use hw_cert::{TrayLog, Version, send_header};
use hw_desk::{Desk, Tray};
use hw_flat::Flat;
use hw_price_adviser::PricingAdviser;
use hw_search::{Solved, solve};
use hw_search_advised::{Proved, prove};
use hw_search_laws::MOST_BUDGET;
use hw_turns::{Crewed, crew};
use std::alloc::Global;

/// Makes Proof under a name and searches, each line sent there as it is found. After a failed make or a
/// failed write there is no answer.
pub(crate) fn search_to<D: Desk>(
    alloc: Global,
    desk: &mut D,
    flat: &Flat,
    how: &Search,
    budget: u32,
    name: &str,
) -> Option<Found>
    requires least { 1 ≤ budget }
    requires most { budget ≤ MOST_BUDGET }
    requires fresh { ((D.state desk.old).trays Tray.Proof).made ≡ false }
    ensures { SearchesTo (searcher_of how.now) flat.now budget name.now (D.state desk.old) (D.state desk.new) result }
{
    if desk.make(Tray::Proof, name).is_err() {
        return None;
    }
    if send_header(desk, how.version()).is_err() {
        return None;
    }
    search_on(alloc, desk, flat, how, budget)
}

/// Searches, each line sent to Proof, which holds the header of a certificate.
fn search_on<D: Desk>(
    alloc: Global,
    desk: &mut D,
    flat: &Flat,
    how: &Search,
    budget: u32,
) -> Option<Found>
    requires least { 1 ≤ budget }
    requires most { budget ≤ MOST_BUDGET }
    requires made { ((D.state desk.old).trays Tray.Proof).made ≡ true }
    requires told { is_told (searcher_of how.now).version ((D.state desk.old).trays Tray.Proof).sent ≡ true }
    requires empty { IsEmpty (log_of (searcher_of how.now).version (D.state desk.old)) }
    ensures meets { SearchesOn (searcher_of how.now) flat.now budget (D.state desk.old) result (D.state desk.new) }
    ensures told { is_told (searcher_of how.now).version ((D.state desk.new).trays Tray.Proof).sent ≡ true }
    ensures outside { outside_of (D.state desk.new) ≡ outside_of (D.state desk.old) }
{
    match how {
        Search::Solve => found_of(budget, solve_on(alloc, desk, flat, budget), None),
        Search::Prove { seed } => {
            let Proved { solved, bound } = prove_on(alloc, desk, flat, budget, *seed);
            found_of(budget, solved, bound)
        }
        Search::Crew { order } => found_by_crew(budget, crew_on(alloc, desk, flat, order, budget)),
    }
}

/// One searcher.
fn solve_on<D: Desk>(alloc: Global, desk: &mut D, flat: &Flat, budget: u32) -> Solved
    requires least { 1 ≤ budget }
    requires most { budget ≤ MOST_BUDGET }
    requires made { ((D.state desk.old).trays Tray.Proof).made ≡ true }
    requires told { is_told Two ((D.state desk.old).trays Tray.Proof).sent ≡ true }
    requires empty { IsEmpty (log_of Two (D.state desk.old)) }
    ensures solves { SolveMeets flat.now budget (log_of Two (D.state desk.old)) result (log_of Two (D.state desk.new)) }
    ensures kept { SolvedKeepsFaults result (log_of Two (D.state desk.old)) (log_of Two (D.state desk.new)) }
    ensures told { is_told Two ((D.state desk.new).trays Tray.Proof).sent ≡ true }
    ensures outside { outside_of (D.state desk.new) ≡ outside_of (D.state desk.old) }
{
    let mut log = TrayLog::over(desk, Version::Two);
    solve(alloc, flat, budget, &mut log)
}

/// One searcher that prices on tolls advise, by the way that the seed chooses.
fn prove_on<D: Desk>(alloc: Global, desk: &mut D, flat: &Flat, budget: u32, seed: u32) -> Proved
    requires least { 1 ≤ budget }
    requires most { budget ≤ MOST_BUDGET }
    requires made { ((D.state desk.old).trays Tray.Proof).made ≡ true }
    requires told { is_told Three ((D.state desk.old).trays Tray.Proof).sent ≡ true }
    requires empty { IsEmpty (log_of Three (D.state desk.old)) }
    ensures proves { ProveMeets flat.now budget (log_of Three (D.state desk.old)) result.solved result.bound (log_of Three (D.state desk.new)) }
    ensures kept { SolvedKeepsFaults result.solved (log_of Three (D.state desk.old)) (log_of Three (D.state desk.new)) }
    ensures told { is_told Three ((D.state desk.new).trays Tray.Proof).sent ≡ true }
    ensures outside { outside_of (D.state desk.new) ≡ outside_of (D.state desk.old) }
{
    let mut log = TrayLog::over(desk, Version::Three);
    let adviser = PricingAdviser::new(budget, seed);
    prove(alloc, flat, budget, adviser, &mut log)
}

/// Several searchers, which take turns in an order.
fn crew_on<D: Desk>(alloc: Global, desk: &mut D, flat: &Flat, order: &Order, budget: u32) -> Crewed
    requires least { 1 ≤ budget }
    requires most { budget ≤ MOST_BUDGET }
    requires made { ((D.state desk.old).trays Tray.Proof).made ≡ true }
    requires told { is_told Two ((D.state desk.old).trays Tray.Proof).sent ≡ true }
    requires empty { IsEmpty (log_of Two (D.state desk.old)) }
    ensures crews { CrewMeets flat.now order.now budget (log_of Two (D.state desk.old)) result (log_of Two (D.state desk.new)) }
    ensures told { is_told Two ((D.state desk.new).trays Tray.Proof).sent ≡ true }
    ensures outside { outside_of (D.state desk.new) ≡ outside_of (D.state desk.old) }
{
    let rules = order.rules();
    let mut log = TrayLog::over(desk, Version::Two);
    crew(alloc, flat, rules, budget, &mut log)
}
