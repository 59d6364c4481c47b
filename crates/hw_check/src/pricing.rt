//! Why a line on tolls or prices isn't valid, by the tolls, the tariff in force and the bound that
//! are kept.

ghost use Rattle.std.specs.Prelude.{◌≡◌, nat_lt, find, length, option_map, IfOk};
ghost use Rattle.hw_model.specs.Problem.{shape_of};
ghost use Rattle.hw_model.specs.Lits.{IsClause};
ghost use Rattle.hw_model.specs.Rooms.{RoomFits, whole_room};
ghost use Rattle.hw_cert_lines.specs.Refusals as refusals;
ghost use Rattle.hw_price_tests.specs.PriceStates.{AreGood, tariff_in_force};

use crate::refusing::{deny_in, refused, refused_at};
use hw_cert_lines::{CheckWord, Refusal};
use hw_flat::{Flat, Room};
use hw_lits::Clause;
use hw_model::NoMemory;
use hw_price_laws::{Due, MOST_TOLLS, Toll};
use hw_price_tests::PriceBook;
use std::alloc::Global;

/// Why a line declares no toll after those that are declared. An error says that memory ran out.
pub(crate) fn toll_refusal(
    alloc: Global,
    flat: &Flat,
    prices: &mut PriceBook,
    toll: &Toll,
) -> Result<Option<Refusal>, NoMemory>
    ensures value { IfOk result (λ refusal. refusal ≡ refusals.toll_refusal flat.now prices.old.tolls toll.now) }
    ensures same { prices.new ≡ prices.old }
{
    if prices.count() >= MOST_TOLLS {
        return Ok(refused(CheckWord::Many));
    }
    if prices.is_toll(alloc, flat, toll)? {
        Ok(None)
    } else {
        Ok(refused(CheckWord::Toll))
    }
}

/// Why prices on these tolls aren't put in force: the first number that no toll has.
pub(crate) fn tariff_refusal(prices: &PriceBook, dues: &[Due]) -> Option<Refusal>
    ensures value { result ≡ refusals.tariff_refusal (refusals.first_unknown (length prices.now.tolls) dues.now) }
{
    match on_unknown(prices.count(), dues) {
        None => None,
        Some(due) => refused_at(CheckWord::Due, due.toll),
    }
}

/// The first price on a number that none of this many tolls has.
fn on_unknown(count: usize, dues: &[Due]) -> Option<Due>
    ensures value { result ≡ find (λ due. nat_lt count due.toll) dues.now }
{
    dues.iter().copied().find(|due| count < due.toll as usize)
}

/// Why the prices in force don't refute the denied room of a clause. The room is overwritten.
pub(crate) fn priced_refusal(
    flat: &Flat,
    prices: &PriceBook,
    best: Option<u64>,
    clause: &Clause,
    room: &mut Room,
) -> Option<Refusal>
    requires clause { IsClause (shape_of flat.now) clause.now }
    requires good { AreGood flat.now prices.now }
    requires room { RoomFits flat.now room.old }
    ensures value { result ≡ refusals.priced_refusal flat.now prices.now.tolls best clause.now (tariff_in_force prices.now) }
    ensures room { RoomFits flat.now room.new }
{
    deny_in(flat, clause, room);
    match prices.refutes(flat, best, room) {
        None => refused(CheckWord::Due),
        Some(true) => None,
        Some(false) => refused(CheckWord::Refute),
    }
}

/// Why the prices in force don't show a bound that is below the last one. The room is overwritten.
pub(crate) fn bound_refusal(
    flat: &Flat,
    prices: &PriceBook,
    bound: u64,
    room: &mut Room,
) -> Option<Refusal>
    requires good { AreGood flat.now prices.now }
    requires room { RoomFits flat.now room.old }
    ensures value { result ≡ refusals.bound_refusal flat.now prices.now.tolls bound prices.now.bound (tariff_in_force prices.now) }
    ensures room { RoomFits flat.now room.new }
{
    open(flat, room);
    match bounds(flat, prices, bound, room) {
        None => refused(CheckWord::Due),
        Some(false) => refused(CheckWord::Refute),
        Some(true) => lower_refusal(bound, prices.bound()),
    }
}

/// Why a bound that the prices show isn't below the last one.
fn lower_refusal(bound: u64, last: Option<u64>) -> Option<Refusal>
    ensures value { result ≡ refusals.lower_refusal bound last }
{
    match last {
        None => None,
        Some(last) => if bound < last {
            None
        } else {
            refused(CheckWord::Looser)
        },
    }
}

/// Whether cargo counts in the prices in force, and they leave the whole room no more than the bound;
/// none where no tariff is in force.
fn bounds(flat: &Flat, prices: &PriceBook, bound: u64, whole: &Room) -> Option<bool>
    requires good { AreGood flat.now prices.now }
    requires whole { whole.now ≡ whole_room (shape_of flat.now) }
    requires room { RoomFits flat.now whole.now }
    ensures value { result ≡ option_map (λ tariff. refusals.bounds flat.now prices.now.tolls tariff bound) (tariff_in_force prices.now) }
{
    match (prices.scale(), prices.refutes(flat, Some(bound), whole)) {
        (Some(scale), Some(refuted)) => Some(0 < scale && refuted),
        _ => None,
    }
}

/// Makes a room of the problem its whole room.
fn open(flat: &Flat, room: &mut Room)
    requires room { RoomFits flat.now room.old }
    ensures whole { room.new ≡ whole_room (shape_of flat.now) }
    ensures fits { RoomFits flat.now room.new }
{
    let _shape = flat.shape();
    room.reset();
    let _ships = room.ships();
}
