//! The whole text.

ghost use Rattle.std.specs.Prelude.{◌≡◌, ◌<◌, ◌≤◌, ◌+◌, length, All};
ghost use Rattle.hw_desk.specs.Writers.{Puts};
ghost use Rattle.hw_model.specs.Problem.{IsTimetable};
ghost use Rattle.hw_repair.specs.Wishes.{PlanFits, WishFits};
ghost use Rattle.hw_report.specs.Printing.{AreNamesOf};
ghost use Rattle.hw_report.specs.Seen.{names_seen};
ghost use Rattle.hw_repair_text.specs.Texts.{change_in, change_lines, repair_text, repaired_ship_line, repair_ship_lines, total_in};

use crate::cargo::{planned_worth, planned_worths, worths};
use crate::fate::{Fate, fate_of, wished};
use crate::lines::{put_change, put_moved, put_stands, put_total};
use hw_desk::Writer;
use hw_flat::{Flat, Timetable};
use hw_model::{ShipId, Slot};
use hw_repair::{Plan, Wish};
use hw_report::Names;

/// Puts the line of a ship.
fn put_ship<W: Writer>(out: &mut W, flat: &Flat, names: Names, ship: ShipId, wish: Wish, slot: Slot)
    requires ship_in { ship < flat.now.ships }
    requires names { AreNamesOf flat.now (names_seen names) }
    ensures { Puts (repaired_ship_line flat.now (names_seen names.entry) ship wish slot) (W.state out.old) (W.state out.new) }
{
    match fate_of(flat, wish, slot) {
        Fate::Moved => put_moved(out, flat, names, ship, wished(wish), slot),
        Fate::Kept => put_stands(out, flat, names, b"kept ", ship, slot),
        Fate::Sailed => put_stands(out, flat, names, b"sailed ", ship, slot),
    }
}

/// Puts the lines of the ships from this one on.
fn put_ships<W: Writer>(
    out: &mut W,
    flat: &Flat,
    names: Names,
    ship: ShipId,
    wishes: &[Wish],
    slots: &[Slot],
)
    requires ships { ship + length wishes.now ≤ flat.now.ships }
    requires names { AreNamesOf flat.now (names_seen names) }
    ensures { Puts (repair_ship_lines flat.now (names_seen names.entry) ship wishes.now slots.now) (W.state out.old) (W.state out.new) }
{
    let _shape = flat.shape();
    if let [wish, wishes @ ..] = wishes {
        if let [slot, slots @ ..] = slots {
            put_ship(out, flat, names, ship, *wish, *slot);
            put_ships(out, flat, names, ship + 1, wishes, slots);
        }
    }
}

/// Puts what a ship wins or loses, if its cargo differs.
fn put_ship_change<W: Writer>(
    out: &mut W,
    flat: &Flat,
    names: Names,
    ship: ShipId,
    wish: Wish,
    slot: Slot,
)
    requires ship_in { ship < flat.now.ships }
    requires names { AreNamesOf flat.now (names_seen names) }
    requires wish { WishFits flat.now.slots wish }
    requires slot { slot < flat.now.slots }
    ensures { Puts (change_in flat.now (names_seen names.entry) ship wish slot) (W.state out.old) (W.state out.new) }
{
    let old = planned_worth(flat, ship, wish);
    let new = flat.worth(ship, slot);
    put_change(out, flat, names, ship, old, new);
}

/// Puts what the ships from this one on win or lose.
fn put_changes<W: Writer>(
    out: &mut W,
    flat: &Flat,
    names: Names,
    ship: ShipId,
    wishes: &[Wish],
    slots: &[Slot],
)
    requires ships { ship + length wishes.now ≤ flat.now.ships }
    requires names { AreNamesOf flat.now (names_seen names) }
    requires wishes { All (WishFits flat.now.slots) wishes.now }
    requires slots { All (λ slot. slot < flat.now.slots) slots.now }
    ensures { Puts (change_lines flat.now (names_seen names.entry) ship wishes.now slots.now) (W.state out.old) (W.state out.new) }
{
    let _shape = flat.shape();
    if let [wish, wishes @ ..] = wishes {
        if let [slot, slots @ ..] = slots {
            put_ship_change(out, flat, names, ship, *wish, *slot);
            put_changes(out, flat, names, ship + 1, wishes, slots);
        }
    }
}

/// Puts the sums of both timetables.
fn put_sums<W: Writer>(out: &mut W, flat: &Flat, names: Names, wishes: &[Wish], slots: &[Slot])
    requires many { length wishes.now ≡ flat.now.ships }
    requires each { length slots.now ≡ flat.now.ships }
    requires wishes { All (WishFits flat.now.slots) wishes.now }
    requires slots { All (λ slot. slot < flat.now.slots) slots.now }
    ensures { Puts (total_in flat.now (names_seen names.entry) wishes.now slots.now) (W.state out.old) (W.state out.new) }
{
    let old = planned_worths(flat, 0, wishes);
    let new = worths(flat, 0, slots);
    put_total(out, names, old, new);
}

/// Puts what a repair makes of each ship of a plan, what each wins or loses against the plan, and the
/// sums of both.
///
/// A ship whose planned slot is none in which it can sail counts as carrying nothing in the plan. It
/// takes no memory.
pub fn put_repair<W: Writer>(out: &mut W, flat: &Flat, names: Names, plan: &Plan, table: &Timetable)
    requires plan { PlanFits flat.now plan.now }
    requires table { IsTimetable flat.now table.now }
    requires names { AreNamesOf flat.now (names_seen names) }
    ensures { Puts (repair_text flat.now (names_seen names.entry) plan.now table.now) (W.state out.old) (W.state out.new) }
{
    let slots = table.as_slice();
    put_ships(out, flat, names, 0, &plan.wishes, slots);
    put_changes(out, flat, names, 0, &plan.wishes, slots);
    put_sums(out, flat, names, &plan.wishes, slots);
    out.put(b"end\n");
}
