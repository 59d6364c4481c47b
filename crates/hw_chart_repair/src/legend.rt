//! What the legend says of the marks of a repair.

ghost use Rattle.std.specs.Prelude.{◌≡◌, ◌≤◌, ◌+◌, All, IfSome, length, option_map};
ghost use Rattle.hw_chart.specs.Legends.{HasShortWords, legend_parts};
ghost use Rattle.hw_repair_text.specs.Fates.{is_moved};
ghost use Rattle.hw_chart_repair.specs.Legends.{fate_by, is_sailed, repair_entries as entries_of, some_hatched, some_moved, some_sailed};

use crate::mark::hatch_end;
use crate::marks::slot_by;
use hw_chart::{Entry, Sample};
use hw_flat::{Flat, Timetable};
use hw_model::{MOST_SHIPS, ShipId};
use hw_repair::Wish;
use hw_repair_text::{Fate, fate_of};

/// What becomes of a ship.
fn fate_by(flat: &Flat, table: Option<&Timetable>, ship: ShipId, wish: Wish) -> Fate
    ensures { result ≡ fate_by flat.now (option_map (λ t. t.now) table.entry) ship wish }
{
    fate_of(flat, wish, slot_by(table, ship, wish))
}

fn is_moved(fate: Fate) -> bool
    ensures { result ≡ is_moved fate }
{
    match fate {
        Fate::Moved => true,
        Fate::Kept | Fate::Sailed => false,
    }
}

fn is_sailed(fate: Fate) -> bool
    ensures { result ≡ is_sailed fate }
{
    match fate {
        Fate::Moved | Fate::Kept => false,
        Fate::Sailed => true,
    }
}

/// Whether one of the ships from a number on is moved.
fn some_moved(flat: &Flat, table: Option<&Timetable>, ship: ShipId, wishes: &[Wish]) -> bool
    requires { ship + length wishes.now ≤ MOST_SHIPS }
    ensures { result ≡ some_moved flat.now (option_map (λ t. t.now) table.entry) ship wishes.now }
{
    match wishes {
        [] => false,
        [wish, more @ ..] => {
            is_moved(fate_by(flat, table, ship, *wish)) || some_moved(flat, table, ship + 1, more)
        }
    }
}

/// Whether one of the ships from a number on has sailed.
fn some_sailed(flat: &Flat, table: Option<&Timetable>, ship: ShipId, wishes: &[Wish]) -> bool
    requires { ship + length wishes.now ≤ MOST_SHIPS }
    ensures { result ≡ some_sailed flat.now (option_map (λ t. t.now) table.entry) ship wishes.now }
{
    match wishes {
        [] => false,
        [wish, more @ ..] => {
            is_sailed(fate_by(flat, table, ship, *wish)) || some_sailed(flat, table, ship + 1, more)
        }
    }
}

/// Whether a plan doesn't leave a ship all slots.
fn some_hatched(wishes: &[Wish]) -> bool
    ensures { result ≡ some_hatched wishes.now }
{
    match wishes {
        [] => false,
        [wish, more @ ..] => hatch_end(*wish) > 0 || some_hatched(more),
    }
}

/// What the legend says of the marks of a repair: of moved ships, of those that have sailed, and of slots that the plan
/// doesn't leave.
pub fn repair_entries(flat: &Flat, table: Option<&Timetable>, wishes: &[Wish]) -> [Entry; 3]
    requires { length wishes.now ≡ flat.now.ships }
    ensures value { legend_parts result ≡ entries_of flat.now (option_map (λ t. t.now) table.entry) wishes.now }
    ensures words { All HasShortWords result }
{
    let _shape = flat.shape();
    let moved = Entry {
        sample: Sample::Patch,
        class: b"gh",
        says: b"planned slot of a moved ship",
        stands: some_moved(flat, table, 0, wishes),
    };
    let sailed = Entry {
        sample: Sample::Patch,
        class: b"sd",
        says: b"has sailed",
        stands: some_sailed(flat, table, 0, wishes),
    };
    let hatched = Entry {
        sample: Sample::Stripes,
        class: b"ht",
        says: b"too early for the plan",
        stands: some_hatched(wishes),
    };
    [moved, sailed, hatched]
}
