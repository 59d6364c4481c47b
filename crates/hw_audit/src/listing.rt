//! The list of the broken restrictions.

ghost use Rattle.std.specs.Prelude.{◌≡◌, ◌<◌, ◌≤◌, length};
ghost use Rattle.hw_model.specs.Problem.{IsTimetable};
ghost use Rattle.hw_model.specs.Timetables.{restriction_count};
ghost use Rattle.hw_audit.specs.Audits.{AreListed};
ghost use Rattle.hw_audit.specs.Keeping.{kept_holds};

use hw_flat::Flat;
use hw_model::Slot;

/// Whether the restriction of a number holds, by the marks of the rules.
fn kept_holds(flat: &Flat, table: &[Slot], holds: &[bool], n: u32) -> bool
    requires listed { IsTimetable flat.now table.now }
    requires each_rule { length holds.now ≡ length flat.now.rules }
    requires numbered { n < restriction_count flat.now }
    ensures value { result ≡ kept_holds flat.now table.now holds.now n }
{
    let ships = flat.shape().ships;
    if n < ships {
        flat.value(n, table[n as usize]).is_some()
    } else {
        holds[(n - ships) as usize]
    }
}

/// Writes the broken restrictions, ascending, into the first places of the list, and returns how many
/// they are. It takes a step for each restriction.
pub(crate) fn list_broken(flat: &Flat, table: &[Slot], holds: &[bool], out: &mut Vec<u32>) -> usize
    requires listed { IsTimetable flat.now table.now }
    requires each_rule { length holds.now ≡ length flat.now.rules }
    requires places { length out.old.items ≡ restriction_count flat.now }
    ensures listed { AreListed flat.now table.now holds.now result out.new.items }
{
    let shape = flat.shape();
    let mut many = 0;
    for n in 0..shape.ships + shape.rules {
        if !kept_holds(flat, table, holds, n) {
            out[many] = n;
            many += 1;
        }
    }
    many
}
