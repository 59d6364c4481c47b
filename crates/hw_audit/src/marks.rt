//! Of each rule, whether it holds; and which marks an event concerns.

ghost use Rattle.std.specs.Prelude.{◌≡◌, ◌-◌, length, nat_le, slice_index};
ghost use Rattle.std.specs.List.{list_all, range_with_len};
ghost use Rattle.hw_model.specs.Limits.{RuleFits};
ghost use Rattle.hw_model.specs.Problem.{IsTimetable, horizon};
ghost use Rattle.hw_model.specs.Rules.{fleet_in};
ghost use Rattle.hw_audit.specs.Keeping.{AreHeld, AreMarks, AreOtherMarks, TugsComeLast, concerns, decided_by_held_tugs};

use hw_flat::Flat;
use hw_model::{Rule, ShipId, Slot, Step};
use hw_rules::{Fleet, allowed_pair};

/// The rules that may have begun or ceased to hold.
#[derive(Clone, Copy)]
pub(crate) enum Concern {
    /// Every rule: none was tested yet.
    Every,
    /// The rules on this ship, which has another slot, and those on tugs.
    Ship { ship: ShipId },
    /// The rules on tugs: the fleet has more or fewer of them.
    Fleet,
}

fn concerns(concern: Concern, rule: &Rule) -> bool
    ensures { result ≡ concerns concern rule.now }
{
    match (concern, rule) {
        (Concern::Every, _) | (_, Rule::Tugs { .. }) => true,
        (Concern::Ship { ship }, Rule::Pair { v, w, .. } | Rule::After { v, w, .. }) => {
            *v == ship || *w == ship
        }
        (Concern::Fleet, _) => false,
    }
}

/// Whether in each slot no more tugs are held than the fleet has in it, with this many fewer.
fn enough(horizon: u32, held: &[u64], fleet: u32, later: &[Step], withdrawn: u32) -> bool
    requires each_slot { length held.now ≡ horizon }
    ensures value { result ≡ list_all (λ slot. nat_le (slice_index held.now slot) (fleet_in fleet later.now slot - withdrawn)) (range_with_len 0 horizon) }
{
    let mut tugs = Fleet::new(fleet, later);
    for slot in 0..horizon {
        let left = tugs.tugs_in(slot).saturating_sub(withdrawn);
        if held[slot as usize] > u64::from(left) {
            return false;
        }
    }
    true
}

/// Whether a rule holds with this many tugs fewer, by the tugs held in each slot. It takes a step
/// for each hole, or for each slot and step of the fleet.
fn decided(flat: &Flat, table: &[Slot], held: &[u64], withdrawn: u32, rule: &Rule) -> bool
    requires listed { IsTimetable flat.now table.now }
    requires rule_fits { RuleFits flat.now.ships rule.now }
    requires each_slot { length held.now ≡ horizon flat.now }
    ensures value { result ≡ decided_by_held_tugs flat.now table.now held.now withdrawn rule.now }
{
    match rule {
        Rule::Pair { v, w, .. } => allowed_pair(flat, rule, table[*v as usize], table[*w as usize]),
        Rule::After { v, w, .. } => allowed_pair(
            flat,
            rule,
            table[*v as usize],
            table[*w as usize],
        ),
        Rule::Tugs { fleet, later, .. } => {
            enough(flat.horizon(), held, *fleet, &later.items, withdrawn)
        }
    }
}

/// Tests the rules that an event concerns, where the marks of the others are right. It looks at
/// each rule once.
pub(crate) fn mend_marks(
    flat: &Flat,
    table: &[Slot],
    held: &[u64],
    withdrawn: u32,
    concern: Concern,
    holds: &mut Vec<bool>,
)
    requires listed { IsTimetable flat.now table.now }
    requires tugs_last { TugsComeLast flat.now.rules }
    requires held { AreHeld flat.now table.now held.now }
    requires others { AreOtherMarks flat.now table.now withdrawn concern holds.old.items }
    ensures marks { AreMarks flat.now table.now withdrawn holds.new.items }
{
    let rules = flat.rules();
    for place in 0..rules.len() {
        let rule = &rules[place];
        if concerns(concern, rule) {
            holds[place] = decided(flat, table, held, withdrawn, rule);
        }
    }
}
