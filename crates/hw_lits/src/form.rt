//! The test of the normal form, literal by literal.

ghost use Rattle.std.specs.Prelude.{◌≡◌, ◌≢◌, ◌≤◌, length, MatchResult, IfErr, None, Bool};
ghost use Rattle.hw_model.specs.Lits.{lit_fits, place_of, is_earlier, leaves_some, may_follow, keeps_form, first_bad, IsClause};
ghost use Rattle.hw_lits.specs.Faults.{TellsBad};

use crate::fault::ClauseFault;
use hw_model::{Lit, MOST_SHIPS, Shape};

// Whether a literal's ships are there, its slot is one from 1 on, and its pair ascends.
fn is_in_range(shape: Shape, lit: Lit) -> bool
    ensures { result ≡ lit_fits shape lit }
{
    match lit {
        Lit::AtOrAfter { ship, slot } => ship < shape.ships && 1 <= slot && slot < shape.slots,
        Lit::Before { ship, slot } => ship < shape.ships && 1 <= slot && slot < shape.slots,
        Lit::First { v, w } => v < w && w < shape.ships,
        Lit::NotFirst { v, w } => v < w && w < shape.ships,
    }
}

// Ships before pairs, ascending; of one ship the lower bound before the upper one.
fn place(lit: Lit) -> (u32, u32, u32)
    ensures { result ≡ place_of lit }
{
    match lit {
        Lit::AtOrAfter { ship, .. } => (0, ship, 0),
        Lit::Before { ship, .. } => (0, ship, 1),
        Lit::First { v, w } => (1, v, w),
        Lit::NotFirst { v, w } => (1, v, w),
    }
}

fn comes_before(a: (u32, u32, u32), b: (u32, u32, u32)) -> bool
    ensures { result ≡ is_earlier a b }
{
    a.0 < b.0 || (a.0 == b.0 && (a.1 < b.1 || (a.1 == b.1 && a.2 < b.2)))
}

// Two bounds of one ship leave some slots between them out.
fn bounds_leave_some(a: Lit, b: Lit) -> bool
    ensures { result ≡ leaves_some a b }
{
    match (a, b) {
        (Lit::AtOrAfter { ship: v, slot: k }, Lit::Before { ship: w, slot: j }) => v != w || j < k,
        _ => true,
    }
}

fn follows(before: Option<Lit>, lit: Lit) -> bool
    ensures { result ≡ keeps_form before lit }
{
    match before {
        None => true,
        Some(b) => comes_before(place(b), place(lit)) && bounds_leave_some(b, lit),
    }
}

/// The first bad literal from the left, if there is one. One pass, which takes no memory.
pub fn test_form(shape: Shape, lits: &[Lit]) -> Result<(), ClauseFault>
    requires few_ships { shape.ships ≤ MOST_SHIPS }
    ensures normal { MatchResult result (λ _. IsClause shape lits.now) (λ fault. TellsBad fault (first_bad shape lits.now)) }
    ensures no_memory { IfErr result (λ fault. fault ≢ ClauseFault.NoMemory) }
{
    let mut before = None;
    for (place, lit) in lits.iter().enumerate() {
        let at = place as u32;
        if !is_in_range(shape, *lit) {
            return Err(ClauseFault::Range { place: at });
        }
        if !follows(before, *lit) {
            return Err(ClauseFault::NotNormal { place: at });
        }
        before = Some(*lit);
    }
    Ok(())
}
