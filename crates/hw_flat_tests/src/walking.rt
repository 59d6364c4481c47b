//! Walks over small problems.

use hw_flat::{Flat, Slot, make_demo};
use hw_rules::{Walked, walk};
use std::alloc::Global;
use std::test::Fail;

const APART: &[u8] = b"flat 1\nsize 2 3\nv 10 20 30\nv 10 20 30\np 0 1 -1:1\nend\n";

const NONE_FITS: &[u8] = b"flat 1\nsize 2 3\nv 10 20 30\nv 10 20 30\np 0 1 -2:2\nend\n";

const PASSING: &[u8] = b"flat 1\nsize 2 3\nv - - 7\nv - - 0\np 0 1 -5:-3 3:5\nend\n";

const PRECEDENCE: &[u8] = b"flat 1\nsize 2 3\nv 1 2 3\nv 3 2 1\ns 0 1 2\nend\n";
/// Both ships hold two tugs for three slots.
const TUGS: &[u8] = b"flat 1\nsize 2 6\nv 0 1 5 9 5 1\nv 0 1 5 9 5 1\nu 3 0:2:3 1:2:3\nend\n";

/// The same ships, with a fourth tug from slot 3 on.
const ONE_MORE_TUG: &[u8] =
    b"flat 3\nsize 2 6\nv 0 1 5 9 5 1\nv 0 1 5 9 5 1\nh 3 3:4 0:2:3 1:2:3\nend\n";

/// The same ships, with four tugs and from slot 3 on none.
const NO_TUG_LATER: &[u8] =
    b"flat 3\nsize 2 6\nv 0 1 5 9 5 1\nv 0 1 5 9 5 1\nh 4 3:0 0:2:3 1:2:3\nend\n";

const STAYING: &[u8] = b"flat 2\nsize 2 3\nv 10 20 30 n\nv 10 20 30 y\np 0 1 -2:2\nend\n";

const SECOND_STAYS: &[u8] = b"flat 2\nsize 2 3\nv 1 2 3 y\nv 9 9 9 y\ns 0 1 3\nend\n";

const ONE_SHIP: &[u8] = b"flat 1\nsize 1 3\nv - 5 9\nend\n";

const ZEROS: &[u8] = b"flat 1\nsize 1 3\nv 0 0 0\nend\n";

/// What a walk answers, with the slots of its timetable.
#[derive(Clone, Copy)]
enum Wanted {
    Best(u64, &'static [Slot]),
    NoneLeft,
    Spent(&'static [Slot]),
    SpentOnNone,
}

fn is_wanted(walked: &Walked, wanted: Wanted) -> bool {
    match (walked, wanted) {
        (Walked::Best { table, cargo }, Wanted::Best(most, slots)) => {
            *cargo == most && table.as_slice() == slots
        }
        (Walked::NoneLeft, Wanted::NoneLeft) => true,
        (Walked::Spent { table: Some(table) }, Wanted::Spent(slots)) => table.as_slice() == slots,
        (Walked::Spent { table: None }, Wanted::SpentOnNone) => true,
        _ => false,
    }
}

/// Name, problem, budget, answer.
const WALKS: [(&str, &[u8], u32, Wanted); 14] = [
    ("one ship", ONE_SHIP, 3, Wanted::Best(9, &[2])),
    ("values of zero", ZEROS, 3, Wanted::Best(0, &[0])),
    ("two ships apart", APART, 9, Wanted::Best(40, &[0, 2])),
    ("a large budget", APART, u32::MAX, Wanted::Best(40, &[0, 2])),
    ("all lists but one", APART, 8, Wanted::Spent(&[0, 2])),
    ("two lists", APART, 2, Wanted::SpentOnNone),
    ("no slot fits", NONE_FITS, 9, Wanted::NoneLeft),
    ("two pairs of tugs", TUGS, 36, Wanted::Best(9, &[0, 3])),
    ("one more tug", ONE_MORE_TUG, 36, Wanted::Best(18, &[3, 3])),
    ("no tug later", NO_TUG_LATER, 36, Wanted::Best(0, &[0, 0])),
    ("a precedence", PRECEDENCE, 9, Wanted::Best(2, &[0, 2])),
    ("passing ships", PASSING, 9, Wanted::Best(7, &[2, 2])),
    ("one ship stays", STAYING, 16, Wanted::Best(30, &[2, 3])),
    ("second stays", SECOND_STAYS, 16, Wanted::Best(3, &[2, 3])),
];

fn is_walked(alloc: Global, text: &[u8], budget: u32, wanted: Wanted) -> Result<bool, Fail> {
    let flat = Flat::read(alloc, text)?;
    let walked = walk(alloc, &flat, budget)?;
    Ok(is_wanted(&walked, wanted))
}

#[test]
fn walks(rt: HostRuntime) -> Result<(), Fail> {
    for (name, text, budget, wanted) in WALKS {
        let holds = is_walked(rt.alloc(), text, budget, wanted)?;
        assert!(rt; holds, "{name}");
    }
    Ok(())
}

#[test]
fn walks_a_demonstration(rt: HostRuntime) -> Result<(), Fail> {
    let flat = make_demo(rt.alloc(), 7, 3, 8)?;
    let walked = walk(rt.alloc(), &flat, 512)?;
    let carries = matches!(walked, Walked::Best { cargo, .. } if cargo == 3058);
    assert!(rt; carries);
    Ok(())
}
