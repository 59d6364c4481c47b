//! Small problems, and the crews on them.

use hw_cert::{Line, MemoryLog};
use hw_flat::Flat;
use hw_search::Branching;
use hw_turns::crew;
use std::alloc::Global;

/// Two ships that sail two slots apart: in the first and the last slot.
pub const APART: &[u8] = b"flat 1\nsize 2 3\nv 10 20 30\nv 10 20 30\np 0 1 -1:1\nend\n";

/// Two ships that can't sail in the same three slots.
pub const NONE_FITS: &[u8] = b"flat 1\nsize 2 3\nv 10 20 30\nv 10 20 30\np 0 1 -2:2\nend\n";

/// Two ships that need more tugs together than there are, while they hold them.
pub const TUGS: &[u8] = b"flat 1\nsize 2 6\nv 0 1 5 9 5 1\nv 0 1 5 9 5 1\nu 3 0:2:3 1:2:3\nend\n";

/// One ship, that carries more in each slot than in the one before it.
pub const CLIMB: &[u8] =
    b"flat 1\nsize 1 64\nv 0 1 2 3 4 5 6 7 8 9 10 11 12 13 14 15 16 17 18 19 20 21 22 23 24 25 26 27 28 29 30 31 32 33 34 35 36 37 38 39 40 41 42 43 44 45 46 47 48 49 50 51 52 53 54 55 56 57 58 59 60 61 62 63\nend\n";

/// The lines of a crew. An order without turns is none.
pub fn crew_lines(
    alloc: Global,
    flat: &Flat,
    order: &[Branching],
    budget: u32,
) -> Option<Vec<Line>> {
    if order.is_empty() {
        return None;
    }
    let mut log = MemoryLog::new(alloc);
    crew(alloc, flat, order, budget.clamp(1, 100_000), &mut log);
    Some(log.into_lines())
}
