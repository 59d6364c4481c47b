//! The clash of a problem, found by solving its parts.

ghost use Rattle.std.specs.Prelude.{◌≡◌, ◌≤◌, ◌++◌, ◌∷◌, [], IfOk, IfSome};
ghost use Rattle.hw_clash.specs.Asking.{NoneAt};
ghost use Rattle.hw_clash.specs.Clashing.{all_restriction_numbers};
ghost use Rattle.hw_clash.specs.Outcomes.{ClashMeets};
ghost use Rattle.hw_clash.specs.Parts.{part};

use crate::asking::{Asked, ask};
use crate::trying::without;
use crate::wished::WishedFlat;
use hw_cert::MemoryLog;
use hw_flat::Timetable;
use hw_model::NoMemory;
use hw_search_laws::MOST_BUDGET;
use std::alloc::Global;

/// The outcome of the search for a clash, with a certificate.
#[derive(Drop)]
pub enum Clashed {
    /// Nothing is permitted. The kept restrictions, ascending, can't be met together, as the
    /// certificate of their part shows, and each has a timetable that meets all the others.
    Clash {
        kept: Vec<u32>,
        drops: Vec<Timetable>,
        proof: MemoryLog,
    },
    /// A permitted timetable, the last one of the certificate of the part of all restrictions.
    Met {
        table: Timetable,
        proof: MemoryLog,
    },
    /// The budget was spent in this step, and this is the step's certificate. From the second step
    /// on the problem is known to be infeasible.
    Spent {
        step: u32,
        proof: MemoryLog,
    },
    /// Memory ran out.
    NoMemory,
}

/// The numbers of all restrictions.
fn all_numbers(alloc: Global, wished: &WishedFlat) -> Result<Vec<u32>, NoMemory>
    ensures { IfOk result (λ list. list.items ≡ all_restriction_numbers wished.now) }
{
    let many = wished.count();
    let mut list = Vec::new(alloc);
    for n in 0..many {
        list.push(n)?;
    }
    Ok(list)
}

/// The timetables and one more, or none if memory runs out.
fn with_table(mut drops: Vec<Timetable>, table: Timetable) -> Option<Vec<Timetable>>
    ensures { IfSome result (λ more. more.items ≡ drops.items ++ table ∷ []) }
{
    match drops.push(table) {
        Ok(()) => Some(drops),
        Err(_) => None,
    }
}

/// Tries each restriction in order, and takes it away where the others can't be met together.
fn reduce(
    alloc: Global,
    wished: &WishedFlat,
    budget: u32,
    all: Vec<u32>,
    first: MemoryLog,
) -> Clashed
    requires least { 1 ≤ budget }
    requires most { budget ≤ MOST_BUDGET }
    requires all { all.items ≡ all_restriction_numbers wished.now }
    requires none { NoneAt (part wished.now (all_restriction_numbers wished.now)) first }
    ensures { ClashMeets wished.now budget result }
{
    let many = wished.count();
    let mut kept = all;
    let mut proof = first;
    let mut drops = Vec::new(alloc);
    for n in 0..many {
        let Ok(others) = without(alloc, &kept, n) else {
            return Clashed::NoMemory;
        };
        match ask(alloc, wished, &others, budget) {
            Asked::NoneFits { proof: shown } => {
                kept = others;
                proof = shown;
            }
            Asked::Fits { table, .. } => {
                let Some(more) = with_table(drops, table) else {
                    return Clashed::NoMemory;
                };
                drops = more;
            }
            Asked::Spent { proof } => return Clashed::Spent { step: n + 1, proof },
            Asked::NoMemory => return Clashed::NoMemory,
        }
    }
    Clashed::Clash { kept, drops, proof }
}

/// Why nothing is permitted, or a timetable that is.
///
/// Step 0 solves the part of all restrictions. If that permits nothing, step n + 1 solves the part
/// of what is left without restriction n, and takes n away if that permits nothing either. Each
/// step has the whole budget, in lemmas; a budget above the number of rooms is never spent. The
/// certificate is held in memory. It solves as many parts as there are restrictions, and one more.
pub fn clash(alloc: Global, wished: &WishedFlat, budget: u32) -> Clashed
    requires least { 1 ≤ budget }
    requires most { budget ≤ MOST_BUDGET }
    ensures { ClashMeets wished.now budget result }
{
    let Ok(all) = all_numbers(alloc, wished) else {
        return Clashed::NoMemory;
    };
    match ask(alloc, wished, &all, budget) {
        Asked::Fits { table, proof } => Clashed::Met { table, proof },
        Asked::NoneFits { proof } => reduce(alloc, wished, budget, all, proof),
        Asked::Spent { proof } => Clashed::Spent { step: 0, proof },
        Asked::NoMemory => Clashed::NoMemory,
    }
}
