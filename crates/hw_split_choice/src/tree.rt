//! A tree of rooms that grows where most may still be earned, and its text.
//!
//! Nothing is promised of it: its text is read like any other.

use crate::splitting::{Halves, Side, Splitter};
use hw_flat::{Flat, ShipId, Slot};
use hw_model::NoMemory;
use hw_text::put_number;
use std::alloc::Global;
use std::mem;

/// A branch of the tree.
#[derive(Drop)]
enum Branch {
    /// A leaf that may be split.
    Open(Side),
    /// A leaf that stays one.
    Done,
    /// A fork, with the places of its sides.
    Fork {
        ship: ShipId,
        slot: Slot,
        earlier: usize,
        later: usize,
    },
}

/// The branches, the root first.
#[derive(Drop)]
pub(crate) struct Tree {
    branches: Vec<Branch>,
}

/// The tree of at most this many leaves that splits at each time the room that earns most, whose best
/// timetable known carries this, in tenths of a tonne.
pub(crate) fn grown(
    alloc: Global,
    flat: &Flat,
    best: Option<u64>,
    parts: u32,
) -> Result<Tree, NoMemory> {
    let mut tree = Tree {
        branches: Vec::new(alloc),
    };
    let mut splitter = Splitter::new(alloc, flat, best)?;
    let whole = splitter.whole(alloc, flat, best)?;
    tree.branches.push(Branch::Open(whole))?;
    let mut leaves: u32 = 1;
    // Each turn splits a leaf or marks one as done: fewer than `parts` of the first kind, at most as many of the second.
    for _turn in 0..parts.saturating_mul(2) {
        if parts <= leaves {
            return Ok(tree);
        }
        let Some(place) = greatest(&tree, &splitter) else {
            return Ok(tree);
        };
        if split_at(alloc, &mut splitter, &mut tree, place)? {
            leaves = leaves.saturating_add(1);
        }
    }
    Ok(tree)
}

/// The place of the open leaf that earns most, the first of several; none where none is worth splitting.
fn greatest(tree: &Tree, splitter: &Splitter) -> Option<usize> {
    let mut most: Option<(usize, i64)> = None;
    for (place, branch) in tree.branches.iter().enumerate() {
        if let Branch::Open(side) = branch {
            if splitter.is_open(side) && is_more(side.earns, most) {
                most = Some((place, side.earns));
            }
        }
    }
    match most {
        Some((place, _earns)) => Some(place),
        None => None,
    }
}

fn is_more(earns: i64, most: Option<(usize, i64)>) -> bool {
    match most {
        Some((_place, other)) => other < earns,
        None => true,
    }
}

/// Splits a leaf, or marks it as one that stays. Whether it was split.
fn split_at(
    alloc: Global,
    splitter: &mut Splitter,
    tree: &mut Tree,
    place: usize,
) -> Result<bool, NoMemory> {
    let next = tree.branches.len();
    let Some(branch) = tree.branches.get_mut(place) else {
        return Ok(false);
    };
    let side = match mem::replace(branch, Branch::Done) {
        Branch::Open(side) => side,
        Branch::Done | Branch::Fork { .. } => return Ok(false),
    };
    let Some(halves) = splitter.halve(alloc, &side)? else {
        return Ok(false);
    };
    let Halves {
        ship,
        slot,
        earlier,
        later,
    } = halves;
    *branch = Branch::Fork {
        ship,
        slot,
        earlier: next,
        later: next.saturating_add(1),
    };
    tree.branches.push(Branch::Open(earlier))?;
    tree.branches.push(Branch::Open(later))?;
    Ok(true)
}

/// How many different tolls have a price in a leaf that may be split.
pub(crate) fn priced_tolls(alloc: Global, tree: &Tree) -> Result<u64, NoMemory> {
    let mut priced: Vec<bool> = Vec::new(alloc);
    for branch in tree.branches.iter() {
        if let Branch::Open(side) = branch {
            mark_priced(&mut priced, &side.prices)?;
        }
    }
    Ok(priced.iter().filter(|is_priced| **is_priced).count() as u64)
}

/// Marks the places of the tolls that have a price.
fn mark_priced(priced: &mut Vec<bool>, prices: &[i64]) -> Result<(), NoMemory> {
    for (place, price) in prices.iter().enumerate() {
        if priced.len() <= place {
            priced.push(false)?;
        }
        if 0 < *price {
            if let Some(mark) = priced.get_mut(place) {
                *mark = true;
            }
        }
    }
    Ok(())
}

/// The text of a tree's split. A tree without branches is one part.
pub(crate) fn text_of(alloc: Global, tree: &Tree) -> Result<Vec<u8>, NoMemory> {
    let mut text = Vec::from_slice(alloc, b"split 1\n")?;
    let mut left = Vec::new(alloc);
    left.push(0usize)?;
    // Each branch is met once, and the part of a tree without branches.
    for _branch in 0..tree.branches.len().max(1) {
        let Some(place) = left.pop() else {
            break;
        };
        match tree.branches.get(place) {
            Some(
                Branch::Fork {
                    ship,
                    slot,
                    earlier,
                    later,
                },
            ) => {
                put_fork(&mut text, *ship, *slot)?;
                left.push(*later)?;
                left.push(*earlier)?;
            }
            _ => text.extend_from_slice(b"p\n")?,
        }
    }
    text.extend_from_slice(b"end\n")?;
    Ok(text)
}

fn put_fork(text: &mut Vec<u8>, ship: ShipId, slot: Slot) -> Result<(), NoMemory> {
    text.extend_from_slice(b"s ")?;
    put_number(text, u64::from(ship))?;
    text.push(b' ')?;
    put_number(text, u64::from(slot))?;
    text.push(b'\n')?;
    Ok(())
}
