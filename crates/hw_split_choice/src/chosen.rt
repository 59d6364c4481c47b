//! A split that is chosen for a problem: whatever the prices say, its text is read as that of any split.

ghost use Rattle.std.specs.Prelude.{◌≤◌, IfOk, IfSome};
ghost use Rattle.hw_split_choice.specs.Chosen.{IsChosen};

use crate::settings::TOLLS_FOR_ONE;
use crate::tree::{grown, priced_tolls, text_of};
use hw_flat::Flat;
use hw_model::NoMemory;
use hw_split_text::{Split, SplitFault, count_parts, read_split};
use std::alloc::Global;

/// The most parts that are asked for.
pub const MOST_PARTS: u32 = 1024;

/// The split of one part.
const ONE_PART: &[u8] = b"split 1\np\nend\n";

/// A split with its text.
#[derive(Drop)]
pub struct ChosenSplit {
    pub text: Vec<u8>,
    pub split: Split,
    /// How many different tolls the certificates of the parts are expected to declare together: an estimate
    /// by prices, of which nothing is promised.
    pub tolls: u64,
}

/// A split of at most this many parts for a search that knows a timetable of this cargo, in tenths of a
/// tonne, or none. It takes memory for the prices, and for as many rooms as there are parts.
pub fn choose_split(
    alloc: Global,
    flat: &Flat,
    best: Option<u64>,
    parts: u32,
) -> Result<ChosenSplit, NoMemory>
    requires least { 1 ≤ parts }
    ensures { IfOk result (IsChosen flat.now parts) }
{
    let tree = grown(alloc, flat, best, parts)?;
    let text = text_of(alloc, &tree)?;
    let tolls = priced_tolls(alloc, &tree)?.saturating_mul(TOLLS_FOR_ONE);
    match read(alloc, flat, text, tolls, parts)? {
        Some(chosen) => Ok(chosen),
        None => undivided(alloc, flat, parts),
    }
}

/// The split of one part, of which no tolls are expected, as one of at most this many parts.
pub fn undivided(alloc: Global, flat: &Flat, parts: u32) -> Result<ChosenSplit, NoMemory>
    requires least { 1 ≤ parts }
    ensures { IfOk result (IsChosen flat.now parts) }
{
    let text = Vec::from_slice(alloc, ONE_PART)?;
    match read(alloc, flat, text, 0, parts)? {
        Some(chosen) => Ok(chosen),
        None => Err(NoMemory),
    }
}

/// The split of a text, with how many tolls are expected, if it is one of the problem and has at most
/// this many parts.
fn read(
    alloc: Global,
    flat: &Flat,
    text: Vec<u8>,
    tolls: u64,
    parts: u32,
) -> Result<Option<ChosenSplit>, NoMemory>
    ensures { IfOk result (λ found. IfSome found (IsChosen flat.now parts)) }
{
    match read_split(alloc, &text, flat) {
        Ok(split) => {
            if count_parts(&split) <= parts as usize {
                Ok(Some(ChosenSplit { text, split, tolls }))
            } else {
                Ok(None)
            }
        }
        Err(SplitFault::NoMemory) => Err(NoMemory),
        Err(SplitFault::Line { .. }) => Ok(None),
    }
}
