//! Reading a clash text, line by line.

ghost use Rattle.std.specs.Prelude.{◌≡◌, ◌<◌, ◌≤◌, ◌+◌, IfOk, All, length};
ghost use Rattle.std.specs.List.Sorted.{IsStrictlyIncreasing};
ghost use Rattle.hw_text.specs.Parts.{parts_of};
ghost use Rattle.hw_clash.specs.Read.{SaysClash};
ghost use Rattle.hw_plan_texts.specs.Reading.{TextReadGives};
ghost use Rattle.hw_clash.specs.Wished.{wished_count};
ghost use Rattle.hw_clash.specs.Text.{keep_at, drop_at, drops_at, clash_of, clash_text};

use crate::fault::{ClashFault, ClashWord};
use crate::forms::{drop_of, keep_of};
use crate::text::ClashText;
use crate::trying::is_met;
use crate::wished::WishedFlat;
use hw_flat::Timetable;
use hw_plan_texts::{LineFault, line_of, only};
use hw_text::is_end;
use std::alloc::Global;

/// The kept restrictions on the next line.
#[tactic(auto, unfolding(crate::specs::Text::keep_at))]
fn keep_line<'b>(
    alloc: Global,
    bytes: &'b [u8],
    wished: &WishedFlat,
) -> Result<(Vec<u32>, &'b [u8]), ClashFault>
    ensures { TextReadGives (λ x. (x.0.items, parts_of 10 x.1.now)) result (keep_at wished.now (parts_of 10 bytes.now)) }
{
    let (line, rest) = line_of(bytes, 2, ClashWord::Keep)?;
    let Some(kept) = keep_of(alloc, line, wished)? else {
        return Err(LineFault::Line {
            number: 2,
            word: ClashWord::Keep,
        });
    };
    Ok((kept, rest))
}

/// The timetable of a kept restriction on the next line.
#[tactic(auto, unfolding(crate::specs::Text::drop_at))]
fn drop_line<'b>(
    alloc: Global,
    bytes: &'b [u8],
    wished: &WishedFlat,
    kept: &[u32],
    number: u64,
    id: u32,
) -> Result<(Timetable, &'b [u8]), ClashFault>
    requires numbered { All (λ n. n < wished_count wished.now) kept.now }
    requires ascending { IsStrictlyIncreasing kept.now }
    ensures { TextReadGives (λ x. (x.0, parts_of 10 x.1.now)) result (drop_at wished.now kept.now number id (parts_of 10 bytes.now)) }
{
    let _limits = wished.count();
    let (line, rest) = line_of(bytes, number, ClashWord::Drop)?;
    let Some(slots) = drop_of(alloc, line, wished, id)? else {
        return Err(LineFault::Line {
            number,
            word: ClashWord::Drop,
        });
    };
    let table = Timetable::from_slots(alloc, &slots)?;
    let met = is_met(alloc, wished, kept, id, &table)?;
    if !met {
        return Err(LineFault::Line {
            number,
            word: ClashWord::Table,
        });
    }
    Ok((table, rest))
}

/// The timetables of all kept restrictions.
fn drops_of<'b>(
    alloc: Global,
    bytes: &'b [u8],
    wished: &WishedFlat,
    kept: &[u32],
) -> Result<(Vec<Timetable>, &'b [u8]), ClashFault>
    requires numbered { All (λ n. n < wished_count wished.now) kept.now }
    requires ascending { IsStrictlyIncreasing kept.now }
    ensures { TextReadGives (λ x. (x.0.items, parts_of 10 x.1.now)) result (drops_at wished.now kept.now 3 kept.now (parts_of 10 bytes.now)) }
{
    let mut drops = Vec::new(alloc);
    let mut rest = bytes;
    for (place, id) in kept.iter().enumerate() {
        let (table, after) = drop_line(alloc, rest, wished, kept, 3 + place as u64, *id)?;
        drops.push(table)?;
        rest = after;
    }
    Ok((drops, rest))
}

/// The clash of the text, exactly where the bytes are the text of one for this problem and
/// its wishes; otherwise
/// the first line that is not of the form demanded at its place, and what was demanded there. The
/// line of a timetable is also wrong if the other kept restrictions don't permit it. Lines are
/// numbered from 1; if the bytes end before a line that is demanded, that line is named.
///
/// For each kept restriction it makes the part of the others, one at a time.
#[tactic(auto, unfolding(crate::specs::Text::clash_of))]
pub fn read_clash(alloc: Global, bytes: &[u8], wished: &WishedFlat) -> Result<ClashText, ClashFault>
    ensures reads { TextReadGives (λ text. text) result (clash_text wished.now bytes.now) }
    ensures says { IfOk result (SaysClash wished.now) }
{
    let _limits = wished.count();
    let rest = only(bytes, 1, ClashWord::Header, b"clash 1")?;
    let (kept, rest) = keep_line(alloc, rest, wished)?;
    let (drops, rest) = drops_of(alloc, rest, wished, &kept)?;
    let many = kept.len() as u64;
    let rest = only(rest, 3 + many, ClashWord::Tail, b"end")?;
    if !is_end(rest) {
        return Err(LineFault::Line {
            number: 4 + many,
            word: ClashWord::Tail,
        });
    }
    Ok(ClashText { kept, drops })
}
