//! Two waters of one kind that look as if a clock was changed between them.

ghost use Rattle.std.specs.Prelude.{◌≡◌, ◌++◌, IfOk, OnOk};
ghost use Rattle.hw_port_lint.specs.Clocks.{minutes_apart, clock_hints, clock_line_hints, is_odd, line_hint, pair_hint, seen_after, line_slot};
ghost use Rattle.hw_port_lint.specs.Lines.{clock_line};

use crate::instance::begins;
use crate::pieces::{Piece, put_pieces};
use hw_text::{Words, read_small};
use std::alloc::AllocError;

/// The slots of the last two waters.
#[derive(Clone, Copy)]
pub struct Seen {
    pub before: Option<u32>,
    pub last: Option<u32>,
}

/// The slot at the beginning of a line: the number before its first comma.
fn slot_of(line: &[u8]) -> Option<u32>
    ensures { result ≡ line_slot line.now }
{
    let mut fields = Words::parted_by(b',', line);
    match fields.word() {
        Some(field) => read_small(field, 0, 2_047),
        None => None,
    }
}

/// How many minutes lie between two slots.
fn apart(minutes: u32, first: u32, second: u32) -> u64
    ensures { result ≡ minutes_apart minutes first second }
{
    u64::from(second.saturating_sub(first)) * u64::from(minutes)
}

/// Whether two waters of one kind are less than 11 or more than 14 hours apart. The first line of a table has slot 0, whether
/// or not that is a water, so it isn't asked.
fn is_odd(minutes: u32, first: u32, second: u32) -> bool
    ensures { result ≡ is_odd minutes first second }
{
    let apart = apart(minutes, first, second);
    0 < first && (apart < 660 || 840 < apart)
}

/// Appends the line of two waters.
#[tactic(auto, unfolding(crate::specs::Lines::clock_line))]
fn put_waters(out: &mut Vec<u8>, first: u32, second: u32, minutes: u64) -> Result<(), AllocError>
    ensures { OnOk result (out.new.items ≡ out.old.items ++ clock_line first second minutes) }
{
    put_pieces(
        out,
        &[
            Piece::Word(b"hint tides waters "),
            Piece::Number(u64::from(first)),
            Piece::Word(b" and "),
            Piece::Number(u64::from(second)),
            Piece::Word(b" minutes "),
            Piece::Number(minutes),
            Piece::Word(b"\n"),
        ],
    )
}

/// Appends the line of two waters that are oddly far apart.
fn put_pair(
    out: &mut Vec<u8>,
    minutes: u32,
    before: Option<u32>,
    slot: u32,
) -> Result<(), AllocError>
    ensures { OnOk result (out.new.items ≡ out.old.items ++ pair_hint minutes before slot) }
{
    match before {
        Some(first) if is_odd(minutes, first, slot) => {
            put_waters(out, first, slot, apart(minutes, first, slot))
        }
        _ => Ok(()),
    }
}

/// Appends the line of a water and the last one of its kind before it.
fn put_line(out: &mut Vec<u8>, minutes: u32, seen: Seen, line: &[u8]) -> Result<Seen, AllocError>
    ensures put { OnOk result (out.new.items ≡ out.old.items ++ line_hint minutes seen line.now) }
    ensures seen { IfOk result (λ next. next ≡ seen_after seen line.now) }
{
    match slot_of(line) {
        Some(slot) => {
            put_pair(out, minutes, seen.before, slot)?;
            Ok(Seen {
                before: seen.last,
                last: Some(slot),
            })
        }
        None => Ok(seen),
    }
}

/// Appends the lines of waters that are oddly far apart.
fn put_lines(out: &mut Vec<u8>, minutes: u32, table: &[u8]) -> Result<(), AllocError>
    ensures { OnOk result (out.new.items ≡ out.old.items ++ clock_line_hints minutes table.now) }
{
    let mut lines = Words::parted_by(b'\n', table);
    let mut seen = Seen {
        before: None,
        last: None,
    };
    while let Some(line) = lines.word() {
        seen = put_line(out, minutes, seen, line)?;
    }
    Ok(())
}

/// The same, of a table of waters.
pub fn put_clock(out: &mut Vec<u8>, minutes: u32, table: &[u8]) -> Result<(), AllocError>
    ensures { OnOk result (out.new.items ≡ out.old.items ++ clock_hints minutes table.now) }
{
    if begins(table, b"water,") {
        put_lines(out, minutes, table)?;
    }
    Ok(())
}
