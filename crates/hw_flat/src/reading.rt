//! Reading a flat text, line by line. Each byte is read a few times at most.

ghost use Rattle.std.specs.Prelude.{◌≡◌, ◌≤◌, ◌+◌, ◌*◌, length, IfOk, option_map};
ghost use Rattle.hw_text.specs.Parts.{parts_of};
ghost use Rattle.hw_model.specs.Limits.{IsFlat};
ghost use Rattle.hw_flat.specs.Text.{Gives, formed, line_at, row_at, rows_at, rules_at, problem_of_lines, problem_of, flat_text};
ghost use Rattle.hw_flat.specs.TextForms.{rule_form};

use crate::fault::{FlatFault, FlatWord};
use crate::flat::Flat;
use crate::forms::{header_of, row_of, size_of};
use crate::hours::hours_needed;
use crate::rules::rule_of;
use hw_model::{MOST_RULES, MOST_SLOTS, Rule};
use hw_text::{cut_line, is_end, is_text};
use std::alloc::Global;

/// The next line and the bytes after it.
fn line_of(bytes: &[u8], number: u64, word: FlatWord) -> Result<(&[u8], &[u8]), FlatFault>
    ensures { Gives (λ x. (x.0.now, parts_of 10 x.1.now)) result (line_at number word (parts_of 10 bytes.now)) }
{
    match cut_line(bytes) {
        Some((line, rest)) => Ok((line, rest)),
        None => Err(FlatFault::Line { number, word }),
    }
}

/// The values of the ship on the next line.
#[tactic(auto, unfolding(crate::specs::Text::row_at))]
fn row_line(
    alloc: Global,
    bytes: &[u8],
    number: u64,
    slots: u32,
    stay: bool,
) -> Result<(Vec<Option<u64>>, &[u8]), FlatFault>
    ensures { Gives (λ x. (x.0.items, parts_of 10 x.1.now)) result (row_at stay slots number (parts_of 10 bytes.now)) }
{
    let (line, rest) = line_of(bytes, number, FlatWord::Values)?;
    match row_of(alloc, line, slots, stay)? {
        Some(row) => Ok((row, rest)),
        None => Err(FlatFault::Line {
            number,
            word: FlatWord::Values,
        }),
    }
}

/// The values of this many ships.
fn rows_of(
    alloc: Global,
    bytes: &[u8],
    ships: u32,
    slots: u32,
    stay: bool,
) -> Result<(Vec<Option<u64>>, &[u8]), FlatFault>
    ensures { Gives (λ x. (x.0.items, parts_of 10 x.1.now)) result (rows_at stay slots 3 ships (parts_of 10 bytes.now)) }
{
    let mut values = Vec::new(alloc);
    let mut rest = bytes;
    for i in 0..ships {
        let (row, after) = row_line(alloc, rest, 3 + i as u64, slots, stay)?;
        values.extend_from_slice(&row)?;
        rest = after;
    }
    Ok((values, rest))
}

/// The rules up to the line `end`, and the bytes after that line.
fn rules_of(
    alloc: Global,
    bytes: &[u8],
    hours: bool,
    ships: u32,
    slots: u32,
    first: u64,
) -> Result<(Vec<Rule>, &[u8]), FlatFault>
    requires { first ≤ 50 }
    ensures { Gives (λ x. (x.0.items, parts_of 10 x.1.now)) result (rules_at (rule_form hours ships slots) first MOST_RULES (parts_of 10 bytes.now)) }
{
    let mut rules = Vec::new(alloc);
    let mut rest = bytes;
    while let Some((line, after)) = cut_line(rest) {
        if is_text(line, b"end") {
            return Ok((rules, after));
        }
        let number = first + rules.len() as u64;
        let Some(rule) = rule_of(alloc, line, hours, ships, slots)? else {
            return Err(FlatFault::Line {
                number,
                word: FlatWord::Rule,
            });
        };
        if rules.len() == MOST_RULES {
            return Err(FlatFault::Line {
                number,
                word: FlatWord::Many,
            });
        }
        rules.push(rule)?;
        rest = after;
    }
    Err(FlatFault::Line {
        number: first + rules.len() as u64,
        word: FlatWord::Rule,
    })
}

/// The problem of these numbers and lists. Where ships may stay, it has one more slot.
fn flat_of(ships: u32, slots: u32, stay: bool, values: Vec<Option<u64>>, rules: Vec<Rule>) -> Flat
    requires few { slots ≤ MOST_SLOTS }
    requires limits { IsFlat (problem_of stay (ships, slots) values.items rules.items) }
    ensures { result ≡ problem_of stay (ships, slots) values.items rules.items }
{
    let slots = if stay { slots + 1 } else { slots };
    Flat {
        ships,
        slots,
        stay,
        values,
        rules,
    }
}

impl Flat {
    /// The problem of the text, exactly where the bytes are the text of one; else the first line
    /// that is not of the form demanded at its place, and what was demanded there. Lines are
    /// numbered from 1; where the bytes end before a line that is demanded, that line is named.
    /// `NoMemory` says nothing of the bytes. The time is linear in their number.
    #[tactic(auto, unfolding(crate::specs::Text::problem_of_lines))]
    pub fn read(alloc: Global, bytes: &[u8]) -> Result<Flat, FlatFault>
        ensures { Gives (λ flat. flat) result (flat_text bytes.now) }
    {
        let (line, rest) = line_of(bytes, 1, FlatWord::Header)?;
        let Some((stay, hours)) = header_of(line) else {
            return Err(FlatFault::Line {
                number: 1,
                word: FlatWord::Header,
            });
        };
        let (line, rest) = line_of(rest, 2, FlatWord::Size)?;
        let Some((ships, slots)) = size_of(line) else {
            return Err(FlatFault::Line {
                number: 2,
                word: FlatWord::Size,
            });
        };
        let (values, rest) = rows_of(alloc, rest, ships, slots, stay)?;
        let (rules, rest) = rules_of(alloc, rest, hours, ships, slots, 3 + u64::from(ships))?;
        if !hours_needed(hours, &rules) {
            return Err(FlatFault::Line {
                number: 3 + u64::from(ships) + rules.len() as u64,
                word: FlatWord::Rule,
            });
        }
        if !is_end(rest) {
            return Err(FlatFault::Line {
                number: 4 + u64::from(ships) + rules.len() as u64,
                word: FlatWord::Tail,
            });
        }
        Ok(flat_of(ships, slots, stay, values, rules))
    }
}
