//! Reads a timetable or events, line by line.

ghost use Rattle.std.specs.Prelude.{◌≡◌, ◌<◌, ◌≤◌, ◌+◌, IfOk, All, length};
ghost use Rattle.hw_text.specs.Parts.{parts_of};
ghost use Rattle.hw_model.specs.Limits.{ShapeFits};
ghost use Rattle.hw_plan_texts.specs.Reading.{TextReadGives};
ghost use Rattle.hw_audit.specs.Text.{timetable_of_lines, timetable_of_text, events_at, events_of, events_text};

use crate::event::{Events, PortEvent};
use crate::fault::{AuditWord, TextFault};
use crate::forms::{event_of, table_of};
use hw_flat::Timetable;
use hw_model::Shape;
use hw_plan_texts::{LineFault, line_of, only};
use hw_text::{cut_line, is_end, is_text};
use std::alloc::Global;

/// Reads a timetable with these numbers of ships and slots.
///
/// Otherwise it names the first line that isn't what stands there in such a text, and what that
/// would be. Lines are numbered from 1. Where the bytes end too early, the missing line is named.
#[tactic(auto, unfolding(crate::specs::Text::timetable_of_lines))]
pub fn read_table(alloc: Global, bytes: &[u8], shape: Shape) -> Result<Timetable, TextFault>
    requires fits { ShapeFits shape }
    ensures reads { TextReadGives (λ table. table) result (timetable_of_text shape bytes.now) }
    ensures each_ship { IfOk result (λ table. length table ≡ shape.ships) }
    ensures each_slot { IfOk result (λ table. All (λ slot. slot < shape.slots) table) }
{
    let rest = only(bytes, 1, AuditWord::Header, b"table 1")?;
    let (line, rest) = line_of(rest, 2, AuditWord::Table)?;
    let Some(slots) = table_of(alloc, line, shape)? else {
        return Err(LineFault::Line {
            number: 2,
            word: AuditWord::Table,
        });
    };
    if !is_end(rest) {
        return Err(LineFault::Line {
            number: 3,
            word: AuditWord::Tail,
        });
    }
    let table = Timetable::from_slots(alloc, &slots)?;
    Ok(table)
}

/// The events up to the line `end`, and the bytes after that line.
fn events_of(alloc: Global, bytes: &[u8]) -> Result<(Vec<PortEvent>, &[u8]), TextFault>
    ensures { TextReadGives (λ x. (x.0.items, parts_of 10 x.1.now)) result (events_at 2 (parts_of 10 bytes.now)) }
{
    let mut events = Vec::new(alloc);
    let mut rest = bytes;
    while let Some((line, after)) = cut_line(rest) {
        if is_text(line, b"end") {
            return Ok((events, after));
        }
        let Some(event) = event_of(line) else {
            return Err(LineFault::Line {
                number: 2 + events.len() as u64,
                word: AuditWord::Form,
            });
        };
        events.push(event)?;
        rest = after;
    }
    Err(LineFault::Line {
        number: 2 + events.len() as u64,
        word: AuditWord::Form,
    })
}

/// Reads events.
///
/// Otherwise it names the first line that isn't what stands there in such a text, and what that
/// would be. Lines are numbered from 1, and the first event is line 2. Where the bytes end too
/// early, the missing line is named. It tests forms alone: `Audit::apply` refuses what doesn't fit.
#[tactic(auto, unfolding(crate::specs::Text::events_of))]
pub fn read_events(alloc: Global, bytes: &[u8]) -> Result<Events, TextFault>
    ensures reads { TextReadGives (λ events. events) result (events_text bytes.now) }
{
    let rest = only(bytes, 1, AuditWord::Header, b"events 1")?;
    let (items, rest) = events_of(alloc, rest)?;
    if !is_end(rest) {
        return Err(LineFault::Line {
            number: 3 + items.len() as u64,
            word: AuditWord::Tail,
        });
    }
    Ok(Events { items })
}
