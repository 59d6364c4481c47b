//! When a slot begins, and when a pass is made.

ghost use Rattle.std.specs.Prelude.{◌≡◌, ◌≤◌, ◌+◌, ◌*◌, ◌++◌, codes, IfSome};
ghost use Rattle.csv.specs.Writing.{default_writer, field_text};
ghost use Rattle.hw_desk.specs.Writers.{Puts};
ghost use Rattle.hw_port.specs.Kept.{IsStart, PortKept};
ghost use Rattle.hw_port_model.specs.Numbers.{whole};
ghost use Rattle.hw_port_csv.specs.Sailings.{minutes_text, pass_text, time_text};

use crate::field::put_comma;
use hw_desk::Writer;
use hw_draft::natural;
use hw_model::{MOST_SLOTS, Slot};
use hw_port::{PortParts, Text};
use hw_port_dates::{moment_after, put_moment};

/// Puts what time it is some minutes after the beginning of slot 0.
fn put_minutes<W: Writer>(out: &mut W, start: &Option<Text>, minutes: u32)
    requires { IfSome start.now IsStart }
    ensures { Puts (minutes_text start.now minutes) (W.state out.old) (W.state out.new) }
{
    match start {
        Some(text) => put_moment(out, moment_after(&text.items, minutes)),
        None => out.put_number(u64::from(minutes)),
    }
}

/// The minutes from the beginning of slot 0 to that of a slot.
fn minutes_before(parts: &PortParts, slot: Slot) -> u32
    requires kept { PortKept parts.now }
    requires few { slot ≤ 2_000 }
    ensures { result ≡ slot * whole parts.now.slot_minutes }
{
    slot * natural(parts.slot_minutes)
}

/// Puts after a comma when a slot begins.
pub fn put_time<W: Writer>(out: &mut W, parts: &PortParts, slot: Slot)
    requires kept { PortKept parts.now }
    requires few { slot ≤ 2_000 }
    ensures { Puts (codes "," ++ field_text default_writer (time_text parts.now slot)) (W.state out.old) (W.state out.new) }
{
    put_comma(out);
    put_minutes(out, &parts.start, minutes_before(parts, slot));
}

/// Puts after a comma when a pass is made that comes some slots after sailing.
pub fn put_pass_time<W: Writer>(out: &mut W, parts: &PortParts, slot: Slot, offset: Option<u32>)
    requires kept { PortKept parts.now }
    requires slot { slot ≤ MOST_SLOTS }
    requires few { IfSome offset (λ offset. offset ≤ 1_023) }
    ensures { Puts (codes "," ++ field_text default_writer (pass_text parts.now slot offset)) (W.state out.old) (W.state out.new) }
{
    match offset {
        Some(offset) => put_time(out, parts, slot + offset),
        None => put_comma(out),
    }
}
