//! Why a text holds no timetable or no events, and why an event is refused.

ghost use Rattle.std.specs.Prelude.{◌≡◌, codes};
ghost use Rattle.hw_audit.specs.Words.{audit_word_text};

use hw_plan_texts::LineFault;

/// What the first bad line should have been, or why an event is refused.
#[derive(Clone, Copy)]
pub enum AuditWord {
    /// The first line, `table 1` or `events 1`.
    Header,
    /// The line `t`, with a slot for each ship.
    Table,
    /// The line of an event, or `end`.
    Form,
    /// There is no such ship, or its new slot isn't a sailing slot.
    Range,
    /// The ship sailed in an earlier event.
    Sailed,
    /// The event delays a ship that stays.
    Stays,
    /// More tugs are withdrawn than are left of the greatest fleet of any slot, or more are back than
    /// are withdrawn.
    Fleet,
    /// No byte after the end.
    Tail,
}

impl AuditWord {
    /// The word as it is printed. It takes no memory.
    pub fn text(self) -> &'static [u8]
        ensures { result.now ≡ audit_word_text self }
    {
        match self {
            AuditWord::Header => b"header",
            AuditWord::Table => b"table",
            AuditWord::Form => b"form",
            AuditWord::Range => b"range",
            AuditWord::Sailed => b"sailed",
            AuditWord::Stays => b"stays",
            AuditWord::Fleet => b"fleet",
            AuditWord::Tail => b"tail",
        }
    }
}

/// Why `read_table` returned no timetable, or `read_events` no events: the first bad line, numbered
/// from 1, or memory ran out.
pub type TextFault = LineFault<AuditWord>;
