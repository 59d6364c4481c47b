//! Why a text is no clash.

ghost use Rattle.std.specs.Prelude.{◌≡◌, codes};
ghost use Rattle.hw_clash.specs.Words.{clash_word_text};

use hw_plan_texts::LineFault;

/// What was demanded at the first bad line.
#[derive(Clone, Copy)]
pub enum ClashWord {
    /// The first line, `clash 1`.
    Header,
    /// The kept restrictions.
    Keep,
    /// The timetable of a kept restriction.
    Drop,
    /// A timetable that meets all the other kept restrictions.
    Table,
    /// `end`, or the end of the text.
    Tail,
}

impl ClashWord {
    /// Its name as it is printed. It takes no memory.
    pub fn text(self) -> &'static [u8]
        ensures { result.now ≡ clash_word_text self }
    {
        match self {
            ClashWord::Header => b"header",
            ClashWord::Keep => b"keep",
            ClashWord::Drop => b"drop",
            ClashWord::Table => b"table",
            ClashWord::Tail => b"tail",
        }
    }
}

/// Why `read_clash` gave no clash: its first bad line, numbered from 1, or memory ran out.
pub type ClashFault = LineFault<ClashWord>;
