//! Why a text isn't a split.

ghost use Rattle.std.specs.Prelude.{◌≡◌, codes};
ghost use Rattle.hw_split_text.specs.Words.{split_word_text};

use hw_plan_texts::LineFault;

/// What was demanded at the first bad line.
#[derive(Clone, Copy)]
pub enum SplitWord {
    /// The first line, `split 1`.
    Header,
    /// The next node: a part, or a ship of the problem and a slot that leaves slots of its range on both
    /// sides.
    Node,
    /// `end`, or the end of the text.
    Tail,
}

impl SplitWord {
    /// The word as it is printed. It takes no memory.
    pub fn text(self) -> &'static [u8]
        ensures { result.now ≡ split_word_text self }
    {
        match self {
            SplitWord::Header => b"header",
            SplitWord::Node => b"node",
            SplitWord::Tail => b"tail",
        }
    }
}

/// Why `read_split` gave no split: its first wrong line, numbered from 1, or memory ran out.
pub type SplitFault = LineFault<SplitWord>;
