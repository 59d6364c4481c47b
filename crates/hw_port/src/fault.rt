//! Why an instance is refused.

ghost use Rattle.std.specs.Prelude.{◌≡◌, ◌≤◌, length};
ghost use Rattle.hw_port.specs.Places.{word_text};

/// A place of an instance: the number of its row in the table of places, and the numbers of the
/// list items on the way to it.
#[derive(Clone, Copy, Debug)]
pub struct Path {
    pub field: u32,
    pub first: Option<u32>,
    pub second: Option<u32>,
}

/// What is wrong at a place. The first three are of the form, the others of the meaning.
#[derive(Clone, Copy, Debug)]
pub enum PortWord {
    /// The member isn't there.
    Missing,
    /// The value is of another kind.
    Kind,
    /// The object has a member that the table doesn't name.
    Other,
    /// A number is out of its range.
    Range,
    /// A list has too few or too many items.
    Count,
    /// A text is no name, or no direction.
    Name,
    /// An earlier item has the name.
    Repeat,
    /// A number isn't at least another one, or isn't above it.
    Order,
    /// A ship of a berth pair has the other direction.
    Side,
}

impl PortWord {
    /// The word by which a report tells it.
    pub fn text(self) -> &'static [u8]
        ensures text { result.now ≡ word_text self }
        ensures short { length result.now ≤ 16 }
    {
        match self {
            PortWord::Missing => b"missing",
            PortWord::Kind => b"kind",
            PortWord::Other => b"other",
            PortWord::Range => b"range",
            PortWord::Count => b"count",
            PortWord::Name => b"name",
            PortWord::Repeat => b"repeat",
            PortWord::Order => b"order",
            PortWord::Side => b"side",
        }
    }
}

/// The first fault of an instance.
#[derive(Clone, Copy, Debug)]
pub struct PortFault {
    pub path: Path,
    pub word: PortWord,
}
