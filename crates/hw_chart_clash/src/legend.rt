//! What the legend says of the marks of a clash.

ghost use Rattle.std.specs.Prelude.{◌≡◌, ◌≤◌, All, length};
ghost use Rattle.std.specs.List.{list_any};
ghost use Rattle.hw_chart.specs.Legends.{HasShortWords, legend_parts};
ghost use Rattle.hw_chart_clash.specs.Legends.{clash_entries as entries_of, is_of, some_mark};

use crate::mark::{Mark, Shape};
use hw_chart::{Entry, Sample};

/// A kind of mark.
#[derive(Clone, Copy)]
pub enum Kind {
    Window,
    Pair,
    Fleet,
}

/// Whether a mark of this shape is of a kind.
fn is_of(kind: Kind, shape: Shape) -> bool
    ensures { result ≡ is_of kind shape }
{
    match kind {
        Kind::Window => match shape {
            Shape::Denied { .. } => true,
            Shape::Joined { .. } | Shape::Lacking => false,
        },
        Kind::Pair => match shape {
            Shape::Joined { .. } => true,
            Shape::Denied { .. } | Shape::Lacking => false,
        },
        Kind::Fleet => match shape {
            Shape::Lacking => true,
            Shape::Denied { .. } | Shape::Joined { .. } => false,
        },
    }
}

/// Whether one of the marks is of a kind.
fn some_mark(kind: Kind, marks: &[Mark]) -> bool
    ensures { result ≡ some_mark kind marks.now }
{
    match marks {
        [] => false,
        [mark, more @ ..] => is_of(kind, mark.shape) || some_mark(kind, more),
    }
}

/// What the legend says of the marks of a clash: of slots that a window denies, of ships that are joined, and of slots in
/// which tugs lack.
pub fn clash_entries(marks: &[Mark]) -> [Entry; 3]
    ensures value { legend_parts result ≡ entries_of marks.now }
    ensures words { All HasShortWords result }
{
    let windows = Entry {
        sample: Sample::Patch,
        class: b"cw",
        says: b"its window or the water denies it these slots",
        stands: some_mark(Kind::Window, marks),
    };
    let pairs = Entry {
        sample: Sample::Patch,
        class: b"cp",
        says: b"must keep apart",
        stands: some_mark(Kind::Pair, marks),
    };
    let fleet = Entry {
        sample: Sample::Patch,
        class: b"cl",
        says: b"more tugs than the fleet has",
        stands: some_mark(Kind::Fleet, marks),
    };
    [windows, pairs, fleet]
}
