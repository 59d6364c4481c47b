//! A few spans, without memory.

ghost use Rattle.std.specs.Prelude.{◌≡◌, ◌<◌, ◌++◌, [], ◌∷◌, length};

use crate::limits::MOST_SPANS;
use crate::span::Span;
use std::marker::Model;

/// At most `MOST_SPANS` spans, seen as their list.
#[derive(Drop)]
pub struct Spans {
    items: [Span; MOST_SPANS],
    len: usize,
}

impl Model for Spans {
    ghost use Rattle.std.specs.Prelude.{List, take, ◌≤◌};
    ghost use Rattle.hw_flat_programme.specs.declared.span.Span.{Span};
    ghost use Rattle.hw_flat_programme.specs.declared.limits.TheConstants.{MOST_SPANS};

    ghost Value = { List Span };

    ghost view = { λ s. take s.len s.items };

    ghost invariant = { λ s. s.len ≤ MOST_SPANS };
}

impl Spans {
    /// None.
    pub fn new() -> Spans
        ensures { result ≡ [] }
    {
        let none = Span {
            ship: 0,
            from: 0,
            to: 0,
            weight: 0,
        };
        Spans {
            items: [none; MOST_SPANS],
            len: 0,
        }
    }

    /// The spans.
    pub fn as_slice(&self) -> &[Span]
        ensures { result.now ≡ self.now }
    {
        &self.items[..self.len]
    }

    /// Appends one.
    pub fn push(&mut self, span: Span)
        requires few { length self.old < MOST_SPANS }
        ensures { self.new ≡ self.old ++ span ∷ [] }
    {
        self.items[self.len] = span;
        self.len += 1;
    }
}
