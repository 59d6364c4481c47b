//! The forms of a split's lines.

ghost use Rattle.std.specs.Prelude.{◌≡◌, ◌<◌, length};
ghost use Rattle.hw_model.specs.Limits.{ShapeFits};
ghost use Rattle.hw_split_text.specs.Text.{fork_words, node_form, part_words};

use crate::node::Node;
use crate::ranges::Ranges;
use hw_model::Shape;
use hw_plan_texts::slot_of;
use hw_text::{Words, is_text, read_small};

/// `SHIP SLOT`, of a slot inside the ship's range.
fn fork_of(mut words: Words<'_>, shape: Shape, ranges: &Ranges) -> Option<Node>
    requires fits { ShapeFits shape }
    requires each_ship { length ranges.now ≡ shape.ships }
    ensures form { result ≡ fork_words shape ranges.now words.entry }
{
    let ship = words.word()?;
    let slot = words.word()?;
    words.end()?;
    let ship = read_small(ship, 0, shape.ships - 1)?;
    let slot = slot_of(slot, shape.slots)?;
    if ranges.is_inside(ship, slot) {
        Some(Node::Fork { ship, slot })
    } else {
        None
    }
}

/// No word more.
fn part_of(words: Words<'_>) -> Option<Node>
    ensures form { result ≡ part_words words.entry }
{
    words.end()?;
    Some(Node::Part)
}

/// `s SHIP SLOT` or `p`.
pub fn node_of(line: &[u8], shape: Shape, ranges: &Ranges) -> Option<Node>
    requires fits { ShapeFits shape }
    requires each_ship { length ranges.now ≡ shape.ships }
    ensures form { result ≡ node_form shape ranges.now line.now }
{
    let mut words = Words::of(line);
    match words.word() {
        Some(key) if is_text(key, b"s") => fork_of(words, shape, ranges),
        Some(key) if is_text(key, b"p") => part_of(words),
        _ => None,
    }
}
