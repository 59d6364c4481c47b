//! The mark of a kept restriction.

ghost use Rattle.std.specs.Prelude.{◌≡◌, ◌<◌, All, IfOk, length, map};
ghost use Rattle.std.specs.Option.{option_map_or};
ghost use Rattle.hw_port_named.specs.Restrictions.{named_restrictions};
ghost use Rattle.hw_chart_clash.specs.Marks.{mark_among, kept_mark_at, kept_shape};

use hw_model::{NoMemory, ShipId};
use hw_port::Port;
use hw_port_named::{Named, explain_one, name_restrictions};
use std::alloc::{AllocError, Global};
use std::marker::Model;

/// What a mark shows: the slots that a window denies its ship, two ships joined, or the slots in which the fleet is too small.
#[derive(Clone, Copy)]
pub enum Shape {
    Denied { ship: ShipId },
    Joined { first: ShipId, second: ShipId },
    Lacking,
}

/// The line of a restriction, seen as its bytes.
#[derive(Drop)]
pub struct Title {
    pub items: Vec<u8>,
}

impl Model for Title {
    ghost use Rattle.std.specs.Prelude.{ℕ, List};

    ghost Value = { List ℕ };

    ghost view = { λ t. t.items.items };
}

/// The mark of a kept restriction: its line, as `explain port` prints it, and what is drawn.
#[derive(Drop)]
pub struct Mark {
    pub title: Title,
    pub shape: Shape,
}

/// What is drawn of a restriction.
fn shape_of(named: &Named) -> Shape
    ensures { result ≡ kept_shape named.now }
{
    match named {
        Named::Window { ship } => Shape::Denied { ship: *ship },
        Named::Separation { first, second, .. } => Shape::Joined {
            first: *first,
            second: *second,
        },
        Named::Sections { first, second, .. } => Shape::Joined {
            first: *first,
            second: *second,
        },
        Named::Berth {
            outgoing,
            incoming,
            ..
        } => Shape::Joined {
            first: *outgoing,
            second: *incoming,
        },
        Named::After { first, second, .. } => Shape::Joined {
            first: *first,
            second: *second,
        },
        Named::Tugs { .. } => Shape::Lacking,
    }
}

/// The mark of the restriction of a number, where these are all.
fn mark_of(alloc: Global, port: &Port, list: &[Named], number: u32) -> Result<Mark, NoMemory>
    requires { number < length list.now }
    ensures { IfOk result (λ mark. mark ≡ mark_among port.now list.now number) }
{
    let named = &list[number as usize];
    let items = explain_one(alloc, port, number, named)?;
    Ok(Mark {
        title: Title { items },
        shape: shape_of(named),
    })
}

/// The marks of the restrictions of these numbers, where these are all.
fn marks_among(
    alloc: Global,
    port: &Port,
    list: &[Named],
    kept: &[u32],
) -> Result<Vec<Mark>, NoMemory>
    requires { All (λ n. n < length list.now) kept.now }
    ensures { IfOk result (λ marks. marks.items ≡ map (mark_among port.now list.now) kept.now) }
{
    let mut marks = Vec::new(alloc);
    for number in kept {
        marks.push(mark_of(alloc, port, list, *number)?)?;
    }
    Ok(marks)
}

/// The marks of the restrictions of these numbers.
pub fn marks_of(alloc: Global, port: &Port, kept: &[u32]) -> Result<Vec<Mark>, NoMemory>
    requires { All (λ n. n < length (named_restrictions port.now)) kept.now }
    ensures { IfOk result (λ marks. marks.items ≡ map (kept_mark_at port.now) kept.now) }
{
    let list = name_restrictions(alloc, port)?;
    marks_among(alloc, port, &list, kept)
}
