//! What is told of an instance that is refused.

ghost use Rattle.std.specs.Prelude.{◌≡◌, ◌++◌, IfOk, OnOk, option_map};
ghost use Rattle.serde_json.specs.Errors.{IsMemory};
ghost use Rattle.serde_json.specs.View.{view};
ghost use Rattle.hw_port_lint.specs.Instances.{IsBreak, IsFieldTold, begins, break_hints, field_hint, item_at, item_hint, items_at_place, kind_of, list_word, item_name_at, text_member, told_name};
ghost use Rattle.hw_port_lint.specs.Lines.{break_line, item_name_line};

use crate::encoding::{encoding_of, instance_line};
use crate::pieces::{Piece, put_pieces};
use hw_model::NoMemory;
use hw_port::{PortFault, is_name, text_at_number};
use serde_json::{Error, Value};
use std::alloc::{AllocError, Global};

/// Where the reader of JSON stopped: a line and a column, from 1. Of bytes that are JSON it is nowhere, and both are 0.
fn place_of_break(alloc: Global, bytes: &[u8]) -> Result<(usize, usize), NoMemory> {
    match Value::from_slice(alloc, bytes) {
        Ok(_) => Ok((0, 0)),
        Err(error) if error.is_memory() => Err(NoMemory),
        Err(error) => Ok((error.line(), error.column())),
    }
}

/// Appends the line on where the reader of JSON stopped.
#[tactic(auto, unfolding(crate::specs::Lines::break_line))]
fn put_break(out: &mut Vec<u8>, line: usize, column: usize) -> Result<(), AllocError>
    ensures { OnOk result (out.new.items ≡ out.old.items ++ break_line line column) }
{
    put_pieces(
        out,
        &[
            Piece::Word(b"hint instance line "),
            Piece::Number(line as u64),
            Piece::Word(b" column "),
            Piece::Number(column as u64),
            Piece::Word(b"\n"),
        ],
    )
}

/// What is told of an instance that is no JSON and breaks there.
fn break_hints(alloc: Global, bytes: &[u8], line: usize, column: usize) -> Result<Vec<u8>, NoMemory>
    ensures { IfOk result (λ hints. hints.items ≡ break_hints bytes.now line column) }
{
    let mut hints = Vec::new(alloc);
    hints.extend_from_slice(instance_line(encoding_of(bytes)))?;
    put_break(&mut hints, line, column)?;
    Ok(hints)
}

/// What is told of an instance that is no JSON: how it is encoded, and where the reader stopped.
pub fn json_hints(alloc: Global, bytes: &[u8]) -> Result<Vec<u8>, NoMemory>
    ensures { IfOk result (λ hints. IsBreak bytes.now hints.items) }
{
    let (line, column) = place_of_break(alloc, bytes)?;
    break_hints(alloc, bytes, line, column)
}

/// Whether a text begins with another one.
pub fn begins(text: &[u8], with: &[u8]) -> bool
    ensures { result ≡ begins text.now with.now }
{
    text.starts_with(with)
}

/// The item of a list that is a member of a value.
fn item_at<'v>(value: &'v Value, list: &str, number: u32) -> Option<&'v Value>
    ensures { option_map (λ v. view v.now) result ≡ item_at (view value.now) list.now number }
{
    value.get(list).and_then(|items| items.get(number as usize))
}

/// The text that is a member of a value.
fn text_in<'v>(value: &'v Value, member: &str) -> Option<&'v str>
    ensures { option_map (λ s. s.now) result ≡ text_member (view value.now) member.now }
{
    value.get(member).and_then(Value::as_str)
}

/// Appends the line of a name.
#[tactic(auto, unfolding(crate::specs::Lines::item_name_line))]
fn put_name<'w>(
    out: &mut Vec<u8>,
    kind: &'w [u8],
    number: u32,
    name: &'w [u8],
) -> Result<(), AllocError>
    ensures { OnOk result (out.new.items ≡ out.old.items ++ item_name_line kind.now number name.now) }
{
    put_pieces(
        out,
        &[
            Piece::Word(b"hint "),
            Piece::Word(kind),
            Piece::Word(b" "),
            Piece::Number(u64::from(number)),
            Piece::Word(b" "),
            Piece::Word(name),
            Piece::Word(b"\n"),
        ],
    )
}

/// Appends the line of a text that is a name.
fn put_told(out: &mut Vec<u8>, kind: &[u8], number: u32, text: &[u8]) -> Result<(), AllocError>
    ensures { OnOk result (out.new.items ≡ out.old.items ++ told_name kind.now number text.now) }
{
    if is_name(text) {
        put_name(out, kind, number, text)?;
    }
    Ok(())
}

/// The name of an item of a list that is a member of a value.
fn name_at<'v>(value: &'v Value, list: &str, number: u32) -> Option<&'v str>
    ensures { option_map (λ s. s.now) result ≡ item_name_at (view value.now) list.now number }
{
    let item = item_at(value, list, number)?;
    text_in(item, "name")
}

/// A list whose items have names, and what one of them is.
#[derive(Clone, Copy)]
pub enum Items {
    Ships,
    Waypoints,
}

/// The list in whose items a place is.
pub fn items_of(place: u32) -> Option<Items>
    ensures { result ≡ items_at_place place }
{
    let text = text_at_number(place);
    if begins(text, b"ships.") {
        Some(Items::Ships)
    } else if begins(text, b"waypoints.") {
        Some(Items::Waypoints)
    } else {
        None
    }
}

fn list_of(items: Items) -> &'static str
    ensures { result.now ≡ list_word items }
{
    match items {
        Items::Ships => "ships",
        Items::Waypoints => "waypoints",
    }
}

fn kind_of(items: Items) -> &'static [u8]
    ensures { result.now ≡ kind_of items }
{
    match items {
        Items::Ships => b"ship",
        Items::Waypoints => b"waypoint",
    }
}

/// Appends the name of the item in which a fault is.
fn put_item(out: &mut Vec<u8>, value: &Value, items: Items, number: u32) -> Result<(), AllocError>
    ensures { OnOk result (out.new.items ≡ out.old.items ++ item_hint (view value.now) items number) }
{
    match name_at(value, list_of(items), number) {
        Some(name) => put_told(out, kind_of(items), number, name.as_bytes()),
        None => Ok(()),
    }
}

/// Appends the name of the item in which a fault is, if it is in one that has a name.
fn put_field(out: &mut Vec<u8>, value: &Value, fault: PortFault) -> Result<(), AllocError>
    ensures { OnOk result (out.new.items ≡ out.old.items ++ field_hint (view value.now) fault) }
{
    match (items_of(fault.path.field), fault.path.first) {
        (Some(items), Some(number)) => put_item(out, value, items, number),
        _ => Ok(()),
    }
}

/// What is told of a value with a fault.
fn value_hints(alloc: Global, value: &Value, fault: PortFault) -> Result<Vec<u8>, NoMemory>
    ensures { IfOk result (λ hints. hints.items ≡ field_hint (view value.now) fault) }
{
    let mut hints = Vec::new(alloc);
    put_field(&mut hints, value, fault)?;
    Ok(hints)
}

/// Nothing is told of bytes that are no JSON.
fn no_hints(alloc: Global, error: &Error) -> Result<Vec<u8>, NoMemory>
    ensures { IfOk result (λ _. ¬ IsMemory error.now) }
{
    if error.is_memory() {
        Err(NoMemory)
    } else {
        Ok(Vec::new(alloc))
    }
}

/// What is told of an instance with a fault: the name of the ship or the waypoint in which it is.
pub fn field_hints(alloc: Global, bytes: &[u8], fault: PortFault) -> Result<Vec<u8>, NoMemory>
    ensures { IfOk result (λ hints. IsFieldTold bytes.now fault hints.items) }
{
    match Value::from_slice(alloc, bytes) {
        Ok(value) => value_hints(alloc, &value, fault),
        Err(error) => no_hints(alloc, &error),
    }
}
