//! The text that explains a port's restrictions.

ghost use Rattle.std.specs.Prelude.{◌≡◌, ◌+◌, ◌<◌, ◌≤◌, ◌^◌, ◌++◌, ◌∷◌, [], length, map, codes, decimal, OnOk, IfOk};
ghost use Rattle.hw_port.specs.Kept.{PortKept};
ghost use Rattle.hw_flat.specs.TextWritten.{led};
ghost use Rattle.hw_port_named.specs.Lines.{ship_name as name_of_ship, section_name as name_of_section, slashed, names_text, named_line, named_lines, explained};

use crate::closed::put_closed;
use crate::named::Named;
use crate::naming::name_restrictions;
use hw_model::{NoMemory, ShipId};
use hw_port::{Port, PortParts};
use hw_text::{put_number, put_spaced};
use std::alloc::{AllocError, Global};

/// The name of a ship, or none of its bytes where there is no such ship.
fn ship_name(parts: &PortParts, ship: ShipId) -> &[u8]
    ensures { result.now ≡ name_of_ship parts.now ship }
{
    match parts.ships.get(ship as usize) {
        Some(ship) => &ship.name.items,
        None => b"",
    }
}

/// The name of a section, or none of its bytes where there is no such section.
fn section_name(parts: &PortParts, section: u32) -> &[u8]
    ensures { result.now ≡ name_of_section parts.now section }
{
    match parts.sections.get(section as usize) {
        Some(section) => &section.name.items,
        None => b"",
    }
}

/// Appends numbers, each after a space.
fn put_numbers(out: &mut Vec<u8>, numbers: &[u32]) -> Result<(), AllocError>
    ensures { OnOk result (out.new.items ≡ out.old.items ++ led (map decimal numbers.now)) }
{
    for number in numbers {
        put_spaced(out, *number)?;
    }
    Ok(())
}

/// Appends the number of a restriction and its kind.
fn put_head(out: &mut Vec<u8>, number: u64, kind: &[u8]) -> Result<(), AllocError>
    ensures { OnOk result (out.new.items ≡ out.old.items ++ decimal number ++ 32 ∷ kind.now) }
{
    put_number(out, number)?;
    out.push(b' ')?;
    out.extend_from_slice(kind)
}

/// Appends the name of a ship, after a space.
fn put_ship(out: &mut Vec<u8>, parts: &PortParts, ship: ShipId) -> Result<(), AllocError>
    ensures { OnOk result (out.new.items ≡ out.old.items ++ names_text (name_of_ship parts.now ship ∷ [])) }
{
    out.push(b' ')?;
    out.extend_from_slice(ship_name(parts, ship))
}

/// Appends the names of two ships, the second one after a slash.
fn put_ships(
    out: &mut Vec<u8>,
    parts: &PortParts,
    first: ShipId,
    second: ShipId,
) -> Result<(), AllocError>
    ensures { OnOk result (out.new.items ≡ out.old.items ++ names_text (name_of_ship parts.now first ∷ name_of_ship parts.now second ∷ [])) }
{
    put_ship(out, parts, first)?;
    out.extend_from_slice(b" / ")?;
    out.extend_from_slice(ship_name(parts, second))
}

/// Appends the names of sections, each after a slash.
fn put_sections(out: &mut Vec<u8>, parts: &PortParts, sections: &[u32]) -> Result<(), AllocError>
    ensures { OnOk result (out.new.items ≡ out.old.items ++ slashed (map (name_of_section parts.now) sections.now)) }
{
    for section in sections {
        out.extend_from_slice(b" / ")?;
        out.extend_from_slice(section_name(parts, *section))?;
    }
    Ok(())
}

/// Appends the line of a restriction without its end.
fn put_named(
    out: &mut Vec<u8>,
    parts: &PortParts,
    number: u64,
    named: &Named,
) -> Result<(), AllocError>
    requires { PortKept parts.now }
    ensures { OnOk result (out.new.items ≡ out.old.items ++ named_line parts.now number named.now) }
{
    match named {
        Named::Window { ship } => {
            put_head(out, number, b"window")?;
            put_numbers(out, &[*ship])?;
            put_ship(out, parts, *ship)?;
            put_closed(out, parts, *ship)
        }
        Named::Separation {
            first,
            second,
            after,
            before,
        } => {
            put_head(out, number, b"separation")?;
            put_numbers(out, &[*first, *second, *after, *before])?;
            put_ships(out, parts, *first, *second)
        }
        Named::Sections {
            first,
            second,
            sections,
        } => {
            put_head(out, number, b"sections")?;
            put_numbers(out, &[*first, *second])?;
            put_numbers(out, &sections.items)?;
            put_ships(out, parts, *first, *second)?;
            put_sections(out, parts, &sections.items)
        }
        Named::Berth {
            outgoing,
            incoming,
            clear,
        } => {
            put_head(out, number, b"berth")?;
            put_numbers(out, &[*outgoing, *incoming, *clear])?;
            put_ships(out, parts, *outgoing, *incoming)
        }
        Named::After { first, second, gap } => {
            put_head(out, number, b"after")?;
            put_numbers(out, &[*first, *second, *gap])?;
            put_ships(out, parts, *first, *second)
        }
        Named::Tugs { fleet } => {
            put_head(out, number, b"tugs")?;
            put_numbers(out, &[*fleet])
        }
    }
}

/// The line of a restriction with its number, as in the text that explains them all, without its end.
pub fn explain_one(
    alloc: Global,
    port: &Port,
    number: u32,
    named: &Named,
) -> Result<Vec<u8>, NoMemory>
    ensures { IfOk result (λ line. line.items ≡ named_line port.now number named.now) }
{
    let mut line = Vec::new(alloc);
    put_named(&mut line, port.parts(), u64::from(number), named)?;
    Ok(line)
}

/// Appends the lines of restrictions, the first of which has the number 0.
fn put_lines(out: &mut Vec<u8>, parts: &PortParts, list: &[Named]) -> Result<(), AllocError>
    requires { PortKept parts.now }
    ensures { OnOk result (out.new.items ≡ out.old.items ++ named_lines parts.now 0 list.now) }
{
    for (number, named) in list.iter().enumerate() {
        put_named(out, parts, number as u64, named)?;
        out.push(b'\n')?;
    }
    Ok(())
}

/// The text that explains a port's restrictions: for each number of a restriction of its flat
/// problem one line, and `end`.
///
/// A line has the number, the kind, the places of the ships and other numbers, and at its end the
/// names, with a slash between two, since a name may hold any printable sign. After the name of a
/// window's ship stands what closes slots of the window.
pub fn explain(alloc: Global, port: &Port) -> Result<Vec<u8>, NoMemory>
    ensures { IfOk result (λ text. text.items ≡ explained port.now) }
{
    let list = name_restrictions(alloc, port)?;
    let mut text = Vec::new(alloc);
    put_lines(&mut text, port.parts(), &list)?;
    text.extend_from_slice(b"end\n")?;
    Ok(text)
}
