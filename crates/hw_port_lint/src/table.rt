//! What a tide table that is refused looks like.

ghost use Rattle.std.specs.Prelude.{◌≡◌, ◌++◌, IfOk, OnOk};
ghost use Rattle.std.specs.List.{list_any};
ghost use Rattle.hw_port_lint.specs.Tables.{table_hints, words_where};
ghost use Rattle.hw_lemmas.specs.Lists.{has};

use crate::encoding::{encoding_of, table_line};
use hw_model::NoMemory;
use std::alloc::{AllocError, Global};

/// Whether some byte is this one.
fn holds(bytes: &[u8], byte: u8) -> bool
    ensures { result ≡ has bytes.now byte }
{
    bytes.contains(&byte)
}

/// Appends words where something holds.
fn put_where(out: &mut Vec<u8>, given: bool, words: &[u8]) -> Result<(), AllocError>
    ensures { OnOk result (out.new.items ≡ out.old.items ++ words_where given words.now) }
{
    if given {
        out.extend_from_slice(words)?;
    }
    Ok(())
}

/// What a tide table looks like by its bytes: how they are encoded, and whether it is a spreadsheet's with semicolons or tabs,
/// and with fractions in its heights.
pub fn table_hints(alloc: Global, bytes: &[u8]) -> Result<Vec<u8>, NoMemory>
    ensures { IfOk result (λ hints. hints.items ≡ table_hints bytes.now) }
{
    let mut hints = Vec::new(alloc);
    let semicolons = holds(bytes, b';');
    let commas = semicolons && holds(bytes, b',');
    let points = holds(bytes, b'.');
    hints.extend_from_slice(table_line(encoding_of(bytes)))?;
    put_where(&mut hints, semicolons, b"hint tides semicolons\n")?;
    put_where(&mut hints, commas, b"hint tides decimal commas\n")?;
    put_where(&mut hints, points, b"hint tides decimal points\n")?;
    put_where(&mut hints, holds(bytes, b'\t'), b"hint tides tabs\n")?;
    Ok(hints)
}
