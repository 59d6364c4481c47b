//! Reading an instance.

ghost use Rattle.std.specs.Prelude.{◌≡◌};
ghost use Rattle.serde_json.specs.Errors.{IsMemory};
ghost use Rattle.serde_json.specs.View.{view};
ghost use Rattle.hw_read.specs.Instance.{PortReadGives, instance_of, PortReads};

use crate::building::build_parts;
use crate::fault::ReadFault;
use crate::walking::test_form;
use hw_port::Port;
use serde_json::{Error, Value};
use std::alloc::Global;

/// The port that a value stands for.
#[tactic(auto, unfolding(crate::specs::Instance::instance_of))]
fn port_of_value(alloc: Global, value: &Value) -> Result<Port, ReadFault>
    ensures { PortReadGives result (instance_of (view value.now)) }
{
    test_form(value)?;
    let parts = build_parts(alloc, value)?;
    Ok(Port::check(parts)?)
}

/// Reads an instance. The form of the whole value is tested first, then the meaning of its parts.
///
/// `NotJson` comes exactly where the bytes are no JSON text, `Field` with the first fault in the
/// order of the table, and `NoMemory` only where memory ran out. Numbers are whole numbers of 64
/// bits with a sign. The time grows with the number of bytes.
pub fn read_port(alloc: Global, bytes: &[u8]) -> Result<Port, ReadFault>
    ensures { PortReads bytes.now result }
{
    match Value::from_slice(alloc, bytes) {
        Ok(value) => port_of_value(alloc, &value),
        Err(error) => Err(no_value(&error)),
    }
}

/// Why the JSON reader gave no value. It takes no memory.
fn no_value(error: &Error) -> ReadFault
    ensures memory { IsMemory error.now → result ≡ ReadFault.NoMemory }
    ensures text { ¬ IsMemory error.now → result ≡ ReadFault.NotJson }
{
    if error.is_memory() {
        ReadFault::NoMemory
    } else {
        ReadFault::NotJson
    }
}
