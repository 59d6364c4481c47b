//! The form of single values: a value of its kind, or the fault.

ghost use Rattle.std.specs.Prelude.{◌≡◌, true, is_some, string_bytes};
ghost use Rattle.std.specs.List.{list_all};
ghost use Rattle.std.specs.Result.{result_map_both};
ghost use Rattle.hw_lexicon.specs.Words.{find_from};
ghost use Rattle.serde_json.specs.View.{view, items_view, members_view};
ghost use Rattle.hw_port.specs.Faults.{fault_of};
ghost use Rattle.hw_read.specs.Form.{number_form, text_form, truth_form, items_form, object_form, member_form, all_named};

use hw_lexicon::Lexicon;
use hw_port::{Path, PortFault, PortWord};
use serde_json::{Map, Value};

fn fault(path: Path, word: PortWord) -> PortFault
    ensures { result ≡ record { path = path; word = word } }
{
    PortFault { path, word }
}

/// A fault unless the value is a whole number of 64 bits with a sign.
pub fn number(path: Path, value: &Value) -> Result<(), PortFault>
    ensures { fault_of result ≡ fault_of (number_form path (view value.now)) }
{
    match value.as_i64() {
        Some(_) => Ok(()),
        None => Err(fault(path, PortWord::Kind)),
    }
}

/// A fault unless the value is a text.
pub fn text(path: Path, value: &Value) -> Result<(), PortFault>
    ensures { fault_of result ≡ fault_of (text_form path (view value.now)) }
{
    match value.as_str() {
        Some(_) => Ok(()),
        None => Err(fault(path, PortWord::Kind)),
    }
}

/// A fault unless the value is a truth value.
pub fn truth(path: Path, value: &Value) -> Result<(), PortFault>
    ensures { fault_of result ≡ fault_of (truth_form path (view value.now)) }
{
    match value.as_bool() {
        Some(_) => Ok(()),
        None => Err(fault(path, PortWord::Kind)),
    }
}

/// The items of a list. A value of another kind gives the fault `Kind`.
pub fn items(path: Path, value: &Value) -> Result<&[Value], PortFault>
    ensures { result_map_both (λ v. items_view v.now) (λ e. e) result ≡ items_form path (view value.now) }
{
    match value.as_array() {
        Some(items) => Ok(items.as_slice()),
        None => Err(fault(path, PortWord::Kind)),
    }
}

/// The member of an object. Where it isn't there, that is the fault `Missing`.
pub fn member<'v>(path: Path, name: &str, value: &'v Value) -> Result<&'v Value, PortFault>
    ensures { result_map_both (λ v. view v.now) (λ e. e) result ≡ member_form path name.now (view value.now) }
{
    match value.get(name) {
        Some(member) => Ok(member),
        None => Err(fault(path, PortWord::Missing)),
    }
}

fn all_found(names: &Lexicon, map: &Map<String, Value>) -> bool
    ensures { result ≡ list_all (λ e. is_some (find_from 0 (string_bytes e.0) names.now)) map.now.entries }
{
    map.iter()
        .all(|(key, _)| names.find(key.as_bytes()).is_some())
}

/// Whether all members are named in the list.
fn are_named(names: &Lexicon, map: &Map<String, Value>) -> bool
    ensures { result ≡ all_named names.now (members_view map.now.entries) }
{
    all_found(names, map)
}

/// A fault unless the value is an object and each of its members is named in the list.
pub fn object(path: Path, names: &Lexicon, value: &Value) -> Result<(), PortFault>
    ensures { fault_of result ≡ fault_of (object_form path names.now (view value.now)) }
{
    let Some(map) = value.as_object() else {
        return Err(fault(path, PortWord::Kind));
    };
    if are_named(names, map) {
        Ok(())
    } else {
        Err(fault(path, PortWord::Other))
    }
}
