//! The form pass: one walk over the table of places.

ghost use Rattle.std.specs.Prelude.{◌≡◌};
ghost use Rattle.serde_json.specs.View.{view};
ghost use Rattle.hw_read.specs.declared.table.Version.TheVariants.{First, Second, Third};
ghost use Rattle.hw_read.specs.Places.{no_stars};
ghost use Rattle.hw_read.specs.Table.{port, version_of as told_version, first_of, instance_faults};
ghost use Rattle.hw_read.specs.Walk.{WalkTells, form_fault, form_long, entry_fault, entry_long, instance_long};

use crate::fault::ReadFault;
use crate::members::{items, member, number, object, text, truth};
use crate::names::lexicon_of;
use crate::stars::{Stars, path_of, stars_of};
use crate::table::{Form, PORT, Version};
use serde_json::Value;

const NO_STARS: Stars = Stars {
    first: None,
    second: None,
};

/// Tests a value by a form, and returns the first fault. An object's members are tested in the
/// order of the table, each by one look-up. `NoMemory` says that a list has more than 2^32 items.
fn walk(form: &Form<'_>, version: Version, stars: Stars, value: &Value) -> Result<(), ReadFault>
    ensures { WalkTells (form_long version form.now (view value.now)) result (form_fault version form.now stars (view value.now)) }
{
    match form {
        Form::Number(field) => {
            number(path_of(*field, stars), value)?;
            Ok(())
        }
        Form::Text(field) => {
            text(path_of(*field, stars), value)?;
            Ok(())
        }
        Form::Truth(field) => {
            truth(path_of(*field, stars), value)?;
            Ok(())
        }
        Form::List(field, inner) => {
            let items = items(path_of(*field, stars), value)?;
            for (i, item) in items.iter().enumerate() {
                // A path can't give the number of an item after 2^32 others.
                let Ok(place) = u32::try_from(i) else {
                    return Err(ReadFault::NoMemory);
                };
                walk(inner, version, stars_of(stars, place), item)?;
            }
            Ok(())
        }
        Form::Object(field, names, members) => {
            object(path_of(*field, stars), &lexicon_of(*names, version), value)?;
            walk(members, version, stars, value)
        }
        Form::Member(field, name, form, more) => {
            let value_of = member(path_of(*field, stars), name, value)?;
            walk(form, version, stars, value_of)?;
            walk(more, version, stars, value)
        }
        Form::Stays(more) => {
            match version {
                Version::First => Ok(()),
                Version::Second | Version::Third => walk(more, version, stars, value),
            }
        }
        Form::Later(more, before) => {
            match version {
                Version::First | Version::Second => walk(before, version, stars, value),
                Version::Third => walk(more, version, stars, value),
            }
        }
        Form::End => Ok(()),
    }
}

/// The version of an instance.
fn version_of(value: &Value) -> Version
    ensures { result ≡ told_version (view value.now) }
{
    match value.get("version").and_then(Value::as_i64) {
        Some(2) => Version::Second,
        Some(3) => Version::Third,
        _ => Version::First,
    }
}

#[tactic(auto, unfolding(crate::specs::Table::port))]
fn test_first(value: &Value) -> Result<(), ReadFault>
    ensures { WalkTells (entry_long (port First) (view value.now)) result (entry_fault (port First) no_stars (view value.now)) }
{
    walk(&PORT, Version::First, NO_STARS, value)
}

#[tactic(auto, unfolding(crate::specs::Table::port))]
fn test_second(value: &Value) -> Result<(), ReadFault>
    ensures { WalkTells (entry_long (port Second) (view value.now)) result (entry_fault (port Second) no_stars (view value.now)) }
{
    walk(&PORT, Version::Second, NO_STARS, value)
}

#[tactic(auto, unfolding(crate::specs::Table::port))]
fn test_third(value: &Value) -> Result<(), ReadFault>
    ensures { WalkTells (entry_long (port Third) (view value.now)) result (entry_fault (port Third) no_stars (view value.now)) }
{
    walk(&PORT, Version::Third, NO_STARS, value)
}

fn test_by(version: Version, value: &Value) -> Result<(), ReadFault>
    ensures { WalkTells (entry_long (port version) (view value.now)) result (entry_fault (port version) no_stars (view value.now)) }
{
    match version {
        Version::First => test_first(value),
        Version::Second => test_second(value),
        Version::Third => test_third(value),
    }
}

/// The first fault of form of an instance, by the table of its version.
pub fn test_form(value: &Value) -> Result<(), ReadFault>
    ensures { WalkTells (instance_long (view value.now)) result (first_of (instance_faults (view value.now))) }
{
    test_by(version_of(value), value)
}
