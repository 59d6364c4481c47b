//! The parts of a value whose form was tested.

ghost use Rattle.std.specs.Prelude.{◌≡◌, IfOk, codes};
ghost use Rattle.serde_json.specs.Data.{Data};
ghost use Rattle.serde_json.specs.View.{view, items_view};
ghost use Rattle.hw_read.specs.Parts.{number_in, text_in, truth_in, items_in, each_part, closing_part, closings_in, waypoint_part, section_part, row_part, turnaround_part, pass_part, stretch_part, ship_part, berth_part, after_part, some_text_in, heights_in, port_parts};
ghost use Rattle.hw_read.specs.Parts.{number_in_data as number_value, text_in_data as text_value, items_in_data as items_value};

use hw_port::{
    AfterPair, BerthPair, Closing, Closings, Pass, PortParts, Row, Section, Ship, Stretch, Text,
    Turnaround, Waypoint,
};
use serde_json::Value;
use std::alloc::{AllocError, Global};

fn number(name: &str, value: &Value) -> i64
    ensures { result ≡ number_in name.now (view value.now) }
{
    value.get(name).and_then(Value::as_i64).unwrap_or(0)
}

fn truth(name: &str, value: &Value) -> bool
    ensures { result ≡ truth_in name.now (view value.now) }
{
    value.get(name).and_then(Value::as_bool).unwrap_or(false)
}

fn text_of(alloc: Global, value: &Value) -> Result<Text, AllocError>
    ensures { IfOk result (λ t. t ≡ text_value (view value.now)) }
{
    let text = value.as_str().unwrap_or("");
    let items = Vec::from_slice(alloc, text.as_bytes())?;
    Ok(Text { items })
}

fn text(alloc: Global, name: &str, value: &Value) -> Result<Text, AllocError>
    ensures { IfOk result (λ t. t ≡ text_in name.now (view value.now)) }
{
    let text = value.get(name).and_then(Value::as_str).unwrap_or("");
    let items = Vec::from_slice(alloc, text.as_bytes())?;
    Ok(Text { items })
}

fn items_of(value: &Value) -> &[Value]
    ensures { items_view result.now ≡ items_value (view value.now) }
{
    match value.as_array() {
        Some(items) => items.as_slice(),
        None => &[],
    }
}

fn items<'v>(name: &str, value: &'v Value) -> &'v [Value]
    ensures { items_view result.now ≡ items_in name.now (view value.now) }
{
    match value.get(name) {
        Some(member) => items_of(member),
        None => &[],
    }
}

/// What the items of a list become.
trait Part: Sized + Drop {
    ghost part: { Data → Self };

    fn build(alloc: Global, value: &Value) -> Result<Self, AllocError>
        ensures { IfOk result (λ x. x ≡ part (view value.now)) };
}

fn build_each<T: Part>(alloc: Global, items: &[Value]) -> Result<Vec<T>, AllocError>
    ensures { IfOk result (λ v. v.items ≡ each_part T.part (items_view items.now)) }
{
    let mut all = Vec::new(alloc);
    for value in items {
        all.push(T::build(alloc, value)?)?;
    }
    Ok(all)
}

impl Part for i64 {
    ghost part = { number_value };

    fn build(_alloc: Global, value: &Value) -> Result<i64, AllocError> {
        Ok(value.as_i64().unwrap_or(0))
    }
}

impl Part for Closing {
    ghost part = { closing_part };

    fn build(_alloc: Global, value: &Value) -> Result<Closing, AllocError> {
        Ok(Closing {
            from: number("from", value),
            to: number("to", value),
        })
    }
}

/// The closed slots of a port, a ship or a waypoint.
fn closed(alloc: Global, value: &Value) -> Result<Closings, AllocError>
    ensures { IfOk result (λ c. c ≡ closings_in (view value.now)) }
{
    let items = build_each(alloc, items("closed", value))?;
    Ok(Closings { items })
}

impl Part for Waypoint {
    ghost part = { waypoint_part };

    fn build(alloc: Global, value: &Value) -> Result<Waypoint, AllocError> {
        Ok(Waypoint {
            name: text(alloc, "name", value)?,
            depth: number("depth", value),
            closed: closed(alloc, value)?,
        })
    }
}

impl Part for Section {
    ghost part = { section_part };

    fn build(alloc: Global, value: &Value) -> Result<Section, AllocError> {
        Ok(Section {
            name: text_of(alloc, value)?,
        })
    }
}

impl Part for Row {
    ghost part = { row_part };

    fn build(alloc: Global, value: &Value) -> Result<Row, AllocError> {
        Ok(Row {
            items: build_each(alloc, items_of(value))?,
        })
    }
}

impl Part for Pass {
    ghost part = { pass_part };

    fn build(_alloc: Global, value: &Value) -> Result<Pass, AllocError> {
        Ok(Pass {
            waypoint: number("waypoint", value),
            offset: number("offset", value),
            clearance: number("clearance", value),
        })
    }
}

impl Part for Stretch {
    ghost part = { stretch_part };

    fn build(_alloc: Global, value: &Value) -> Result<Stretch, AllocError> {
        Ok(Stretch {
            section: number("section", value),
            enter: number("enter", value),
            leave: number("leave", value),
        })
    }
}

impl Part for Ship {
    ghost part = { ship_part };

    #[tactic(auto, unfolding(crate::specs::Parts::ship_part))]
    fn build(alloc: Global, value: &Value) -> Result<Ship, AllocError> {
        Ok(Ship {
            name: text(alloc, "name", value)?,
            direction: text(alloc, "direction", value)?,
            class: number("class", value),
            earliest: number("earliest", value),
            latest: number("latest", value),
            tpc: number("tpc", value),
            light: number("light", value),
            deep: number("deep", value),
            route: build_each(alloc, items("route", value))?,
            channel: build_each(alloc, items("channel", value))?,
            tugs: number("tugs", value),
            job: number("job", value),
            may_stay: truth("may_stay", value),
            closed: closed(alloc, value)?,
        })
    }
}

impl Part for BerthPair {
    ghost part = { berth_part };

    fn build(_alloc: Global, value: &Value) -> Result<BerthPair, AllocError> {
        Ok(BerthPair {
            outgoing: number("outgoing", value),
            incoming: number("incoming", value),
            clear: number("clear", value),
        })
    }
}

impl Part for AfterPair {
    ghost part = { after_part };

    fn build(_alloc: Global, value: &Value) -> Result<AfterPair, AllocError> {
        Ok(AfterPair {
            first: number("first", value),
            second: number("second", value),
            gap: number("gap", value),
        })
    }
}

/// The date and time at which slot 0 begins, if a value has it.
fn start(alloc: Global, value: &Value) -> Result<Option<Text>, AllocError>
    ensures { IfOk result (λ t. t ≡ some_text_in (codes "start") (view value.now)) }
{
    match value.get("start").and_then(Value::as_str) {
        Some(text) => {
            let items = Vec::from_slice(alloc, text.as_bytes())?;
            Ok(Some(Text { items }))
        }
        None => Ok(None),
    }
}

/// The heights that judge a pass: those at the beginning of its slot, where a value doesn't say.
fn heights(alloc: Global, value: &Value) -> Result<Text, AllocError>
    ensures { IfOk result (λ t. t ≡ heights_in (view value.now)) }
{
    let text = value
        .get("heights")
        .and_then(Value::as_str)
        .unwrap_or("start");
    let items = Vec::from_slice(alloc, text.as_bytes())?;
    Ok(Text { items })
}

fn turnaround(value: &Value) -> Turnaround
    ensures { result ≡ turnaround_part (view value.now) }
{
    match value.get("turnaround") {
        Some(times) => Turnaround {
            outgoing: number("outgoing", times),
            incoming: number("incoming", times),
        },
        None => Turnaround {
            outgoing: 0,
            incoming: 0,
        },
    }
}

/// The parts of an instance that has the form. A value of another form gives 0, false, or nothing
/// instead.
#[tactic(auto, unfolding(crate::specs::Parts::port_parts))]
pub fn build_parts(alloc: Global, value: &Value) -> Result<PortParts, AllocError>
    ensures { IfOk result (λ p. p ≡ port_parts (view value.now)) }
{
    Ok(PortParts {
        version: number("version", value),
        start: start(alloc, value)?,
        slots: number("slots", value),
        slot_minutes: number("slot_minutes", value),
        heights: heights(alloc, value)?,
        closed: closed(alloc, value)?,
        waypoints: build_each(alloc, items("waypoints", value))?,
        sections: build_each(alloc, items("sections", value))?,
        separation: build_each(alloc, items("separation", value))?,
        turnaround: turnaround(value),
        fleet: number("fleet", value),
        ships: build_each(alloc, items("ships", value))?,
        berths: build_each(alloc, items("berths", value))?,
        after: build_each(alloc, items("after", value))?,
    })
}
