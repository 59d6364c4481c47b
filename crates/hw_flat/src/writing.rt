//! Writing a flat text, line by line.

ghost use Rattle.std.specs.Prelude.{◌≡◌, ◌*◌, ◌≤◌, [], ◌∷◌, ◌++◌, length, map, take, drop, codes, decimal, OnOk, OnErr};
ghost use Rattle.hw_model.specs.Problem.{horizon};
ghost use Rattle.hw_text.specs.Parts.{ended_lines};
ghost use Rattle.hw_flat.specs.TextWritten.{led, header_text, size_text, value_text, stay_text, row_text, hole_text, job_text, step_text, tugs_key, rule_text, rows_in, problem_text, IsWritable};

use crate::flat::Flat;
use crate::hours::any_hours;
use hw_model::{Hole, Job, NoMemory, Rule, Step};
use hw_text::{put_number, put_signed, put_spaced};
use std::alloc::AllocError;

/// Appends ` VALUE`, or ` -` for none.
fn put_value(out: &mut Vec<u8>, value: Option<u64>) -> Result<(), AllocError>
    ensures { OnOk result (out.new.items ≡ out.old.items ++ 32 ∷ value_text value) }
{
    match value {
        None => out.extend_from_slice(b" -"),
        Some(value) => {
            out.push(b' ')?;
            put_number(out, value)
        }
    }
}

/// Appends the values of the slots in which a ship sails.
fn put_values(out: &mut Vec<u8>, values: &[Option<u64>]) -> Result<(), AllocError>
    ensures { OnOk result (out.new.items ≡ out.old.items ++ led (map value_text values.now)) }
{
    for value in values {
        put_value(out, *value)?;
    }
    Ok(())
}

/// Appends ` y` where the ship may stay and ` n` where it may not.
fn put_stay(out: &mut Vec<u8>, value: Option<u64>) -> Result<(), AllocError>
    ensures { OnOk result (out.new.items ≡ out.old.items ++ 32 ∷ stay_text value) }
{
    match value {
        None => out.extend_from_slice(b" n"),
        Some(_) => out.extend_from_slice(b" y"),
    }
}

fn put_stays(out: &mut Vec<u8>, values: &[Option<u64>]) -> Result<(), AllocError>
    ensures { OnOk result (out.new.items ≡ out.old.items ++ led (map stay_text values.now)) }
{
    for value in values {
        put_stay(out, *value)?;
    }
    Ok(())
}

/// Appends the line of a ship with this many sailing slots.
fn put_row(out: &mut Vec<u8>, row: &[Option<u64>], sailing: usize) -> Result<(), AllocError>
    requires within { sailing ≤ length row.now }
    ensures { OnOk result (out.new.items ≡ out.old.items ++ row_text sailing row.now ++ 10 ∷ []) }
{
    let (values, last) = row.split_at(sailing);
    out.push(b'v')?;
    put_values(out, values)?;
    put_stays(out, last)?;
    out.push(b'\n')?;
    Ok(())
}

/// Appends the lines of the ships.
fn put_rows(
    out: &mut Vec<u8>,
    values: &[Option<u64>],
    ships: u32,
    slots: usize,
    sailing: usize,
) -> Result<(), AllocError>
    requires within { sailing ≤ slots }
    requires rows { length values.now ≡ ships * slots }
    ensures { OnOk result (out.new.items ≡ out.old.items ++ ended_lines (map (row_text sailing) (rows_in ships slots values.now))) }
{
    let mut left = values;
    for _ in 0..ships {
        let (row, rest) = left.split_at(slots);
        put_row(out, row, sailing)?;
        left = rest;
    }
    Ok(())
}

/// Appends ` LO:HI`.
fn put_hole(out: &mut Vec<u8>, hole: Hole) -> Result<(), AllocError>
    ensures { OnOk result (out.new.items ≡ out.old.items ++ 32 ∷ hole_text hole) }
{
    out.push(b' ')?;
    put_signed(out, hole.lo)?;
    out.push(b':')?;
    put_signed(out, hole.hi)
}

fn put_holes(out: &mut Vec<u8>, holes: &[Hole]) -> Result<(), AllocError>
    ensures { OnOk result (out.new.items ≡ out.old.items ++ led (map hole_text holes.now)) }
{
    for hole in holes {
        put_hole(out, *hole)?;
    }
    Ok(())
}

/// Appends ` SHIP:TUGS:HOLD`.
fn put_job(out: &mut Vec<u8>, job: Job) -> Result<(), AllocError>
    ensures { OnOk result (out.new.items ≡ out.old.items ++ 32 ∷ job_text job) }
{
    out.push(b' ')?;
    put_number(out, u64::from(job.ship))?;
    out.push(b':')?;
    put_number(out, u64::from(job.tugs))?;
    out.push(b':')?;
    put_number(out, u64::from(job.hold))
}

fn put_jobs(out: &mut Vec<u8>, jobs: &[Job]) -> Result<(), AllocError>
    ensures { OnOk result (out.new.items ≡ out.old.items ++ led (map job_text jobs.now)) }
{
    for job in jobs {
        put_job(out, *job)?;
    }
    Ok(())
}

/// Appends ` FROM:FLEET`.
fn put_step(out: &mut Vec<u8>, step: Step) -> Result<(), AllocError>
    ensures { OnOk result (out.new.items ≡ out.old.items ++ 32 ∷ step_text step) }
{
    out.push(b' ')?;
    put_number(out, u64::from(step.from))?;
    out.push(b':')?;
    put_number(out, u64::from(step.fleet))
}

fn put_steps(out: &mut Vec<u8>, steps: &[Step]) -> Result<(), AllocError>
    ensures { OnOk result (out.new.items ≡ out.old.items ++ led (map step_text steps.now)) }
{
    for step in steps {
        put_step(out, *step)?;
    }
    Ok(())
}

/// Appends a keyword of one letter and a number.
fn put_key(out: &mut Vec<u8>, key: u8, number: u32) -> Result<(), AllocError>
    ensures { OnOk result (out.new.items ≡ out.old.items ++ key ∷ 32 ∷ decimal number) }
{
    out.push(key)?;
    out.push(b' ')?;
    put_number(out, u64::from(number))
}

/// The key of a fleet with these steps.
fn key_of(later: &[Step]) -> u8
    ensures { result ∷ [] ≡ tugs_key later.now }
{
    if later.is_empty() { b'u' } else { b'h' }
}

/// Appends a rule without its end.
fn put_rule(out: &mut Vec<u8>, rule: &Rule) -> Result<(), AllocError>
    ensures { OnOk result (out.new.items ≡ out.old.items ++ rule_text rule.now) }
{
    match rule {
        Rule::Pair { v, w, holes } => {
            put_key(out, b'p', *v)?;
            put_spaced(out, *w)?;
            put_holes(out, &holes.items)
        }
        Rule::After { v, w, gap } => {
            put_key(out, b's', *v)?;
            put_spaced(out, *w)?;
            put_spaced(out, *gap)
        }
        Rule::Tugs { fleet, later, jobs } => {
            put_key(out, key_of(&later.items), *fleet)?;
            put_steps(out, &later.items)?;
            put_jobs(out, &jobs.items)
        }
    }
}

/// Appends the lines of the rules.
fn put_rules(out: &mut Vec<u8>, rules: &[Rule]) -> Result<(), AllocError>
    ensures { OnOk result (out.new.items ≡ out.old.items ++ ended_lines (map rule_text rules.now)) }
{
    for rule in rules {
        put_rule(out, rule)?;
        out.push(b'\n')?;
    }
    Ok(())
}

/// Appends the first two lines.
fn put_head(
    out: &mut Vec<u8>,
    stay: bool,
    hours: bool,
    ships: u32,
    sailing: u32,
) -> Result<(), AllocError>
    ensures { OnOk result (out.new.items ≡ out.old.items ++ ended_lines (header_text stay hours ∷ size_text ships sailing ∷ [])) }
{
    let version = match (stay, hours) {
        (false, false) => b'1',
        (true, false) => b'2',
        (false, true) => b'3',
        (true, true) => b'4',
    };
    out.extend_from_slice(b"flat ")?;
    out.push(version)?;
    out.extend_from_slice(b"\nsize ")?;
    put_number(out, u64::from(ships))?;
    put_spaced(out, sailing)?;
    out.push(b'\n')?;
    Ok(())
}

/// Appends the text of the problem.
fn put_lines(out: &mut Vec<u8>, flat: &Flat) -> Result<(), AllocError>
    ensures { OnOk result (out.new.items ≡ out.old.items ++ problem_text flat.now) }
{
    let sailing = flat.horizon();
    put_head(out, flat.stay, any_hours(&flat.rules), flat.ships, sailing)?;
    put_rows(
        out,
        &flat.values,
        flat.ships,
        flat.slots as usize,
        sailing as usize,
    )?;
    put_rules(out, &flat.rules)?;
    out.extend_from_slice(b"end\n")?;
    Ok(())
}

impl Flat {
    /// Appends the one text of the problem, in the time that its length takes. After `NoMemory`
    /// the bytes are as they were.
    pub fn write(&self, out: &mut Vec<u8>) -> Result<(), NoMemory>
        requires { IsWritable self.now }
        ensures written { OnOk result (out.new.items ≡ out.old.items ++ problem_text self.now) }
        ensures kept { OnErr result (out.new.items ≡ out.old.items) }
    {
        // Written to its own buffer first, so that no part of the text stays if memory runs out.
        let mut text = Vec::new(*out.allocator());
        put_lines(&mut text, self)?;
        out.extend_from_slice(&text)?;
        Ok(())
    }
}
