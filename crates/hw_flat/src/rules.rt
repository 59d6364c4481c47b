//! The forms of rules.

ghost use Rattle.std.specs.Prelude.{◌≡◌, ◌<◌, IfOk, IfSome, option_map};
ghost use Rattle.hw_flat.specs.TextForms.{ship_word, hole_form, job_form, step_form, some_items, front_items, ascend_from, some_ascending, pair_words, after_words, most_fleet, tugs_words, hours_words, rule_form};

use hw_model::{
    Hole, Holes, Job, Jobs, MOST_DIFFERENCE, MOST_FLEET, MOST_HOLD, MOST_HOLES, MOST_PLAIN_FLEET,
    MOST_SHIPS, MOST_SLOTS, MOST_TUGS, Rule, ShipId, Step, Steps,
};
use hw_text::{Words, is_text, read_signed, read_small};
use std::alloc::{AllocError, Global};

const MOST_JOBS: usize = MOST_SHIPS as usize;

/// A ship of the problem.
fn ship_of(word: &[u8], ships: u32) -> Option<ShipId>
    ensures form { result ≡ ship_word ships word.now }
    ensures ship_in { IfSome result (λ ship. ship < ships) }
{
    match read_small(word, 0, ships) {
        Some(ship) if ship < ships => Some(ship),
        _ => None,
    }
}

/// `LO:HI`.
fn hole_of(word: &[u8]) -> Option<Hole>
    ensures { result ≡ hole_form word.now }
{
    let mut parts = Words::parted_by(b':', word);
    let lo = parts.word()?;
    let hi = parts.word()?;
    parts.end()?;
    let lo = read_signed(lo, MOST_DIFFERENCE)?;
    let hi = read_signed(hi, MOST_DIFFERENCE)?;
    if lo <= hi {
        Some(Hole { lo, hi })
    } else {
        None
    }
}

/// Holes, of which there are 1 to `MOST_HOLES`.
fn holes_of(alloc: Global, mut words: Words<'_>) -> Result<Option<Vec<Hole>>, AllocError>
    ensures { IfOk result (λ o. option_map (λ v. v.items) o ≡ some_items hole_form MOST_HOLES words.entry) }
{
    let mut holes = Vec::new(alloc);
    while let Some(word) = words.word() {
        if holes.len() == MOST_HOLES {
            return Ok(None);
        }
        let Some(hole) = hole_of(word) else {
            return Ok(None);
        };
        holes.push(hole)?;
    }
    if holes.is_empty() {
        return Ok(None);
    }
    Ok(Some(holes))
}

/// `SHIP:TUGS:HOLD`.
fn job_of(word: &[u8], ships: u32) -> Option<Job>
    ensures form { result ≡ job_form ships word.now }
{
    let mut parts = Words::parted_by(b':', word);
    let ship = parts.word()?;
    let tugs = parts.word()?;
    let hold = parts.word()?;
    parts.end()?;
    let ship = ship_of(ship, ships)?;
    let tugs = read_small(tugs, 1, MOST_TUGS)?;
    let hold = read_small(hold, 1, MOST_HOLD)?;
    Some(Job { ship, tugs, hold })
}

/// Jobs, of which there are 1 to `MOST_SHIPS`.
fn jobs_of(alloc: Global, mut words: Words<'_>, ships: u32) -> Result<Option<Vec<Job>>, AllocError>
    ensures { IfOk result (λ o. option_map (λ v. v.items) o ≡ some_items (job_form ships) MOST_SHIPS words.entry) }
{
    let mut jobs = Vec::new(alloc);
    while let Some(word) = words.word() {
        if jobs.len() == MOST_JOBS {
            return Ok(None);
        }
        let Some(job) = job_of(word, ships) else {
            return Ok(None);
        };
        jobs.push(job)?;
    }
    if jobs.is_empty() {
        return Ok(None);
    }
    Ok(Some(jobs))
}

/// Whether the ships of the jobs ascend.
fn ascend(jobs: &[Job]) -> bool
    ensures { result ≡ ascend_from 0 jobs.now }
{
    let mut least = 0;
    for job in jobs {
        if u64::from(job.ship) < least {
            return false;
        }
        least = u64::from(job.ship) + 1;
    }
    true
}

/// `V W LO:HI ..`, where V is below W.
fn pair_of(alloc: Global, mut words: Words<'_>, ships: u32) -> Result<Option<Rule>, AllocError>
    ensures { IfOk result (λ o. o ≡ pair_words ships words.entry) }
{
    let (Some(v), Some(w)) = (words.word(), words.word()) else {
        return Ok(None);
    };
    let (Some(v), Some(w)) = (ship_of(v, ships), ship_of(w, ships)) else {
        return Ok(None);
    };
    let Some(items) = holes_of(alloc, words)? else {
        return Ok(None);
    };
    if v >= w {
        return Ok(None);
    }
    let holes = Holes { items };
    Ok(Some(Rule::Pair { v, w, holes }))
}

/// `V W GAP`, where V is not W.
fn after_of(mut words: Words<'_>, ships: u32) -> Option<Rule>
    ensures { result ≡ after_words ships words.entry }
{
    let v = words.word()?;
    let w = words.word()?;
    let gap = words.word()?;
    words.end()?;
    let v = ship_of(v, ships)?;
    let w = ship_of(w, ships)?;
    let gap = read_small(gap, 0, MOST_SLOTS)?;
    if v < w || w < v {
        Some(Rule::After { v, w, gap })
    } else {
        None
    }
}

/// The greatest fleet that a line may have.
fn most_fleet(hours: bool) -> u32
    ensures { result ≡ most_fleet hours }
{
    if hours { MOST_FLEET } else { MOST_PLAIN_FLEET }
}

/// `FLEET SHIP:TUGS:HOLD ..`, where the ships ascend.
fn tugs_of(
    alloc: Global,
    mut words: Words<'_>,
    hours: bool,
    ships: u32,
) -> Result<Option<Rule>, AllocError>
    ensures { IfOk result (λ o. o ≡ tugs_words hours ships words.entry) }
{
    let Some(fleet) = words.word() else {
        return Ok(None);
    };
    let Some(fleet) = read_small(fleet, 0, most_fleet(hours)) else {
        return Ok(None);
    };
    let Some(items) = jobs_of(alloc, words, ships)? else {
        return Ok(None);
    };
    if !ascend(&items) {
        return Ok(None);
    }
    let jobs = Jobs { items };
    let later = Steps {
        items: Vec::new(alloc),
    };
    Ok(Some(Rule::Tugs { fleet, later, jobs }))
}

/// `FROM:FLEET`, where ships sail in the slot, which isn't the first one.
fn step_of(word: &[u8], slots: u32) -> Option<Step>
    ensures { result ≡ step_form slots word.now }
{
    let mut parts = Words::parted_by(b':', word);
    let from = parts.word()?;
    let fleet = parts.word()?;
    parts.end()?;
    let from = read_small(from, 1, slots)?;
    let fleet = read_small(fleet, 0, MOST_FLEET)?;
    if from < slots {
        Some(Step { from, fleet })
    } else {
        None
    }
}

/// The steps in front of the words, and the words from the first that is none. `again` has the same
/// words; it stays behind at that word.
fn steps_of<'t>(
    alloc: Global,
    mut words: Words<'t>,
    mut again: Words<'t>,
    slots: u32,
) -> Result<(Vec<Step>, Words<'t>), AllocError>
    requires same { again ≡ words }
    ensures { IfOk result (λ x. (x.0.items, x.1) ≡ front_items (step_form slots) words.entry) }
{
    let mut steps = Vec::new(alloc);
    while let Some(word) = words.word() {
        let Some(step) = step_of(word, slots) else {
            return Ok((steps, again));
        };
        steps.push(step)?;
        let _ = again.word();
    }
    Ok((steps, again))
}

/// Whether there is a step, and the slots of the steps ascend.
fn steps_ascend(steps: &[Step]) -> bool
    ensures { result ≡ some_ascending steps.now }
{
    let mut least = 1;
    for step in steps {
        if u64::from(step.from) < least {
            return false;
        }
        least = u64::from(step.from) + 1;
    }
    !steps.is_empty()
}

/// `FLEET FROM:FLEET .. SHIP:TUGS:HOLD ..`, where the slots ascend and the ships do. `again` has the
/// same words.
fn hours_of(
    alloc: Global,
    mut words: Words<'_>,
    mut again: Words<'_>,
    ships: u32,
    slots: u32,
) -> Result<Option<Rule>, AllocError>
    requires same { again ≡ words }
    ensures { IfOk result (λ o. o ≡ hours_words ships slots words.entry) }
{
    let _ = again.word();
    let Some(fleet) = words.word() else {
        return Ok(None);
    };
    let Some(fleet) = read_small(fleet, 0, MOST_FLEET) else {
        return Ok(None);
    };
    let (steps, words) = steps_of(alloc, words, again, slots)?;
    let Some(items) = jobs_of(alloc, words, ships)? else {
        return Ok(None);
    };
    if !steps_ascend(&steps) || !ascend(&items) {
        return Ok(None);
    }
    let jobs = Jobs { items };
    let later = Steps { items: steps };
    Ok(Some(Rule::Tugs { fleet, later, jobs }))
}

/// A pair after `p`, a precedence after `s`, a fleet and its jobs after `u`, or, where fleets have
/// hours, a fleet with its steps and its jobs after `h`.
pub fn rule_of(
    alloc: Global,
    line: &[u8],
    hours: bool,
    ships: u32,
    slots: u32,
) -> Result<Option<Rule>, AllocError>
    ensures { IfOk result (λ o. o ≡ rule_form hours ships slots line.now) }
{
    let mut words = Words::of(line);
    match words.word() {
        Some(key) if is_text(key, b"p") => pair_of(alloc, words, ships),
        Some(key) if is_text(key, b"s") => Ok(after_of(words, ships)),
        Some(key) if is_text(key, b"u") => tugs_of(alloc, words, hours, ships),
        Some(key) if hours && is_text(key, b"h") => {
            let mut again = Words::of(line);
            let _ = again.word();
            hours_of(alloc, words, again, ships, slots)
        }
        _ => Ok(None),
    }
}
