//! `demo NUMBER SHIPS SLOTS BUDGET PROOF`: a demonstration that is solved and checked.

ghost use Rattle.std.specs.Prelude.{◌≡◌, ◌≤◌, [], All, IfOk, None, length, true};
ghost use Rattle.hw_cert.specs.Logs.{memory_log};
ghost use Rattle.hw_desk.specs.State.{IsNewDesk};
ghost use Rattle.hw_flat.specs.Demonstration.{demonstration};
ghost use Rattle.hw_cert_lines.specs.Lemmas.{lemmas_of};
ghost use Rattle.hw_cert_lines.specs.Tolled.{is_plain};
ghost use Rattle.hw_cert_lines.specs.Valid.{LineFits, Valid, verdict};
ghost use Rattle.hw_search_laws.specs.Solving.{SolveMeets};
ghost use Rattle.hw_report.specs.Printing.{CanPrint};
ghost use Rattle.hw_report.specs.Reports.{demo as summary_of};
ghost use Rattle.hw_report.specs.Seen.{report_seen};
ghost use Rattle.hw_command.specs.Carries.{Carries};
ghost use Rattle.hw_command_search.specs.Demo.{CanDraw, Demonstrates, best_in, demo_task, head_of};

use hw_cert::{Line, MemoryLog, Verdict, Version};
use hw_cert_course::check_one;
use hw_check::Checker;
use hw_command::{Status, finish, send_lines};
use hw_desk::Desk;
use hw_flat::{Flat, make_demo};
use hw_model::NoMemory;
use hw_report::{Head, Report};
use hw_search::{Solved, solve};
use hw_search_laws::MOST_BUDGET;
use std::alloc::Global;

/// Which demonstration is drawn: its number, of 1 to 40 ships and 1 to 512 slots.
#[derive(Clone, Copy)]
pub struct Draw {
    pub number: u32,
    pub ships: u32,
    pub slots: u32,
}

/// What was found of a demonstration, and its certificate.
#[derive(Drop)]
struct Shown {
    head: Head,
    best: Option<u64>,
    verdict: Verdict,
    lemmas: u32,
    lines: Vec<Line>,
}

/// Draws the problem, solves it and checks the certificate in memory, and then sends the certificate
/// to Proof and reports. The budget is in lemmas. Proof isn't made if memory runs out.
pub fn demo<D: Desk>(alloc: Global, desk: &mut D, draw: Draw, budget: u32, proof: &str) -> Status
    requires draw { CanDraw draw.ships draw.slots }
    requires least { 1 ≤ budget }
    requires most { budget ≤ MOST_BUDGET }
    requires fresh { IsNewDesk (D.state desk.old) }
    ensures { Carries (demo_task (demonstration draw.number draw.ships draw.slots) budget proof.now) (D.state desk.old) (D.state desk.new) result }
{
    let shown = match show(alloc, draw, budget) {
        Ok(shown) => shown,
        Err(_) => return finish(desk, &Report::Memory),
    };
    match send_lines(desk, Version::Two, &shown.lines, proof) {
        Ok(()) => finish(desk, &summary(&shown)),
        Err(_) => Status::WriteFault,
    }
}

/// The report of what was found.
fn summary(shown: &Shown) -> Report<'static>
    ensures value { report_seen result ≡ summary_of shown.now.head shown.now.best shown.now.verdict shown.now.lemmas }
    ensures printed { CanPrint (report_seen result) }
{
    Report::Demo {
        head: shown.head,
        best: shown.best,
        verdict: shown.verdict,
        lemmas: shown.lemmas,
    }
}

/// Solves and checks the demonstration.
fn show(alloc: Global, draw: Draw, budget: u32) -> Result<Shown, NoMemory>
    requires draw { CanDraw draw.ships draw.slots }
    requires least { 1 ≤ budget }
    requires most { budget ≤ MOST_BUDGET }
    ensures { IfOk result (λ s. Demonstrates (demonstration draw.number draw.ships draw.slots) budget s.head s.best s.verdict s.lemmas s.lines.items) }
{
    let flat = make_demo(alloc, draw.number, draw.ships, draw.slots)?;
    let (solved, lines) = solve_kept(alloc, &flat, budget);
    let head = match head_of(&solved, budget) {
        Some(head) => head,
        None => return Err(NoMemory),
    };
    let verdict = check_all(alloc, &flat, &lines)?;
    Ok(Shown {
        head,
        best: best_in(verdict),
        verdict,
        lemmas: count_lemmas(&lines),
        lines,
    })
}

/// Solves a problem, and keeps the lines.
fn solve_kept(alloc: Global, flat: &Flat, budget: u32) -> (Solved, Vec<Line>)
    requires least { 1 ≤ budget }
    requires most { budget ≤ MOST_BUDGET }
    ensures { SolveMeets flat.now budget (memory_log []) result.0 (memory_log result.1.items) }
{
    let mut log = MemoryLog::new(alloc);
    let solved = solve(alloc, flat, budget, &mut log);
    (solved, log.into_lines())
}

/// The head of what was found, or none if memory ran out.
fn head_of(solved: &Solved, budget: u32) -> Option<Head>
    requires logged { solved.now ≡ Solved.LogFailed → ⊥ }
    ensures { result ≡ head_of budget solved.now }
{
    match solved {
        Solved::Optimal { cargo, .. } => Some(Head::Optimal { cargo: *cargo }),
        Solved::Infeasible => Some(Head::Infeasible),
        Solved::Unfinished { .. } => Some(Head::Unfinished { budget }),
        Solved::NoMemory { .. } => None,
        Solved::LogFailed => unreachable!(),
    }
}

/// The best cargo in a verdict.
fn best_in(verdict: Verdict) -> Option<u64>
    ensures { result ≡ best_in verdict }
{
    match verdict {
        Verdict::Optimal(best) => Some(best),
        Verdict::Infeasible => None,
        Verdict::Unfinished(best) => best,
    }
}

/// Checks valid lines, one by one, and says what they show.
fn check_all(alloc: Global, flat: &Flat, lines: &[Line]) -> Result<Verdict, NoMemory>
    requires plain { All (λ line. is_plain line ≡ true) lines.now }
    requires fit { All (LineFits flat.now) lines.now }
    requires valid { Valid flat.now lines.now }
    ensures { IfOk result (λ shown. shown ≡ verdict flat.now lines.now) }
{
    let mut checker = Checker::new(alloc, flat)?;
    for line in lines {
        checker = check_one(checker, line)?;
    }
    Ok(checker.verdict())
}

/// How many of the lines are lemmas.
fn count_lemmas(lines: &[Line]) -> u32
    requires few { length (lemmas_of lines.now) ≤ MOST_BUDGET }
    ensures { result ≡ length (lemmas_of lines.now) }
{
    let mut count = 0;
    for line in lines {
        if let Line::Lemma { .. } = line {
            count += 1;
        }
    }
    count
}
