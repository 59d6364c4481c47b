//! The checker: one line after another is taken where it is valid after those before it.

ghost use Rattle.std.specs.Prelude.{◌≡◌, ◌+◌, ◌*◌, ◌^◌, ◌<◌, ◌≤◌, List, [], Some, None, length, false, IfOk, IfErr, IfSome, OnOk};
ghost use Rattle.hw_model.specs.Problem.{shape_of};
ghost use Rattle.hw_model.specs.Lits.{IsClause};
ghost use Rattle.hw_cert_lines.specs.declared.line.Line.{Line};
ghost use Rattle.hw_cert_lines.specs.Lines.{clause_of, live_numbers};
ghost use Rattle.hw_cert_lines.specs.Valid.{LineFits, PricesFit, verdict, verdict_by};
ghost use Rattle.hw_cert_lines.specs.Tolled.{bound_of};
ghost use Rattle.hw_cert_lines.specs.Kept.{kept_after, with_clause, with_toll};
ghost use Rattle.hw_cert_lines.specs.Refusals.{is_past, first_unknown, kept_refusal};
ghost use Rattle.hw_price_laws.specs.Tolls.{IsToll};
ghost use Rattle.hw_cert_laws.specs.Laws.{IsBound};
ghost use Rattle.hw_check.specs.States.{no_lines, literals};
ghost use Rattle.hw_check.specs.Follows.{CheckerFollows, CheckerAnswers, Stops};

use crate::clause_list::ClauseList;
use crate::refusing::{claim, clause_of, refused};
use crate::space::Space;
use crate::stop::CheckStop;
use hw_cert_lines::{CheckWord, Line, Refusal, Verdict};
use hw_flat::{Flat, Room};
use hw_lits::Clause;
use hw_model::NoMemory;
use hw_price_laws::{MOST_TOLLS, Tariff, Toll};
use hw_price_tests::PriceBook;
use hw_rules::cargo;
use std::alloc::Global;
use std::marker::Model;

/// Takes the lines of a certificate of one problem, one by one.
///
/// Seen as the live clauses with their numbers, the number of the next clause line, the best cargo
/// so far in tenths of a tonne, whether a clause line had no literals, the tolls, the tariff in
/// force, and the last bound in tenths of a tonne.
#[derive(Drop)]
pub struct Checker<'f> {
    flat: &'f Flat,
    clauses: ClauseList,
    prices: PriceBook,
    best: Option<u64>,
    is_closed: bool,
    /// The room in which clauses are denied. Its ranges and orders mean nothing between two lines.
    room: Room,
}

impl<'f> Model for Checker<'f> {
    ghost use Rattle.hw_check.specs.States.{CheckState, IsKept, kept_in};

    ghost Value = { CheckState };

    ghost view = { λ c. record { problem = c.flat.now; kept = kept_in c.clauses c.prices c.best c.is_closed; kept_lits = c.clauses.kept_lits; kept_places = c.clauses.kept_places } };

    ghost invariant = { λ c. IsKept c.flat.now c.clauses c.prices c.room };
}

impl<'f> Checker<'f> {
    /// A checker of no lines, without a best.
    pub fn new(alloc: Global, flat: &'f Flat) -> Result<Checker<'f>, NoMemory>
        ensures state { IfOk result (λ c. c ≡ no_lines flat.now) }
        ensures followed { IfOk result (λ c. CheckerFollows c []) }
    {
        let room = Room::whole(alloc, flat.shape())?;
        Ok(Checker {
            flat,
            clauses: ClauseList::new(alloc),
            prices: PriceBook::new(alloc, flat)?,
            best: None,
            is_closed: false,
            room,
        })
    }

    /// The number of live clauses.
    pub fn held(&self) -> u32
        ensures state { result ≡ length self.now.kept.live }
        ensures followed { (all : List Line) → CheckerFollows self.now all → result ≡ length (live_numbers all) }
    {
        self.clauses.held()
    }

    /// How much is kept of clauses: never more than twice what the live ones need. Tolls and the tariff in force
    /// are not counted.
    pub fn space(&self) -> Space
        ensures live_lits { result.live_lits ≡ literals self.now.kept.live }
        ensures live_clauses { result.live_clauses ≡ length self.now.kept.live }
        ensures kept_lits { result.kept_lits ≡ self.now.kept_lits }
        ensures kept_places { result.kept_places ≡ self.now.kept_places }
        ensures bounded { result.kept_lits + result.kept_places ≤ 2 * (result.live_clauses + result.live_lits) }
    {
        Space {
            live_lits: self.clauses.live_lits(),
            live_clauses: self.clauses.held() as usize,
            kept_lits: self.clauses.kept_lits(),
            kept_places: self.clauses.kept_places(),
        }
    }

    /// What the lines prove.
    pub fn verdict(&self) -> Verdict
        ensures state { result ≡ verdict_by self.now.kept.closed self.now.kept.best }
        ensures followed { (all : List Line) → CheckerFollows self.now all → result ≡ verdict self.now.problem all }
    {
        match (self.is_closed, self.best) {
            (true, Some(best)) => Verdict::Optimal(best),
            (true, None) => Verdict::Infeasible,
            (false, best) => Verdict::Unfinished(best),
        }
    }

    /// The last bound that the lines show, in tenths of a tonne: no permitted timetable carries more.
    /// None where no line shows one.
    pub fn bound(&self) -> Option<u64>
        ensures state { result ≡ self.now.kept.bound }
        ensures followed { (all : List Line) → CheckerFollows self.now all → result ≡ bound_of all }
        ensures sound { (all : List Line) → CheckerFollows self.now all → IfSome result (IsBound self.now.problem) }
    {
        let _shape = self.flat.shape();
        self.prices.bound()
    }

    /// Takes one more line of the problem's shape, exactly where it is valid after those before
    /// it; otherwise it says why not. A checker that refuses a line, or runs out of memory for it, is
    /// used up.
    pub fn line(self, line: Line) -> Result<Checker<'f>, CheckStop>
        requires fits { LineFits self.problem line }
        ensures state { IfOk result (λ c. c.kept ≡ kept_after self.entry.problem self.entry.kept line) }
        ensures problem { IfOk result (λ c. c.problem ≡ self.entry.problem) }
        ensures taken { OnOk result (kept_refusal self.entry.problem self.entry.kept line ≡ None) }
        ensures refused { IfErr result (λ stop. Stops stop (kept_refusal self.entry.problem self.entry.kept line)) }
        ensures followed { (before : List Line) → CheckerFollows self.entry before → CheckerAnswers self.entry.problem before line result }
    {
        self.borrowed_line(&line)
    }

    /// Like `line`, with a borrowed line, for callers that send it on.
    ///
    /// It costs the size of a room, the literals of the line and of its hints, the search for each
    /// hint among the live clauses, and what a table or a source costs that is tested. A deletion
    /// looks up each of its numbers; compacting the store is amortised over the clauses that died. A
    /// toll is tested once, a tariff charges each ship's slots once, and a line judged by prices
    /// costs a step for each slot of its room's ranges.
    pub fn borrowed_line(mut self, line: &Line) -> Result<Checker<'f>, CheckStop>
        requires fits { LineFits self.problem line.now }
        ensures state { IfOk result (λ c. c.kept ≡ kept_after self.entry.problem self.entry.kept line.now) }
        ensures problem { IfOk result (λ c. c.problem ≡ self.entry.problem) }
        ensures taken { OnOk result (kept_refusal self.entry.problem self.entry.kept line.now ≡ None) }
        ensures refused { IfErr result (λ stop. Stops stop (kept_refusal self.entry.problem self.entry.kept line.now)) }
        ensures followed { (before : List Line) → CheckerFollows self.entry before → CheckerAnswers self.entry.problem before line.now result }
    {
        let _shape = self.flat.shape();
        if let Some(refusal) = self.refusal(line)? {
            return Err(CheckStop::Refused(refusal));
        }
        Ok(self.taken(line)?)
    }

    fn refusal(&mut self, line: &Line) -> Result<Option<Refusal>, NoMemory>
        requires fits { LineFits self.old.problem line.now }
        ensures value { IfOk result (λ refusal. refusal ≡ kept_refusal self.old.problem self.old.kept line.now) }
        ensures same { self.new ≡ self.old }
    {
        if self.is_closed {
            return Ok(refused(CheckWord::Ended));
        }
        if self.is_past(line) {
            return Ok(refused(CheckWord::Many));
        }
        claim(
            self.flat,
            &self.clauses,
            &mut self.prices,
            self.best,
            line,
            &mut self.room,
        )
    }

    /// Whether the line would have a number past the last one.
    fn is_past(&self, line: &Line) -> bool
        ensures value { result ≡ is_past self.now.kept.next (clause_of line.now) }
    {
        match clause_of(line) {
            None => false,
            Some(_) => !self.clauses.has_number(),
        }
    }

    fn taken(mut self, line: &Line) -> Result<Checker<'f>, NoMemory>
        requires fits { LineFits self.problem line.now }
        requires valid { kept_refusal self.problem self.kept line.now ≡ None }
        ensures state { IfOk result (λ c. c.kept ≡ kept_after self.entry.problem self.entry.kept line.now) }
        ensures problem { IfOk result (λ c. c.problem ≡ self.entry.problem) }
    {
        match line {
            Line::Table(table) => {
                self.best = cargo(self.flat, table);
                Ok(self)
            }
            Line::Explain { clause, .. } => self.with_clause(clause),
            Line::Order { clause, .. } => self.with_clause(clause),
            Line::Goal { clause } => self.with_clause(clause),
            Line::Lemma { clause, .. } => self.with_clause(clause),
            Line::Delete { ids } => self.without(&ids.items),
            Line::Toll { toll } => {
                let copied = toll.copy(self.clauses.allocator())?;
                self.with_toll(copied)
            }
            Line::Tariff { tariff } => self.with_tariff(tariff),
            Line::Priced { clause } => self.with_clause(clause),
            Line::Bound { bound } => {
                self.prices.set_bound(*bound);
                Ok(self)
            }
        }
    }

    fn with_clause(mut self, clause: &Clause) -> Result<Checker<'f>, NoMemory>
        requires fits { IsClause (shape_of self.problem) clause.now }
        requires open { self.kept.closed ≡ false }
        requires numbered { self.kept.next < 2 ^ 32 }
        ensures state { IfOk result (λ c. c.kept ≡ with_clause self.entry.kept clause.now) }
        ensures problem { IfOk result (λ c. c.problem ≡ self.entry.problem) }
    {
        self.clauses.push(clause.as_slice())?;
        self.is_closed = clause.len() == 0;
        Ok(self)
    }

    fn without(mut self, ids: &[u32]) -> Result<Checker<'f>, NoMemory>
        ensures state { IfOk result (λ c. c.kept ≡ kept_after self.entry.problem self.entry.kept (Line.Delete ids.now)) }
        ensures problem { IfOk result (λ c. c.problem ≡ self.entry.problem) }
    {
        self.clauses.remove_all(ids);
        self.clauses.give_back()?;
        Ok(self)
    }

    fn with_toll(mut self, toll: Toll) -> Result<Checker<'f>, NoMemory>
        requires few { length self.kept.tolls < MOST_TOLLS }
        requires toll { IsToll self.problem toll }
        ensures state { IfOk result (λ c. c.kept ≡ with_toll self.entry.kept toll) }
        ensures problem { IfOk result (λ c. c.problem ≡ self.entry.problem) }
    {
        self.prices.declare(toll)?;
        Ok(self)
    }

    fn with_tariff(mut self, tariff: &Tariff) -> Result<Checker<'f>, NoMemory>
        requires fits { PricesFit tariff.now }
        requires known { first_unknown (length self.kept.tolls) tariff.now.dues ≡ None }
        ensures state { IfOk result (λ c. c.kept ≡ record self.entry.kept { tariff = Some tariff.now }) }
        ensures problem { IfOk result (λ c. c.problem ≡ self.entry.problem) }
    {
        let flat = self.flat;
        let alloc = self.clauses.allocator();
        let copied = tariff.copy(alloc)?;
        self.prices.put_in_force(alloc, flat, copied)?;
        Ok(self)
    }
}
