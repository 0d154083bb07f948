//! A search in segments. Between two of them those learned clauses are deleted of which propagation from the others gives a literal.

ghost use Rattle.std.specs.Prelude.{◌≡◌, ℕ, ◌+◌, ◌-◌, ◌^◌, ◌<◌, ◌≤◌, [], ◌++◌, List, map, length, IfOk, OnOk, IfSome, ◌∷◌, slice_index_or};
ghost use Rattle.sat_form.specs.Satisfaction.{Form, Literal, AreWithin};
ghost use Rattle.sat_form.specs.Databases.{numbered_clauses};
ghost use Rattle.cdcl_core.specs.Answers.{IsAnswer, AddsOnly, IsKept, IsReady};
ghost use Rattle.cdcl_core.specs.Histories.{number_by, renumbered};
ghost use Rattle.cdcl_core.specs.Spare.{AreSpare, AreOffBelow};
ghost use Rattle.cdcl_core.specs.Stores.{unmarked};
ghost use Rattle.cdcl_core.specs.SegmentEnds.{IsSegment, IsRest, AreKept, IsHistory};

use crate::averages::Averages;
use crate::clauses::{Clauses, compact};
use crate::order::Order;
use crate::search::{Answer, Search};
use sat_form::{Clause, Cnf, Entry, Hints, Log};
use std::alloc::{AllocError, Global};

/// After so many units it is looked which clauses are spare.
const UNITS: usize = 5_000;

/// How a segment ends.
#[derive(Drop)]
pub enum Segment {
    /// With an answer for its clauses.
    Answered(Answer),
    /// Since many of the clauses that it learned are spare: its clauses, first those that it began with, which of them are spare, and
    /// its log, in which the number of a clause is its place among them.
    Paused(Clauses, Vec<bool>, Log),
}

/// The segments so far.
#[derive(Drop)]
pub struct History {
    log: Log,
    /// The numbers of the clauses that are live.
    numbers: Vec<usize>,
    /// How many clauses the form has.
    first: usize,
    /// The number of the clause that is learned next.
    next: usize,
}

impl History {
    /// No segment, over a form of so many clauses.
    fn new(alloc: Global, first: usize) -> Result<Self, AllocError>
        ensures history { IfOk result (λ h. (form : Form) → first ≡ length form.clauses → AreWithin form.variables form.clauses → IsHistory form form.clauses h) }
        ensures start { IfOk result (λ h. h.next ≡ h.first) }
    {
        let mut numbers = Vec::with_capacity(alloc, first)?;
        for number in 0..first {
            numbers.push(number)?;
        }
        Ok(History {
            log: Log::new(alloc),
            numbers,
            first,
            next: first,
        })
    }

    /// How many units the segments have added.
    fn units(&self) -> usize
        ensures { result ≡ self.now.next - self.now.first }
    {
        self.next.saturating_sub(self.first)
    }

    /// The number of a segment's clause. Fails where none has so many digits.
    fn number(&self, place: usize) -> Result<usize, AllocError>
        ensures { IfOk result (λ n. n ≡ number_by self.now.numbers.items self.now.next place) }
    {
        let count = self.numbers.len();
        if place < count {
            return Ok(self.numbers[place]);
        }
        self.next.checked_add(place - count).ok_or(AllocError)
    }

    /// The hints of a segment's entry by these numbers.
    fn renumbered(&self, alloc: Global, hints: &Hints) -> Result<Hints, AllocError>
        ensures { IfOk result (λ r. r ≡ map (number_by self.now.numbers.items self.now.next) hints.now) }
    {
        let places = hints.numbers();
        let mut numbers = Vec::with_capacity(alloc, places.len())?;
        for place in places {
            numbers.push(self.number(*place)?)?;
        }
        Ok(Hints::from_numbers(numbers))
    }

    /// Adds an entry of a segment.
    fn append_entry(&mut self, alloc: Global, entry: &Entry) -> Result<(), AllocError>
        ensures { OnOk result (self.new ≡ record self.old { log = self.old.log ++ renumbered (number_by self.old.numbers.items self.old.next) (entry.now ∷ []) }) }
    {
        match entry {
            Entry::Added(clause, hints) => {
                let hints = self.renumbered(alloc, hints)?;
                self.log
                    .add(Clause::from_slice(alloc, clause.literals())?, hints)
            }
            Entry::Deleted(place) => {
                let number = self.number(*place)?;
                self.log.delete(number)
            }
        }
    }

    /// Adds the log of a segment.
    fn append(&mut self, alloc: Global, log: &Log) -> Result<(), AllocError>
        ensures { OnOk result (self.new ≡ record self.old { log = self.old.log ++ renumbered (number_by self.old.numbers.items self.old.next) log.now }) }
    {
        for entry in log.entries() {
            self.append_entry(alloc, entry)?;
        }
        Ok(())
    }

    /// Gives numbers to so many clauses that a segment has learned.
    fn extend(&mut self, count: usize) -> Result<(), AllocError>
        ensures same { OnOk result (self.new ≡ record self.old { numbers = self.new.numbers; next = self.old.next + count }) }
        ensures count { OnOk result (length self.new.numbers.items ≡ length self.old.numbers.items + count) }
        ensures numbers { OnOk result ((k : ℕ) → k < length self.new.numbers.items → slice_index_or self.new.numbers.items k 0 ≡ number_by self.old.numbers.items self.old.next k) }
    {
        for _ in 0..count {
            self.numbers.push(self.next)?;
            self.next = self.next.checked_add(1).ok_or(AllocError)?;
        }
        Ok(())
    }

    /// Takes what a segment leaves: its log, its clauses and which of them are spare. Those are deleted.
    fn take(
        &mut self,
        alloc: Global,
        clauses: &mut Clauses,
        spare: &[bool],
        log: &Log,
    ) -> Result<(), AllocError>
        requires count { length spare.now ≡ length clauses.old }
        requires more { length self.old.numbers.items ≤ length clauses.old }
        ensures { OnOk result ((form : Form) (before : List (List Literal)) (n : ℕ) → IsHistory form before self.old → IsRest (record { variables = form.variables; clauses = before }) (length form.clauses) n clauses.old spare.now log.now → IsHistory form clauses.new self.new × (self.old.next < self.new.next) × (self.new.next < self.old.next + n)) }
    {
        self.append(alloc, log)?;
        let count = clauses.len() - self.numbers.len();
        self.extend(count)?;
        delete(&mut self.log, &self.numbers, spare)?;
        compact(&mut self.numbers, spare);
        clauses.forget(spare);
        Ok(())
    }

    /// The answer for the form, where this is one for the clauses of the last segment.
    fn answer(mut self, alloc: Global, answer: Answer) -> Result<Answer, AllocError>
        ensures { IfOk result (λ a. (form : Form) (clauses : List (List Literal)) (n : ℕ) → IsHistory form clauses self → IsAnswer (record { variables = form.variables; clauses = clauses }) n answer → AddsOnly answer → IsAnswer form (self.next - self.first + n) a) }
    {
        match answer {
            Answer::Sat(model) => Ok(Answer::Sat(model)),
            Answer::Unsat(log) => {
                self.append(alloc, &log)?;
                Ok(Answer::Unsat(self.log))
            }
            Answer::Spent(log) => {
                self.append(alloc, &log)?;
                Ok(Answer::Spent(self.log))
            }
        }
    }
}

/// Says that the clauses which are spare are deleted.
fn delete(log: &mut Log, numbers: &[usize], spare: &[bool]) -> Result<(), AllocError>
    requires count { length spare.now ≡ length numbers.now }
    ensures { OnOk result ((form : Form) (clauses : List (List Literal)) → AreSpare clauses spare.now → AreOffBelow (length form.clauses) spare.now → AreKept form clauses numbers.now log.old → AreKept form (unmarked spare.now clauses) (unmarked spare.now numbers.now) log.new × (length (numbered_clauses form.clauses log.new) ≡ length (numbered_clauses form.clauses log.old))) }
{
    for place in 0..numbers.len() {
        if spare[place] {
            log.delete(numbers[place])?;
        }
    }
    Ok(())
}

/// Whether more than a quarter of the clauses behind the first are marked.
fn is_worth(marks: &[bool], first: usize) -> bool {
    let mut count = 0;
    for mark in marks {
        if *mark {
            count += 1;
        }
    }
    first < marks.len() && (marks.len() - first) / 4 < count
}

/// Which clauses are spare where a segment is to end here: no decision stands, so many units are due, and the spare ones are many.
fn spare_here(
    alloc: Global,
    search: &Search,
    first: usize,
    due: &mut usize,
    budget: u64,
) -> Result<Option<Vec<bool>>, AllocError>
    requires { IsKept search.now }
    ensures { IfOk result (λ r. IfSome r (λ spare. (form : Form) → IsReady form budget search.now → IsRest form first budget search.now.clauses spare.items search.now.log)) }
{
    if !search.may_pause(*due, budget) {
        return Ok(None);
    }
    let spare = search.spare(alloc, first)?;
    if is_worth(&spare, first) {
        return Ok(Some(spare));
    }
    *due = due.saturating_add(UNITS);
    Ok(None)
}

/// A segment over these clauses, the first of which stay, that may add as many units as the budget.
fn run<O: Order>(
    alloc: Global,
    variables: u32,
    clauses: Clauses,
    first: usize,
    order: &mut O,
    budget: u64,
) -> Result<Segment, AllocError>
    requires small { variables ≤ 2 ^ 31 }
    requires within { AreWithin variables clauses }
    requires budget { 1 ≤ budget }
    ensures { IfOk result (IsSegment (record { variables = variables; clauses = clauses }) first budget) }
{
    let mut search = Search::over(alloc, variables, clauses)?;
    let mut conflict = search.begin()?;
    let mut due = UNITS;
    loop {
        conflict = search.pursue(conflict)?;
        if conflict.is_none() {
            if let Some(spare) = spare_here(alloc, &search, first, &mut due, budget)? {
                let (clauses, log) = search.take_parts(alloc);
                return Ok(Segment::Paused(clauses, spare, log));
            }
        }
        if let Some(answer) = search.advance(alloc, order, budget, conflict)? {
            return Ok(Segment::Answered(answer));
        }
        conflict = None;
    }
}

/// The same clauses.
fn copied(alloc: Global, clauses: &[Clause]) -> Result<Vec<Clause>, AllocError>
    ensures { IfOk result (λ copies. copies.items ≡ clauses.now) }
{
    let mut copies = Vec::with_capacity(alloc, clauses.len())?;
    for clause in clauses {
        copies.push(Clause::from_slice(alloc, clause.literals())?)?;
    }
    Ok(copies)
}

/// A model of the form; a refutation of it by at most `budget` learned clauses, each a unit of the
/// budget, and then the empty clause; or as many units as the budget, where these did not decide it.
/// The order says which variables are decided.
pub fn solve_by<O: Order>(
    alloc: Global,
    cnf: &Cnf,
    order: &mut O,
    budget: u64,
) -> Result<Answer, AllocError>
    requires { 1 ≤ budget }
    ensures { IfOk result (IsAnswer cnf.now budget) }
{
    let variables = cnf.variables();
    let copies = copied(alloc, cnf.clauses())?;
    let first = copies.len();
    let mut clauses = Clauses::new(copies);
    let mut history = History::new(alloc, first)?;
    loop {
        let left = budget - history.units() as u64;
        match run(alloc, variables, clauses, first, order, left)? {
            Segment::Answered(answer) => return history.answer(alloc, answer),
            Segment::Paused(mut rest, spare, log) => {
                history.take(alloc, &mut rest, &spare, &log)?;
                clauses = rest;
            }
        }
    }
}

/// As `solve_by`, with the order of averaged conflict numbers.
pub fn solve(alloc: Global, cnf: &Cnf, budget: u64) -> Result<Answer, AllocError>
    requires { 1 ≤ budget }
    ensures { IfOk result (IsAnswer cnf.now budget) }
{
    let mut order = Averages::new(alloc, cnf.variables())?;
    solve_by(alloc, cnf, &mut order, budget)
}
