//! The search: propagation, decisions, and what is learned from conflicts.

ghost use Rattle.std.specs.Prelude.{◌≡◌, ◌≢◌, ℕ, ◌^◌, ◌<◌, ◌≤◌, false, [], ◌∷◌, ◌++◌, length, take, IsTrue, IsFalse, IsSome, IfOk, OnOk, IfNone, IfSome, Some, None, Contains, List, slice_get, slice_index, slice_index_or};
ghost use Rattle.sat_form.specs.Satisfaction.{Form, Literal, IsWithin, AreWithin};
ghost use Rattle.cdcl_core.specs.Steps.{known_value, known_truth, oldest, decision_places};
ghost use Rattle.cdcl_core.specs.Settled.{AreFalse};
ghost use Rattle.cdcl_core.specs.Learning.{IsLearned};
ghost use Rattle.cdcl_core.specs.Watched.{AreFalseBeside, HasTrue, AreOpen, IsWatched, AreWatched, AreSingle, IsHeld};
ghost use Rattle.cdcl_core.specs.Going.{GoesOn};
ghost use Rattle.cdcl_core.specs.Answers.{IsAnswer, IsKept, IsReady, IsConflict, IsWatching, IsPropagated, IsAt, IsDone, IsTarget, HasAdvanced, left};
ghost use Rattle.cdcl_core.specs.Jumps.{IsNewest, IsFirstFrom};
ghost use Rattle.cdcl_core.specs.Spare.{AreSpare, AreSatisfied, AreOffBelow, AreReasonsOff};

use crate::analysis::{Analysis, Lesson};
use crate::clauses::Clauses;
use crate::order::Order;
use crate::trail::Trail;
use crate::watches::{Pair, Watches};
use sat_form::{Assignment, Clause, Hints, Lit, Log};
use std::alloc::{AllocError, Global};
use std::mem::replace;

/// Whether a form has a model.
#[derive(Drop)]
pub enum Answer {
    /// This assignment satisfies the form.
    Sat(Assignment),
    /// No assignment does: the log refutes the form.
    Unsat(Log),
    /// The budget is spent: the log has as many units as it allows.
    Spent(Log),
}

/// A search for a model.
#[derive(Drop)]
pub(crate) struct Search {
    trail: Trail,
    /// The form's clauses, and then those that were learned, by their numbers.
    clauses: Clauses,
    watches: Watches,
    analysis: Analysis,
    /// The places of the decisions among the steps.
    decisions: Vec<usize>,
    /// How many steps were propagated.
    propagated: usize,
    /// The learned clauses.
    log: Log,
}

impl Search {
    ghost use Rattle.cdcl_core.specs.declared.watches.Pair.{Pair};

    /// A search for a model of these clauses.
    pub(crate) fn over(alloc: Global, variables: u32, clauses: Clauses) -> Result<Self, AllocError>
        requires small { variables ≤ 2 ^ 31 }
        requires within { AreWithin variables clauses }
        ensures ready { IfOk result (λ s. (budget : ℕ) → IsReady (record { variables = variables; clauses = clauses }) budget s) }
        ensures single { IfOk result (λ s. AreSingle s.clauses s.watches.pairs.items) }
        ensures propagated { IfOk result (λ s. s.propagated ≡ 0) }
        ensures start { IfOk result (λ s. s.trail.steps ≡ []) }
    {
        let watches = Watches::new(alloc, variables, &clauses)?;
        Ok(Search {
            trail: Trail::new(alloc, variables)?,
            clauses,
            watches,
            analysis: Analysis::new(alloc, variables)?,
            decisions: Vec::new(alloc),
            propagated: 0,
            log: Log::new(alloc),
        })
    }

    /// Whether a segment may end here: no decision stands, and the log has as many units as `due`, and fewer than the budget.
    pub(crate) fn may_pause(&self, due: usize, budget: u64) -> bool
        ensures { IsTrue result → (length self.now.decisions.items ≡ 0) × (0 < length self.now.log) × (length self.now.log < budget) }
    {
        let count = self.log.entries().len();
        self.decisions.is_empty() && 0 < count && due <= count && (count as u64) < budget
    }

    /// Whether the steps make a literal of the clause true.
    fn has_true(&self, clause: &Clause) -> bool
        ensures { IsTrue result → HasTrue self.now.trail.steps clause.now }
    {
        for literal in clause.literals() {
            if self.trail.is_true(*literal) {
                return true;
            }
        }
        false
    }

    /// Which clauses, behind the first ones, have a true literal.
    fn satisfied(&self, alloc: Global, first: usize) -> Result<Vec<bool>, AllocError>
        ensures count { IfOk result (λ marks. length marks.items ≡ length self.now.clauses) }
        ensures true_ { IfOk result (λ marks. AreSatisfied self.now.trail.steps self.now.clauses marks.items) }
        ensures stay { IfOk result (λ marks. AreOffBelow first marks.items) }
    {
        let mut marks = Vec::with_capacity(alloc, self.clauses.len())?;
        for number in 0..self.clauses.len() {
            marks.push(first <= number && self.has_true(self.clauses.at(number)))?;
        }
        Ok(marks)
    }

    /// Takes the mark of each clause away that is the reason of a step.
    fn keep_reasons(&self, marks: &mut Vec<bool>)
        ensures count { length marks.new.items ≡ length marks.old.items }
        ensures reasons { AreReasonsOff marks.new.items self.now.trail.steps }
        ensures off { (k : ℕ) → slice_index_or marks.old.items k false ≡ false → slice_index_or marks.new.items k false ≡ false }
    {
        for place in 0..self.trail.len() {
            if let Some(step) = self.trail.step_at(place) {
                take_mark(marks, step.reason);
            }
        }
    }

    /// Which clauses, behind the first ones, have a literal that propagation from the others gives, where no decision stands.
    pub(crate) fn spare(&self, alloc: Global, first: usize) -> Result<Vec<bool>, AllocError>
        requires held { IsHeld self.now.clauses self.now.trail self.now.watches }
        requires start { decision_places self.now.trail.steps ≡ [] }
        ensures count { IfOk result (λ marks. length marks.items ≡ length self.now.clauses) }
        ensures spare { IfOk result (λ marks. AreSpare self.now.clauses marks.items) }
        ensures stay { IfOk result (λ marks. AreOffBelow first marks.items) }
    {
        let mut marks = self.satisfied(alloc, first)?;
        self.keep_reasons(&mut marks);
        Ok(marks)
    }

    /// The clauses of a search that ends here, and its log.
    pub(crate) fn take_parts(&mut self, alloc: Global) -> (Clauses, Log)
        ensures clauses { result.0 ≡ self.old.clauses }
        ensures log { result.1 ≡ self.old.log }
    {
        (
            replace(&mut self.clauses, Clauses::new(Vec::new(alloc))),
            replace(&mut self.log, Log::new(alloc)),
        )
    }

    /// Takes the literal of each clause that has only one, and gives the number of a clause whose
    /// literals are all false.
    pub(crate) fn begin(&mut self) -> Result<Option<usize>, AllocError>
        requires held { IsHeld self.old.clauses self.old.trail self.old.watches }
        requires single { AreSingle self.old.clauses self.old.watches.pairs.items }
        requires propagated { self.old.propagated ≡ 0 }
        ensures same { OnOk result (self.new ≡ record self.old { trail = self.new.trail }) }
        ensures held { OnOk result (IsHeld self.old.clauses self.new.trail self.old.watches) }
        ensures on { OnOk result (GoesOn self.old.trail self.new.trail) }
        ensures at { IfOk result (IsAt self.new) }
    {
        for number in 0..self.clauses.len() {
            if !self.settle(number)? {
                return Ok(Some(number));
            }
        }
        Ok(None)
    }

    /// Takes the literal of a clause, if it has only one. Says whether the clause has one that is not false.
    fn settle(&mut self, number: usize) -> Result<bool, AllocError>
        requires number { number < length self.old.clauses }
        requires held { IsHeld self.old.clauses self.old.trail self.old.watches }
        requires single { AreSingle self.old.clauses self.old.watches.pairs.items }
        ensures same { OnOk result (self.new ≡ record self.old { trail = self.new.trail }) }
        ensures held { OnOk result (IsHeld self.old.clauses self.new.trail self.old.watches) }
        ensures on { OnOk result (GoesOn self.old.trail self.new.trail) }
        ensures watched { IfOk result (λ b. IsTrue b → (c : List Literal) (p : Pair) → slice_get self.old.clauses number ≡ Some c → slice_get self.old.watches.pairs.items number ≡ Some p → IsWatched [] self.new.trail.steps c p) }
        ensures false_ { IfOk result (λ b. IsFalse b → IsConflict self.new number) }
    {
        if !self.watches.is_single(number) {
            return Ok(true);
        }
        let kept = self.take(number)?;
        Ok(kept)
    }

    /// Takes the literal of a clause that has only one, and says whether it is not false.
    fn take(&mut self, number: usize) -> Result<bool, AllocError>
        requires number { number < length self.old.clauses }
        requires held { IsHeld self.old.clauses self.old.trail self.old.watches }
        requires single { (c : List Literal) → slice_get self.old.clauses number ≡ Some c → (l m : Literal) → Contains c l → Contains c m → m ≡ l }
        ensures same { OnOk result (self.new ≡ record self.old { trail = self.new.trail }) }
        ensures held { OnOk result (IsHeld self.old.clauses self.new.trail self.old.watches) }
        ensures on { OnOk result (GoesOn self.old.trail self.new.trail) }
        ensures true_ { IfOk result (λ b. IsTrue b → (c : List Literal) → slice_get self.old.clauses number ≡ Some c → HasTrue self.new.trail.steps c) }
        ensures false_ { IfOk result (λ b. IsFalse b → (c : List Literal) → slice_get self.old.clauses number ≡ Some c → AreFalse self.new.trail.steps c) }
    {
        let Some(literal) = self.clauses.at(number).literals().first().copied() else {
            return Ok(false);
        };
        match self.trail.value_of(literal) {
            Some(value) => Ok(value),
            None => {
                self.trail.push(literal, false, Some(number))?;
                Ok(true)
            }
        }
    }

    /// Propagates each step that is not propagated yet, and gives the number of a clause whose literals are
    /// all false.
    fn propagate(&mut self) -> Result<Option<usize>, AllocError>
        requires held { IsHeld self.old.clauses self.old.trail self.old.watches }
        requires watching { IsWatching self.old }
        ensures same { OnOk result (self.new ≡ record self.old { trail = self.new.trail; watches = self.new.watches; propagated = self.new.propagated }) }
        ensures held { OnOk result (IsHeld self.old.clauses self.new.trail self.new.watches) }
        ensures on { OnOk result (GoesOn self.old.trail self.new.trail) }
        ensures done { IfOk result (IsDone self.new) }
    {
        while let Some(step) = self.trail.step_at(self.propagated) {
            let place = self.propagated;
            self.propagated += 1;
            let conflict = self.watches.visit(
                &mut self.trail,
                &self.clauses,
                step.literal.inverse(),
                place,
            )?;
            if conflict.is_some() {
                return Ok(conflict);
            }
        }
        Ok(None)
    }

    /// Propagates each step, unless there is a conflict.
    pub(crate) fn pursue(&mut self, conflict: Option<usize>) -> Result<Option<usize>, AllocError>
        requires kept { IsKept self.old }
        requires at { IsAt self.old conflict }
        ensures kept { OnOk result (IsKept self.new) }
        ensures ready { OnOk result ((form : Form) (n : ℕ) → IsReady form n self.old → IsReady form n self.new) }
        ensures done { IfOk result (IsDone self.new) }
        ensures left { OnOk result ((n : ℕ) → left n self.new ≤ left n self.old) }
    {
        if conflict.is_some() {
            return Ok(conflict);
        }
        let found = self.propagate()?;
        Ok(found)
    }

    /// Goes on where each step is propagated: answers, decides a variable, or learns from a conflict.
    pub(crate) fn advance<O: Order>(
        &mut self,
        alloc: Global,
        order: &mut O,
        budget: u64,
        conflict: Option<usize>,
    ) -> Result<Option<Answer>, AllocError>
        requires kept { IsKept self.old }
        requires done { IsDone self.old conflict }
        requires budget { 1 ≤ budget }
        ensures { IfOk result (λ answer. (form : Form) → IsReady form budget self.old → HasAdvanced form budget self.old self.new answer) }
    {
        if let Some(number) = conflict {
            return self.resolve(alloc, order, budget, number);
        }
        match self.open_variable(order) {
            Some(variable) => {
                self.decide(variable, order.phase(variable))?;
                Ok(None)
            }
            None => Ok(Some(Answer::Sat(self.trail.assignment(alloc)?))),
        }
    }

    /// The next variable to decide, if one has no value.
    fn open_variable<O: Order>(&self, order: &mut O) -> Option<usize>
        ensures found { IfSome result (λ v. (v < self.now.trail.variables) × (known_value self.now.trail.steps v ≡ None)) }
        ensures limit { IfSome result (λ v. v < 2 ^ 31) }
        ensures none { IfNone result ((v : ℕ) → v < self.now.trail.variables → IsSome (known_value self.now.trail.steps v)) }
    {
        match order.next_open(&self.trail) {
            Some(variable) => Some(variable),
            None => self.trail.first_open(),
        }
    }

    /// Gives the variable this value, by choice.
    fn decide(&mut self, variable: usize, value: bool) -> Result<(), AllocError>
        requires kept { IsKept self.old }
        requires propagated { IsPropagated self.old }
        requires within { variable < self.old.trail.variables }
        requires open_ { known_value self.old.trail.steps variable ≡ None }
        requires limit { variable < 2 ^ 31 }
        ensures ready { OnOk result ((form : Form) (n : ℕ) → IsReady form n self.old → IsReady form n self.new) }
        ensures watching { OnOk result (IsWatching self.new) }
        ensures falls { OnOk result ((n : ℕ) → left n self.new < left n self.old) }
    {
        self.decisions.push(self.trail.len())?;
        self.trail
            .push(Lit::new(variable as u32, !value), true, None)?;
        Ok(())
    }

    /// Whether a decision stands and the log has as many units as the budget.
    fn is_spent(&self, budget: u64) -> bool
        ensures spent { IsTrue result → (0 < length self.now.decisions.items) × (budget ≤ length self.now.log) }
        ensures room { IsFalse result → 0 < length self.now.decisions.items → length self.now.log < budget }
    {
        !self.decisions.is_empty() && self.log.entries().len() as u64 >= budget
    }

    /// Learns from a conflict of the clause with this number, or answers: that there is no model, or
    /// that the budget is spent.
    fn resolve<O: Order>(
        &mut self,
        alloc: Global,
        order: &mut O,
        budget: u64,
        number: usize,
    ) -> Result<Option<Answer>, AllocError>
        requires kept { IsKept self.old }
        requires conflict { IsConflict self.old number }
        requires budget { 1 ≤ budget }
        ensures { IfOk result (λ answer. (form : Form) → IsReady form budget self.old → HasAdvanced form budget self.old self.new answer) }
    {
        if self.is_spent(budget) {
            return Ok(Some(Answer::Spent(replace(&mut self.log, Log::new(alloc)))));
        }
        let lesson = self
            .analysis
            .lesson(alloc, &self.trail, &self.clauses, number, &self.decisions)?;
        match lesson {
            Lesson::Refuted(hints) => {
                self.log.add(Clause::new(alloc), hints)?;
                Ok(Some(Answer::Unsat(replace(&mut self.log, Log::new(alloc)))))
            }
            Lesson::Learned(clause, literal, hints) => {
                self.learn(alloc, order, clause, literal, hints)?;
                Ok(None)
            }
        }
    }

    /// Learns a clause and goes back to the oldest decision before which it leaves one literal, or to the first one where the
    /// search is to start over.
    fn learn<O: Order>(
        &mut self,
        alloc: Global,
        order: &mut O,
        clause: Clause,
        literal: Lit,
        hints: Hints,
    ) -> Result<(), AllocError>
        requires kept { IsKept self.old }
        requires learned { IsLearned self.old.trail.variables self.old.clauses self.old.trail.steps clause literal hints }
        ensures ready { OnOk result ((form : Form) (n : ℕ) → length self.old.log < n → IsReady form n self.old → IsReady form n self.new) }
        ensures watching { OnOk result (IsWatching self.new) }
        ensures falls { OnOk result ((n : ℕ) → length self.old.log < n → left n self.new < left n self.old) }
    {
        let (beside, kept) = self.newest_beside(&clause, literal);
        let index = first_from(&self.decisions, kept);
        let pair = Pair {
            first: literal,
            second: beside,
            start: 0,
        };
        if 0 < index && order.starts_over() {
            self.tell(order, 0)?;
            return self.start_over(alloc, clause, pair, hints, index);
        }
        self.tell(order, index)?;
        self.go_back(alloc, clause, pair, hints, index)
    }

    /// Learns a clause and goes back to before the decision of this index, where the clause leaves the first of these two of
    /// its literals.
    fn go_back(
        &mut self,
        alloc: Global,
        clause: Clause,
        pair: Pair,
        hints: Hints,
        index: usize,
    ) -> Result<(), AllocError>
        requires kept { IsKept self.old }
        requires learned { IsLearned self.old.trail.variables self.old.clauses self.old.trail.steps clause pair.first hints }
        requires target { IsTarget self.old.trail.steps self.old.decisions.items clause pair index }
        ensures ready { OnOk result ((form : Form) (n : ℕ) → length self.old.log < n → IsReady form n self.old → IsReady form n self.new) }
        ensures watching { OnOk result (IsWatching self.new) }
        ensures falls { OnOk result ((n : ℕ) → length self.old.log < n → left n self.new < left n self.old) }
    {
        self.release(index);
        self.log
            .add(Clause::from_slice(alloc, clause.literals())?, hints)?;
        self.assert_clause(clause, pair)?;
        Ok(())
    }

    /// Learns a clause and goes back to before the first decision, where neither of these two of its literals is false.
    fn start_over(
        &mut self,
        alloc: Global,
        clause: Clause,
        pair: Pair,
        hints: Hints,
        index: usize,
    ) -> Result<(), AllocError>
        requires kept { IsKept self.old }
        requires learned { IsLearned self.old.trail.variables self.old.clauses self.old.trail.steps clause pair.first hints }
        requires target { IsTarget self.old.trail.steps self.old.decisions.items clause pair index }
        requires later { 0 < index }
        ensures ready { OnOk result ((form : Form) (n : ℕ) → length self.old.log < n → IsReady form n self.old → IsReady form n self.new) }
        ensures watching { OnOk result (IsWatching self.new) }
        ensures falls { OnOk result ((n : ℕ) → length self.old.log < n → left n self.new < left n self.old) }
    {
        self.release(0);
        self.log
            .add(Clause::from_slice(alloc, clause.literals())?, hints)?;
        self.enter_clause(clause, pair)?;
        Ok(())
    }

    /// Tells the order of a conflict, and of the steps that are taken back from one of the decisions on.
    fn tell<O: Order>(&self, order: &mut O, index: usize) -> Result<(), AllocError>
        requires { index < length self.now.decisions.items }
    {
        for place in self.decisions[index]..self.trail.len() {
            if let Some(step) = self.trail.step_at(place) {
                order.release(step.literal)?;
            }
        }
        order.raise_all(self.analysis.touched());
        Ok(())
    }

    /// Takes back the steps from one of the decisions on.
    fn release(&mut self, index: usize)
        requires { index < length self.old.decisions.items }
        ensures same { self.new ≡ record self.old { trail = self.new.trail; decisions = self.new.decisions; propagated = slice_index self.old.decisions.items index } }
        ensures trail { self.new.trail ≡ record self.old.trail { steps = oldest (slice_index self.old.decisions.items index) self.old.trail.steps } }
        ensures decisions { self.new.decisions.items ≡ take index self.old.decisions.items }
    {
        let count = self.decisions[index];
        self.trail.cut(count);
        self.propagated = count;
        self.decisions.truncate(index);
    }

    /// Adds a clause that leaves the first of these two of its literals, and takes that.
    fn assert_clause(&mut self, clause: Clause, pair: Pair) -> Result<(), AllocError>
        requires held { IsHeld self.old.clauses self.old.trail self.old.watches }
        requires within { IsWithin self.old.trail.variables clause }
        requires first { Contains clause pair.first }
        requires second { pair.first ≢ pair.second → Contains clause pair.second }
        requires open_ { known_truth self.old.trail.steps pair.first ≡ None }
        requires others { AreFalseBeside self.old.trail.steps clause pair.first }
        requires quiet { (d : ℕ) → Contains (decision_places self.old.trail.steps) d → AreOpen (oldest d self.old.trail.steps) clause pair }
        requires watched { AreWatched self.old.trail.steps self.old.trail.steps self.old.clauses self.old.watches.pairs.items }
        ensures same { OnOk result (self.new ≡ record self.old { trail = self.new.trail; clauses = self.new.clauses; watches = self.new.watches }) }
        ensures clauses { OnOk result (self.new.clauses ≡ self.old.clauses ++ clause ∷ []) }
        ensures trail { OnOk result (self.new.trail ≡ record self.old.trail { steps = record { literal = pair.first; decision = false; reason = Some (length self.old.clauses) } ∷ self.old.trail.steps }) }
        ensures held { OnOk result (IsHeld self.new.clauses self.new.trail self.new.watches) }
        ensures watched { OnOk result (AreWatched self.old.trail.steps self.new.trail.steps self.new.clauses self.new.watches.pairs.items) }
    {
        let literal = pair.first;
        let number = self.clauses.len();
        self.watches.enter(pair)?;
        self.clauses.push(clause)?;
        self.trail.push(literal, false, Some(number))?;
        Ok(())
    }

    /// Adds a clause of which these two literals are not false.
    fn enter_clause(&mut self, clause: Clause, pair: Pair) -> Result<(), AllocError>
        requires held { IsHeld self.old.clauses self.old.trail self.old.watches }
        requires within { IsWithin self.old.trail.variables clause }
        requires open_ { AreOpen self.old.trail.steps clause pair }
        requires quiet { (d : ℕ) → Contains (decision_places self.old.trail.steps) d → AreOpen (oldest d self.old.trail.steps) clause pair }
        requires watched { AreWatched self.old.trail.steps self.old.trail.steps self.old.clauses self.old.watches.pairs.items }
        ensures same { OnOk result (self.new ≡ record self.old { clauses = self.new.clauses; watches = self.new.watches }) }
        ensures clauses { OnOk result (self.new.clauses ≡ self.old.clauses ++ clause ∷ []) }
        ensures held { OnOk result (IsHeld self.new.clauses self.old.trail self.new.watches) }
        ensures watched { OnOk result (AreWatched self.old.trail.steps self.old.trail.steps self.new.clauses self.new.watches.pairs.items) }
    {
        self.watches.enter(pair)?;
        self.clauses.push(clause)?;
        Ok(())
    }

    /// The literal of the clause, beside this one, that got its value last, and one more than the place
    /// of that step; or this one and 0.
    fn newest_beside(&self, clause: &Clause, literal: Lit) -> (Lit, usize)
        requires held { IsHeld self.now.clauses self.now.trail self.now.watches }
        requires within { IsWithin self.now.trail.variables clause.now }
        requires false_ { AreFalse self.now.trail.steps clause.now }
        ensures { IsNewest self.now.trail.steps clause.now literal result.0 result.1 }
    {
        let mut newest = literal;
        let mut kept = 0;
        for other in clause.literals() {
            let height = self.height(*other, literal);
            if kept < height {
                newest = *other;
                kept = height;
            }
        }
        (newest, kept)
    }

    /// How many of the oldest steps make a literal false; 0 of `except`.
    fn height(&self, literal: Lit, except: Lit) -> usize
        requires held { IsHeld self.now.clauses self.now.trail self.now.watches }
        requires within { literal.variable < self.now.trail.variables }
        requires false_ { known_truth self.now.trail.steps literal ≡ Some false }
        ensures except { literal ≡ except → result ≡ 0 }
        ensures false_ { literal ≢ except → known_truth (oldest result self.now.trail.steps) literal ≡ Some false }
        ensures before { (k : ℕ) → k < result → known_truth (oldest k self.now.trail.steps) literal ≡ None }
    {
        if literal == except {
            0
        } else {
            self.trail.height(literal)
        }
    }
}

/// The index of the first of the places that is at least `kept`.
fn first_from(places: &[usize], kept: usize) -> usize
    requires { (j : ℕ) × (j < length places.now) × (kept ≤ slice_index places.now j) }
    ensures { IsFirstFrom places.now kept result }
{
    for (index, place) in places.iter().enumerate() {
        if kept <= *place {
            return index;
        }
    }
    unreachable!()
}

/// Takes the mark of this number away, if there is one.
fn take_mark(marks: &mut Vec<bool>, number: Option<usize>)
    ensures count { length marks.new.items ≡ length marks.old.items }
    ensures off { (k : ℕ) → slice_index_or marks.old.items k false ≡ false → slice_index_or marks.new.items k false ≡ false }
    ensures taken { (k : ℕ) → number ≡ Some k → slice_index_or marks.new.items k false ≡ false }
{
    if let Some(number) = number {
        if number < marks.len() {
            marks[number] = false;
        }
    }
}
