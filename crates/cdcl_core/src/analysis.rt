//! What a conflict teaches: the first unique implication point, with the clauses that it comes from (1UIP).

ghost use Rattle.std.specs.Prelude.{◌≡◌, ◌≢◌, ℕ, suc, ◌+◌, ◌<◌, ◌≤◌, ◌⊎◌, min, max, Bool, List, [], ◌∷◌, ◌++◌, None, Some, length, reverse, slice_get, IsSome, IsSomeAnd, IfOk, OnOk};
ghost use Rattle.sat_form.specs.Satisfaction.{Literal, IsWithin, AreWithin};
ghost use Rattle.cdcl_core.specs.Steps.{known_value, oldest, AreFresh, decision_places};
ghost use Rattle.cdcl_core.specs.Settled.{AreFalse, IsReason, AreJustified, AreSettled};
ghost use Rattle.cdcl_core.specs.Learning.{IsClear, IsLesson, AreTouched};
ghost use Rattle.cdcl_core.specs.Cuts.{AreEnds, IsClauseOf, IsCut, IsOn, IsOnAt, IsReached, MarksClause, Reaches, TakesMarks};

use crate::clauses::Clauses;
use crate::trail::{Step, Trail};
use sat_form::{Clause, Hints, Lit};
use std::alloc::{AllocError, Global};

/// What a conflict teaches.
#[derive(Drop)]
pub enum Lesson {
    /// A clause that follows and is news, its literal that loses its value when the newest decision is
    /// taken back, and the numbers of the clauses that it comes from.
    Learned(Clause, Lit, Hints),
    /// No step was a choice: the numbers of clauses that come to a conflict by themselves.
    Refuted(Hints),
}

/// A conflict that is traced back to the steps that it comes from. The steps before the first decision
/// are level 0, those from the newest decision on are the newest level.
#[derive(Drop)]
pub struct Analysis {
    /// Whether a variable stands in the clause that is being learned.
    marked: Vec<bool>,
    /// The variables that were marked since the last clearing.
    touched: Vec<usize>,
    /// The place of the first decision, or the number of steps where there is none.
    first: usize,
    /// The place of the newest decision, or the number of steps where there is none.
    newest: usize,
    /// The marked steps of the newest level are at places from `low` to before `high`.
    low: usize,
    high: usize,
    /// The marked steps of level 0 are at places from `bottom` to before `top`.
    bottom: usize,
    top: usize,
}

impl Analysis {
    /// No variable of this many is marked.
    pub fn new(alloc: Global, variables: u32) -> Result<Self, AllocError>
        ensures { IfOk result (IsClear variables) }
    {
        Ok(Analysis {
            marked: vec![in alloc; false; variables as usize]?,
            touched: Vec::new(alloc),
            first: 0,
            newest: 0,
            low: 0,
            high: 0,
            bottom: 0,
            top: 0,
        })
    }

    /// The variables of the last conflict, and of the clauses that it was traced through.
    pub fn touched(&self) -> &[usize] {
        &self.touched
    }

    /// What the clause of the number `conflict`, whose literals are all false, teaches. The decisions are
    /// at the places `decisions`.
    pub fn lesson(
        &mut self,
        alloc: Global,
        trail: &Trail,
        clauses: &Clauses,
        conflict: usize,
        decisions: &[usize],
    ) -> Result<Lesson, AllocError>
        requires within { AreWithin trail.now.variables clauses.now }
        requires clear { IsClear trail.now.variables self.old }
        requires fresh { AreFresh trail.now.variables trail.now.steps }
        requires justified { AreJustified clauses.now trail.now.steps }
        requires settled { AreSettled clauses.now trail.now.steps }
        requires conflict { IsSomeAnd (slice_get clauses.now conflict) (AreFalse trail.now.steps) }
        requires places { decisions.now ≡ decision_places trail.now.steps }
        ensures clear { OnOk result (IsClear trail.now.variables self.new) }
        ensures lesson { IfOk result (IsLesson trail.now.variables clauses.now trail.now.steps) }
    {
        let count = trail.len();
        let (first, newest) = ends_of(decisions, count);
        self.begin(first, newest, count);
        let mut numbers = Vec::new(alloc);
        numbers.push(conflict)?;
        self.mark_clause(trail, clauses.at(conflict), count)?;
        self.resolve_newest(trail, clauses, &mut numbers)?;
        self.minimise(alloc, trail, clauses, &mut numbers)?;
        self.resolve_first(trail, clauses, &mut numbers)?;
        numbers.reverse();
        let hints = Hints::from_numbers(numbers);
        match trail.step_at(self.low) {
            Some(step) => {
                let variable = step.literal.variable() as usize;
                let clause = take_clause(alloc, &mut self.marked, &self.touched, trail, variable)?;
                Ok(Lesson::Learned(clause, step.literal.inverse(), hints))
            }
            None => Ok(Lesson::Refuted(hints)),
        }
    }

    /// Takes each mark away, where there are `count` steps, and the first and the newest decision are at
    /// these places.
    fn begin(&mut self, first: usize, newest: usize, count: usize)
        requires { AreTouched self.old.marked.items self.old.touched.items }
        ensures size { length self.new.marked.items ≡ length self.old.marked.items }
        ensures none { (v : ℕ) → IsOn self.new.marked.items v → ⊥ }
        ensures places { (self.new.first ≡ first) × (self.new.newest ≡ newest) × (self.new.low ≡ count) × (self.new.high ≡ count) × (self.new.bottom ≡ first) × (self.new.top ≡ 0) }
    {
        self.first = first;
        self.newest = newest;
        self.low = count;
        self.high = count;
        self.bottom = first;
        self.top = 0;
        while let Some(variable) = self.touched.pop() {
            if variable < self.marked.len() {
                self.marked[variable] = false;
            }
        }
    }

    /// Widens the places where marked steps lie by one.
    fn reach(&mut self, place: usize)
        ensures late { self.old.newest ≤ place → self.new ≡ record self.old { low = min self.old.low place } }
        ensures early { place < self.old.newest → place < self.old.first → self.new ≡ record self.old { bottom = min self.old.bottom place; top = max self.old.top (place + 1) } }
        ensures between { place < self.old.newest → self.old.first ≤ place → self.new ≡ self.old }
    {
        if self.newest <= place {
            self.low = self.low.min(place);
        } else if place < self.first {
            self.bottom = self.bottom.min(place);
            self.top = self.top.max(place + 1);
        }
    }

    /// Marks the variable of a literal, where it has its value from one of the oldest `count` steps.
    fn mark_literal(&mut self, trail: &Trail, literal: Lit, count: usize) -> Result<(), AllocError>
        requires within { literal.variable < trail.now.variables }
        requires clear { IsClear trail.now.variables self.old }
        requires reached { IsReached trail.now.steps self.old }
        requires count { count ≤ self.old.high }
        ensures clear { OnOk result (IsClear trail.now.variables self.new) }
        ensures reached { OnOk result (IsReached trail.now.steps self.new) }
        ensures reaches { OnOk result (Reaches count self.old self.new) }
        ensures marks { OnOk result (MarksClause trail.now.steps (literal ∷ []) count self.old.marked.items self.new.marked.items) }
    {
        let variable = literal.variable() as usize;
        if let Some(place) = trail.place_of(variable) {
            if place < count && !self.marked[variable] {
                self.touched.push(variable)?;
                self.marked[variable] = true;
                self.reach(place);
            }
        }
        Ok(())
    }

    /// Marks the variables of a clause's literals that have their values from the oldest `count` steps.
    fn mark_clause(
        &mut self,
        trail: &Trail,
        clause: &Clause,
        count: usize,
    ) -> Result<(), AllocError>
        requires within { IsWithin trail.now.variables clause.now }
        requires clear { IsClear trail.now.variables self.old }
        requires reached { IsReached trail.now.steps self.old }
        requires count { count ≤ self.old.high }
        ensures clear { OnOk result (IsClear trail.now.variables self.new) }
        ensures reached { OnOk result (IsReached trail.now.steps self.new) }
        ensures reaches { OnOk result (Reaches count self.old self.new) }
        ensures marks { OnOk result (MarksClause trail.now.steps clause.now count self.old.marked.items self.new.marked.items) }
    {
        for literal in clause.literals() {
            self.mark_literal(trail, *literal, count)?;
        }
        Ok(())
    }

    /// Puts the marks of the other literals of its reason in the place of that of a step.
    fn replace(
        &mut self,
        trail: &Trail,
        clauses: &Clauses,
        numbers: &mut Vec<usize>,
        place: usize,
        step: Step,
        reason: usize,
    ) -> Result<(), AllocError>
        requires within { AreWithin trail.now.variables clauses.now }
        requires clear { IsClear trail.now.variables self.old }
        requires fresh { AreFresh trail.now.variables trail.now.steps }
        requires reached { IsReached trail.now.steps self.old }
        requires apart { place ≢ self.old.low }
        requires high { place ≤ self.old.high }
        requires cut { IsCut clauses.now trail.now.steps (suc place) self.old.marked.items (reverse numbers.old.items) }
        requires step { oldest (suc place) trail.now.steps ≡ step ∷ oldest place trail.now.steps }
        requires marked { IsOn self.old.marked.items step.literal.variable }
        requires reason { IsReason clauses.now (oldest place trail.now.steps) step.literal reason }
        ensures clear { OnOk result (IsClear trail.now.variables self.new) }
        ensures reached { OnOk result (IsReached trail.now.steps self.new) }
        ensures reaches { OnOk result (Reaches place self.old self.new) }
        ensures cut { OnOk result (IsCut clauses.now trail.now.steps place self.new.marked.items (reverse numbers.new.items)) }
        ensures off { OnOk result ((v : ℕ) → IsOnAt trail.now.steps self.new.marked.items v place → ⊥) }
    {
        self.marked[step.literal.variable() as usize] = false;
        numbers.push(reason)?;
        self.mark_clause(trail, clauses.at(reason), place)?;
        Ok(())
    }

    /// Traces the conflict from the step at a place, if that is marked, to older steps.
    fn resolve(
        &mut self,
        trail: &Trail,
        clauses: &Clauses,
        numbers: &mut Vec<usize>,
        place: usize,
    ) -> Result<(), AllocError>
        requires within { AreWithin trail.now.variables clauses.now }
        requires clear { IsClear trail.now.variables self.old }
        requires fresh { AreFresh trail.now.variables trail.now.steps }
        requires justified { AreJustified clauses.now trail.now.steps }
        requires reached { IsReached trail.now.steps self.old }
        requires place { (place < self.old.first) ⊎ (self.old.low < place) }
        requires high { place ≤ self.old.high }
        requires cut { IsCut clauses.now trail.now.steps (suc place) self.old.marked.items (reverse numbers.old.items) }
        ensures clear { OnOk result (IsClear trail.now.variables self.new) }
        ensures reached { OnOk result (IsReached trail.now.steps self.new) }
        ensures reaches { OnOk result (Reaches place self.old self.new) }
        ensures cut { OnOk result (IsCut clauses.now trail.now.steps place self.new.marked.items (reverse numbers.new.items)) }
        ensures off { OnOk result ((v : ℕ) → IsOnAt trail.now.steps self.new.marked.items v place → ⊥) }
    {
        if let Some(step) = trail.step_at(place) {
            if self.marked[step.literal.variable() as usize] {
                if let Some(reason) = step.reason {
                    return self.replace(trail, clauses, numbers, place, step, reason);
                }
            }
        }
        Ok(())
    }

    /// Traces the conflict through the newest level to its first unique implication point: the newest step
    /// from which alone the rest of the level follows.
    fn resolve_newest(
        &mut self,
        trail: &Trail,
        clauses: &Clauses,
        numbers: &mut Vec<usize>,
    ) -> Result<(), AllocError>
        requires within { AreWithin trail.now.variables clauses.now }
        requires clear { IsClear trail.now.variables self.old }
        requires fresh { AreFresh trail.now.variables trail.now.steps }
        requires justified { AreJustified clauses.now trail.now.steps }
        requires reached { IsReached trail.now.steps self.old }
        requires cut { IsCut clauses.now trail.now.steps self.old.high self.old.marked.items (reverse numbers.old.items) }
        ensures clear { OnOk result (IsClear trail.now.variables self.new) }
        ensures reached { OnOk result (IsReached trail.now.steps self.new) }
        ensures places { OnOk result ((self.new.first ≡ self.old.first) × (self.new.newest ≡ self.old.newest) × (self.new.low ≤ self.old.low)) }
        ensures cut { OnOk result (IsCut clauses.now trail.now.steps self.new.high self.new.marked.items (reverse numbers.new.items)) }
        ensures single { OnOk result (self.new.high ≤ suc self.new.low) }
    {
        while self.high - self.low > 1 {
            let place = self.high - 1;
            self.resolve(trail, clauses, numbers, place)?;
            self.high = place;
        }
        Ok(())
    }

    /// Leaves out of the clause the literals of steps between the first decision and the newest that another clause gives from
    /// those that stay and from level 0.
    fn minimise(
        &mut self,
        alloc: Global,
        trail: &Trail,
        clauses: &Clauses,
        numbers: &mut Vec<usize>,
    ) -> Result<(), AllocError>
        requires within { AreWithin trail.now.variables clauses.now }
        requires clear { IsClear trail.now.variables self.old }
        requires fresh { AreFresh trail.now.variables trail.now.steps }
        requires justified { AreJustified clauses.now trail.now.steps }
        requires reached { IsReached trail.now.steps self.old }
        requires cut { IsCut clauses.now trail.now.steps self.old.high self.old.marked.items (reverse numbers.old.items) }
        requires single { self.old.high ≤ suc self.old.low }
        ensures clear { OnOk result (IsClear trail.now.variables self.new) }
        ensures reached { OnOk result (IsReached trail.now.steps self.new) }
        ensures places { OnOk result ((self.new.first ≡ self.old.first) × (self.new.newest ≡ self.old.newest) × (self.new.low ≤ self.old.low)) }
        ensures cut { OnOk result (IsCut clauses.now trail.now.steps self.new.first self.new.marked.items (reverse numbers.new.items)) }
        ensures single { OnOk result (self.new.high ≤ suc self.new.low) }
    {
        let places = self.places_between(alloc, trail)?;
        let mut bound = self.newest;
        for place in &places {
            if self.first <= *place && *place < bound {
                bound = *place;
                self.leave_out(trail, clauses, numbers, *place)?;
            }
        }
        Ok(())
    }

    /// The places of the marked steps between the first decision and the newest, the newest first.
    fn places_between(&self, alloc: Global, trail: &Trail) -> Result<Vec<usize>, AllocError> {
        let mut places = Vec::new(alloc);
        for variable in &self.touched {
            if self.is_marked(*variable) && *variable < trail.variables() {
                if let Some(place) = trail.place_of(*variable) {
                    if self.first <= place && place < self.newest {
                        places.push(place)?;
                    }
                }
            }
        }
        places.sort_unstable();
        places.reverse();
        Ok(places)
    }

    /// Whether a variable is marked.
    fn is_marked(&self, variable: usize) -> bool {
        match self.marked.get(variable) {
            Some(marked) => *marked,
            None => false,
        }
    }

    /// Takes the mark of the step at a place away, if its reason's other literals are marked or of level 0.
    fn leave_out(
        &mut self,
        trail: &Trail,
        clauses: &Clauses,
        numbers: &mut Vec<usize>,
        place: usize,
    ) -> Result<(), AllocError>
        requires within { AreWithin trail.now.variables clauses.now }
        requires clear { IsClear trail.now.variables self.old }
        requires fresh { AreFresh trail.now.variables trail.now.steps }
        requires justified { AreJustified clauses.now trail.now.steps }
        requires reached { IsReached trail.now.steps self.old }
        requires place { place < self.old.newest }
        requires cut { IsCut clauses.now trail.now.steps (suc place) self.old.marked.items (reverse numbers.old.items) }
        ensures clear { OnOk result (IsClear trail.now.variables self.new) }
        ensures reached { OnOk result (IsReached trail.now.steps self.new) }
        ensures reaches { OnOk result (Reaches place self.old self.new) }
        ensures cut { OnOk result (IsCut clauses.now trail.now.steps place self.new.marked.items (reverse numbers.new.items)) }
    {
        if let Some(step) = trail.step_at(place) {
            if !step.decision && self.marked[step.literal.variable() as usize] {
                if let Some(reason) = step.reason {
                    if self.is_implied(trail, clauses, reason, step.literal) {
                        return self.replace(trail, clauses, numbers, place, step, reason);
                    }
                }
            }
        }
        Ok(())
    }

    /// Whether the other literals of a literal's reason are marked or of level 0.
    fn is_implied(&self, trail: &Trail, clauses: &Clauses, reason: usize, literal: Lit) -> bool {
        if clauses.len() <= reason {
            return false;
        }
        for other in clauses.at(reason).literals() {
            if *other != literal && !self.is_kept(trail, other.variable() as usize) {
                return false;
            }
        }
        true
    }

    /// Whether a variable is marked or has its value from level 0.
    fn is_kept(&self, trail: &Trail, variable: usize) -> bool {
        if self.is_marked(variable) {
            return true;
        }
        if variable < trail.variables() {
            match trail.place_of(variable) {
                Some(place) => place < self.first,
                None => false,
            }
        } else {
            false
        }
    }

    /// Traces the conflict through level 0, so that none of its steps is marked.
    fn resolve_first(
        &mut self,
        trail: &Trail,
        clauses: &Clauses,
        numbers: &mut Vec<usize>,
    ) -> Result<(), AllocError>
        requires within { AreWithin trail.now.variables clauses.now }
        requires clear { IsClear trail.now.variables self.old }
        requires fresh { AreFresh trail.now.variables trail.now.steps }
        requires justified { AreJustified clauses.now trail.now.steps }
        requires reached { IsReached trail.now.steps self.old }
        requires cut { IsCut clauses.now trail.now.steps self.old.first self.old.marked.items (reverse numbers.old.items) }
        requires single { self.old.high ≤ suc self.old.low }
        ensures clear { OnOk result (IsClear trail.now.variables self.new) }
        ensures reached { OnOk result (IsReached trail.now.steps self.new) }
        ensures places { OnOk result ((self.new.first ≡ self.old.first) × (self.new.newest ≡ self.old.newest) × (self.new.low ≤ self.old.low)) }
        ensures cut { OnOk result (IsCut clauses.now trail.now.steps self.new.top self.new.marked.items (reverse numbers.new.items)) }
        ensures single { OnOk result (self.new.high ≤ suc self.new.low) }
        ensures none { OnOk result (self.new.top ≤ self.new.bottom) }
    {
        while self.bottom < self.top {
            let place = self.top - 1;
            self.resolve(trail, clauses, numbers, place)?;
            self.top = place;
        }
        Ok(())
    }
}

/// Takes the marks of the touched variables away, and gives the clause of the marked variables' false
/// literals, that of the variable `first` first.
fn take_clause(
    alloc: Global,
    marked: &mut Vec<bool>,
    touched: &[usize],
    trail: &Trail,
    first: usize,
) -> Result<Clause, AllocError>
    requires size { length marked.old.items ≡ trail.now.variables }
    requires touched { AreTouched marked.old.items touched.now }
    requires first { IsOn marked.old.items first }
    requires known { IsSome (known_value trail.now.steps first) }
    ensures size { OnOk result (length marked.new.items ≡ trail.now.variables) }
    ensures touched { OnOk result (AreTouched marked.new.items touched.now) }
    ensures clause { IfOk result (IsClauseOf trail.now.steps marked.old.items first) }
{
    let mut clause = Clause::new(alloc);
    take_false(marked, trail, &mut clause, first)?;
    for variable in touched {
        take_false(marked, trail, &mut clause, *variable)?;
    }
    Ok(clause)
}

/// The first and the last of the places, or else `count` for both.
fn ends_of(places: &[usize], count: usize) -> (usize, usize)
    ensures { AreEnds places.now count result.0 result.1 }
{
    match (places.first(), places.last()) {
        (Some(first), Some(last)) => (*first, *last),
        _ => (count, count),
    }
}

/// Takes a variable's mark away, if it has one, and adds the variable's literal that is false.
fn take_false(
    marked: &mut Vec<bool>,
    trail: &Trail,
    clause: &mut Clause,
    variable: usize,
) -> Result<(), AllocError>
    requires size { length marked.old.items ≡ trail.now.variables }
    ensures takes { OnOk result ((start : List Bool) → TakesMarks trail.now.steps start marked.old.items clause.old → TakesMarks trail.now.steps start marked.new.items clause.new) }
    ensures left { OnOk result ((v : ℕ) → IsOn marked.new.items v → IsOn marked.old.items v) }
    ensures off { OnOk result (IsOn marked.new.items variable → known_value trail.now.steps variable ≡ None) }
    ensures added { OnOk result ((b : Bool) → IsOn marked.old.items variable → known_value trail.now.steps variable ≡ Some b → clause.new ≡ clause.old ++ record { variable = variable; negated = b } ∷ []) }
    ensures more { OnOk result ((back : List Literal) × (clause.new ≡ clause.old ++ back)) }
{
    if variable < marked.len() && marked[variable] {
        if let Some(literal) = trail.false_literal(variable) {
            marked[variable] = false;
            clause.push(literal)?;
        }
    }
    Ok(())
}
