//! The trail: the literals that hold, with their reasons and levels.

ghost use Rattle.std.specs.Prelude.{◌≡◌, ◌^◌, ◌<◌, ◌≤◌, [], ◌∷◌, ℕ, Bool, true, false, suc, ◌↔◌, None, Some, length, IsTrue, IsSome, IfSome, IfNone, IfOk, OnOk, OnErr};
ghost use Rattle.sat_form.specs.Satisfaction.{assignment_of};
ghost use Rattle.cdcl_core.specs.Steps.{Course, known_value, known_place, known_truth, false_literal_of, oldest};

use sat_form::{Assignment, Lit};
use std::alloc::{AllocError, Global};
use std::marker::Model;

/// A literal that the search takes as true: by choice, or since the steps before it leave no other.
#[derive(Clone, Copy)]
pub struct Step {
    pub literal: Lit,
    pub decision: bool,
    /// The place of the clause that the steps before it leave this literal of, if it is one.
    pub reason: Option<usize>,
}

/// A variable's value, and the place of the step that gave it.
#[derive(Clone, Copy)]
pub struct Mark {
    pub value: bool,
    pub place: usize,
}

/// The steps of a search, in order, with the values that they give to the variables.
#[derive(Drop)]
pub struct Trail {
    steps: Vec<Step>,
    marks: Vec<Option<Mark>>,
    /// The values of the marks, close together, since propagation reads little else.
    values: Vec<Option<bool>>,
}

impl Model for Trail {
    ghost use Rattle.cdcl_core.specs.Steps.{Course};

    ghost Value = { Course };

    ghost use Rattle.cdcl_core.specs.Marks.{course_of, IsMarked};

    ghost view = { course_of };

    ghost invariant = { IsMarked };
}

impl Trail {
    /// The trail without steps over this many variables.
    pub fn new(alloc: Global, variables: u32) -> Result<Self, AllocError>
        requires { variables ≤ 2 ^ 31 }
        ensures { IfOk result (λ trail. trail ≡ record { variables = variables; steps = [] }) }
    {
        Ok(Trail {
            steps: Vec::new(alloc),
            marks: vec![in alloc; None; variables as usize]?,
            values: vec![in alloc; None; variables as usize]?,
        })
    }

    /// How many variables there are.
    pub fn variables(&self) -> usize
        ensures { result ≡ self.now.variables }
    {
        self.marks.len()
    }

    /// How many steps there are.
    pub fn len(&self) -> usize
        ensures is { result ≡ length self.now.steps }
        ensures most { result ≤ self.now.variables }
    {
        self.steps.len()
    }

    /// The step at a place, the oldest at 0, where there is one.
    pub fn step_at(&self, place: usize) -> Option<Step>
        ensures within { IfSome result (λ s. s.literal.variable < self.now.variables) }
        ensures before { IsSome result → place < self.now.variables }
        ensures limit { IsSome result → place < 2 ^ 31 }
        ensures found { IsSome result ↔ (place < length self.now.steps) }
        ensures step { IfSome result (λ s. oldest (suc place) self.now.steps ≡ s ∷ oldest place self.now.steps) }
    {
        if place < self.steps.len() {
            Some(self.steps[place])
        } else {
            None
        }
    }

    /// The place of the step that gave the variable its value, if one did.
    pub fn place_of(&self, variable: usize) -> Option<usize>
        requires { variable < self.now.variables }
        ensures { result ≡ known_place self.now.steps variable }
    {
        match self.marks[variable] {
            Some(mark) => Some(mark.place),
            None => None,
        }
    }

    /// How many of the oldest steps tell whether a literal is true: the fewest that do, or 0 where no
    /// step tells.
    pub fn height(&self, literal: Lit) -> usize
        requires { literal.variable < self.now.variables }
        ensures told { known_truth (oldest result self.now.steps) literal ≡ known_truth self.now.steps literal }
        ensures before { (k : ℕ) → k < result → known_truth (oldest k self.now.steps) literal ≡ None }
    {
        match self.marks[literal.variable() as usize] {
            Some(mark) => mark.place + 1,
            None => 0,
        }
    }

    /// Whether a literal is true, where the steps tell.
    pub fn value_of(&self, literal: Lit) -> Option<bool>
        requires { literal.variable < self.now.variables }
        ensures { result ≡ known_truth self.now.steps literal }
    {
        match self.values[literal.variable() as usize] {
            Some(value) => Some(value != literal.is_negated()),
            None => None,
        }
    }

    /// Whether a literal is true.
    pub fn is_true(&self, literal: Lit) -> bool
        ensures is { IsTrue result → known_truth self.now.steps literal ≡ Some true }
        ensures all { literal.variable < self.now.variables → known_truth self.now.steps literal ≡ Some true → IsTrue result }
    {
        let variable = literal.variable() as usize;
        if variable >= self.values.len() {
            return false;
        }
        match self.values[variable] {
            Some(value) => value != literal.is_negated(),
            None => false,
        }
    }

    /// The literal of the variable that is false, where it has a value.
    pub fn false_literal(&self, variable: usize) -> Option<Lit>
        requires { variable < self.now.variables }
        ensures { result ≡ false_literal_of self.now.steps variable }
    {
        match self.marks[variable] {
            Some(mark) => Some(Lit::new(variable as u32, mark.value)),
            None => None,
        }
    }

    /// Whether a number is that of a variable without a value.
    pub fn is_open(&self, variable: usize) -> bool
        ensures open_ { IsTrue result ↔ ((variable < self.now.variables) × (known_value self.now.steps variable ≡ None)) }
        ensures limit { IsTrue result → variable < 2 ^ 31 }
    {
        variable < self.marks.len() && self.marks[variable].is_none()
    }

    /// The first variable without a value.
    pub fn first_open(&self) -> Option<usize>
        ensures found { IfSome result (λ v. (v < self.now.variables) × (known_value self.now.steps v ≡ None)) }
        ensures limit { IfSome result (λ v. v < 2 ^ 31) }
        ensures none { IfNone result ((v : ℕ) → v < self.now.variables → IsSome (known_value self.now.steps v)) }
    {
        for variable in 0..self.marks.len() {
            if self.marks[variable].is_none() {
                return Some(variable);
            }
        }
        None
    }

    /// Adds a step on a variable that has no value. After an error the trail is unchanged.
    pub fn push(
        &mut self,
        literal: Lit,
        decision: bool,
        reason: Option<usize>,
    ) -> Result<(), AllocError>
        requires within { literal.variable < self.old.variables }
        requires open_ { known_value self.old.steps literal.variable ≡ None }
        ensures ok { OnOk result (self.new ≡ record self.old { steps = record { literal = literal; decision = decision; reason = reason } ∷ self.old.steps }) }
        ensures room { length self.old.steps < self.old.variables }
        ensures err { OnErr result (self.new ≡ self.old) }
    {
        let place = self.steps.len();
        self.steps.push(Step {
            literal,
            decision,
            reason,
        })?;
        let variable = literal.variable() as usize;
        let value = !literal.is_negated();
        self.marks[variable] = Some(Mark { value, place });
        self.values[variable] = Some(value);
        Ok(())
    }

    /// Takes the newest step back.
    pub fn pop(&mut self) -> Option<Step>
        ensures some { IfSome result (λ step. self.old ≡ record self.new { steps = step ∷ self.new.steps }) }
        ensures within { IfSome result (λ step. step.literal.variable < self.new.variables) }
        ensures open_ { IfSome result (λ step. known_value self.new.steps step.literal.variable ≡ None) }
        ensures none { IfNone result ((self.old.steps ≡ []) × (self.new ≡ self.old)) }
    {
        let step = self.steps.pop()?;
        let variable = step.literal.variable() as usize;
        self.marks[variable] = None;
        self.values[variable] = None;
        Some(step)
    }

    /// Keeps the oldest `count` steps.
    pub fn cut(&mut self, count: usize)
        ensures { self.new ≡ record self.old { steps = oldest count self.old.steps } }
    {
        while self.len() > count {
            let _ = self.pop();
        }
    }

    /// The values of the variables, false for each that has none.
    pub fn assignment(&self, alloc: Global) -> Result<Assignment, AllocError>
        ensures length { IfOk result (λ a. length a ≡ self.now.variables) }
        ensures given { IfOk result (λ a. (v : ℕ) (b : Bool) → v < self.now.variables → known_value self.now.steps v ≡ Some b → assignment_of a v ≡ b) }
        ensures open_ { IfOk result (λ a. (v : ℕ) → v < self.now.variables → known_value self.now.steps v ≡ None → assignment_of a v ≡ false) }
    {
        let mut values = Vec::with_capacity(alloc, self.marks.len())?;
        for mark in &self.marks {
            values.push(mark.is_some_and(|mark| mark.value))?;
        }
        Ok(Assignment::from_values(values))
    }
}
