//! The order of averaged conflict numbers.

ghost use Rattle.std.specs.Prelude.{◌≡◌, ◌^◌, ◌<◌, None, IfSome};
ghost use Rattle.cdcl_core.specs.Steps.{known_value};

use crate::order::Order;
use crate::trail::Trail;
use sat_form::Lit;
use std::alloc::{AllocError, Global};
use std::collections::BinaryHeap;

/// How much later than the one before it a conflict is.
const STEP: u64 = 1_048_576;

/// The order in which variables are decided: by a score that each conflict brings half of the way to its own time, for the
/// variables that it comes from (averaged conflict numbers; Biere and Froehlich, SAT 2015), and else the first of the form.
#[derive(Drop)]
pub struct Averages {
    /// Variables that wait to be decided, each after its score.
    heap: BinaryHeap<(u64, usize)>,
    /// The score of each variable.
    scores: Vec<u64>,
    /// The score with which each variable waits, or 0.
    waiting: Vec<u64>,
    /// The time of the last conflict.
    now: u64,
}

impl Averages {
    /// All variables wait, the first of the form first.
    pub fn new(alloc: Global, variables: u32) -> Result<Self, AllocError> {
        let mut order = Averages {
            heap: BinaryHeap::new(alloc),
            scores: vec![in alloc; 0; variables as usize]?,
            waiting: vec![in alloc; 0; variables as usize]?,
            now: 0,
        };
        for variable in (0..variables as usize).rev() {
            order.begin(variable);
            order.offer(variable)?;
        }
        Ok(order)
    }

    /// Puts a variable before all others so far.
    fn begin(&mut self, variable: usize) {
        if variable < self.scores.len() {
            self.now = self.now.saturating_add(1);
            self.scores[variable] = self.now;
        }
    }

    /// Brings a variable's score half of the way to now, for the next time that it waits.
    fn raise(&mut self, variable: usize) {
        if variable < self.scores.len() {
            let half = self.scores[variable] / 2;
            self.scores[variable] = half.saturating_add(self.now / 2);
        }
    }

    /// Lets a variable wait.
    fn offer(&mut self, variable: usize) -> Result<(), AllocError> {
        if variable < self.scores.len()
            && variable < self.waiting.len()
            && self.waiting[variable] != self.scores[variable]
        {
            let score = self.scores[variable];
            self.heap.push((score, variable))?;
            self.waiting[variable] = score;
        }
        Ok(())
    }
}

impl Order for Averages {
    /// The next variable that waits and has no value.
    fn next_open(&mut self, trail: &Trail) -> Option<usize>
        ensures found { IfSome result (λ v. (v < trail.now.variables) × (known_value trail.now.steps v ≡ None)) }
        ensures limit { IfSome result (λ v. v < 2 ^ 31) }
    {
        while let Some((score, variable)) = self.heap.pop() {
            if variable < self.waiting.len() && self.waiting[variable] == score {
                self.waiting[variable] = 0;
                if trail.is_open(variable) {
                    return Some(variable);
                }
            }
        }
        None
    }
    /// Each variable is decided as false.
    fn phase(&self, _variable: usize) -> bool {
        false
    }

    /// Lets the variable of the literal wait.
    fn release(&mut self, literal: Lit) -> Result<(), AllocError> {
        self.offer(literal.variable() as usize)
    }

    /// A conflict comes from these variables.
    fn raise_all(&mut self, variables: &[usize]) {
        self.now = self.now.saturating_add(STEP);
        for variable in variables {
            self.raise(*variable);
        }
    }

    /// Never.
    fn starts_over(&mut self) -> bool {
        false
    }
}
