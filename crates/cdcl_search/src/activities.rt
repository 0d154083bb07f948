//! The order of activities, the values that variables had last, and restarts.

ghost use Rattle.std.specs.Prelude.{◌≡◌, ◌^◌, ◌<◌, None, IfSome, length};
ghost use Rattle.cdcl_core.specs.Steps.{known_value};

use crate::restarts::Restarts;
use cdcl_core::{Order, Trail};
use sat_form::Lit;
use std::alloc::{AllocError, Global};

/// By how much a conflict raises its variables at first.
const FIRST: u64 = 1 << 20;

/// The greatest activity; above it all are lowered alike.
const MOST: u64 = 1 << 60;

/// How many binary digits an activity loses where all are lowered.
const LOWERED: u32 = 40;

/// By what part of itself the raise grows at each conflict: activities decay by 0.95.
const PART: u64 = 19;

/// No place.
const NOWHERE: usize = usize::MAX;

/// The order in which variables are decided: the one of the greatest activity first (exponential VSIDS;
/// Een and Soerensson, SAT 2003), as what it was last, with restarts.
#[derive(Drop)]
pub struct Activities {
    /// The variables that wait, as a binary heap by their activity.
    heap: Vec<usize>,
    /// Where each variable stands in the heap, or `NOWHERE`.
    places: Vec<usize>,
    /// How often each variable came up in conflicts, of which later ones count more.
    activities: Vec<u64>,
    /// Whether each variable had the value true last.
    phases: Vec<bool>,
    /// By how much a conflict raises its variables.
    raise: u64,
    restarts: Restarts,
}

impl Activities {
    /// All variables wait, the first of the form first, and each is to be false.
    pub fn new(alloc: Global, variables: u32) -> Result<Self, AllocError> {
        let mut order = Activities {
            heap: Vec::with_capacity(alloc, variables as usize)?,
            places: vec![in alloc; NOWHERE; variables as usize]?,
            activities: vec![in alloc; 0; variables as usize]?,
            phases: vec![in alloc; false; variables as usize]?,
            raise: FIRST,
            restarts: Restarts::new(),
        };
        for variable in 0..variables as usize {
            order.offer(variable)?;
        }
        Ok(order)
    }

    /// The activity of the variable at a place of the heap, or 0.
    fn activity_at(&self, place: usize) -> u64 {
        if place < self.heap.len() {
            let variable = self.heap[place];
            if variable < self.activities.len() {
                return self.activities[variable];
            }
        }
        0
    }

    /// Puts a variable at a place of the heap.
    fn put(&mut self, place: usize, variable: usize)
        ensures { length self.new.heap.items ≡ length self.old.heap.items }
    {
        if place < self.heap.len() && variable < self.places.len() {
            self.heap[place] = variable;
            self.places[variable] = place;
        }
    }

    /// Moves the variable at a place of the heap up to where it belongs.
    fn rise(&mut self, from: usize) {
        if from >= self.heap.len() {
            return;
        }
        let variable = self.heap[from];
        let activity = self.activity_at(from);
        let mut place = from;
        while place > 0 {
            let above = (place - 1) / 2;
            if self.activity_at(above) >= activity {
                break;
            }
            let moved = self.heap[above];
            self.put(place, moved);
            place = above;
        }
        self.put(place, variable);
    }

    /// The place below this one whose variable is the more active, if there is one.
    fn child_of(&self, place: usize) -> Option<usize>
        ensures below { IfSome result (λ child. place < child) }
        ensures within { IfSome result (λ child. child < length self.now.heap.items) }
    {
        if place >= self.heap.len() / 2 {
            return None;
        }
        let left = 2 * place + 1;
        if left + 1 < self.heap.len() && self.activity_at(left) < self.activity_at(left + 1) {
            Some(left + 1)
        } else {
            Some(left)
        }
    }

    /// Moves the variable at the top of the heap down to where it belongs.
    fn sink(&mut self)
        ensures { length self.new.heap.items ≡ length self.old.heap.items }
    {
        if self.heap.is_empty() {
            return;
        }
        let variable = self.heap[0];
        let activity = self.activity_at(0);
        let mut place = 0;
        while let Some(below) = self.child_of(place) {
            if self.activity_at(below) <= activity {
                break;
            }
            let moved = self.heap[below];
            self.put(place, moved);
            place = below;
        }
        self.put(place, variable);
    }

    /// Lets a variable wait.
    fn offer(&mut self, variable: usize) -> Result<(), AllocError> {
        if variable < self.places.len() && self.places[variable] == NOWHERE {
            let place = self.heap.len();
            self.heap.push(variable)?;
            self.places[variable] = place;
            self.rise(place);
        }
        Ok(())
    }

    /// The first variable that waits, which waits no longer.
    fn pop(&mut self) -> Option<usize>
        ensures { IfSome result (λ _. length self.new.heap.items < length self.old.heap.items) }
    {
        let last = self.heap.pop()?;
        let top = if self.heap.is_empty() {
            last
        } else {
            let first = self.heap[0];
            self.heap[0] = last;
            self.sink();
            first
        };
        if top < self.places.len() {
            self.places[top] = NOWHERE;
        }
        Some(top)
    }

    /// Lowers all activities alike.
    fn lower(&mut self) {
        self.raise >>= LOWERED;
        for activity in self.activities.iter_mut() {
            *activity >>= LOWERED;
        }
    }

    /// Raises a variable.
    fn raise(&mut self, variable: usize) {
        if variable < self.activities.len() {
            self.activities[variable] = self.activities[variable].saturating_add(self.raise);
            if self.activities[variable] > MOST {
                self.lower();
            }
        }
        if variable < self.places.len() {
            let place = self.places[variable];
            self.rise(place);
        }
    }

    /// Keeps the value that a variable had.
    fn keep(&mut self, variable: usize, value: bool) {
        if variable < self.phases.len() {
            self.phases[variable] = value;
        }
    }
}

impl Order for Activities {
    /// The variable of the greatest activity that waits and has no value.
    fn next_open(&mut self, trail: &Trail) -> Option<usize>
        ensures found { IfSome result (λ v. (v < trail.now.variables) × (known_value trail.now.steps v ≡ None)) }
        ensures limit { IfSome result (λ v. v < 2 ^ 31) }
    {
        while let Some(variable) = self.pop() {
            if trail.is_open(variable) {
                return Some(variable);
            }
        }
        None
    }

    /// The value that the variable had last; false where it had none.
    fn phase(&self, variable: usize) -> bool {
        variable < self.phases.len() && self.phases[variable]
    }

    /// Keeps the value of the literal's variable, and lets that wait.
    fn release(&mut self, literal: Lit) -> Result<(), AllocError> {
        let variable = literal.variable() as usize;
        self.keep(variable, !literal.is_negated());
        self.offer(variable)
    }

    /// Raises the variables; activities decay by 0.95 at each conflict.
    fn raise_all(&mut self, variables: &[usize]) {
        for variable in variables {
            self.raise(*variable);
        }
        self.raise = self.raise.saturating_add(self.raise / PART + 1);
    }

    /// Whether the present run has had its conflicts.
    fn starts_over(&mut self) -> bool {
        self.restarts.count()
    }
}
