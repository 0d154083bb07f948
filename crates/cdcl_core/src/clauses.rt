//! Clauses by their numbers, of which those that were learned can be deleted.

ghost use Rattle.std.specs.Prelude.{◌≡◌, ◌<◌, [], ◌∷◌, ◌++◌, Some, OnOk, length, slice_get};
ghost use Rattle.cdcl_core.specs.Stores.{unmarked};

use sat_form::Clause;
use std::alloc::{AllocError, Global};
use std::marker::Model;

/// Clauses: first those that a search begins with, and then those that were learned.
#[derive(Drop)]
pub struct Clauses {
    clauses: Vec<Clause>,
}

impl Model for Clauses {
    ghost use Rattle.std.specs.Prelude.{List};
    ghost use Rattle.sat_form.specs.Satisfaction.{Literal};

    ghost Value = { List (List Literal) };

    ghost view = { λ c. c.clauses.items };
}

impl Clauses {
    /// These clauses, none of which was learned.
    pub fn new(first: Vec<Clause>) -> Self
        ensures { result ≡ first.items }
    {
        Clauses { clauses: first }
    }

    /// How many there are.
    pub fn len(&self) -> usize
        ensures { result ≡ length self.now }
    {
        self.clauses.len()
    }

    /// The clause of a number.
    pub fn at(&self, number: usize) -> &Clause
        requires { number < length self.now }
        ensures { slice_get self.now number ≡ Some result.now }
    {
        &self.clauses[number]
    }

    /// Adds a learned clause.
    pub fn push(&mut self, clause: Clause) -> Result<(), AllocError>
        ensures { OnOk result (self.new ≡ self.old ++ clause ∷ []) }
    {
        self.clauses.push(clause)?;
        Ok(())
    }

    /// Deletes the clauses that are marked, and numbers the others anew in their order.
    pub fn forget(&mut self, marks: &[bool])
        requires { length marks.now ≡ length self.old }
        ensures { self.new ≡ unmarked marks.now self.old }
    {
        compact(&mut self.clauses, marks);
    }
}

/// Keeps the items that aren't marked, in their order.
pub fn compact<T: Drop>(items: &mut Vec<T>, marks: &[bool])
    requires { length marks.now ≡ length items.old.items }
    ensures { items.new.items ≡ unmarked marks.now items.old.items }
{
    let mut kept = 0;
    for place in 0..items.len() {
        if !marks[place] {
            items.swap(kept, place);
            kept += 1;
        }
    }
    items.truncate(kept);
}
