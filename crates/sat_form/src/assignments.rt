//! Assignments of truth values to variables.

ghost use Rattle.std.specs.Prelude.{◌≡◌, ◌↔◌, IsTrue};
ghost use Rattle.std.specs.List.{list_all};
ghost use Rattle.sat_form.specs.Satisfaction.{literal_value, clause_value, Satisfies, assignment_of};

use crate::clauses::Clause;
use crate::forms::Cnf;
use crate::lits::Lit;
use std::alloc::Global;
use std::marker::Model;

/// A value for each variable: those from 0 on that are listed, and false for every other.
#[derive(Drop)]
pub struct Assignment {
    values: Vec<bool>,
}

impl Model for Assignment {
    ghost use Rattle.std.specs.Prelude.{List, Bool};

    ghost Value = { List Bool };

    ghost view = { λ a. a.values.items };
}

impl Assignment {
    /// The assignment of these values to the variables from 0 on.
    pub fn from_values(values: Vec<bool>) -> Self
        ensures { result ≡ values.items }
    {
        Assignment { values }
    }

    /// The values of the variables from 0 on.
    pub fn into_values(self) -> Vec<bool>
        ensures { result.items ≡ self }
    {
        self.values
    }

    /// The values of the variables from 0 on.
    pub fn values(&self) -> &[bool]
        ensures { result.now ≡ self.now }
    {
        &self.values
    }

    /// Whether the literal is true.
    pub fn value(&self, literal: Lit) -> bool
        ensures { result ≡ literal_value (assignment_of self.now) literal }
    {
        let variable = literal.variable() as usize;
        let value = variable < self.values.len() && self.values[variable];
        value != literal.is_negated()
    }

    /// Whether the clause has a true literal.
    pub fn satisfies(&self, clause: &Clause) -> bool
        ensures { result ≡ clause_value (assignment_of self.now) clause.now }
    {
        clause.literals().iter().any(|literal| self.value(*literal))
    }

    /// Whether each clause has a true literal.
    pub fn satisfies_all(&self, clauses: &[Clause]) -> bool
        ensures { result ≡ list_all (clause_value (assignment_of self.now)) clauses.now }
    {
        clauses.iter().all(|clause| self.satisfies(clause))
    }
}

/// Whether each clause of the form has a literal that is true in the assignment.
pub fn is_model(cnf: &Cnf, assignment: &Assignment) -> bool
    ensures { IsTrue result ↔ Satisfies (assignment_of assignment.now) cnf.now.clauses }
{
    assignment.satisfies_all(cnf.clauses())
}
