//! Forms: lists of clauses (CNF).

ghost use Rattle.std.specs.Prelude.{◌≡◌, ◌+◌, ◌^◌, ◌≤◌, false, [], ◌∷◌, ◌++◌, IfOk, OnOk, OnErr};
ghost use Rattle.sat_form.specs.Satisfaction.{IsWithin, AreWithin};

use crate::clauses::Clause;
use crate::lits::Lit;
use std::alloc::{AllocError, Global};
use std::marker::Model;

/// A form in conjunctive normal form: variables, counted from 0, and clauses over them.
#[derive(Drop)]
pub struct Cnf {
    variables: u32,
    clauses: Vec<Clause>,
}

impl Model for Cnf {
    ghost use Rattle.std.specs.Prelude.{◌^◌, ◌≤◌};
    ghost use Rattle.sat_form.specs.Satisfaction.{Form, AreWithin};

    ghost Value = { Form };

    ghost view = { λ f. record { variables = f.variables; clauses = f.clauses.items } };

    ghost invariant = { λ f. (f.variables ≤ 2 ^ 31) × AreWithin f.variables f.clauses.items };
}

impl Cnf {
    /// The most variables that a form has.
    pub const MOST_VARIABLES: u32 = 1 << 31;

    /// The form without variables and clauses.
    pub fn new(alloc: Global) -> Self
        ensures { result ≡ record { variables = 0; clauses = [] } }
    {
        Cnf {
            variables: 0,
            clauses: Vec::new(alloc),
        }
    }

    /// The form of these clauses over this many variables.
    pub fn from_parts(variables: u32, clauses: Vec<Clause>) -> Self
        requires limit { variables ≤ 2 ^ 31 }
        requires within { AreWithin variables clauses.items }
        ensures { result ≡ record { variables = variables; clauses = clauses.items } }
    {
        Cnf { variables, clauses }
    }

    /// Adds a variable, and gives it as a literal. The only error is that there is no room for one
    /// more; the form is then unchanged.
    pub fn fresh(&mut self) -> Result<Lit, AllocError>
        ensures variable { IfOk result (λ l. l ≡ record { variable = self.old.variables; negated = false }) }
        ensures ok { OnOk result (self.new ≡ record self.old { variables = self.old.variables + 1 }) }
        ensures within { AreWithin self.old.variables self.old.clauses }
        ensures full { OnErr result (self.old.variables ≡ 2 ^ 31) }
        ensures err { OnErr result (self.new ≡ self.old) }
    {
        if self.variables == Cnf::MOST_VARIABLES {
            return Err(AllocError);
        }
        let literal = Lit::new(self.variables, false);
        self.variables += 1;
        Ok(literal)
    }

    /// Adds a clause at the end. After an error the form is unchanged.
    pub fn push(&mut self, clause: Clause) -> Result<(), AllocError>
        requires { IsWithin self.old.variables clause }
        ensures ok { OnOk result (self.new ≡ record self.old { clauses = self.old.clauses ++ clause ∷ [] }) }
        ensures err { OnErr result (self.new ≡ self.old) }
    {
        self.clauses.push(clause)?;
        Ok(())
    }

    /// Adds the clause of these literals at the end. After an error the form is unchanged.
    pub fn add(&mut self, alloc: Global, literals: &[Lit]) -> Result<(), AllocError>
        requires { IsWithin self.old.variables literals.now }
        ensures ok { OnOk result (self.new ≡ record self.old { clauses = self.old.clauses ++ literals.now ∷ [] }) }
        ensures err { OnErr result (self.new ≡ self.old) }
    {
        let clause = Clause::from_slice(alloc, literals)?;
        self.push(clause)?;
        Ok(())
    }

    /// Moves the clauses of a form over these variables and maybe more to the end of this one, which
    /// takes over its variables. After an error the form is unchanged.
    pub fn append(&mut self, other: Cnf) -> Result<(), AllocError>
        requires { self.old.variables ≤ other.variables }
        ensures ok { OnOk result (self.new ≡ record { variables = other.variables; clauses = self.old.clauses ++ other.clauses }) }
        ensures err { OnErr result (self.new ≡ self.old) }
    {
        let mut more = other;
        self.clauses.append(&mut more.clauses)?;
        self.variables = more.variables;
        Ok(())
    }

    /// How many variables there are.
    pub fn variables(&self) -> u32
        ensures is { result ≡ self.now.variables }
        ensures limit { self.now.variables ≤ 2 ^ 31 }
    {
        self.variables
    }

    /// The clauses, in the order in which they were added.
    pub fn clauses(&self) -> &[Clause]
        ensures is { result.now ≡ self.now.clauses }
        ensures within { AreWithin self.now.variables self.now.clauses }
    {
        &self.clauses
    }
}
