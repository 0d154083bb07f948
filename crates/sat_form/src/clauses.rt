//! Clauses: lists of literals.

ghost use Rattle.std.specs.Prelude.{◌≡◌, ◌↔◌, [], ◌∷◌, ◌++◌, IsTrue, IfOk, OnOk, OnErr};
ghost use Rattle.sat_form.specs.Satisfaction.{IsWithin};

use crate::lits::Lit;
use smallvec::SmallVec;
use std::alloc::{AllocError, Global};
use std::marker::Model;

/// A disjunction of literals.
#[derive(Drop)]
pub struct Clause {
    literals: SmallVec<Lit, 4>,
}

impl Model for Clause {
    ghost use Rattle.std.specs.Prelude.{List};
    ghost use Rattle.sat_form.specs.Satisfaction.{Literal};

    ghost Value = { List Literal };

    ghost view = { λ c. c.literals.items };
}

impl Clause {
    /// The clause without literals, which no assignment satisfies.
    pub fn new(alloc: Global) -> Self
        ensures { result ≡ [] }
    {
        Clause {
            literals: SmallVec::new(alloc),
        }
    }

    /// The clause of these literals.
    pub fn from_slice(alloc: Global, literals: &[Lit]) -> Result<Self, AllocError>
        ensures { IfOk result (λ clause. clause ≡ literals.now) }
    {
        Ok(Clause {
            literals: SmallVec::from_slice(alloc, literals)?,
        })
    }

    /// Adds a literal at the end.
    pub fn push(&mut self, literal: Lit) -> Result<(), AllocError>
        ensures ok { OnOk result (self.new ≡ self.old ++ literal ∷ []) }
        ensures err { OnErr result (self.new ≡ self.old) }
    {
        self.literals.push(literal)?;
        Ok(())
    }

    /// The literals, in order.
    pub fn literals(&self) -> &[Lit]
        ensures { result.now ≡ self.now }
    {
        self.literals.as_slice()
    }
}

/// Whether each literal is about a variable below `variables`.
pub fn is_within(literals: &[Lit], variables: u32) -> bool
    ensures { IsTrue result ↔ IsWithin variables literals.now }
{
    literals
        .iter()
        .all(|literal| literal.variable() < variables)
}
