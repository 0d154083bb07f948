//! Literals that may be constants.

ghost use Rattle.std.specs.Prelude.{◌≡◌, IfOk, map};
ghost use Rattle.sat_form.specs.Satisfaction.{inverse_of};

use sat_form::Lit;
use std::alloc::{AllocError, Global};
use std::marker::Model;

/// Literals that stand for the bits of a word, the lowest first.
#[derive(Drop)]
pub struct Lits {
    literals: Vec<Lit>,
}

impl Model for Lits {
    ghost use Rattle.std.specs.Prelude.{List};
    ghost use Rattle.sat_form.specs.Satisfaction.{Literal};

    ghost Value = { List Literal };

    ghost view = { λ l. l.literals.items };
}

impl Lits {
    /// The literals, the lowest first.
    pub fn new(literals: Vec<Lit>) -> Self
        ensures { result ≡ literals.items }
    {
        Lits { literals }
    }

    /// The literals, the lowest first.
    pub fn as_slice(&self) -> &[Lit]
        ensures { result.now ≡ self.now }
    {
        &self.literals
    }

    /// The literals, the lowest first. Takes no memory.
    pub fn into_vec(self) -> Vec<Lit>
        ensures { result.items ≡ self }
    {
        self.literals
    }
}

/// The inverse of each literal.
pub fn inverses(alloc: Global, bits: &[Lit]) -> Result<Vec<Lit>, AllocError>
    ensures { IfOk result (λ r. r.items ≡ map inverse_of bits.now) }
{
    bits.iter().map(|bit| bit.inverse()).collect(alloc)
}
