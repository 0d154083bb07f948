//! Literals: a variable or its negation.

ghost use Rattle.std.specs.Prelude.{◌≡◌, ◌^◌, ◌<◌};
ghost use Rattle.sat_form.specs.Satisfaction.{inverse_of, index_of};

use std::marker::Model;

/// A variable, counted from 0, or its negation.
#[derive(Clone, Copy, Debug, Default, PartialEq, Eq)]
pub struct Lit {
    code: u32,
}

impl Model for Lit {
    ghost use Rattle.std.specs.Prelude.{◌+◌, ◌*◌, ◌/◌, ◌%◌, nat_eq, if◌then◌else◌};
    ghost use Rattle.sat_form.specs.Satisfaction.{Literal};
    ghost use Rattle.sat_form.specs.inner.Codes.{code_of_parts};

    ghost Value = { Literal };

    ghost view = { λ l. record { variable = l.code / 2; negated = nat_eq (l.code % 2) 1 } };

    ghost inverse = { λ l. record { code = 2 * l.variable + (if l.negated then 1 else 0) } };

    ghost inverse_ok = { λ l _. λ k. record { code = code_of_parts l.code k } };
}

impl Lit {
    /// The variable, or its negation.
    pub fn new(variable: u32, negated: bool) -> Self
        requires { variable < 2 ^ 31 }
        ensures { result ≡ record { variable = variable; negated = negated } }
    {
        Lit {
            code: 2 * variable + negated as u32,
        }
    }

    /// The variable that the literal is about.
    pub fn variable(self) -> u32
        ensures is { result ≡ self.variable }
        ensures limit { result < 2 ^ 31 }
    {
        self.code / 2
    }

    /// Whether the literal is true where its variable is false.
    pub fn is_negated(self) -> bool
        ensures { result ≡ self.negated }
    {
        self.code % 2 == 1
    }

    /// The literal that is true where this one is false.
    pub fn inverse(self) -> Self
        ensures { result ≡ inverse_of self }
    {
        Lit::new(self.variable(), !self.is_negated())
    }

    /// The literal's place among all literals: twice its variable, and one more if it is negated.
    pub fn index(self) -> usize
        ensures { result ≡ index_of self }
    {
        self.code as usize
    }
}
