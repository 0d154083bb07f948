//! Why a file is not supported: the refusals and the limits.

ghost use Rattle.std.specs.Prelude.{◌≡◌, true};
ghost use Rattle.core_tree.specs.Ranges.{is_refusal};

use std::marker::Model;

/// Why a file is refused: the refusal's number, the line, and the rule that is broken. The number is from
/// 1 to 7 or 10 without a rule, or 11 or 12 with one.
#[derive(Clone, Copy, Debug, PartialEq, Eq)]
pub struct Refusal {
    number: u32,
    line: u32,
    rule: Option<u32>,
}

impl Model for Refusal {
    ghost use Rattle.std.specs.Prelude.{◌≡◌, true};
    ghost use Rattle.core_tree.specs.Ranges.{Cause, is_refusal};

    ghost Value = { Cause };

    ghost view = { λ r. record { number = r.number; line = r.line; rule = r.rule } };

    ghost invariant = { λ r. is_refusal r.number r.rule ≡ true };

    ghost inverse = { λ c. record { number = c.number; line = c.line; rule = c.rule } };
}

impl Refusal {
    /// The refusal with these parts.
    pub fn new(number: u32, line: u32, rule: Option<u32>) -> Refusal
        requires { is_refusal number rule ≡ true }
        ensures { result ≡ record { number = number; line = line; rule = rule } }
    {
        Refusal { number, line, rule }
    }

    /// The refusal's number.
    pub fn number(self) -> u32
        ensures { result ≡ self.number }
    {
        self.number
    }

    /// The line.
    pub fn line(self) -> u32
        ensures { result ≡ self.line }
    {
        self.line
    }

    /// The rule that is broken, of numbers 11 and 12 alone.
    pub fn rule(self) -> Option<u32>
        ensures is { result ≡ self.rule }
        ensures numbered { is_refusal self.number result ≡ true }
    {
        self.rule
    }
}

/// What a file has too much of.
#[derive(Clone, Copy, Debug, PartialEq, Eq)]
pub enum Limit {
    FileBytes,
    Tokens,
    Places,
    Threads,
    Actions,
    Objects,
    ObjectBytes,
}
