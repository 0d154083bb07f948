//! Which rule of the profile a file breaks, and on which line.

ghost use Rattle.std.specs.Prelude.{◌≡◌};
ghost use Rattle.c_profile.specs.Rules.{breach, is_before, earlier};

use std::marker::Model;

/// A broken rule, and the line that it is told with.
#[derive(Clone, Copy)]
pub(crate) struct Breach {
    line: u32,
    rule: u32,
}

impl Model for Breach {
    ghost use Rattle.c_profile.specs.Rules as rules;
    ghost use Rattle.c_profile.specs.Rules.{breach};

    ghost Value = { rules.Breach };

    ghost view = { λ b. breach b.line b.rule };

    ghost inverse = { λ v. record { line = v.line; rule = v.rule } };
}

impl Breach {
    pub(crate) fn new(line: u32, rule: u32) -> Breach
        ensures { result ≡ breach line rule }
    {
        Breach { line, rule }
    }

    pub(crate) fn line(self) -> u32
        ensures { result ≡ self.line }
    {
        self.line
    }

    pub(crate) fn rule(self) -> u32
        ensures { result ≡ self.rule }
    {
        self.rule
    }

    fn is_before(self, other: Breach) -> bool
        ensures { result ≡ is_before self other }
    {
        self.line < other.line || (self.line == other.line && self.rule <= other.rule)
    }
}

/// The one on the lower line, and on one line that of the lower rule.
pub(crate) fn earlier(a: Option<Breach>, b: Option<Breach>) -> Option<Breach>
    ensures { result ≡ earlier a b }
{
    match (a, b) {
        (None, _) => b,
        (Some(_), None) => a,
        (Some(x), Some(y)) => Some(if x.is_before(y) { x } else { y }),
    }
}
