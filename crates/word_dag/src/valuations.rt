//! Values of the variables.

ghost use Rattle.std.specs.Prelude.{◌≡◌};
ghost use Rattle.word_dag.specs.Meaning.{valuation_of};

use std::marker::Model;

/// A value for each variable, a number below 2 ^ 64: those from 0 on that are listed, and 0 for every
/// other.
#[derive(Drop)]
pub struct Valuation {
    values: Vec<u64>,
}

impl Model for Valuation {
    ghost use Rattle.std.specs.Prelude.{ℕ, List};

    ghost Value = { List ℕ };

    ghost view = { λ v. v.values.items };
}

impl Valuation {
    /// The valuation of these values for the variables from 0 on.
    pub fn from_values(values: Vec<u64>) -> Self
        ensures { result ≡ values.items }
    {
        Valuation { values }
    }

    /// The values of the variables from 0 on.
    pub fn into_values(self) -> Vec<u64>
        ensures { result.items ≡ self }
    {
        self.values
    }

    /// The values of the variables from 0 on.
    pub fn values(&self) -> &[u64]
        ensures { result.now ≡ self.now }
    {
        &self.values
    }

    /// The value of a variable.
    pub fn value(&self, variable: u32) -> u64
        ensures { result ≡ valuation_of self.now variable }
    {
        let index = variable as usize;
        if index < self.values.len() {
            self.values[index]
        } else {
            0
        }
    }
}
