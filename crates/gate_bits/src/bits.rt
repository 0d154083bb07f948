//! Gates of one bit.

#![tactic(auto, using(crate::proofs::Growing::growth))]

ghost use Rattle.std.specs.Prelude.{◌≡◌, ◌<◌, IfOk, length, if◌then◌else◌};
ghost use Rattle.sat_form.specs.Satisfaction.{literal_value, Form, IsWithin};
ghost use Rattle.sat_form.specs.Numbers.{value_of};
ghost use Rattle.words.specs.Operators.{word_complement};
ghost use Rattle.gate_bits.specs.Growth.{GrowsFreely};
ghost use Rattle.gate_bits.specs.Truth.{IsTruth, IsNumber};
ghost use Rattle.gate_bits.specs.Bitwise.{bit_by, word_by};

use crate::gates::{and, or, xor};
use crate::lists::chosen;
use crate::lits::{Lits, inverses};
use sat_form::{Cnf, Lit};
use std::alloc::{AllocError, Global};

/// The operations of two words bit by bit.
#[derive(Clone, Copy)]
pub enum Bitwise {
    /// Both bits.
    And,
    /// One bit at least.
    Or,
    /// One bit alone.
    Xor,
}

// The operation, of two bits.
fn bit(alloc: Global, cnf: &mut Cnf, kind: Bitwise, a: Lit, b: Lit) -> Result<Lit, AllocError>
    requires a { a.variable < cnf.old.variables }
    requires b { b.variable < cnf.old.variables }
    ensures grows { GrowsFreely cnf.old cnf.new }
    ensures is { IfOk result (λ l. IsTruth cnf.new l (λ x. bit_by kind (literal_value x a) (literal_value x b))) }
{
    match kind {
        Bitwise::And => and(alloc, cnf, a, b),
        Bitwise::Or => or(alloc, cnf, a, b),
        Bitwise::Xor => xor(alloc, cnf, a, b),
    }
}

/// The operation, of two numbers.
pub fn bit_by_bit(
    alloc: Global,
    cnf: &mut Cnf,
    kind: Bitwise,
    a: &[Lit],
    b: &[Lit],
) -> Result<Lits, AllocError>
    requires same_width { length a.now ≡ length b.now }
    requires a { IsWithin cnf.old.variables a.now }
    requires b { IsWithin cnf.old.variables b.now }
    ensures grows { GrowsFreely cnf.old cnf.new }
    ensures is { IfOk result (λ r. IsNumber cnf.new (length a.now) r (λ x. word_by kind (value_of a.now x) (value_of b.now x))) }
{
    let mut bits = Vec::new(alloc);
    for (i, x) in a.iter().enumerate() {
        bits.push(bit(alloc, cnf, kind, *x, b[i])?)?;
    }
    Ok(Lits::new(bits))
}

/// The first of two numbers where `test` is true, else the second.
pub fn choice(
    alloc: Global,
    cnf: &mut Cnf,
    test: Lit,
    yes: &[Lit],
    no: &[Lit],
) -> Result<Lits, AllocError>
    requires same_width { length yes.now ≡ length no.now }
    requires test { test.variable < cnf.old.variables }
    requires yes { IsWithin cnf.old.variables yes.now }
    requires no { IsWithin cnf.old.variables no.now }
    ensures grows { GrowsFreely cnf.old cnf.new }
    ensures is { IfOk result (λ r. IsNumber cnf.new (length yes.now) r (λ x. if literal_value x test then value_of yes.now x else value_of no.now x)) }
{
    let bits = chosen(alloc, cnf, test, yes, no)?;
    Ok(Lits::new(bits))
}

/// The complement of a number: each bit turned over (C11 6.5.3.3p4). It needs no clause, so it is the
/// complement in each form that has the literals.
pub fn complement(alloc: Global, a: &[Lit]) -> Result<Lits, AllocError>
    ensures { IfOk result (λ r. (form : Form) → IsWithin form.variables a.now → IsNumber form (length a.now) r (λ x. word_complement (length a.now) (value_of a.now x))) }
{
    let bits = inverses(alloc, a)?;
    Ok(Lits::new(bits))
}
