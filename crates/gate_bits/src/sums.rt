//! Adders.

#![tactic(auto, using(crate::proofs::Growing::growth))]

ghost use Rattle.std.specs.Prelude.{◌≡◌, ◌+◌, ◌<◌, ◌≤◌, IfOk, length};
ghost use Rattle.sat_form.specs.Satisfaction.{literal_value, IsWithin};
ghost use Rattle.sat_form.specs.Numbers.{bit_value, value_of};
ghost use Rattle.words.specs.Operators.{word_sum, word_difference};
ghost use Rattle.gate_bits.specs.Growth.{GrowsFreely};
ghost use Rattle.gate_bits.specs.Truth.{IsNumber};
ghost use Rattle.gate_bits.specs.Sums.{IsBitSum, IsSum};

use crate::gates::{constant, majority, xor};
use crate::lits::{Lits, inverses};
use sat_form::{Cnf, Lit};
use std::alloc::{AllocError, Global};

// The two bits of the number of true literals among three: the lower one, and the carry.
fn full_adder(
    alloc: Global,
    cnf: &mut Cnf,
    a: Lit,
    b: Lit,
    carry: Lit,
) -> Result<(Lit, Lit), AllocError>
    requires a { a.variable < cnf.old.variables }
    requires b { b.variable < cnf.old.variables }
    requires carry { carry.variable < cnf.old.variables }
    ensures grows { GrowsFreely cnf.old cnf.new }
    ensures is { IfOk result (λ r. IsBitSum cnf.new a b carry r.0 r.1) }
{
    let half = xor(alloc, cnf, a, b)?;
    let sum = xor(alloc, cnf, half, carry)?;
    let next = majority(alloc, cnf, a, b, carry)?;
    Ok((sum, next))
}

/// The sum of two numbers and a bit, and the carry that is left.
pub fn sum(
    alloc: Global,
    cnf: &mut Cnf,
    a: &[Lit],
    b: &[Lit],
    start: Lit,
) -> Result<(Vec<Lit>, Lit), AllocError>
    requires same_width { length a.now ≡ length b.now }
    requires a { IsWithin cnf.old.variables a.now }
    requires b { IsWithin cnf.old.variables b.now }
    requires start { start.variable < cnf.old.variables }
    ensures grows { GrowsFreely cnf.old cnf.new }
    ensures is { IfOk result (λ r. IsSum cnf.new a.now b.now start r.0.items r.1) }
{
    let mut bits = Vec::new(alloc);
    let mut carry = start;
    for (i, x) in a.iter().enumerate() {
        let (bit, next) = full_adder(alloc, cnf, *x, b[i], carry)?;
        bits.push(bit)?;
        carry = next;
    }
    Ok((bits, carry))
}

/// The difference of two numbers modulo 2 to the width: the sum with the complement, and 1.
pub fn difference(alloc: Global, cnf: &mut Cnf, a: &[Lit], b: &[Lit]) -> Result<Lits, AllocError>
    requires same_width { length a.now ≡ length b.now }
    requires a { IsWithin cnf.old.variables a.now }
    requires b { IsWithin cnf.old.variables b.now }
    ensures grows { GrowsFreely cnf.old cnf.new }
    ensures is { IfOk result (λ r. IsNumber cnf.new (length a.now) r (λ x. word_difference (length a.now) (value_of a.now x) (value_of b.now x))) }
{
    let one = constant(alloc, cnf, true)?;
    let inverse = inverses(alloc, b)?;
    let (bits, _) = sum(alloc, cnf, a, &inverse, one)?;
    Ok(Lits::new(bits))
}

/// The sum of two numbers, plus 1 where `carry` is set, modulo 2 to the width (C11 6.5.6p5).
pub fn adder(
    alloc: Global,
    cnf: &mut Cnf,
    a: &[Lit],
    b: &[Lit],
    carry: bool,
) -> Result<Lits, AllocError>
    requires same_width { length a.now ≡ length b.now }
    requires positive { 1 ≤ length a.now }
    requires at_most_64 { length a.now ≤ 64 }
    requires a { IsWithin cnf.old.variables a.now }
    requires b { IsWithin cnf.old.variables b.now }
    ensures grows { GrowsFreely cnf.old cnf.new }
    ensures is { IfOk result (λ s. IsNumber cnf.new (length a.now) s (λ x. word_sum (length a.now) (value_of a.now x) (value_of b.now x + bit_value carry))) }
{
    let start = constant(alloc, cnf, carry)?;
    let (bits, _) = sum(alloc, cnf, a, b, start)?;
    Ok(Lits::new(bits))
}
