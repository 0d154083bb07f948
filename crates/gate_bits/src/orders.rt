//! Comparators.

#![tactic(auto, using(crate::proofs::Growing::growth))]

ghost use Rattle.std.specs.Prelude.{◌≡◌, ◌<◌, ◌≤◌, IfOk, length, nat_eq, nat_lt, if◌then◌else◌};
ghost use Rattle.sat_form.specs.Satisfaction.{IsWithin};
ghost use Rattle.sat_form.specs.Numbers.{value_of};
ghost use Rattle.words.specs.Operators.{signed_lt};
ghost use Rattle.gate_bits.specs.Growth.{GrowsFreely};
ghost use Rattle.gate_bits.specs.Truth.{IsTruth};

use crate::gates::{and, constant, majority, xor};
use sat_form::{Cnf, Lit};
use std::alloc::{AllocError, Global};

/// Whether two numbers are equal (C11 6.5.9p3).
pub fn equal(alloc: Global, cnf: &mut Cnf, a: &[Lit], b: &[Lit]) -> Result<Lit, AllocError>
    requires same_width { length a.now ≡ length b.now }
    requires positive { 1 ≤ length a.now }
    requires at_most_64 { length a.now ≤ 64 }
    requires a { IsWithin cnf.old.variables a.now }
    requires b { IsWithin cnf.old.variables b.now }
    ensures grows { GrowsFreely cnf.old cnf.new }
    ensures is { IfOk result (λ l. IsTruth cnf.new l (λ x. nat_eq (value_of a.now x) (value_of b.now x))) }
{
    let mut same = constant(alloc, cnf, true)?;
    for (i, x) in a.iter().enumerate() {
        let apart = xor(alloc, cnf, *x, b[i])?;
        same = and(alloc, cnf, same, apart.inverse())?;
    }
    Ok(same)
}

/// Whether the first of two numbers is less: the borrow that their difference leaves.
pub fn borrow(alloc: Global, cnf: &mut Cnf, a: &[Lit], b: &[Lit]) -> Result<Lit, AllocError>
    requires same_width { length a.now ≡ length b.now }
    requires a { IsWithin cnf.old.variables a.now }
    requires b { IsWithin cnf.old.variables b.now }
    ensures grows { GrowsFreely cnf.old cnf.new }
    ensures is { IfOk result (λ l. IsTruth cnf.new l (λ x. nat_lt (value_of a.now x) (value_of b.now x))) }
{
    let mut below = constant(alloc, cnf, false)?;
    for (i, x) in a.iter().enumerate() {
        below = majority(alloc, cnf, x.inverse(), b[i], below)?;
    }
    Ok(below)
}

// The two literals, in the other order where `by` is set.
fn swapped(a: Lit, b: Lit, by: bool) -> (Lit, Lit)
    ensures first { result.0 ≡ (if by then b else a) }
    ensures second { result.1 ≡ (if by then a else b) }
{
    if by { (b, a) } else { (a, b) }
}

/// Whether the first of two numbers is less, in two's complement where `signed` is set (C11 6.5.8p6).
pub fn less(
    alloc: Global,
    cnf: &mut Cnf,
    a: &[Lit],
    b: &[Lit],
    signed: bool,
) -> Result<Lit, AllocError>
    requires same_width { length a.now ≡ length b.now }
    requires positive { 1 ≤ length a.now }
    requires at_most_64 { length a.now ≤ 64 }
    requires a { IsWithin cnf.old.variables a.now }
    requires b { IsWithin cnf.old.variables b.now }
    ensures grows { GrowsFreely cnf.old cnf.new }
    ensures is { IfOk result (λ l. IsTruth cnf.new l (λ x. if signed then signed_lt (length a.now) (value_of a.now x) (value_of b.now x) else nat_lt (value_of a.now x) (value_of b.now x))) }
{
    let top = a.len() - 1;
    let below = borrow(alloc, cnf, &a[..top], &b[..top])?;
    let (lower, higher) = swapped(a[top], b[top], signed);
    majority(alloc, cnf, lower.inverse(), higher, below)
}
