//! Multipliers.

#![tactic(auto, using(gate_bits::proofs::Growing::growth))]

ghost use Rattle.std.specs.Prelude.{◌≡◌, ◌*◌, ◌<◌, ◌≤◌, false, IfOk, length};
ghost use Rattle.sat_form.specs.Satisfaction.{literal_value, IsWithin};
ghost use Rattle.sat_form.specs.Numbers.{bit_value, value_of};
ghost use Rattle.words.specs.Operators.{word_sum, word_product, left_shift};
ghost use Rattle.gate_bits.specs.Growth.{GrowsFreely};
ghost use Rattle.gate_bits.specs.Truth.{IsTruth, IsNumber};

use gate_bits::sums::sum;
use gate_bits::{Lits, constant, masked, moved_up, truth_of};
use sat_form::{Cnf, Lit};
use std::alloc::{AllocError, Global};

// The total, plus the factor moved up by `place` where `bit` is true.
fn add_row(
    alloc: Global,
    cnf: &mut Cnf,
    factor: &[Lit],
    total: Vec<Lit>,
    bit: Lit,
    place: usize,
    zero: Lit,
) -> Result<Vec<Lit>, AllocError>
    requires place { place ≤ length factor.now }
    requires same_width { length total.items ≡ length factor.now }
    requires factor { IsWithin cnf.old.variables factor.now }
    requires total { IsWithin cnf.old.variables total.items }
    requires bit { bit.variable < cnf.old.variables }
    requires zero { IsTruth cnf.old zero (λ _. false) }
    ensures grows { GrowsFreely cnf.old cnf.new }
    ensures is { IfOk result (λ r. IsNumber cnf.new (length factor.now) r.items (λ x. word_sum (length factor.now) (value_of total.items x) (bit_value (literal_value x bit) * left_shift (length factor.now) (value_of factor.now x) place))) }
{
    if let Some(false) = truth_of(cnf, bit) {
        return Ok(total);
    }
    let moved = moved_up(alloc, factor, place, zero)?;
    let row = masked(alloc, cnf, &moved, bit)?;
    let (next, _) = sum(alloc, cnf, &total, &row, zero)?;
    Ok(next)
}

// The product, one row for each bit of `rows`.
fn product(alloc: Global, cnf: &mut Cnf, factor: &[Lit], rows: &[Lit]) -> Result<Lits, AllocError>
    requires same_width { length factor.now ≡ length rows.now }
    requires factor { IsWithin cnf.old.variables factor.now }
    requires rows { IsWithin cnf.old.variables rows.now }
    ensures grows { GrowsFreely cnf.old cnf.new }
    ensures is { IfOk result (λ r. IsNumber cnf.new (length factor.now) r (λ x. word_product (length factor.now) (value_of factor.now x) (value_of rows.now x))) }
{
    let zero = constant(alloc, cnf, false)?;
    let mut total = vec![in alloc; zero; factor.len()]?;
    for (i, bit) in rows.iter().enumerate() {
        total = add_row(alloc, cnf, factor, total, *bit, i, zero)?;
    }
    Ok(Lits::new(total))
}

/// The product of two numbers modulo 2 to the width (C11 6.5.5p4). Bits of an operand that are known
/// to be 0 cost nothing.
pub fn multiplier(alloc: Global, cnf: &mut Cnf, a: &[Lit], b: &[Lit]) -> Result<Lits, AllocError>
    requires same_width { length a.now ≡ length b.now }
    requires a { IsWithin cnf.old.variables a.now }
    requires b { IsWithin cnf.old.variables b.now }
    ensures grows { GrowsFreely cnf.old cnf.new }
    ensures is { IfOk result (λ r. IsNumber cnf.new (length a.now) r (λ x. word_product (length a.now) (value_of a.now x) (value_of b.now x))) }
{
    if a.iter().all(|bit| truth_of(cnf, *bit).is_some()) {
        product(alloc, cnf, b, a)
    } else {
        product(alloc, cnf, a, b)
    }
}
