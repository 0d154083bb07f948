//! Dividers.

#![tactic(auto, using(gate_bits::proofs::Growing::growth))]

ghost use Rattle.std.specs.Prelude.{◌≡◌, ◌+◌, ◌-◌, ◌<◌, ◌≤◌, [], ◌∷◌, ◌++◌, false, true, IfOk, length, map, take, replicate};
ghost use Rattle.sat_form.specs.Satisfaction.{literal_value, inverse_of, IsWithin};
ghost use Rattle.sat_form.specs.Numbers.{value_of};
ghost use Rattle.words.specs.Operators.{word_negation, unsigned_quotient, unsigned_remainder, signed_quotient, signed_remainder};
ghost use Rattle.gate_bits.specs.Growth.{GrowsFreely};
ghost use Rattle.gate_bits.specs.Truth.{IsTruth, IsNumber};
ghost use Rattle.gate_words.specs.Quotients.{IsDivided, IsStep, negated_if, quotient_by, remainder_by};

use gate_bits::orders::equal;
use gate_bits::sums::sum;
use gate_bits::{Lits, chosen, constant, inverses, masked, turned, xor};
use sat_form::{Cnf, Lit};
use std::alloc::{AllocError, Global};

// The inverses of the literals, with `one` above them.
fn complement_of(alloc: Global, bits: &[Lit], one: Lit) -> Result<Vec<Lit>, AllocError>
    ensures { IfOk result (λ r. r.items ≡ map inverse_of bits.now ++ one ∷ []) }
{
    let mut complement = inverses(alloc, bits)?;
    complement.push(one)?;
    Ok(complement)
}

// One step of a long division: whether the divisor fits into the rest with one bit more of the
// dividend, and what is left then.
fn divide_step(
    alloc: Global,
    cnf: &mut Cnf,
    bit: Lit,
    rest: &[Lit],
    complement: &[Lit],
    one: Lit,
) -> Result<(Lit, Vec<Lit>), AllocError>
    requires one_more { length complement.now ≡ length rest.now + 1 }
    requires bit { bit.variable < cnf.old.variables }
    requires rest { IsWithin cnf.old.variables rest.now }
    requires complement { IsWithin cnf.old.variables complement.now }
    requires one { IsTruth cnf.old one (λ _. true) }
    ensures grows { GrowsFreely cnf.old cnf.new }
    ensures is { IfOk result (λ r. IsStep cnf.new bit rest.now complement.now r.0 r.1.items) }
{
    let mut dividend = vec![in alloc; bit]?;
    dividend.extend_from_slice(rest)?;
    let (difference, fits) = sum(alloc, cnf, &dividend, complement, one)?;
    let mut next = chosen(alloc, cnf, fits, &difference, &dividend)?;
    next.truncate(rest.len());
    Ok((fits, next))
}

// The quotient and the remainder by a divisor that isn't 0, from the highest bit down.
fn divide(
    alloc: Global,
    cnf: &mut Cnf,
    a: &[Lit],
    b: &[Lit],
    zero: Lit,
) -> Result<(Vec<Lit>, Vec<Lit>), AllocError>
    requires same_width { length a.now ≡ length b.now }
    requires a { IsWithin cnf.old.variables a.now }
    requires b { IsWithin cnf.old.variables b.now }
    requires zero { IsTruth cnf.old zero (λ _. false) }
    ensures grows { GrowsFreely cnf.old cnf.new }
    ensures count { IfOk result (λ r. length r.0.items ≡ length a.now) }
    ensures within { IfOk result (λ r. IsWithin cnf.new.variables r.0.items) }
    ensures is { IfOk result (λ r. IsDivided cnf.new a.now b.now r.0.items r.1.items) }
{
    let one = zero.inverse();
    let complement = complement_of(alloc, b, one)?;
    let mut quotient = vec![in alloc; zero; a.len()]?;
    let mut rest = vec![in alloc; zero; a.len()]?;
    for i in (0..a.len()).rev() {
        let (bit, next) = divide_step(alloc, cnf, a[i], &rest, &complement, one)?;
        quotient[i] = bit;
        rest = next;
    }
    Ok((quotient, rest))
}

// The quotient and the remainder of unsigned numbers.
fn unsigned_division(
    alloc: Global,
    cnf: &mut Cnf,
    a: &[Lit],
    b: &[Lit],
    zero: Lit,
) -> Result<(Vec<Lit>, Vec<Lit>), AllocError>
    requires same_width { length a.now ≡ length b.now }
    requires positive { 1 ≤ length a.now }
    requires at_most_64 { length a.now ≤ 64 }
    requires a { IsWithin cnf.old.variables a.now }
    requires b { IsWithin cnf.old.variables b.now }
    requires zero { IsTruth cnf.old zero (λ _. false) }
    ensures grows { GrowsFreely cnf.old cnf.new }
    ensures quotient { IfOk result (λ r. IsNumber cnf.new (length a.now) r.0.items (λ x. unsigned_quotient (value_of a.now x) (value_of b.now x))) }
    ensures remainder { IfOk result (λ r. IsNumber cnf.new (length a.now) r.1.items (λ x. unsigned_remainder (value_of a.now x) (value_of b.now x))) }
{
    let (quotient, rest) = divide(alloc, cnf, a, b, zero)?;
    let zeros = vec![in alloc; zero; b.len()]?;
    let by_zero = equal(alloc, cnf, b, &zeros)?;
    let quotient = masked(alloc, cnf, &quotient, by_zero.inverse())?;
    let rest = masked(alloc, cnf, &rest, by_zero.inverse())?;
    Ok((quotient, rest))
}

// How many of the lowest bits stand below those that are `zero` in both numbers, one at least.
fn low_width(a: &[Lit], b: &[Lit], zero: Lit) -> usize
    requires same_width { length a.now ≡ length b.now }
    requires positive { 1 ≤ length a.now }
    ensures positive { 1 ≤ result }
    ensures within { result ≤ length a.now }
    ensures a { a.now ≡ take result a.now ++ replicate (length a.now - result) zero }
    ensures b { b.now ≡ take result b.now ++ replicate (length a.now - result) zero }
{
    let mut width = a.len();
    while width > 1 && a[width - 1] == zero && b[width - 1] == zero {
        width -= 1;
    }
    width
}

// The bits, with `zero` above them up to a width.
fn widened(alloc: Global, bits: Vec<Lit>, width: usize, zero: Lit) -> Result<Vec<Lit>, AllocError>
    requires { length bits.items ≤ width }
    ensures { IfOk result (λ r. r.items ≡ bits.items ++ replicate (width - length bits.items) zero) }
{
    let mut wide = bits;
    let zeros = vec![in alloc; zero; width - wide.len()]?;
    wide.extend_from_slice(&zeros)?;
    Ok(wide)
}

// The same, by a division without the upper bits that are known to be 0 in both numbers. So the quotient of two bytes as
// words of 32 bits has 8 steps and not 32.
fn trimmed_division(
    alloc: Global,
    cnf: &mut Cnf,
    a: &[Lit],
    b: &[Lit],
    zero: Lit,
) -> Result<(Vec<Lit>, Vec<Lit>), AllocError>
    requires same_width { length a.now ≡ length b.now }
    requires positive { 1 ≤ length a.now }
    requires at_most_64 { length a.now ≤ 64 }
    requires a { IsWithin cnf.old.variables a.now }
    requires b { IsWithin cnf.old.variables b.now }
    requires zero { IsTruth cnf.old zero (λ _. false) }
    ensures grows { GrowsFreely cnf.old cnf.new }
    ensures quotient { IfOk result (λ r. IsNumber cnf.new (length a.now) r.0.items (λ x. unsigned_quotient (value_of a.now x) (value_of b.now x))) }
    ensures remainder { IfOk result (λ r. IsNumber cnf.new (length a.now) r.1.items (λ x. unsigned_remainder (value_of a.now x) (value_of b.now x))) }
{
    let width = low_width(a, b, zero);
    let (quotient, rest) = unsigned_division(alloc, cnf, &a[..width], &b[..width], zero)?;
    let quotient = widened(alloc, quotient, a.len(), zero)?;
    let rest = widened(alloc, rest, a.len(), zero)?;
    Ok((quotient, rest))
}

/// The number, or its negation modulo 2 to the width where `by` is true.
pub fn negated(
    alloc: Global,
    cnf: &mut Cnf,
    bits: &[Lit],
    by: Lit,
    zero: Lit,
) -> Result<Vec<Lit>, AllocError>
    requires bits { IsWithin cnf.old.variables bits.now }
    requires by { by.variable < cnf.old.variables }
    requires zero { IsTruth cnf.old zero (λ _. false) }
    ensures grows { GrowsFreely cnf.old cnf.new }
    ensures is { IfOk result (λ r. IsNumber cnf.new (length bits.now) r.items (λ x. negated_if (literal_value x by) (length bits.now) (value_of bits.now x))) }
{
    let flipped = turned(alloc, cnf, bits, by)?;
    let zeros = vec![in alloc; zero; bits.len()]?;
    let (negation, _) = sum(alloc, cnf, &flipped, &zeros, by)?;
    Ok(negation)
}

/// The negation of a number modulo 2 to the width.
pub fn negation(alloc: Global, cnf: &mut Cnf, a: &[Lit]) -> Result<Lits, AllocError>
    requires a { IsWithin cnf.old.variables a.now }
    ensures grows { GrowsFreely cnf.old cnf.new }
    ensures is { IfOk result (λ r. IsNumber cnf.new (length a.now) r (λ x. word_negation (length a.now) (value_of a.now x))) }
{
    let zero = constant(alloc, cnf, false)?;
    let bits = negated(alloc, cnf, a, zero.inverse(), zero)?;
    Ok(Lits::new(bits))
}

// The quotient and the remainder of numbers in two's complement: those of the operands without
// their signs, with the signs of the results.
fn signed_division(
    alloc: Global,
    cnf: &mut Cnf,
    a: &[Lit],
    b: &[Lit],
    zero: Lit,
) -> Result<(Vec<Lit>, Vec<Lit>), AllocError>
    requires same_width { length a.now ≡ length b.now }
    requires positive { 1 ≤ length a.now }
    requires at_most_64 { length a.now ≤ 64 }
    requires a { IsWithin cnf.old.variables a.now }
    requires b { IsWithin cnf.old.variables b.now }
    requires zero { IsTruth cnf.old zero (λ _. false) }
    ensures grows { GrowsFreely cnf.old cnf.new }
    ensures quotient { IfOk result (λ r. IsNumber cnf.new (length a.now) r.0.items (λ x. signed_quotient (length a.now) (value_of a.now x) (value_of b.now x))) }
    ensures remainder { IfOk result (λ r. IsNumber cnf.new (length a.now) r.1.items (λ x. signed_remainder (length a.now) (value_of a.now x) (value_of b.now x))) }
{
    let sign_of_a = a[a.len() - 1];
    let sign_of_b = b[b.len() - 1];
    let dividend = negated(alloc, cnf, a, sign_of_a, zero)?;
    let divisor = negated(alloc, cnf, b, sign_of_b, zero)?;
    let (quotient, rest) = trimmed_division(alloc, cnf, &dividend, &divisor, zero)?;
    let apart = xor(alloc, cnf, sign_of_a, sign_of_b)?;
    let quotient = negated(alloc, cnf, &quotient, apart, zero)?;
    let rest = negated(alloc, cnf, &rest, sign_of_a, zero)?;
    Ok((quotient, rest))
}

/// The quotient and the remainder, in two's complement where `signed` is set: the quotient is then
/// rounded toward zero, and the remainder has the sign of the dividend (C11 6.5.5p6). By 0 both are 0.
pub fn divider(
    alloc: Global,
    cnf: &mut Cnf,
    a: &[Lit],
    b: &[Lit],
    signed: bool,
) -> Result<(Lits, Lits), AllocError>
    requires same_width { length a.now ≡ length b.now }
    requires positive { 1 ≤ length a.now }
    requires at_most_64 { length a.now ≤ 64 }
    requires a { IsWithin cnf.old.variables a.now }
    requires b { IsWithin cnf.old.variables b.now }
    ensures grows { GrowsFreely cnf.old cnf.new }
    ensures quotient { IfOk result (λ r. IsNumber cnf.new (length a.now) r.0 (λ x. quotient_by signed (length a.now) (value_of a.now x) (value_of b.now x))) }
    ensures remainder { IfOk result (λ r. IsNumber cnf.new (length a.now) r.1 (λ x. remainder_by signed (length a.now) (value_of a.now x) (value_of b.now x))) }
{
    let zero = constant(alloc, cnf, false)?;
    if signed {
        let (quotient, rest) = signed_division(alloc, cnf, a, b, zero)?;
        Ok((Lits::new(quotient), Lits::new(rest)))
    } else {
        let (quotient, rest) = trimmed_division(alloc, cnf, a, b, zero)?;
        Ok((Lits::new(quotient), Lits::new(rest)))
    }
}
