//! Whether a result lies in the range of its type.

#![tactic(auto, using(gate_bits::proofs::Growing::growth))]

ghost use Rattle.std.specs.Prelude.{◌≡◌, ℕ, ◌+◌, ◌-◌, ◌*◌, ◌^◌, ◌<◌, ◌≤◌, [], ◌∷◌, ◌++◌, false, not, IfOk, length, replicate, nat_lt};
ghost use Rattle.sat_form.specs.Satisfaction.{literal_value, inverse_of, IsWithin};
ghost use Rattle.sat_form.specs.Numbers.{bit_value, value_of};
ghost use Rattle.words.specs.Operators.{sum_fits, difference_fits, product_fits, left_shift_fits};
ghost use Rattle.gate_bits.specs.Growth.{GrowsFreely};
ghost use Rattle.gate_bits.specs.Truth.{IsTruth, IsNumber, differs, most};
ghost use Rattle.gate_arith.specs.Ranges.{magnitude, IsShiftInRange};

use gate_bits::orders::{borrow, equal};
use gate_bits::{and, constant, inverses, majority, or, xor};
use gate_words::products::multiplier;
use gate_words::quotients::negated;
use gate_words::shifts::{number, shifted_up, stages};
use sat_form::{Cnf, Lit};
use std::alloc::{AllocError, Global};

// Whether the carry out of the signs' place is the carry into it.
fn keeps_sign(alloc: Global, cnf: &mut Cnf, a: Lit, b: Lit, carry: Lit) -> Result<Lit, AllocError>
    requires a { a.variable < cnf.old.variables }
    requires b { b.variable < cnf.old.variables }
    requires carry { carry.variable < cnf.old.variables }
    ensures grows { GrowsFreely cnf.old cnf.new }
    ensures is { IfOk result (λ l. IsTruth cnf.new l (λ x. not (differs (literal_value x carry) (most (literal_value x a) (literal_value x b) (literal_value x carry))))) }
{
    let next = majority(alloc, cnf, a, b, carry)?;
    let apart = xor(alloc, cnf, carry, next)?;
    Ok(apart.inverse())
}

/// Whether the sum of two signed numbers is in the range of their type. The bits below the signs carry
/// where the complement of those of `b` is less than those of `a`.
pub fn sum_fits(alloc: Global, cnf: &mut Cnf, a: &[Lit], b: &[Lit]) -> Result<Lit, AllocError>
    requires same_width { length a.now ≡ length b.now }
    requires positive { 1 ≤ length a.now }
    requires a { IsWithin cnf.old.variables a.now }
    requires b { IsWithin cnf.old.variables b.now }
    ensures grows { GrowsFreely cnf.old cnf.new }
    ensures is { IfOk result (λ l. IsTruth cnf.new l (λ x. sum_fits (length a.now) (value_of a.now x) (value_of b.now x))) }
{
    let top = a.len() - 1;
    let rest = inverses(alloc, &b[..top])?;
    let carry = borrow(alloc, cnf, &rest, &a[..top])?;
    keeps_sign(alloc, cnf, a[top], b[top], carry)
}

/// Whether the difference of two signed numbers is in the range of their type.
pub fn difference_fits(
    alloc: Global,
    cnf: &mut Cnf,
    a: &[Lit],
    b: &[Lit],
) -> Result<Lit, AllocError>
    requires same_width { length a.now ≡ length b.now }
    requires positive { 1 ≤ length a.now }
    requires a { IsWithin cnf.old.variables a.now }
    requires b { IsWithin cnf.old.variables b.now }
    ensures grows { GrowsFreely cnf.old cnf.new }
    ensures is { IfOk result (λ l. IsTruth cnf.new l (λ x. difference_fits (length a.now) (value_of a.now x) (value_of b.now x))) }
{
    let top = a.len() - 1;
    let carry = borrow(alloc, cnf, &a[..top], &b[..top])?;
    keeps_sign(alloc, cnf, a[top].inverse(), b[top], carry)
}

// The literals of 2 to the `power`, with a lowest bit `more` below it, and so many that they are one
// more than `width`.
fn limit(
    alloc: Global,
    width: usize,
    power: usize,
    more: Lit,
    zero: Lit,
) -> Result<Vec<Lit>, AllocError>
    requires { power < width }
    ensures { IfOk result (λ r. r.items ≡ ((more ∷ replicate power zero) ++ inverse_of zero ∷ []) ++ replicate (width - power - 1) zero) }
{
    let mut literals = vec![in alloc; more]?;
    literals.extend_from_slice(&vec![in alloc; zero; power]?)?;
    literals.push(zero.inverse())?;
    literals.extend_from_slice(&vec![in alloc; zero; width - power - 1]?)?;
    Ok(literals)
}

// Whether a number is below 2 to the `power`, or the same where `more` is true.
fn is_below(
    alloc: Global,
    cnf: &mut Cnf,
    bits: &[Lit],
    power: usize,
    more: Lit,
    zero: Lit,
) -> Result<Lit, AllocError>
    requires power { power < length bits.now }
    requires bits { IsWithin cnf.old.variables bits.now }
    requires more { more.variable < cnf.old.variables }
    requires zero { IsTruth cnf.old zero (λ _. false) }
    ensures grows { GrowsFreely cnf.old cnf.new }
    ensures is { IfOk result (λ l. IsTruth cnf.new l (λ x. nat_lt (value_of bits.now x) (2 ^ power + bit_value (literal_value x more)))) }
{
    let mut doubled = vec![in alloc; zero]?;
    doubled.extend_from_slice(bits)?;
    let limit = limit(alloc, bits.len(), power, more, zero)?;
    borrow(alloc, cnf, &doubled, &limit)
}

// A number with as many zeros above it as it has bits.
fn widened(alloc: Global, bits: &[Lit], zero: Lit) -> Result<Vec<Lit>, AllocError>
    ensures { IfOk result (λ r. r.items ≡ bits.now ++ replicate (length bits.now) zero) }
{
    let mut wide = bits.to_vec(alloc)?;
    wide.extend_from_slice(&vec![in alloc; zero; bits.len()]?)?;
    Ok(wide)
}

// The absolute value of a signed number, with as many zeros above it as it has bits.
fn wide_magnitude(
    alloc: Global,
    cnf: &mut Cnf,
    a: &[Lit],
    zero: Lit,
) -> Result<Vec<Lit>, AllocError>
    requires positive { 1 ≤ length a.now }
    requires a { IsWithin cnf.old.variables a.now }
    requires zero { IsTruth cnf.old zero (λ _. false) }
    ensures grows { GrowsFreely cnf.old cnf.new }
    ensures is { IfOk result (λ r. IsNumber cnf.new (length a.now + length a.now) r.items (λ x. magnitude (length a.now) (value_of a.now x))) }
{
    let size = negated(alloc, cnf, a, a[a.len() - 1], zero)?;
    widened(alloc, &size, zero)
}

/// Whether the product of two signed numbers is in the range of their type: that of the absolute values
/// is below 2 to the width less 1, or the same where the signs differ.
pub fn product_fits(alloc: Global, cnf: &mut Cnf, a: &[Lit], b: &[Lit]) -> Result<Lit, AllocError>
    requires same_width { length a.now ≡ length b.now }
    requires positive { 1 ≤ length a.now }
    requires a { IsWithin cnf.old.variables a.now }
    requires b { IsWithin cnf.old.variables b.now }
    ensures grows { GrowsFreely cnf.old cnf.new }
    ensures is { IfOk result (λ l. IsTruth cnf.new l (λ x. product_fits (length a.now) (value_of a.now x) (value_of b.now x))) }
{
    let zero = constant(alloc, cnf, false)?;
    let size_of_a = wide_magnitude(alloc, cnf, a, zero)?;
    let size_of_b = wide_magnitude(alloc, cnf, b, zero)?;
    let size = multiplier(alloc, cnf, &size_of_a, &size_of_b)?;
    let apart = xor(alloc, cnf, a[a.len() - 1], b[b.len() - 1])?;
    is_below(alloc, cnf, size.as_slice(), a.len() - 1, apart, zero)
}

// Whether a signed number, shifted to the left by a count below the width, is in the range of its type.
fn shift_fits(
    alloc: Global,
    cnf: &mut Cnf,
    a: &[Lit],
    count: &[Lit],
    zero: Lit,
) -> Result<Lit, AllocError>
    requires positive { 1 ≤ length a.now }
    requires few { length count.now ≤ 6 }
    requires least { 2 ^ (length count.now - 1) ≤ length a.now }
    requires a { IsWithin cnf.old.variables a.now }
    requires count { IsWithin cnf.old.variables count.now }
    requires zero { IsTruth cnf.old zero (λ _. false) }
    ensures grows { GrowsFreely cnf.old cnf.new }
    ensures is { IfOk result (λ l. IsShiftInRange cnf.new a.now count.now l) }
{
    let wide = widened(alloc, a, zero)?;
    let moved = shifted_up(alloc, cnf, &wide, count, zero)?;
    is_below(alloc, cnf, &moved, a.len() - 1, zero, zero)
}

/// Whether a signed number isn't negative and, shifted to the left by a count, is in the range of its
/// type. Where the count is the width or more, it is where the number is 0.
pub fn left_shift_fits(
    alloc: Global,
    cnf: &mut Cnf,
    a: &[Lit],
    count: &[Lit],
) -> Result<Lit, AllocError>
    requires same_width { length a.now ≡ length count.now }
    requires positive { 1 ≤ length a.now }
    requires at_most_64 { length a.now ≤ 64 }
    requires a { IsWithin cnf.old.variables a.now }
    requires count { IsWithin cnf.old.variables count.now }
    ensures grows { GrowsFreely cnf.old cnf.new }
    ensures is { IfOk result (λ l. IsTruth cnf.new l (λ x. left_shift_fits (length a.now) (value_of a.now x) (value_of count.now x))) }
{
    let zero = constant(alloc, cnf, false)?;
    let fits = shift_fits(alloc, cnf, a, &count[..stages(a.len())], zero)?;
    let width = number(alloc, a.len(), a.len(), zero)?;
    let inside = borrow(alloc, cnf, count, &width)?;
    let zeros = vec![in alloc; zero; a.len()]?;
    let none = equal(alloc, cnf, a, &zeros)?;
    let fits = and(alloc, cnf, inside, fits)?;
    or(alloc, cnf, fits, none)
}
