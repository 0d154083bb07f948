//! The gates of the operations on words.

#![tactic(auto, using(crate::proofs::Calls::parts))]

ghost use Rattle.std.specs.Prelude.{◌≡◌, ◌+◌, ◌<◌, ◌≤◌, IfOk, length, nat_eq, nat_lt, bit_and, bit_or, bit_xor, if◌then◌else◌};
ghost use Rattle.std.specs.List.{list_all, list_any};
ghost use Rattle.sat_form.specs.Satisfaction.{literal_value, IsWithin};
ghost use Rattle.sat_form.specs.Numbers.{bit_value, value_of};
ghost use Rattle.words.specs.Operators.{word_sum, word_difference, word_product, word_negation, signed_lt, sum_fits, difference_fits, product_fits, left_shift_fits};
ghost use Rattle.gate_arith.specs.Growth.{Grows, IsPart, added_to};
ghost use Rattle.gate_bits.specs.Truth.{IsTruth, IsNumber};
ghost use Rattle.gate_words.specs.Quotients.{quotient_by, remainder_by};
ghost use Rattle.gate_words.specs.Shifts.{shifted};

use crate::ranges;
use gate_bits::bits::Bitwise;
use gate_bits::{Lits, bits, known, orders, sums};
use gate_words::shifts::Shift;
use gate_words::{products, quotients, shifts};
use sat_form::{Cnf, Lit};
use std::alloc::{AllocError, Global};

// A form to which gates are added before they are moved to the end of `cnf`: the same variables, and
// the clause by which the gates know a literal, if there is one.
fn part_of(alloc: Global, cnf: &Cnf) -> Result<Cnf, AllocError>
    ensures variables { IfOk result (λ part. part.variables ≡ cnf.now.variables) }
    ensures is { IfOk result (λ part. IsPart cnf.now part) }
{
    let mut part = Cnf::from_parts(cnf.variables(), Vec::new(alloc));
    if let Some(one) = known(cnf) {
        part.add(alloc, &[one])?;
    }
    Ok(part)
}

/// The sum of two numbers, plus 1 where `carry` is set, modulo 2 to the width (C11 6.5.6p5).
/// After an error the form may have grown, and each assignment that satisfied it still extends.
pub fn adder(
    alloc: Global,
    cnf: &mut Cnf,
    a: &[Lit],
    b: &[Lit],
    carry: bool,
) -> Result<Lits, AllocError>
    requires same_width { length a.now ≡ length b.now }
    requires positive { 1 ≤ length a.now }
    requires at_most_64 { length a.now ≤ 64 }
    requires a { IsWithin cnf.old.variables a.now }
    requires b { IsWithin cnf.old.variables b.now }
    ensures grows { Grows cnf.old cnf.new }
    ensures is { IfOk result (λ s. IsNumber (added_to cnf.old cnf.new) (length a.now) s (λ x. word_sum (length a.now) (value_of a.now x) (value_of b.now x + bit_value carry))) }
{
    let mut part = part_of(alloc, cnf)?;
    let sum = sums::adder(alloc, &mut part, a, b, carry)?;
    cnf.append(part)?;
    Ok(sum)
}

/// The product of two numbers modulo 2 to the width (C11 6.5.5p4). Bits of an operand that are known
/// to be 0 cost nothing.
/// After an error the form may have grown, and each assignment that satisfied it still extends.
pub fn multiplier(alloc: Global, cnf: &mut Cnf, a: &[Lit], b: &[Lit]) -> Result<Lits, AllocError>
    requires same_width { length a.now ≡ length b.now }
    requires positive { 1 ≤ length a.now }
    requires at_most_64 { length a.now ≤ 64 }
    requires a { IsWithin cnf.old.variables a.now }
    requires b { IsWithin cnf.old.variables b.now }
    ensures grows { Grows cnf.old cnf.new }
    ensures is { IfOk result (λ s. IsNumber (added_to cnf.old cnf.new) (length a.now) s (λ x. word_product (length a.now) (value_of a.now x) (value_of b.now x))) }
{
    let mut part = part_of(alloc, cnf)?;
    let product = products::multiplier(alloc, &mut part, a, b)?;
    cnf.append(part)?;
    Ok(product)
}

/// The quotient and the remainder, in two's complement where `signed` is set: the quotient is then
/// rounded toward zero, and the remainder has the sign of the dividend (C11 6.5.5p6). By 0 both are 0.
/// After an error the form may have grown, and each assignment that satisfied it still extends.
pub fn divider(
    alloc: Global,
    cnf: &mut Cnf,
    a: &[Lit],
    b: &[Lit],
    signed: bool,
) -> Result<(Lits, Lits), AllocError>
    requires same_width { length a.now ≡ length b.now }
    requires positive { 1 ≤ length a.now }
    requires at_most_64 { length a.now ≤ 64 }
    requires a { IsWithin cnf.old.variables a.now }
    requires b { IsWithin cnf.old.variables b.now }
    ensures grows { Grows cnf.old cnf.new }
    ensures quotient { IfOk result (λ r. IsNumber (added_to cnf.old cnf.new) (length a.now) r.0 (λ x. quotient_by signed (length a.now) (value_of a.now x) (value_of b.now x))) }
    ensures remainder { IfOk result (λ r. IsNumber (added_to cnf.old cnf.new) (length a.now) r.1 (λ x. remainder_by signed (length a.now) (value_of a.now x) (value_of b.now x))) }
{
    let mut part = part_of(alloc, cnf)?;
    let results = quotients::divider(alloc, &mut part, a, b, signed)?;
    cnf.append(part)?;
    Ok(results)
}

/// A number shifted by a count of its own width. A count of at least the width gives 0.
/// After an error the form may have grown, and each assignment that satisfied it still extends.
pub fn shifter(
    alloc: Global,
    cnf: &mut Cnf,
    kind: Shift,
    a: &[Lit],
    count: &[Lit],
) -> Result<Lits, AllocError>
    requires same_width { length a.now ≡ length count.now }
    requires positive { 1 ≤ length a.now }
    requires at_most_64 { length a.now ≤ 64 }
    requires a { IsWithin cnf.old.variables a.now }
    requires count { IsWithin cnf.old.variables count.now }
    ensures grows { Grows cnf.old cnf.new }
    ensures is { IfOk result (λ s. IsNumber (added_to cnf.old cnf.new) (length a.now) s (λ x. shifted kind (length a.now) (value_of a.now x) (value_of count.now x))) }
{
    let mut part = part_of(alloc, cnf)?;
    let moved = shifts::shifter(alloc, &mut part, kind, a, count)?;
    cnf.append(part)?;
    Ok(moved)
}

/// Whether the first of two numbers is less, in two's complement where `signed` is set (C11 6.5.8p6).
/// After an error the form may have grown, and each assignment that satisfied it still extends.
pub fn less(
    alloc: Global,
    cnf: &mut Cnf,
    a: &[Lit],
    b: &[Lit],
    signed: bool,
) -> Result<Lit, AllocError>
    requires same_width { length a.now ≡ length b.now }
    requires positive { 1 ≤ length a.now }
    requires at_most_64 { length a.now ≤ 64 }
    requires a { IsWithin cnf.old.variables a.now }
    requires b { IsWithin cnf.old.variables b.now }
    ensures grows { Grows cnf.old cnf.new }
    ensures is { IfOk result (λ l. IsTruth (added_to cnf.old cnf.new) l (λ x. if signed then signed_lt (length a.now) (value_of a.now x) (value_of b.now x) else nat_lt (value_of a.now x) (value_of b.now x))) }
{
    let mut part = part_of(alloc, cnf)?;
    let below = orders::less(alloc, &mut part, a, b, signed)?;
    cnf.append(part)?;
    Ok(below)
}

/// Whether two numbers are equal (C11 6.5.9p3).
/// After an error the form may have grown, and each assignment that satisfied it still extends.
pub fn equal(alloc: Global, cnf: &mut Cnf, a: &[Lit], b: &[Lit]) -> Result<Lit, AllocError>
    requires same_width { length a.now ≡ length b.now }
    requires positive { 1 ≤ length a.now }
    requires at_most_64 { length a.now ≤ 64 }
    requires a { IsWithin cnf.old.variables a.now }
    requires b { IsWithin cnf.old.variables b.now }
    ensures grows { Grows cnf.old cnf.new }
    ensures is { IfOk result (λ l. IsTruth (added_to cnf.old cnf.new) l (λ x. nat_eq (value_of a.now x) (value_of b.now x))) }
{
    let mut part = part_of(alloc, cnf)?;
    let same = orders::equal(alloc, &mut part, a, b)?;
    cnf.append(part)?;
    Ok(same)
}

/// The negation of a number modulo 2 to the width (C11 6.5.3.3p3).
/// After an error the form may have grown, and each assignment that satisfied it still extends.
pub fn negation(alloc: Global, cnf: &mut Cnf, a: &[Lit]) -> Result<Lits, AllocError>
    requires positive { 1 ≤ length a.now }
    requires at_most_64 { length a.now ≤ 64 }
    requires a { IsWithin cnf.old.variables a.now }
    ensures grows { Grows cnf.old cnf.new }
    ensures is { IfOk result (λ r. IsNumber (added_to cnf.old cnf.new) (length a.now) r (λ x. word_negation (length a.now) (value_of a.now x))) }
{
    let mut part = part_of(alloc, cnf)?;
    let negation = quotients::negation(alloc, &mut part, a)?;
    cnf.append(part)?;
    Ok(negation)
}

/// The difference of two numbers modulo 2 to the width (C11 6.5.6p6).
/// After an error the form may have grown, and each assignment that satisfied it still extends.
pub fn difference(alloc: Global, cnf: &mut Cnf, a: &[Lit], b: &[Lit]) -> Result<Lits, AllocError>
    requires same_width { length a.now ≡ length b.now }
    requires positive { 1 ≤ length a.now }
    requires at_most_64 { length a.now ≤ 64 }
    requires a { IsWithin cnf.old.variables a.now }
    requires b { IsWithin cnf.old.variables b.now }
    ensures grows { Grows cnf.old cnf.new }
    ensures is { IfOk result (λ r. IsNumber (added_to cnf.old cnf.new) (length a.now) r (λ x. word_difference (length a.now) (value_of a.now x) (value_of b.now x))) }
{
    let mut part = part_of(alloc, cnf)?;
    let difference = sums::difference(alloc, &mut part, a, b)?;
    cnf.append(part)?;
    Ok(difference)
}

/// The bits that are 1 in both numbers (C11 6.5.10p4).
/// After an error the form may have grown, and each assignment that satisfied it still extends.
pub fn conjunction(alloc: Global, cnf: &mut Cnf, a: &[Lit], b: &[Lit]) -> Result<Lits, AllocError>
    requires same_width { length a.now ≡ length b.now }
    requires positive { 1 ≤ length a.now }
    requires at_most_64 { length a.now ≤ 64 }
    requires a { IsWithin cnf.old.variables a.now }
    requires b { IsWithin cnf.old.variables b.now }
    ensures grows { Grows cnf.old cnf.new }
    ensures is { IfOk result (λ r. IsNumber (added_to cnf.old cnf.new) (length a.now) r (λ x. bit_and (value_of a.now x) (value_of b.now x))) }
{
    let mut part = part_of(alloc, cnf)?;
    let bits = bits::bit_by_bit(alloc, &mut part, Bitwise::And, a, b)?;
    cnf.append(part)?;
    Ok(bits)
}

/// The bits that are 1 in one of two numbers or in both (C11 6.5.12p4).
/// After an error the form may have grown, and each assignment that satisfied it still extends.
pub fn disjunction(alloc: Global, cnf: &mut Cnf, a: &[Lit], b: &[Lit]) -> Result<Lits, AllocError>
    requires same_width { length a.now ≡ length b.now }
    requires positive { 1 ≤ length a.now }
    requires at_most_64 { length a.now ≤ 64 }
    requires a { IsWithin cnf.old.variables a.now }
    requires b { IsWithin cnf.old.variables b.now }
    ensures grows { Grows cnf.old cnf.new }
    ensures is { IfOk result (λ r. IsNumber (added_to cnf.old cnf.new) (length a.now) r (λ x. bit_or (value_of a.now x) (value_of b.now x))) }
{
    let mut part = part_of(alloc, cnf)?;
    let bits = bits::bit_by_bit(alloc, &mut part, Bitwise::Or, a, b)?;
    cnf.append(part)?;
    Ok(bits)
}

/// The bits that are 1 in exactly one of two numbers (C11 6.5.11p4).
/// After an error the form may have grown, and each assignment that satisfied it still extends.
pub fn exclusive(alloc: Global, cnf: &mut Cnf, a: &[Lit], b: &[Lit]) -> Result<Lits, AllocError>
    requires same_width { length a.now ≡ length b.now }
    requires positive { 1 ≤ length a.now }
    requires at_most_64 { length a.now ≤ 64 }
    requires a { IsWithin cnf.old.variables a.now }
    requires b { IsWithin cnf.old.variables b.now }
    ensures grows { Grows cnf.old cnf.new }
    ensures is { IfOk result (λ r. IsNumber (added_to cnf.old cnf.new) (length a.now) r (λ x. bit_xor (value_of a.now x) (value_of b.now x))) }
{
    let mut part = part_of(alloc, cnf)?;
    let bits = bits::bit_by_bit(alloc, &mut part, Bitwise::Xor, a, b)?;
    cnf.append(part)?;
    Ok(bits)
}

/// Whether each of the literals is true. One gate: a clause of them all, and one of two literals for each.
/// After an error the form may have grown, and each assignment that satisfied it still extends.
pub fn all(alloc: Global, cnf: &mut Cnf, literals: &[Lit]) -> Result<Lit, AllocError>
    requires { IsWithin cnf.old.variables literals.now }
    ensures grows { Grows cnf.old cnf.new }
    ensures is { IfOk result (λ l. IsTruth (added_to cnf.old cnf.new) l (λ x. list_all (literal_value x) literals.now)) }
{
    let mut part = part_of(alloc, cnf)?;
    let truth = gate_bits::all(alloc, &mut part, literals)?;
    cnf.append(part)?;
    Ok(truth)
}

/// Whether at least one of the literals is true, by one gate.
/// After an error the form may have grown, and each assignment that satisfied it still extends.
pub fn any(alloc: Global, cnf: &mut Cnf, literals: &[Lit]) -> Result<Lit, AllocError>
    requires { IsWithin cnf.old.variables literals.now }
    ensures grows { Grows cnf.old cnf.new }
    ensures is { IfOk result (λ l. IsTruth (added_to cnf.old cnf.new) l (λ x. list_any (literal_value x) literals.now)) }
{
    let mut part = part_of(alloc, cnf)?;
    let truth = gate_bits::any(alloc, &mut part, literals)?;
    cnf.append(part)?;
    Ok(truth)
}

/// The first of two numbers where `test` is true, else the second (C11 6.5.15p4).
/// After an error the form may have grown, and each assignment that satisfied it still extends.
pub fn choice(
    alloc: Global,
    cnf: &mut Cnf,
    test: Lit,
    yes: &[Lit],
    no: &[Lit],
) -> Result<Lits, AllocError>
    requires same_width { length yes.now ≡ length no.now }
    requires positive { 1 ≤ length yes.now }
    requires at_most_64 { length yes.now ≤ 64 }
    requires test { test.variable < cnf.old.variables }
    requires yes { IsWithin cnf.old.variables yes.now }
    requires no { IsWithin cnf.old.variables no.now }
    ensures grows { Grows cnf.old cnf.new }
    ensures is { IfOk result (λ r. IsNumber (added_to cnf.old cnf.new) (length yes.now) r (λ x. if literal_value x test then value_of yes.now x else value_of no.now x)) }
{
    let mut part = part_of(alloc, cnf)?;
    let chosen = bits::choice(alloc, &mut part, test, yes, no)?;
    cnf.append(part)?;
    Ok(chosen)
}

/// Whether the sum of two signed numbers is in the range of their type (C11 6.5p5).
/// After an error the form may have grown, and each assignment that satisfied it still extends.
pub fn sum_fits(alloc: Global, cnf: &mut Cnf, a: &[Lit], b: &[Lit]) -> Result<Lit, AllocError>
    requires same_width { length a.now ≡ length b.now }
    requires positive { 1 ≤ length a.now }
    requires at_most_64 { length a.now ≤ 64 }
    requires a { IsWithin cnf.old.variables a.now }
    requires b { IsWithin cnf.old.variables b.now }
    ensures grows { Grows cnf.old cnf.new }
    ensures is { IfOk result (λ l. IsTruth (added_to cnf.old cnf.new) l (λ x. sum_fits (length a.now) (value_of a.now x) (value_of b.now x))) }
{
    let mut part = part_of(alloc, cnf)?;
    let fits = ranges::sum_fits(alloc, &mut part, a, b)?;
    cnf.append(part)?;
    Ok(fits)
}

/// Whether the difference of two signed numbers is in the range of their type (C11 6.5p5).
/// After an error the form may have grown, and each assignment that satisfied it still extends.
pub fn difference_fits(
    alloc: Global,
    cnf: &mut Cnf,
    a: &[Lit],
    b: &[Lit],
) -> Result<Lit, AllocError>
    requires same_width { length a.now ≡ length b.now }
    requires positive { 1 ≤ length a.now }
    requires at_most_64 { length a.now ≤ 64 }
    requires a { IsWithin cnf.old.variables a.now }
    requires b { IsWithin cnf.old.variables b.now }
    ensures grows { Grows cnf.old cnf.new }
    ensures is { IfOk result (λ l. IsTruth (added_to cnf.old cnf.new) l (λ x. difference_fits (length a.now) (value_of a.now x) (value_of b.now x))) }
{
    let mut part = part_of(alloc, cnf)?;
    let fits = ranges::difference_fits(alloc, &mut part, a, b)?;
    cnf.append(part)?;
    Ok(fits)
}

/// Whether the product of two signed numbers is in the range of their type (C11 6.5p5).
/// After an error the form may have grown, and each assignment that satisfied it still extends.
pub fn product_fits(alloc: Global, cnf: &mut Cnf, a: &[Lit], b: &[Lit]) -> Result<Lit, AllocError>
    requires same_width { length a.now ≡ length b.now }
    requires positive { 1 ≤ length a.now }
    requires at_most_64 { length a.now ≤ 64 }
    requires a { IsWithin cnf.old.variables a.now }
    requires b { IsWithin cnf.old.variables b.now }
    ensures grows { Grows cnf.old cnf.new }
    ensures is { IfOk result (λ l. IsTruth (added_to cnf.old cnf.new) l (λ x. product_fits (length a.now) (value_of a.now x) (value_of b.now x))) }
{
    let mut part = part_of(alloc, cnf)?;
    let fits = ranges::product_fits(alloc, &mut part, a, b)?;
    cnf.append(part)?;
    Ok(fits)
}

/// Whether a signed number isn't negative and its product by 2 to the count is in the range of its type
/// (C11 6.5.7p4). The count has no sign.
/// After an error the form may have grown, and each assignment that satisfied it still extends.
pub fn left_shift_fits(
    alloc: Global,
    cnf: &mut Cnf,
    a: &[Lit],
    count: &[Lit],
) -> Result<Lit, AllocError>
    requires same_width { length a.now ≡ length count.now }
    requires positive { 1 ≤ length a.now }
    requires at_most_64 { length a.now ≤ 64 }
    requires a { IsWithin cnf.old.variables a.now }
    requires count { IsWithin cnf.old.variables count.now }
    ensures grows { Grows cnf.old cnf.new }
    ensures is { IfOk result (λ l. IsTruth (added_to cnf.old cnf.new) l (λ x. left_shift_fits (length a.now) (value_of a.now x) (value_of count.now x))) }
{
    let mut part = part_of(alloc, cnf)?;
    let fits = ranges::left_shift_fits(alloc, &mut part, a, count)?;
    cnf.append(part)?;
    Ok(fits)
}
