//! The clauses of an operation on words.

#![tactic(auto, using(gate_arith::proofs::Steps::steps))]

ghost use Rattle.std.specs.Prelude.{◌≡◌, ◌<◌, ◌≤◌, [], ◌∷◌, IfOk, length, map, if◌then◌else◌};
ghost use Rattle.sat_form.specs.Satisfaction.{literal_value, IsWithin};
ghost use Rattle.sat_form.specs.Numbers.{value_of};
ghost use Rattle.word_dag.specs.Meaning.{bit_value, binary_value, shift_value, comparison_value, fits_value, holds, quantified};
ghost use Rattle.gate_arith.specs.Growth.{Grows, added_to};
ghost use Rattle.gate_bits.specs.Truth.{IsTruth, IsNumber};

use gate_arith::{
    Shift, adder, all, any, choice, conjunction, difference, difference_fits, disjunction, divider,
    equal, exclusive, left_shift_fits, less, multiplier, product_fits, shifter, sum_fits,
};
use gate_bits::Lits;
use sat_form::{Cnf, Lit};
use std::alloc::{AllocError, Global};
use word_dag::{BinaryOperator, Comparison, FitsTest, Quantifier, ShiftKind};

/// The literals of an operation on two words of one width.
pub fn binary(
    alloc: Global,
    cnf: &mut Cnf,
    operator: BinaryOperator,
    a: &[Lit],
    b: &[Lit],
) -> Result<Lits, AllocError>
    requires same_width { length a.now ≡ length b.now }
    requires positive { 1 ≤ length a.now }
    requires at_most_64 { length a.now ≤ 64 }
    requires a { IsWithin cnf.old.variables a.now }
    requires b { IsWithin cnf.old.variables b.now }
    ensures grows { Grows cnf.old cnf.new }
    ensures is { IfOk result (λ r. IsNumber (added_to cnf.old cnf.new) (length a.now) r (λ x. binary_value operator (length a.now) (value_of a.now x) (value_of b.now x))) }
{
    match operator {
        BinaryOperator::Add => adder(alloc, cnf, a, b, false),
        BinaryOperator::Subtract => difference(alloc, cnf, a, b),
        BinaryOperator::Multiply => multiplier(alloc, cnf, a, b),
        BinaryOperator::UnsignedDivide => Ok(divider(alloc, cnf, a, b, false)?.0),
        BinaryOperator::SignedDivide => Ok(divider(alloc, cnf, a, b, true)?.0),
        BinaryOperator::UnsignedRemainder => Ok(divider(alloc, cnf, a, b, false)?.1),
        BinaryOperator::SignedRemainder => Ok(divider(alloc, cnf, a, b, true)?.1),
        BinaryOperator::And => conjunction(alloc, cnf, a, b),
        BinaryOperator::Or => disjunction(alloc, cnf, a, b),
        BinaryOperator::Xor => exclusive(alloc, cnf, a, b),
    }
}

/// The literals of a shift.
pub fn shift(
    alloc: Global,
    cnf: &mut Cnf,
    kind: ShiftKind,
    a: &[Lit],
    count: &[Lit],
) -> Result<Lits, AllocError>
    requires same_width { length a.now ≡ length count.now }
    requires positive { 1 ≤ length a.now }
    requires at_most_64 { length a.now ≤ 64 }
    requires a { IsWithin cnf.old.variables a.now }
    requires count { IsWithin cnf.old.variables count.now }
    ensures grows { Grows cnf.old cnf.new }
    ensures is { IfOk result (λ r. IsNumber (added_to cnf.old cnf.new) (length a.now) r (λ x. shift_value kind (length a.now) (value_of a.now x) (value_of count.now x))) }
{
    match kind {
        ShiftKind::Left => shifter(alloc, cnf, Shift::Left, a, count),
        ShiftKind::Logical => shifter(alloc, cnf, Shift::Logical, a, count),
        ShiftKind::Arithmetic => shifter(alloc, cnf, Shift::Arithmetic, a, count),
    }
}

// The word of one literal.
fn bit(alloc: Global, literal: Lit) -> Result<Lits, AllocError>
    ensures { IfOk result (λ r. r ≡ literal ∷ []) }
{
    Ok(Lits::new(Vec::from_slice(alloc, &[literal])?))
}

/// The literal of a comparison, as a word of width 1.
pub fn compare(
    alloc: Global,
    cnf: &mut Cnf,
    comparison: Comparison,
    a: &[Lit],
    b: &[Lit],
) -> Result<Lits, AllocError>
    requires same_width { length a.now ≡ length b.now }
    requires positive { 1 ≤ length a.now }
    requires at_most_64 { length a.now ≤ 64 }
    requires a { IsWithin cnf.old.variables a.now }
    requires b { IsWithin cnf.old.variables b.now }
    ensures grows { Grows cnf.old cnf.new }
    ensures is { IfOk result (λ r. IsNumber (added_to cnf.old cnf.new) 1 r (λ x. bit_value (comparison_value comparison (length a.now) (value_of a.now x) (value_of b.now x)))) }
{
    let literal = match comparison {
        Comparison::Equal => equal(alloc, cnf, a, b)?,
        Comparison::UnsignedLess => less(alloc, cnf, a, b, false)?,
        Comparison::SignedLess => less(alloc, cnf, a, b, true)?,
    };
    bit(alloc, literal)
}

/// The literal of a test of range, as a word of width 1.
pub fn result_fits(
    alloc: Global,
    cnf: &mut Cnf,
    test: FitsTest,
    a: &[Lit],
    b: &[Lit],
) -> Result<Lits, AllocError>
    requires same_width { length a.now ≡ length b.now }
    requires positive { 1 ≤ length a.now }
    requires at_most_64 { length a.now ≤ 64 }
    requires a { IsWithin cnf.old.variables a.now }
    requires b { IsWithin cnf.old.variables b.now }
    ensures grows { Grows cnf.old cnf.new }
    ensures is { IfOk result (λ r. IsNumber (added_to cnf.old cnf.new) 1 r (λ x. bit_value (fits_value test (length a.now) (value_of a.now x) (value_of b.now x)))) }
{
    let literal = match test {
        FitsTest::Sum => sum_fits(alloc, cnf, a, b)?,
        FitsTest::Difference => difference_fits(alloc, cnf, a, b)?,
        FitsTest::Product => product_fits(alloc, cnf, a, b)?,
        FitsTest::LeftShift => left_shift_fits(alloc, cnf, a, b)?,
    };
    bit(alloc, literal)
}

/// The literal that tells whether all, or any, of some literals are true, as a word of width 1.
pub fn quantify(
    alloc: Global,
    cnf: &mut Cnf,
    quantifier: Quantifier,
    literals: &[Lit],
) -> Result<Lits, AllocError>
    requires { IsWithin cnf.old.variables literals.now }
    ensures grows { Grows cnf.old cnf.new }
    ensures is { IfOk result (λ r. IsNumber (added_to cnf.old cnf.new) 1 r (λ x. bit_value (quantified quantifier (map (λ l. bit_value (literal_value x l)) literals.now)))) }
{
    match quantifier {
        Quantifier::All => {
            let each = all(alloc, cnf, literals)?;
            Ok(bit(alloc, each)?)
        }
        Quantifier::Any => {
            let one = any(alloc, cnf, literals)?;
            Ok(bit(alloc, one)?)
        }
    }
}

/// The literals of a choice by a word of width 1.
pub fn choose(
    alloc: Global,
    cnf: &mut Cnf,
    condition: &[Lit],
    yes: &[Lit],
    no: &[Lit],
) -> Result<Lits, AllocError>
    requires bit { length condition.now ≡ 1 }
    requires same_width { length yes.now ≡ length no.now }
    requires positive { 1 ≤ length yes.now }
    requires at_most_64 { length yes.now ≤ 64 }
    requires condition { IsWithin cnf.old.variables condition.now }
    requires yes { IsWithin cnf.old.variables yes.now }
    requires no { IsWithin cnf.old.variables no.now }
    ensures grows { Grows cnf.old cnf.new }
    ensures is { IfOk result (λ r. IsNumber (added_to cnf.old cnf.new) (length yes.now) r (λ x. if holds (value_of condition.now x) then value_of yes.now x else value_of no.now x)) }
{
    choice(alloc, cnf, condition[0], yes, no)
}
