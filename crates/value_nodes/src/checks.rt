//! Nodes of what checks ask.

ghost use Rattle.std.specs.Prelude.{◌≡◌, ◌==◌, ◌≤◌, ℕ, true, not, ◌&&◌, is_some, IfOk, if◌then◌else◌, None};
ghost use Rattle.c_types.specs.Integers.{width as type_width, is_signed};
ghost use Rattle.core_tree.specs.Operations.{is_true, arithmetic_check, count_check, division_check, left_shift_check, sign_check};
ghost use Rattle.words.specs.Operators.{word_negation, word_complement};
ghost use Rattle.value_nodes.specs.Ranged.{is_ranged};
ghost use Rattle.word_dag.specs.Growth.{Extends};
ghost use Rattle.word_dag.specs.Meaning.{value, fits_value};
ghost use Rattle.value_nodes.specs.Values.{IsWord, IsTest, IsValue};

use crate::operations::{count_test, count_word};
use crate::truth::{both, equal, inverse, nonzero_test};
use c_types::IntegerType;
use core_tree::{ArithmeticOperator, SignOperator};
use std::alloc::AllocError;
use word_dag::{Dag, FitsTest, Id, Node};

// Whether a result on two words of one width is out of range.
fn out_of_range(dag: &mut Dag, test: FitsTest, a: Id, b: Id, width: u32) -> Result<Id, AllocError>
    requires a { IsWord dag.old a width }
    requires b { IsWord dag.old b width }
    ensures extends { Extends dag.old dag.new }
    ensures made { IfOk result (λ i. IsTest dag.new i (λ v. not (fits_value test width (value v dag.old a) (value v dag.old b)))) }
{
    let within = dag.make(Node::Fits(test, a, b))?;
    let id = inverse(dag, within)?;
    Ok(id)
}

/// Whether the result of `+`, `-` or `*` isn't in the range of its signed type (C11 6.5p5).
pub fn range_fails(
    dag: &mut Dag,
    operator: ArithmeticOperator,
    type_: IntegerType,
    a: Id,
    b: Id,
) -> Result<Id, AllocError>
    requires ranged { is_ranged operator ≡ true }
    requires signed { is_signed type_ ≡ true }
    requires a { IsWord dag.old a (type_width type_) }
    requires b { IsWord dag.old b (type_width type_) }
    ensures extends { Extends dag.old dag.new }
    ensures made { IfOk result (λ i. IsTest dag.new i (λ v. is_some (arithmetic_check operator type_ type_ (value v dag.old a) (value v dag.old b)))) }
{
    let width = type_.width();
    match operator {
        ArithmeticOperator::Add => out_of_range(dag, FitsTest::Sum, a, b, width),
        ArithmeticOperator::Subtract => out_of_range(dag, FitsTest::Difference, a, b, width),
        ArithmeticOperator::Multiply => out_of_range(dag, FitsTest::Product, a, b, width),
        _ => unreachable!(),
    }
}

/// Whether the result of unary `-` isn't in the range of its signed type (C11 6.5p5).
pub fn negation_fails(dag: &mut Dag, type_: IntegerType, a: Id) -> Result<Id, AllocError>
    requires signed { is_signed type_ ≡ true }
    requires a { IsWord dag.old a (type_width type_) }
    ensures extends { Extends dag.old dag.new }
    ensures made { IfOk result (λ i. IsTest dag.new i (λ v. is_some (sign_check SignOperator.Minus type_ (value v dag.old a)))) }
{
    let width = type_.width();
    let zero = dag.make(Node::Constant(0, width))?;
    let id = out_of_range(dag, FitsTest::Difference, zero, a, width)?;
    Ok(id)
}

// The negation of a word.
fn negation(dag: &mut Dag, a: Id, width: u32) -> Result<Id, AllocError>
    requires a { IsWord dag.old a width }
    ensures extends { Extends dag.old dag.new }
    ensures made { IfOk result (λ i. IsValue dag.new i width (λ v. word_negation width (value v dag.old a))) }
{
    let id = dag.make(Node::Negate(a))?;
    Ok(id)
}

// Whether a word is the least of its width, and not 0.
fn is_least(dag: &mut Dag, a: Id, width: u32) -> Result<Id, AllocError>
    requires a { IsWord dag.old a width }
    ensures extends { Extends dag.old dag.new }
    ensures made { IfOk result (λ i. IsTest dag.new i (λ v. (value v dag.old a == word_negation width (value v dag.old a)) && not (value v dag.old a == 0))) }
{
    let negated = negation(dag, a, width)?;
    let same = equal(dag, a, negated, width)?;
    let nonzero = nonzero_test(dag, a)?;
    let id = both(dag, same, nonzero)?;
    Ok(id)
}

// The word with each bit set.
fn all_ones(dag: &mut Dag, width: u32) -> Result<Id, AllocError>
    requires positive { 1 ≤ width }
    requires at_most_64 { width ≤ 64 }
    ensures extends { Extends dag.old dag.new }
    ensures made { IfOk result (λ i. IsValue dag.new i width (λ v. word_complement width 0)) }
{
    let zero = dag.make(Node::Constant(0, width))?;
    let id = dag.make(Node::Not(zero))?;
    Ok(id)
}

// Whether a word has each bit set, and isn't 0.
fn is_minus_one(dag: &mut Dag, b: Id, width: u32) -> Result<Id, AllocError>
    requires positive { 1 ≤ width }
    requires at_most_64 { width ≤ 64 }
    requires b { IsWord dag.old b width }
    ensures extends { Extends dag.old dag.new }
    ensures made { IfOk result (λ i. IsTest dag.new i (λ v. (value v dag.old b == word_complement width 0) && not (value v dag.old b == 0))) }
{
    let ones = all_ones(dag, width)?;
    let same = equal(dag, b, ones, width)?;
    let nonzero = nonzero_test(dag, b)?;
    let id = both(dag, same, nonzero)?;
    Ok(id)
}

/// Whether a quotient by another divisor than 0 isn't in the range of its signed type: that of the least
/// value by -1 (C11 6.5.5p6).
pub fn quotient_fails(dag: &mut Dag, type_: IntegerType, a: Id, b: Id) -> Result<Id, AllocError>
    requires signed { is_signed type_ ≡ true }
    requires a { IsWord dag.old a (type_width type_) }
    requires b { IsWord dag.old b (type_width type_) }
    ensures extends { Extends dag.old dag.new }
    ensures made { IfOk result (λ i. IsTest dag.new i (λ v. is_some (if value v dag.old b == 0 then None else division_check type_ (value v dag.old a) (value v dag.old b)))) }
{
    let width = type_.width();
    let least = is_least(dag, a, width)?;
    let minus_one = is_minus_one(dag, b, width)?;
    let id = both(dag, least, minus_one)?;
    Ok(id)
}

/// Whether a shift count isn't from 0 to less than the width of the shifted type (C11 6.5.7p3).
pub fn count_fails(
    dag: &mut Dag,
    type_: IntegerType,
    count_type: IntegerType,
    count: Id,
) -> Result<Id, AllocError>
    requires count { IsWord dag.old count (type_width count_type) }
    ensures extends { Extends dag.old dag.new }
    ensures made { IfOk result (λ i. IsTest dag.new i (λ v. is_some (count_check type_ count_type (value v dag.old count)))) }
{
    let _ = dag.nodes();
    let small = count_test(dag, count, count_type, type_.width())?;
    let id = inverse(dag, small)?;
    Ok(id)
}

/// Whether a left shift of a signed type breaks: its count isn't from 0 to less than the width, its
/// operand is negative, or its result isn't in range (C11 6.5.7p3, p4).
pub fn left_shift_fails(
    dag: &mut Dag,
    type_: IntegerType,
    count_type: IntegerType,
    a: Id,
    count: Id,
) -> Result<Id, AllocError>
    requires signed { is_signed type_ ≡ true }
    requires a { IsWord dag.old a (type_width type_) }
    requires count { IsWord dag.old count (type_width count_type) }
    ensures extends { Extends dag.old dag.new }
    ensures made { IfOk result (λ i. IsTest dag.new i (λ v. is_some (left_shift_check type_ count_type (value v dag.old a) (value v dag.old count)))) }
{
    let _ = dag.nodes();
    let width = type_.width();
    let small = count_test(dag, count, count_type, width)?;
    let low = count_word(dag, count, count_type.width(), width)?;
    let within = dag.make(Node::Fits(FitsTest::LeftShift, a, low))?;
    let well = both(dag, small, within)?;
    let id = inverse(dag, well)?;
    Ok(id)
}
