//! Nodes of C's operations on numbers.

ghost use Rattle.std.specs.Prelude.{◌≡◌, ◌<◌, ◌≤◌, ℕ, true, nat_lt, IfOk};
ghost use Rattle.c_types.specs.Integers.{width as type_width};
ghost use Rattle.core_tree.specs.Operations.{arithmetic_value};
ghost use Rattle.c_values.specs.Numbers.{same_width, are_operands_of};
ghost use Rattle.word_dag.specs.Growth.{Extends};
ghost use Rattle.word_dag.specs.Meaning.{value, binary_value, shift_value};
ghost use Rattle.value_nodes.specs.Values.{IsWord, IsTest, IsValue};

use crate::truth::chosen;
use c_types::IntegerType;
use core_tree::ArithmeticOperator;
use std::alloc::AllocError;
use word_dag::{BinaryOperator, Comparison, Dag, Id, Node, ShiftKind};

// An operation on two words of one width.
fn binary(
    dag: &mut Dag,
    operator: BinaryOperator,
    a: Id,
    b: Id,
    width: u32,
) -> Result<Id, AllocError>
    requires a { IsWord dag.old a width }
    requires b { IsWord dag.old b width }
    ensures extends { Extends dag.old dag.new }
    ensures made { IfOk result (λ i. IsValue dag.new i width (λ v. binary_value operator width (value v dag.old a) (value v dag.old b))) }
{
    let id = dag.make(Node::Binary(operator, a, b))?;
    Ok(id)
}

/// A count of another width, as a word of this one: the same number where it is below the width.
pub(crate) fn count_word(
    dag: &mut Dag,
    count: Id,
    count_width: u32,
    width: u32,
) -> Result<Id, AllocError>
    requires count { IsWord dag.old count count_width }
    requires positive { 1 ≤ width }
    requires at_most_64 { width ≤ 64 }
    ensures extends { Extends dag.old dag.new }
    ensures word { IfOk result (λ i. IsWord dag.new i width) }
    ensures same { IfOk result (λ i. (v : ℕ → ℕ) → value v dag.old count < width → value v dag.new i ≡ value v dag.old count) }
{
    if width < count_width {
        let id = dag.make(Node::Cut(count, 0, width))?;
        return Ok(id);
    }
    let id = dag.make(Node::ZeroExtend(count, width))?;
    Ok(id)
}

/// Whether a count is below a width, as numbers without a sign.
pub(crate) fn count_test(
    dag: &mut Dag,
    count: Id,
    count_type: IntegerType,
    width: u32,
) -> Result<Id, AllocError>
    requires count { IsWord dag.old count (type_width count_type) }
    requires at_most_64 { width ≤ 64 }
    ensures extends { Extends dag.old dag.new }
    ensures made { IfOk result (λ i. IsTest dag.new i (λ v. nat_lt (value v dag.old count) width)) }
{
    let limit = dag.make(Node::Constant(width as u64, count_type.width()))?;
    let id = dag.make(Node::Compare(Comparison::UnsignedLess, count, limit))?;
    Ok(id)
}

// A word shifted; 0 where the count is at least its width.
fn shift(
    dag: &mut Dag,
    kind: ShiftKind,
    type_: IntegerType,
    count_type: IntegerType,
    a: Id,
    count: Id,
) -> Result<Id, AllocError>
    requires a { IsWord dag.old a (type_width type_) }
    requires count { IsWord dag.old count (type_width count_type) }
    ensures extends { Extends dag.old dag.new }
    ensures made { IfOk result (λ i. IsValue dag.new i (type_width type_) (λ v. shift_value kind (type_width type_) (value v dag.old a) (value v dag.old count))) }
{
    let _ = dag.nodes();
    let width = type_.width();
    let small = count_test(dag, count, count_type, width)?;
    let low = count_word(dag, count, count_type.width(), width)?;
    let shifted = dag.make(Node::Shift(kind, a, low))?;
    let zero = dag.make(Node::Constant(0, width))?;
    let id = chosen(dag, small, shifted, zero)?;
    Ok(id)
}

/// The result of an operation, of the left operand's type, whether or not it breaks a check (C11 6.5.5 to
/// 6.5.7, 6.5.10 to 6.5.12).
pub fn arithmetic(
    dag: &mut Dag,
    operator: ArithmeticOperator,
    type_: IntegerType,
    right_type: IntegerType,
    a: Id,
    b: Id,
) -> Result<Id, AllocError>
    requires operands { are_operands_of operator type_ right_type ≡ true }
    requires a { IsWord dag.old a (type_width type_) }
    requires b { IsWord dag.old b (type_width right_type) }
    ensures extends { Extends dag.old dag.new }
    ensures made { IfOk result (λ i. IsValue dag.new i (type_width type_) (λ v. arithmetic_value operator type_ (value v dag.old a) (value v dag.old b))) }
{
    let width = type_.width();
    let signed = type_.is_signed();
    match operator {
        ArithmeticOperator::Multiply => binary(dag, BinaryOperator::Multiply, a, b, width),
        ArithmeticOperator::Divide => {
            if signed {
                binary(dag, BinaryOperator::SignedDivide, a, b, width)
            } else {
                binary(dag, BinaryOperator::UnsignedDivide, a, b, width)
            }
        }
        ArithmeticOperator::Remainder => {
            if signed {
                binary(dag, BinaryOperator::SignedRemainder, a, b, width)
            } else {
                binary(dag, BinaryOperator::UnsignedRemainder, a, b, width)
            }
        }
        ArithmeticOperator::Add => binary(dag, BinaryOperator::Add, a, b, width),
        ArithmeticOperator::Subtract => binary(dag, BinaryOperator::Subtract, a, b, width),
        ArithmeticOperator::ShiftLeft => { shift(dag, ShiftKind::Left, type_, right_type, a, b) }
        ArithmeticOperator::ShiftRight => {
            if signed {
                shift(dag, ShiftKind::Arithmetic, type_, right_type, a, b)
            } else {
                shift(dag, ShiftKind::Logical, type_, right_type, a, b)
            }
        }
        ArithmeticOperator::And => binary(dag, BinaryOperator::And, a, b, width),
        ArithmeticOperator::Xor => binary(dag, BinaryOperator::Xor, a, b, width),
        ArithmeticOperator::Or => binary(dag, BinaryOperator::Or, a, b, width),
    }
}
