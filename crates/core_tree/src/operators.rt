//! The operators of expressions.

ghost use Rattle.std.specs.Prelude.{◌≡◌, ◌≤◌};
ghost use Rattle.core_tree.specs.Operations as operations;

use c_types::IntegerType;

/// An operator on two integers of one promoted type, or for a shift of two promoted types, that gives
/// one of the left operand's type (C11 6.5.5 to 6.5.7, 6.5.10 to 6.5.12).
#[derive(Clone, Copy, PartialEq, Eq)]
pub enum ArithmeticOperator {
    Multiply,
    Divide,
    Remainder,
    Add,
    Subtract,
    ShiftLeft,
    ShiftRight,
    And,
    Xor,
    Or,
}

/// A test of two integers of one promoted type, which gives 1 or 0 (C11 6.5.8, 6.5.9).
#[derive(Clone, Copy, PartialEq, Eq)]
pub enum Comparison {
    Less,
    Greater,
    LessEqual,
    GreaterEqual,
    Equal,
    NotEqual,
}

/// `&&` or `||` (C11 6.5.13, 6.5.14).
#[derive(Clone, Copy, PartialEq, Eq)]
pub enum LogicalOperator {
    And,
    Or,
}

/// An operator on one integer of a promoted type (C11 6.5.3.3).
#[derive(Clone, Copy, PartialEq, Eq)]
pub enum SignOperator {
    Plus,
    Minus,
    Complement,
}

/// `++` or `--` (C11 6.5.2.4, 6.5.3.1).
#[derive(Clone, Copy, PartialEq, Eq)]
pub enum StepOperator {
    Increment,
    Decrement,
}

/// What `++` or `--` does with the value and 1 (C11 6.5.3.1p2).
pub fn step_operation(operator: StepOperator) -> ArithmeticOperator
    ensures { result ≡ operations.step_operation operator }
{
    match operator {
        StepOperator::Increment => ArithmeticOperator::Add,
        StepOperator::Decrement => ArithmeticOperator::Subtract,
    }
}

/// How many bits a draw of a value of this type takes: one of `_Bool`, else the type's width.
pub fn drawn_width(type_: IntegerType) -> u32
    ensures is { result ≡ operations.drawn_width type_ }
    ensures positive { 1 ≤ result }
    ensures at_most_64 { result ≤ 64 }
{
    match type_ {
        IntegerType::Bool => 1,
        _ => type_.width(),
    }
}
