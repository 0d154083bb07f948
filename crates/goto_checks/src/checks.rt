//! Which check stands before an operation.

ghost use Rattle.std.specs.Prelude.{◌≡◌, [], ◌∷◌};
ghost use Rattle.goto_checks.specs.Inserted as inserted;

use c_types::IntegerType;
use core_tree::{ArithmeticOperator, SignOperator};
use goto_prog::{Condition, Operation};
use std::marker::Model;

/// The checks of an operation, in the order in which they break.
#[derive(Drop)]
pub struct Checks {
    pub first: Option<Condition>,
    pub second: Option<Condition>,
}

impl Model for Checks {
    ghost use Rattle.std.specs.Prelude.{List, []};
    ghost use Rattle.goto_prog.specs.declared.code.Condition.{Condition};
    ghost use Rattle.goto_checks.specs.Inserted.{before};

    ghost Value = { List Condition };

    ghost view = { λ c. before c.first (before c.second []) };
}

fn no_check() -> Checks
    ensures { result ≡ [] }
{
    Checks {
        first: None,
        second: None,
    }
}

fn one_check(condition: Condition) -> Checks
    ensures { result ≡ condition ∷ [] }
{
    Checks {
        first: Some(condition),
        second: None,
    }
}

// A check that only signed types need.
fn if_signed(type_: IntegerType, condition: Condition) -> Checks
    ensures { result ≡ inserted.if_signed type_ condition }
{
    if type_.is_signed() {
        one_check(condition)
    } else {
        no_check()
    }
}

// Of a division, by a divisor that may be 0.
fn division_checks(type_: IntegerType, left: usize, right: usize) -> Checks
    ensures { result ≡ Condition.Divisor right ∷ inserted.if_signed type_ (Condition.Quotient type_ left right) }
{
    let divisor = Condition::Divisor { divisor: right };
    if type_.is_signed() {
        Checks {
            first: Some(divisor),
            second: Some(Condition::Quotient { type_, left, right }),
        }
    } else {
        one_check(divisor)
    }
}

fn left_shift_check(
    type_: IntegerType,
    count_type: IntegerType,
    left: usize,
    count: usize,
) -> Checks
    ensures { result ≡ inserted.arithmetic_checks ArithmeticOperator.ShiftLeft type_ count_type left count }
{
    if type_.is_signed() {
        one_check(Condition::LeftShift {
            type_,
            count_type,
            left,
            count,
        })
    } else {
        one_check(Condition::Count {
            type_,
            count_type,
            count,
        })
    }
}

fn arithmetic_checks(
    operator: ArithmeticOperator,
    type_: IntegerType,
    right_type: IntegerType,
    left: usize,
    right: usize,
) -> Checks
    ensures { result ≡ inserted.arithmetic_checks operator type_ right_type left right }
{
    match operator {
        ArithmeticOperator::Multiply | ArithmeticOperator::Add | ArithmeticOperator::Subtract => {
            if_signed(
                type_,
                Condition::Range {
                    operator,
                    type_,
                    left,
                    right,
                },
            )
        }
        ArithmeticOperator::Divide | ArithmeticOperator::Remainder => {
            division_checks(type_, left, right)
        }
        ArithmeticOperator::ShiftLeft => left_shift_check(type_, right_type, left, right),
        ArithmeticOperator::ShiftRight => one_check(Condition::Count {
            type_,
            count_type: right_type,
            count: right,
        }),
        ArithmeticOperator::And | ArithmeticOperator::Xor | ArithmeticOperator::Or => no_check(),
    }
}

/// The checks that an operation needs.
pub fn checks_of(operation: Operation) -> Checks
    ensures { result ≡ inserted.checks_of operation }
{
    match operation {
        Operation::Sign {
            operator: SignOperator::Minus,
            type_,
            operand,
            ..
        } => if_signed(type_, Condition::Negation { type_, operand }),
        Operation::Arithmetic {
            operator,
            type_,
            right_type,
            left,
            right,
            ..
        } => arithmetic_checks(operator, type_, right_type, left, right),
        Operation::Use { returned } => one_check(Condition::Returned { returned }),
        Operation::Move {
            pointer,
            index,
            index_type,
            step,
            size,
            class,
            ..
        } => one_check(Condition::Within {
            pointer,
            index,
            index_type,
            step,
            size,
            class,
        }),
        Operation::Same { left, right } => one_check(Condition::SameObject { left, right }),
        Operation::Take {
            offset,
            count,
            whole,
            ..
        } => one_check(Condition::Inside {
            offset,
            count,
            whole,
        }),
        Operation::Put {
            offset,
            count,
            whole,
            ..
        } => one_check(Condition::Inside {
            offset,
            count,
            whole,
        }),
        _ => no_check(),
    }
}
