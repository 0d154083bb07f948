//! Integer constant expressions (C11 6.6p3, p6).

ghost use Rattle.std.specs.Prelude.{◌≡◌, ◌==◌, ◌%◌, ◌^◌, option_map};
ghost use Rattle.core_tree.specs.Trees.{view};
ghost use Rattle.core_tree.specs.Typed.{is_shift};
ghost use Rattle.c_values.specs.Numbers.{typed, are_operands_of, same_width};
ghost use Rattle.c_operands.specs.Constants.{is_constant_form, truth, signed, operated, related, connected, value_of, constant_of, is_negative, stated_length};

use crate::nodes::{is_shift, low_bits};
use c_types::IntegerType;
use c_values::{Number, compare, operate, sign};
use core_tree::{ArithmeticOperator, Comparison, CoreExpr, LogicalOperator, SignOperator};

fn is_constant_form(expr: &CoreExpr) -> bool
    ensures { result ≡ is_constant_form (view expr.now) }
{
    match expr {
        CoreExpr::Constant { .. } => true,
        CoreExpr::Read { .. } => false,
        CoreExpr::Convert { operand, .. } => is_constant_form(operand),
        CoreExpr::Sign { operand, .. } => is_constant_form(operand),
        CoreExpr::IsZero { operand, .. } => is_constant_form(operand),
        CoreExpr::Arithmetic { left, right, .. } => is_constant_form(left)
            && is_constant_form(right),
        CoreExpr::Compare { left, right, .. } => is_constant_form(left) && is_constant_form(right),
        CoreExpr::Logical { left, right, .. } => is_constant_form(left) && is_constant_form(right),
        CoreExpr::Choice { test, yes, no, .. } => is_constant_form(test)
            && is_constant_form(yes)
            && is_constant_form(no),
        CoreExpr::Assign { .. } => false,
        CoreExpr::Update { .. } => false,
        CoreExpr::Step { .. } => false,
        CoreExpr::Comma { left, right, .. } => is_constant_form(left) && is_constant_form(right),
        CoreExpr::Assertion { .. } => false,
        CoreExpr::Assumption { .. } => false,
        CoreExpr::Draw { .. } => false,
        CoreExpr::Member { .. } => false,
        CoreExpr::Discard { .. } => false,
        CoreExpr::DiscardStructure { .. } => false,
        CoreExpr::Call { .. } => false,
        CoreExpr::FunctionName { .. } => false,
        CoreExpr::SizeOf { .. } => true,
        CoreExpr::SizeOfStructure { .. } => true,
        CoreExpr::Address { .. } => false,
        CoreExpr::Sum { .. } => false,
        CoreExpr::Distance { .. } => false,
        CoreExpr::Relation { .. } => false,
        CoreExpr::PointerUpdate { .. } => false,
        CoreExpr::PointerStep { .. } => false,
        CoreExpr::Allocate { .. } => false,
        CoreExpr::AllocateZeroed { .. } => false,
        CoreExpr::Release { .. } => false,
        CoreExpr::Exit { .. } => false,
        CoreExpr::Abort { .. } => false,
    }
}

fn truth(holds: bool) -> Number
    ensures { result ≡ truth holds }
{
    Number::of_truth(holds)
}

fn signed(operator: SignOperator, operand: Number) -> Option<Number>
    ensures { result ≡ signed operator operand }
{
    match sign(operator, operand) {
        Ok(number) => Some(number),
        Err(_) => None,
    }
}

fn same_width(left: IntegerType, right: IntegerType) -> bool
    ensures { result ≡ same_width left right }
{
    left.width() == right.width()
}

fn operated(operator: ArithmeticOperator, left: Number, right: Number) -> Option<Number>
    ensures { result ≡ operated operator left right }
{
    if is_shift(operator) || same_width(left.type_of(), right.type_of()) {
        match operate(operator, left, right) {
            Ok(number) => Some(number),
            Err(_class) => None,
        }
    } else {
        None
    }
}

fn related(operator: Comparison, left: Number, right: Number) -> Option<Number>
    ensures { result ≡ related operator left right }
{
    if same_width(left.type_of(), right.type_of()) {
        Some(truth(compare(operator, left, right)))
    } else {
        None
    }
}

fn connected(operator: LogicalOperator, left: Number, right: Option<Number>) -> Option<Number>
    ensures { result ≡ connected operator left right }
{
    match operator {
        LogicalOperator::And => {
            if left.is_true() {
                match right {
                    Some(number) => Some(truth(number.is_true())),
                    None => None,
                }
            } else {
                Some(truth(false))
            }
        }
        LogicalOperator::Or => {
            if left.is_true() {
                Some(truth(true))
            } else {
                match right {
                    Some(number) => Some(truth(number.is_true())),
                    None => None,
                }
            }
        }
    }
}

// The number that `sizeof` gives.
fn size_number(bits: u64) -> Number
    ensures { result ≡ typed IntegerType.UnsignedLong (bits % 2 ^ 64) }
{
    Number::new(IntegerType::UnsignedLong, low_bits(bits, 64))
}

fn value_of(expr: &CoreExpr) -> Option<Number>
    ensures { result ≡ value_of (view expr.now) }
{
    match expr {
        CoreExpr::Constant { type_, bits, .. } => Some(Number::new(
            *type_,
            low_bits(*bits, type_.width()),
        )),
        CoreExpr::Read { .. } => None,
        CoreExpr::Convert { to, operand } => {
            let number = value_of(operand)?;
            Some(number.converted(*to))
        }
        CoreExpr::Sign {
            operator,
            operand,
            ..
        } => {
            let number = value_of(operand)?;
            signed(*operator, number)
        }
        CoreExpr::IsZero { operand, .. } => {
            let number = value_of(operand)?;
            Some(truth(!number.is_true()))
        }
        CoreExpr::Arithmetic {
            operator,
            left,
            right,
            ..
        } => {
            let left = value_of(left)?;
            let right = value_of(right)?;
            operated(*operator, left, right)
        }
        CoreExpr::Compare {
            operator,
            left,
            right,
            ..
        } => {
            let left = value_of(left)?;
            let right = value_of(right)?;
            related(*operator, left, right)
        }
        CoreExpr::Logical {
            operator,
            left,
            right,
            ..
        } => {
            let left = value_of(left)?;
            connected(*operator, left, value_of(right))
        }
        CoreExpr::Choice { test, yes, no, .. } => {
            let test = value_of(test)?;
            if test.is_true() {
                value_of(yes)
            } else {
                value_of(no)
            }
        }
        CoreExpr::Assign { .. } => None,
        CoreExpr::Update { .. } => None,
        CoreExpr::Step { .. } => None,
        CoreExpr::Comma { .. } => None,
        CoreExpr::Assertion { .. } => None,
        CoreExpr::Assumption { .. } => None,
        CoreExpr::Draw { .. } => None,
        CoreExpr::Member { .. } => None,
        CoreExpr::Discard { .. } => None,
        CoreExpr::DiscardStructure { .. } => None,
        CoreExpr::Call { .. } => None,
        CoreExpr::FunctionName { .. } => None,
        CoreExpr::SizeOf { bits, .. } => Some(size_number(*bits)),
        CoreExpr::SizeOfStructure { bits, .. } => Some(size_number(*bits)),
        CoreExpr::Address { .. } => None,
        CoreExpr::Sum { .. } => None,
        CoreExpr::Distance { .. } => None,
        CoreExpr::Relation { .. } => None,
        CoreExpr::PointerUpdate { .. } => None,
        CoreExpr::PointerStep { .. } => None,
        CoreExpr::Allocate { .. } => None,
        CoreExpr::AllocateZeroed { .. } => None,
        CoreExpr::Release { .. } => None,
        CoreExpr::Exit { .. } => None,
        CoreExpr::Abort { .. } => None,
    }
}

/// The value of an integer constant expression: outside of `sizeof` no variable, assignment, call or comma stands in it, and
/// where it is evaluated no check breaks.
pub fn constant_of(expr: &CoreExpr) -> Option<Number>
    ensures { result ≡ constant_of (view expr.now) }
{
    if is_constant_form(expr) {
        value_of(expr)
    } else {
        None
    }
}

/// How many elements a bound says, 0 where it is negative.
pub fn stated_length(bound: Number) -> u64
    ensures { result ≡ stated_length bound }
{
    if compare(Comparison::Less, bound, Number::new(bound.type_of(), 0)) {
        0
    } else {
        bound.bits()
    }
}
