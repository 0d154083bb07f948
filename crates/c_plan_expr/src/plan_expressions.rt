//! What the tasks of expressions do next.

ghost use Rattle.std.specs.Prelude.{◌≡◌, true, Some, None};
ghost use Rattle.core_tree.specs.Trees.{view};
ghost use Rattle.c_tasks.specs.Items.{evaluates};
ghost use Rattle.c_tasks.specs.Tasks.{finish_of};
ghost use Rattle.c_tasks.specs.Plans.{FitsIn, PlansItem, HasParts, IsByOperand, IsNoOperation, IsNoAccess, IsTested};

use crate::allocations::{plan_claim, plan_release};
use crate::calls::plan_number_call;
use crate::places::{plan_load, plan_step, plan_store, plan_update, pointer};
use crate::pointers::{plan_measure, plan_move, plan_order, plan_pace, plan_shift};
use crate::structures::{plan_discard, plan_pick};
use actions::DrawBits;
use c_tasks::{
    Halt, Look, Plan, Request, Taken, Task, decides, evaluating, finishing, instead, locating,
    number_type_of, operand_first, operands_first, place_and_operand, place_first, pushes, puts,
    second_of, structure_first, takes, top_of,
};
use c_types::IntegerType;
use c_values::{Number, compare, operate, sign};
use core_tree::{CoreExpr, drawn_width, step_operation};
use words::Class;

/// The plan of an expression that is to be evaluated.
pub fn plan_expression<'a>(look: &Look, expr: &'a CoreExpr) -> Plan<'a>
    requires { FitsIn look.now (evaluates (view expr.now)) }
    ensures { PlansItem look.now (evaluates (view expr.now)) result }
{
    match expr {
        CoreExpr::Constant { type_, bits, .. } => puts(Taken::None, Number::new(*type_, *bits)),
        CoreExpr::SizeOf { bits, .. } => puts(Taken::None, pointer(*bits)),
        CoreExpr::SizeOfStructure { bits, .. } => puts(Taken::None, pointer(*bits)),
        CoreExpr::FunctionName { .. } => puts(Taken::None, Number::new(IntegerType::Int, 0)),
        CoreExpr::Draw { line, type_ } => {
            Plan::Halts(Halt::Asks(Request::Draw(DrawBits::new(drawn_width(*type_))), *line))
        }
        CoreExpr::Call {
            line,
            function,
            used,
            type_,
            arguments,
        } => plan_number_call(look, *line, *function, *used, *type_, arguments),
        CoreExpr::Abort { .. } => pushes(Taken::None, finishing(expr), None, None),
        _ => plan_parts(look, expr),
    }
}

// The plan of an expression whose parts are evaluated first: a place, operands or a structure value.
fn plan_parts<'a>(_look: &Look, expr: &'a CoreExpr) -> Plan<'a>
    requires { HasParts (view expr.now) }
    ensures { PlansItem _look.now (evaluates (view expr.now)) result }
{
    match expr {
        CoreExpr::Read { place, .. } => place_first(place, expr),
        CoreExpr::Assign { place, value, .. } => place_and_operand(place, value, expr),
        CoreExpr::Update { place, value, .. } => place_and_operand(place, value, expr),
        CoreExpr::Step { place, .. } => place_first(place, expr),
        CoreExpr::Address { place, .. } => pushes(Taken::None, locating(place), None, None),
        CoreExpr::PointerUpdate { place, value, .. } => place_and_operand(place, value, expr),
        CoreExpr::PointerStep { place, .. } => place_first(place, expr),
        CoreExpr::Member { value, .. } => structure_first(value, expr),
        CoreExpr::DiscardStructure { value } => structure_first(value, expr),
        CoreExpr::Arithmetic { left, right, .. } => operands_first(left, right, expr),
        CoreExpr::Compare { left, right, .. } => operands_first(left, right, expr),
        CoreExpr::Distance { left, right, .. } => operands_first(left, right, expr),
        CoreExpr::Relation { left, right, .. } => operands_first(left, right, expr),
        CoreExpr::AllocateZeroed { count, size, .. } => operands_first(count, size, expr),
        CoreExpr::Sum {
            pointer,
            index,
            swapped,
            ..
        } => {
            if *swapped {
                operands_first(index, pointer, expr)
            } else {
                operands_first(pointer, index, expr)
            }
        }
        _ => plan_operand(_look, expr),
    }
}

// The plan of an expression of which one operand is evaluated first.
fn plan_operand<'a>(_look: &Look, expr: &'a CoreExpr) -> Plan<'a>
    requires { IsByOperand (view expr.now) }
    ensures { PlansItem _look.now (evaluates (view expr.now)) result }
{
    match expr {
        CoreExpr::Convert { operand, .. } => operand_first(operand, expr),
        CoreExpr::Sign { operand, .. } => operand_first(operand, expr),
        CoreExpr::IsZero { operand, .. } => operand_first(operand, expr),
        CoreExpr::Logical { left, .. } => operand_first(left, expr),
        CoreExpr::Choice { test, .. } => operand_first(test, expr),
        CoreExpr::Comma { left, .. } => operand_first(left, expr),
        CoreExpr::Assertion { condition, .. } => operand_first(condition, expr),
        CoreExpr::Assumption { condition, .. } => operand_first(condition, expr),
        CoreExpr::Discard { operand, .. } => operand_first(operand, expr),
        CoreExpr::Allocate { size, .. } => operand_first(size, expr),
        CoreExpr::Release { pointer, .. } => operand_first(pointer, expr),
        CoreExpr::Exit { status, .. } => operand_first(status, expr),
        _ => unreachable!(),
    }
}

/// The plan of an expression whose operands are evaluated.
pub fn plan_finish<'a>(look: &Look, expr: &'a CoreExpr) -> Plan<'a>
    requires { FitsIn look.now (finish_of (view expr.now)) }
    ensures { PlansItem look.now (finish_of (view expr.now)) result }
{
    let x = top_of(look.numbers);
    match expr {
        CoreExpr::Convert { to, .. } => puts(Taken::One, x.converted(*to)),
        CoreExpr::Sign { line, operator, .. } => match sign(*operator, x) {
            Ok(number) => puts(Taken::One, number),
            Err(class) => Plan::Halts(Halt::Breaks(class, *line)),
        },
        CoreExpr::IsZero { .. } => puts(Taken::One, Number::of_truth(!x.is_true())),
        CoreExpr::Arithmetic { line, operator, .. } => match operate(
            *operator,
            second_of(look.numbers),
            x,
        ) {
            Ok(number) => puts(Taken::Two, number),
            Err(class) => Plan::Halts(Halt::Breaks(class, *line)),
        },
        CoreExpr::Compare { operator, .. } => {
            let truth = compare(*operator, second_of(look.numbers), x);
            puts(Taken::Two, Number::of_truth(truth))
        }
        CoreExpr::Member { type_, offset, .. } => plan_pick(look, *type_, *offset),
        CoreExpr::Discard { .. } => puts(Taken::One, Number::new(IntegerType::Int, 0)),
        CoreExpr::DiscardStructure { .. } => plan_discard(look),
        _ => plan_at_place(look, expr),
    }
}

// The plan of an expression whose place is evaluated, and the operand beside it.
fn plan_at_place<'a>(look: &Look, expr: &'a CoreExpr) -> Plan<'a>
    requires fits { FitsIn look.now (finish_of (view expr.now)) }
    requires other { IsNoOperation (view expr.now) }
    ensures { PlansItem look.now (finish_of (view expr.now)) result }
{
    match expr {
        CoreExpr::Read { type_, place } => plan_load(look, *type_, place),
        CoreExpr::Assign {
            line,
            type_,
            place,
            ..
        } => plan_store(look, *line, *type_, place),
        CoreExpr::Update {
            line,
            type_,
            place,
            operator,
            operand,
            ..
        } => plan_update(look, *line, *type_, place, *operator, *operand),
        CoreExpr::Step {
            line,
            type_,
            place,
            operator,
            before,
        } => plan_step(
            look,
            *line,
            *type_,
            place,
            step_operation(*operator),
            *before,
        ),
        CoreExpr::PointerUpdate {
            line,
            place,
            step,
            ..
        } => plan_shift(look, *line, place, *step),
        CoreExpr::PointerStep {
            line,
            place,
            step,
            before,
        } => plan_pace(look, *line, place, *step, *before),
        _ => plan_pointers(look, expr),
    }
}

// The plan of an expression over pointers that are evaluated, or of an object.
fn plan_pointers<'a>(look: &Look, expr: &'a CoreExpr) -> Plan<'a>
    requires fits { FitsIn look.now (finish_of (view expr.now)) }
    requires other { IsNoAccess (view expr.now) }
    ensures { PlansItem look.now (finish_of (view expr.now)) result }
{
    match expr {
        CoreExpr::Sum {
            line,
            step,
            swapped,
            ..
        } => plan_move(look, *line, *step, false, *swapped),
        CoreExpr::Distance { line, step, .. } => plan_measure(look, *line, *step),
        CoreExpr::Relation { line, operator, .. } => plan_order(look, *line, *operator),
        CoreExpr::Allocate { line, .. } => plan_claim(look, *line, false),
        CoreExpr::AllocateZeroed { line, .. } => plan_claim(look, *line, true),
        CoreExpr::Release { line, .. } => plan_release(look, *line),
        CoreExpr::Exit { line, .. } => Plan::Halts(Halt::Asks(Request::Exit, *line)),
        CoreExpr::Abort { line } => Plan::Halts(Halt::Asks(Request::Exit, *line)),
        _ => plan_tested(look, expr),
    }
}

// The plan of an expression whose first operand, a test or one that isn't used, is evaluated.
fn plan_tested<'a>(look: &Look, expr: &'a CoreExpr) -> Plan<'a>
    requires { IsTested (view expr.now) }
    ensures { PlansItem look.now (finish_of (view expr.now)) result }
{
    let x = top_of(look.numbers);
    match expr {
        CoreExpr::Logical {
            operator,
            right,
            ..
        } => {
            if decides(*operator, x) {
                puts(Taken::One, Number::of_truth(x.is_true()))
            } else {
                instead(right, Task::Test)
            }
        }
        CoreExpr::Choice { yes, no, .. } => {
            let type_ = number_type_of(yes);
            if x.is_true() {
                instead(yes, Task::Retype(type_))
            } else {
                instead(no, Task::Retype(type_))
            }
        }
        CoreExpr::Comma { right, .. } => pushes(Taken::One, evaluating(right), None, None),
        CoreExpr::Assertion { line, .. } => {
            if x.is_true() {
                puts(Taken::One, Number::new(IntegerType::Int, 0))
            } else {
                Plan::Halts(Halt::Breaks(Class::Assertion, *line))
            }
        }
        CoreExpr::Assumption { .. } => {
            if x.is_true() {
                puts(Taken::One, Number::new(IntegerType::Int, 0))
            } else {
                Plan::Halts(Halt::Blocks)
            }
        }
        _ => takes(Taken::One),
    }
}
