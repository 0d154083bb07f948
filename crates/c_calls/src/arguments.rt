//! The arguments of a call.

ghost use Rattle.std.specs.Prelude.{map, IfOk};
ghost use Rattle.c_types.specs.Types.{views, view as type_view};
ghost use Rattle.core_tree.specs.Trees.{boxed, with_argument, arguments_of};
ghost use Rattle.c_scope.specs.Faults.{GivesNode};
ghost use Rattle.c_operators.specs.Pointers.{view_typed};
ghost use Rattle.c_calls.specs.Calls.{turned, argument_in, arguments_in, extra_arguments, behind, evaluated, EvaluatedBy};

use c_operands::in_box;
use c_operators::{TypedOperand, assigned, comma_by, record_from, scalar};
use c_scope::Broken;
use c_types::Ty;
use core_tree::{CoreArgument, CoreExpr};
use std::alloc::{AllocError, Global};

// An argument, converted to its parameter's type as by assignment.
fn argument_in(alloc: Global, type_: &Ty, operand: TypedOperand) -> Result<CoreArgument, Broken>
    ensures { GivesNode with_argument result (argument_in (type_view type_.now) (view_typed operand)) }
{
    match type_ {
        Ty::Integer(_) | Ty::Pointer { .. } => {
            let value = assigned(alloc, type_, operand)?;
            Ok(CoreArgument::Number { value })
        }
        Ty::Record(place) => {
            let value = record_from(*place, operand, 8)?;
            Ok(CoreArgument::Structure { value })
        }
        Ty::Void | Ty::Array { .. } | Ty::Function(_) => Err(Broken::Rule { rule: 8 }),
    }
}

/// The arguments of parameters with these types. The operands stand in turned order, and those behind them are left.
pub fn arguments_in(
    alloc: Global,
    parameters: &[Ty],
    operands: &mut Vec<TypedOperand>,
) -> Result<Vec<CoreArgument>, Broken>
    ensures { GivesNode (λ v. (arguments_of v.items, turned operands.new.items)) result (arguments_in (views parameters.now) (turned operands.old.items)) }
{
    let mut arguments = Vec::new(alloc);
    for type_ in parameters {
        match operands.pop() {
            Some(operand) => arguments.push(argument_in(alloc, type_, operand)?)?,
            None => return Err(Broken::Rule { rule: 10 }),
        }
    }
    Ok(arguments)
}

/// What an ellipsis takes. The operands stand in turned order.
pub fn extra_arguments(
    alloc: Global,
    ellipsis: bool,
    mut operands: Vec<TypedOperand>,
) -> Result<Vec<Box<CoreExpr>>, Broken>
    ensures { GivesNode (λ v. map boxed v.items) result (extra_arguments ellipsis (turned operands.items)) }
{
    let mut extra = Vec::new(alloc);
    'operands: while let Some(operand) = operands.pop() {
        if !ellipsis {
            return Err(Broken::Rule { rule: 10 });
        }
        extra.push(scalar(operand, 8)?)?;
    }
    Ok(extra)
}

/// An operand behind what is evaluated before it.
#[tactic(auto, using(crate::proofs::Passing::behind_more, crate::proofs::Passing::behind_fails))]
pub fn behind(
    alloc: Global,
    line: u32,
    mut before: Vec<Box<CoreExpr>>,
    operand: TypedOperand,
) -> Result<TypedOperand, Broken>
    ensures { GivesNode view_typed result (behind line (map boxed before.items) (view_typed operand)) }
{
    let mut whole = operand;
    'values: while let Some(value) = before.pop() {
        whole = comma_by(alloc, line, value, whole)?;
    }
    Ok(whole)
}

// What evaluates an argument.
fn evaluated(alloc: Global, argument: CoreArgument) -> Result<Box<CoreExpr>, AllocError>
    ensures { IfOk result (λ e. EvaluatedBy argument (boxed e)) }
{
    match argument {
        CoreArgument::Number { value } => Ok(value),
        CoreArgument::Structure { value } => { in_box(alloc, CoreExpr::DiscardStructure { value }) }
    }
}

/// An operand behind arguments that are evaluated before it.
#[tactic(auto, using(crate::proofs::Passing::arguments_more, crate::proofs::Passing::arguments_fail))]
pub fn behind_arguments(
    alloc: Global,
    line: u32,
    mut arguments: Vec<CoreArgument>,
    operand: TypedOperand,
) -> Result<TypedOperand, Broken>
    ensures { GivesNode view_typed result (behind line (evaluated (arguments_of arguments.items)) (view_typed operand)) }
{
    let mut whole = operand;
    'arguments: while let Some(argument) = arguments.pop() {
        let value = evaluated(alloc, argument)?;
        whole = comma_by(alloc, line, value, whole)?;
    }
    Ok(whole)
}
