//! What a call makes of its typed arguments, or the lowest rule that they break.

ghost use Rattle.std.specs.Prelude.{◌≡◌, false, map, slice_get, IfOk};
ghost use Rattle.c_types.specs.Types.{views, view as type_view};
ghost use Rattle.c_types.specs.Layouts.{size_of};
ghost use Rattle.core_tree.specs.Trees.{call, draw, give, boxed, with_argument, arguments_of};
ghost use Rattle.c_scope.specs.Scopes.{view_function_type};
ghost use Rattle.c_operands.specs.Operands.{value, structure, view_operand, turned, one_integer, no_arguments, argument_in, arguments_in, extra_arguments, given_size, given_operand, behind_extra, function_call, callable_call, assertion_call, assumption_call, call_node};
ghost use Rattle.c_scope.specs.Faults.{GivesNode};
ghost use Rattle.c_elab_expr.specs.Typing.{called};

use c_operands::{
    CoreOperand, as_type, bytes_of, comma_operand, computed, in_box, made, number, record_value,
    structure_in_box,
};
use c_scope::{Broken, FunctionType, Meaning, Scope, type_size};
use c_types::{IntegerType, Layouts, Ty, ValueType};
use core_tree::{CoreArgument, CoreExpr, CoreStructure};
use std::alloc::{AllocError, Global};

// The one argument, of an integer type.
fn one_integer(mut arguments: Vec<CoreOperand>) -> Result<Box<CoreExpr>, Broken>
    ensures { GivesNode boxed result (one_integer (map view_operand arguments.items)) }
{
    if arguments.is_empty() {
        return Err(Broken::Rule { rule: 10 });
    }
    let more = arguments.len() > 1;
    let argument = number(arguments.swap_remove(0), 8)?;
    if more {
        return Err(Broken::Rule { rule: 10 });
    }
    Ok(argument)
}

// A number of this type from the inputs. The function that draws it has no parameters.
fn no_arguments(
    alloc: Global,
    arguments: &[CoreOperand],
    line: u32,
    type_: IntegerType,
) -> Result<Box<CoreExpr>, Broken>
    ensures { GivesNode boxed result (no_arguments (map view_operand arguments.now) (draw line type_)) }
{
    if arguments.is_empty() {
        Ok(in_box(alloc, CoreExpr::Draw { line, type_ })?)
    } else {
        Err(Broken::Rule { rule: 10 })
    }
}

// An argument, converted to its parameter's type as by assignment.
fn argument_in(
    alloc: Global,
    type_: &Ty,
    operand: CoreOperand,
    layouts: &Layouts,
) -> Result<CoreArgument, Broken>
    ensures { GivesNode with_argument result (argument_in layouts.now.done (type_view type_.now) (view_operand operand)) }
{
    match type_ {
        Ty::Integer(integer) => {
            let value = number(operand, 8)?;
            Ok(CoreArgument::Number {
                value: as_type(alloc, *integer, value)?,
            })
        }
        Ty::Record(_) => {
            let value = record_value(alloc, type_, operand, layouts, 8)?;
            Ok(CoreArgument::Structure { value })
        }
        Ty::Void => Err(Broken::Rule { rule: 8 }),
        Ty::Array { .. } => Err(Broken::Rule { rule: 8 }),
        Ty::Pointer { .. } => Err(Broken::Rule { rule: 8 }),
        Ty::Function(_) => Err(Broken::Rule { rule: 8 }),
    }
}

// The arguments of the parameters. The operands stand in turned order, and those behind them are left.
fn arguments_in(
    alloc: Global,
    parameters: &[Ty],
    operands: &mut Vec<CoreOperand>,
    layouts: &Layouts,
) -> Result<Vec<CoreArgument>, Broken>
    ensures { GivesNode (λ v. (arguments_of v.items, turned operands.new.items)) result (arguments_in layouts.now.done (views parameters.now) (turned operands.old.items)) }
{
    let mut arguments = Vec::new(alloc);
    for type_ in parameters {
        match operands.pop() {
            Some(operand) => arguments.push(argument_in(alloc, type_, operand, layouts)?)?,
            None => return Err(Broken::Rule { rule: 10 }),
        }
    }
    Ok(arguments)
}

// What an ellipsis takes. The operands stand in turned order.
fn extra_arguments(
    alloc: Global,
    ellipsis: bool,
    mut operands: Vec<CoreOperand>,
) -> Result<Vec<Box<CoreExpr>>, Broken>
    ensures { GivesNode (λ v. map boxed v.items) result (extra_arguments ellipsis (turned operands.items)) }
{
    let mut extra = Vec::new(alloc);
    'operands: while let Some(operand) = operands.pop() {
        if !ellipsis {
            return Err(Broken::Rule { rule: 10 });
        }
        extra.push(number(operand, 8)?)?;
    }
    Ok(extra)
}

// What a call gives is void or complete.
fn check_given(type_: &Ty, layouts: &Layouts) -> Result<u64, Broken>
    ensures { GivesNode (λ n. n) result (given_size layouts.now.done (type_view type_.now)) }
{
    match type_ {
        Ty::Void => Ok(0),
        other => type_size(other, layouts),
    }
}

// A call of the function with a number, which gives a number of this type or none.
fn given_value(
    alloc: Global,
    line: u32,
    function: u32,
    used: bool,
    type_: ValueType,
    arguments: Vec<CoreArgument>,
) -> Result<CoreOperand, AllocError>
    ensures { IfOk result (λ x. view_operand x ≡ value (call line function used type_ (arguments_of arguments.items)) false) }
{
    made(
        alloc,
        CoreExpr::Call {
            line,
            function,
            used,
            type_,
            arguments,
        },
    )
}

// A call of the function with a number, which gives a structure of this type.
fn given_structure(
    alloc: Global,
    line: u32,
    function: u32,
    used: bool,
    type_: &Ty,
    arguments: Vec<CoreArgument>,
    layouts: &Layouts,
) -> Result<CoreOperand, AllocError>
    ensures { IfOk result (λ x. view_operand x ≡ structure (type_view type_.now) (give line function used (size_of layouts.now.done (type_view type_.now)) (arguments_of arguments.items))) }
{
    let size = bytes_of(type_, layouts)?;
    let type_ = type_.copied()?;
    let call = CoreStructure::Call {
        line,
        function,
        used,
        size,
        arguments,
    };
    Ok(CoreOperand::Structure {
        type_,
        value: structure_in_box(alloc, call)?,
    })
}

// A call of the function with a number, which gives this type.
fn given_operand(
    alloc: Global,
    line: u32,
    function: u32,
    wanted: bool,
    type_: &Ty,
    arguments: Vec<CoreArgument>,
    layouts: &Layouts,
) -> Result<CoreOperand, AllocError>
    ensures { IfOk result (λ x. view_operand x ≡ given_operand layouts.now.done line function wanted (type_view type_.now) (arguments_of arguments.items)) }
{
    match type_ {
        Ty::Void => given_value(alloc, line, function, false, ValueType::Void, arguments),
        Ty::Integer(integer) => given_value(
            alloc,
            line,
            function,
            wanted,
            ValueType::Integer(*integer),
            arguments,
        ),
        Ty::Record(_) => given_structure(alloc, line, function, wanted, type_, arguments, layouts),
        Ty::Array { .. } => given_structure(
            alloc, line, function, wanted, type_, arguments, layouts,
        ),
        Ty::Pointer { .. } => given_value(
            alloc,
            line,
            function,
            wanted,
            ValueType::Integer(IntegerType::UnsignedLong),
            arguments,
        ),
        Ty::Function(_) => given_structure(
            alloc, line, function, wanted, type_, arguments, layouts,
        ),
    }
}

// What an ellipsis takes goes before the call.
fn behind_extra(
    alloc: Global,
    line: u32,
    mut extra: Vec<Box<CoreExpr>>,
    call: CoreOperand,
    layouts: &Layouts,
) -> Result<CoreOperand, AllocError>
    ensures { IfOk result (λ x. view_operand x ≡ behind_extra layouts.now.done line (map boxed extra.items) (view_operand call)) }
{
    let mut whole = call;
    'extra: while let Some(value) = extra.pop() {
        let first = CoreOperand::Value {
            value,
            constant: false,
        };
        whole = comma_operand(alloc, line, first, whole, layouts)?;
    }
    Ok(whole)
}

fn function_call(
    alloc: Global,
    line: u32,
    function: u32,
    wanted: bool,
    type_: &FunctionType,
    mut operands: Vec<CoreOperand>,
    layouts: &Layouts,
) -> Result<CoreOperand, Broken>
    ensures { GivesNode view_operand result (function_call layouts.now.done line function wanted (view_function_type type_.now) (map view_operand operands.items)) }
{
    let _size = check_given(&type_.gives, layouts)?;
    operands.reverse();
    let arguments = arguments_in(alloc, &type_.parameters, &mut operands, layouts)?;
    let extra = extra_arguments(alloc, type_.ellipsis, operands)?;
    let call = given_operand(
        alloc,
        line,
        function,
        wanted,
        &type_.gives,
        arguments,
        layouts,
    )?;
    Ok(behind_extra(alloc, line, extra, call, layouts)?)
}

// A call of the function with a number.
fn callable_call(
    alloc: Global,
    line: u32,
    function: u32,
    wanted: bool,
    operands: Vec<CoreOperand>,
    scope: &Scope,
) -> Result<CoreOperand, Broken>
    ensures { GivesNode view_operand result (callable_call scope.now.records.done line function wanted (slice_get scope.now.functions.all function) (map view_operand operands.items)) }
{
    match scope.functions().function(function) {
        None => Err(Broken::Rule { rule: 10 }),
        Some(callable) => match callable.draws {
            Some(type_) => computed(no_arguments(alloc, &operands, line, type_)),
            None => function_call(
                alloc,
                line,
                function,
                wanted,
                &callable.type_,
                operands,
                scope.layouts(),
            ),
        },
    }
}

fn assertion_call(
    alloc: Global,
    line: u32,
    arguments: Vec<CoreOperand>,
) -> Result<Box<CoreExpr>, Broken>
    ensures { GivesNode boxed result (assertion_call line (map view_operand arguments.items)) }
{
    let condition = one_integer(arguments)?;
    Ok(in_box(alloc, CoreExpr::Assertion { line, condition })?)
}

fn assumption_call(
    alloc: Global,
    line: u32,
    arguments: Vec<CoreOperand>,
) -> Result<Box<CoreExpr>, Broken>
    ensures { GivesNode boxed result (assumption_call line (map view_operand arguments.items)) }
{
    let condition = one_integer(arguments)?;
    Ok(in_box(alloc, CoreExpr::Assumption { line, condition })?)
}

fn call_node(
    alloc: Global,
    line: u32,
    wanted: bool,
    meaning: Meaning,
    arguments: Vec<CoreOperand>,
    scope: &Scope,
) -> Result<CoreOperand, Broken>
    ensures { GivesNode view_operand result (call_node scope.now line wanted meaning (map view_operand arguments.items)) }
{
    match meaning {
        Meaning::Assert => computed(assertion_call(alloc, line, arguments)),
        Meaning::Assume => computed(assumption_call(alloc, line, arguments)),
        Meaning::Draw { type_ } => { computed(no_arguments(alloc, &arguments, line, type_)) }
        Meaning::Function { function } => {
            callable_call(alloc, line, function, wanted, arguments, scope)
        }
        Meaning::Variable { .. }
        | Meaning::Object { .. }
        | Meaning::Incomplete
        | Meaning::BuiltIn { .. }
        | Meaning::Typedef { .. }
        | Meaning::Enumerator { .. }
        | Meaning::Record { .. }
        | Meaning::Enumeration => Err(Broken::Rule { rule: 10 }),
    }
}

/// What a call of a callee is, whose value is wanted or not: a name on a line with its meaning, or no function.
pub fn called(
    alloc: Global,
    wanted: bool,
    callee: Option<(u32, Meaning)>,
    arguments: Vec<CoreOperand>,
    scope: &Scope,
) -> Result<CoreOperand, Broken>
    ensures { GivesNode view_operand result (called scope.now wanted callee (map view_operand arguments.items)) }
{
    match callee {
        Some((line, meaning)) => call_node(alloc, line, wanted, meaning, arguments, scope),
        None => Err(Broken::Rule { rule: 10 }),
    }
}
