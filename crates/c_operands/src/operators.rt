//! What operators make of typed operands.

ghost use Rattle.std.specs.Prelude.{◌≡◌, false, IfOk, Result};
ghost use Rattle.c_types.specs.Types.{view as type_view};
ghost use Rattle.core_tree.specs.Trees.{follow, view, view_structure};
ghost use Rattle.c_scope.specs.Faults.{GivesNode};
ghost use Rattle.c_operands.specs.Operands.{structure, view_operand, computed, valued, number, record_value, dropped, used, put_value, cast_record, cast_operand, unary_operand, postfix_operand, binary_operand, choice_record, choice_value, choice_operand, assign_value, assign_record, assign_nothing, assign_operand, comma_operand};

use crate::nodes::{
    assignment_node, binary_node, cast_node, choice_node, integer, postfix_node, structure_in_box,
    unary_node,
};
use crate::operands::{
    CoreOperand, Home, computed, dropped, made, number, put_value, read_object, record_value,
    valued,
};
use c_scope::{Broken, Scope};
use c_tree::{BinaryOp, StepOp, UnaryOp};
use c_types::{Layouts, Ty};
use core_tree::{CoreExpr, CoreStructure};
use std::alloc::{AllocError, Global};

// An operand of struct, union or array type that is cast to a type.
fn cast_record(
    alloc: Global,
    type_: &Ty,
    operand: CoreOperand,
    layouts: &Layouts,
) -> Result<CoreOperand, Broken>
    ensures { GivesNode view_operand result (cast_record layouts.now.done (type_view type_.now) (view_operand operand)) }
{
    match type_ {
        Ty::Void => Ok(CoreOperand::Value {
            value: dropped(alloc, operand, layouts)?,
            constant: false,
        }),
        Ty::Integer(_) => Err(Broken::Rule { rule: 7 }),
        Ty::Record(_) => Err(Broken::Rule { rule: 7 }),
        Ty::Array { .. } => Err(Broken::Rule { rule: 7 }),
        Ty::Pointer { .. } => Err(Broken::Rule { rule: 7 }),
        Ty::Function(_) => Err(Broken::Rule { rule: 7 }),
    }
}

/// An operand that is cast to a type.
pub fn cast_operand(
    alloc: Global,
    line: u32,
    type_: &Ty,
    operand: CoreOperand,
    layouts: &Layouts,
) -> Result<CoreOperand, Broken>
    ensures { GivesNode view_operand result (cast_operand layouts.now.done line (type_view type_.now) (view_operand operand)) }
{
    match operand {
        CoreOperand::Value { value, .. } => { computed(cast_node(alloc, line, type_, value)) }
        record => cast_record(alloc, type_, record, layouts),
    }
}

/// What a unary operator makes of a typed operand (C11 6.5.3).
pub fn unary_operand(
    alloc: Global,
    line: u32,
    operator: UnaryOp,
    operand: CoreOperand,
) -> Result<CoreOperand, Broken>
    ensures { GivesNode view_operand result (unary_operand line operator (view_operand operand)) }
{
    match operand {
        CoreOperand::Value { value, constant } => {
            computed(unary_node(alloc, constant, line, operator, value))
        }
        CoreOperand::Object { .. } => Err(Broken::Rule { rule: 7 }),
        CoreOperand::Structure { .. } => Err(Broken::Rule { rule: 7 }),
    }
}

/// What `++` or `--` behind an operand makes of it (C11 6.5.2.4).
pub fn postfix_operand(
    alloc: Global,
    line: u32,
    operator: StepOp,
    operand: CoreOperand,
) -> Result<CoreOperand, Broken>
    ensures { GivesNode view_operand result (postfix_operand line operator (view_operand operand)) }
{
    match operand {
        CoreOperand::Value { value, constant } => {
            computed(postfix_node(alloc, constant, line, operator, value))
        }
        CoreOperand::Object { .. } => Err(Broken::Rule { rule: 7 }),
        CoreOperand::Structure { .. } => Err(Broken::Rule { rule: 7 }),
    }
}

/// What a binary operator makes of two typed operands (C11 6.5.5 to 6.5.14).
pub fn binary_operand(
    alloc: Global,
    line: u32,
    operator: BinaryOp,
    left: CoreOperand,
    right: CoreOperand,
) -> Result<CoreOperand, Broken>
    ensures { GivesNode view_operand result (binary_operand line operator (view_operand left) (view_operand right)) }
{
    let left = valued(left, 7)?;
    let right = valued(right, 7)?;
    computed(binary_node(alloc, line, operator, left, right))
}

// A choice with a value of this struct, union or array type.
fn choice_record(
    alloc: Global,
    line: u32,
    test: CoreOperand,
    type_: Ty,
    yes: Box<CoreStructure>,
    no: CoreOperand,
    layouts: &Layouts,
) -> Result<CoreOperand, Broken>
    ensures { GivesNode view_operand result (choice_record layouts.now.done line (view_operand test) (type_view type_) (view_structure yes.value) (view_operand no)) }
{
    let test = number(test, 7)?;
    let no = record_value(alloc, &type_, no, layouts, 7)?;
    let choice = CoreStructure::Choice {
        line,
        test,
        yes,
        no,
    };
    Ok(CoreOperand::Structure {
        type_,
        value: structure_in_box(alloc, choice)?,
    })
}

// A choice with a value of integer type or void.
fn choice_value(
    alloc: Global,
    line: u32,
    test: CoreOperand,
    yes: Box<CoreExpr>,
    no: CoreOperand,
) -> Result<CoreOperand, Broken>
    ensures { GivesNode view_operand result (choice_value line (view_operand test) (view yes.value) (view_operand no)) }
{
    match no {
        CoreOperand::Value { value: no, .. } => {
            let test = valued(test, 7)?;
            computed(choice_node(alloc, line, test, yes, no))
        }
        CoreOperand::Object { .. } => Err(Broken::Rule { rule: 7 }),
        CoreOperand::Structure { .. } => Err(Broken::Rule { rule: 7 }),
    }
}

/// What `?:` makes of its three typed operands (C11 6.5.15).
pub fn choice_operand(
    alloc: Global,
    line: u32,
    test: CoreOperand,
    yes: CoreOperand,
    no: CoreOperand,
    layouts: &Layouts,
) -> Result<CoreOperand, Broken>
    ensures { GivesNode view_operand result (choice_operand layouts.now.done line (view_operand test) (view_operand yes) (view_operand no)) }
{
    match yes {
        CoreOperand::Value { value, .. } => choice_value(alloc, line, test, value, no),
        CoreOperand::Object {
            line: at,
            home,
            offset,
            type_,
            ..
        } => {
            let value = read_object(alloc, at, home, offset, &type_, layouts)?;
            choice_record(alloc, line, test, type_, value, no, layouts)
        }
        CoreOperand::Structure { type_, value } => {
            choice_record(alloc, line, test, type_, value, no, layouts)
        }
    }
}

// An assignment to a place of an integer type.
fn assign_value(
    alloc: Global,
    constant: bool,
    line: u32,
    operator: Option<BinaryOp>,
    place: Box<CoreExpr>,
    value: CoreOperand,
) -> Result<CoreOperand, Broken>
    ensures { GivesNode view_operand result (assign_value constant line operator (view place.value) (view_operand value)) }
{
    match value {
        CoreOperand::Value { value, .. } => computed(assignment_node(
            alloc, constant, line, operator, place, value,
        )),
        CoreOperand::Object { .. } => match operator {
            None => Err(Broken::Rule { rule: 8 }),
            Some(_) => Err(Broken::Rule { rule: 7 }),
        },
        CoreOperand::Structure { .. } => match operator {
            None => Err(Broken::Rule { rule: 8 }),
            Some(_) => Err(Broken::Rule { rule: 7 }),
        },
    }
}

// An assignment on a line to an object of this type, which is const or not, with the line of its place.
fn assign_record(
    alloc: Global,
    line: u32,
    at: u32,
    home: Home,
    offset: u32,
    type_: Ty,
    constant: bool,
    value: CoreOperand,
    scope: &Scope,
) -> Result<CoreOperand, Broken>
    ensures { GivesNode view_operand result (assign_record scope.now line at home offset (type_view type_) constant (view_operand value)) }
{
    let value = record_value(alloc, &type_, value, scope.layouts(), 8)?;
    if constant || scope.is_constant_within(&type_) {
        return Err(Broken::Rule { rule: 9 });
    }
    Ok(CoreOperand::Structure {
        type_,
        value: put_value(alloc, line, at, home, offset, value)?,
    })
}

// An assignment to a value of this type, which is no place.
fn assign_nothing(
    alloc: Global,
    type_: &Ty,
    value: CoreOperand,
    layouts: &Layouts,
) -> Result<CoreOperand, Broken>
    ensures { GivesNode view_operand result (assign_nothing layouts.now.done (type_view type_.now) (view_operand value)) }
{
    let _value = record_value(alloc, type_, value, layouts, 8)?;
    Err(Broken::Rule { rule: 9 })
}

/// What an assignment makes of its two typed operands (C11 6.5.16).
pub fn assign_operand(
    alloc: Global,
    line: u32,
    operator: Option<BinaryOp>,
    place: CoreOperand,
    value: CoreOperand,
    scope: &Scope,
) -> Result<CoreOperand, Broken>
    ensures { GivesNode view_operand result (assign_operand scope.now line operator (view_operand place) (view_operand value)) }
{
    match place {
        CoreOperand::Value {
            value: place,
            constant,
        } => assign_value(alloc, constant, line, operator, place, value),
        CoreOperand::Object {
            line: at,
            home,
            offset,
            type_,
            constant,
        } => match operator {
            None => assign_record(alloc, line, at, home, offset, type_, constant, value, scope),
            Some(_) => Err(Broken::Rule { rule: 7 }),
        },
        CoreOperand::Structure { type_, .. } => match operator {
            None => assign_nothing(alloc, &type_, value, scope.layouts()),
            Some(_) => Err(Broken::Rule { rule: 7 }),
        },
    }
}

// A structure value behind another value that isn't used.
fn behind(
    alloc: Global,
    line: u32,
    left: Box<CoreExpr>,
    type_: Ty,
    right: Box<CoreStructure>,
) -> Result<CoreOperand, AllocError>
    ensures { IfOk result (λ x. view_operand x ≡ structure (type_view type_) (follow line (view left.value) (view_structure right.value))) }
{
    Ok(CoreOperand::Structure {
        type_,
        value: structure_in_box(alloc, CoreStructure::Comma { line, left, right })?,
    })
}

/// What a comma makes of its two typed operands (C11 6.5.17).
pub fn comma_operand(
    alloc: Global,
    line: u32,
    left: CoreOperand,
    right: CoreOperand,
    layouts: &Layouts,
) -> Result<CoreOperand, AllocError>
    ensures { IfOk result (λ x. view_operand x ≡ comma_operand layouts.now.done line (view_operand left) (view_operand right)) }
{
    let left = dropped(alloc, left, layouts)?;
    match right {
        CoreOperand::Value { value: right, .. } => made(
            alloc,
            CoreExpr::Comma { line, left, right },
        ),
        CoreOperand::Object {
            line: at,
            home,
            offset,
            type_,
            ..
        } => {
            let right = read_object(alloc, at, home, offset, &type_, layouts)?;
            behind(alloc, line, left, type_, right)
        }
        CoreOperand::Structure { type_, value } => behind(alloc, line, left, type_, value),
    }
}
