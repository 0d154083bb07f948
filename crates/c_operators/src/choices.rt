//! `?:` of used operands (C11 6.5.15).

ghost use Rattle.std.specs.Prelude.{◌≡◌, option_map, IfOk};
ghost use Rattle.c_types.specs.Types.{integer, view as type_view};
ghost use Rattle.core_tree.specs.Trees.{choice, view, view_structure};
ghost use Rattle.c_scope.specs.Faults.{GivesNode};
ghost use Rattle.c_operands.specs.Nodes.{as_type};
ghost use Rattle.c_operators.specs.Pointers.{view_typed, plain, common_pointee, chosen_pointer, chosen_node, chosen, chosen_record, choice_by, choice_operand};

use crate::conversions::{is_null, same_record, scalar};
use crate::pointer_operators::with_void;
use crate::typed_operands::{TypedOperand, made};
use c_operands::{as_type, structure_in_box};
use c_scope::{Broken, same_ctype};
use c_types::{IntegerType, Ty, common};
use core_tree::{CoreExpr, CoreStructure};
use std::alloc::{AllocError, Global};

// What both of two pointers that are no null pointer constants may point to.
fn common_pointee(to: &Ty, other: &Ty) -> Result<Option<Ty>, AllocError>
    ensures { IfOk result (λ o. option_map type_view o ≡ common_pointee (type_view to.now) (type_view other.now)) }
{
    if same_ctype(to, other) {
        return Ok(Some(to.copied()?));
    }
    if with_void(to, other) {
        Ok(Some(Ty::Void))
    } else {
        Ok(None)
    }
}

// What a pointer that is one of two points to, of which each may be a null pointer constant, and whether that is const.
fn chosen_pointer(
    to: &Ty,
    constant: bool,
    other: &Ty,
    fixed: bool,
    nulls: (bool, bool),
) -> Result<Option<(Ty, bool)>, AllocError>
    ensures { IfOk result (λ o. option_map (λ p. (type_view p.0, p.1)) o ≡ chosen_pointer (type_view to.now) constant (type_view other.now) fixed nulls.0 nulls.1) }
{
    match nulls {
        (true, false) => Ok(Some((other.copied()?, fixed))),
        (false, true) => Ok(Some((to.copied()?, constant))),
        (true, true) | (false, false) => match common_pointee(to, other)? {
            Some(common) => Ok(Some((common, constant || fixed))),
            None => Ok(None),
        },
    }
}

// A choice of two numbers that are pointers to this type, const or not.
fn chosen_node(
    alloc: Global,
    line: u32,
    test: Box<CoreExpr>,
    pointee: Option<(Ty, bool)>,
    yes: Box<CoreExpr>,
    no: Box<CoreExpr>,
) -> Result<TypedOperand, Broken>
    ensures { GivesNode view_typed result (chosen_node line (view test.value) (option_map (λ p. (type_view p.0, p.1)) pointee) (view yes.value) (view no.value)) }
{
    match pointee {
        Some((to, constant)) => {
            let type_ = Ty::pointer(alloc, to, constant)?;
            let yes = as_type(alloc, IntegerType::UnsignedLong, yes)?;
            let no = as_type(alloc, IntegerType::UnsignedLong, no)?;
            let choice = CoreExpr::Choice {
                line,
                test,
                yes,
                no,
            };
            Ok(made(alloc, type_, choice)?)
        }
        None => Err(Broken::Rule { rule: 7 }),
    }
}

// A choice of two numbers.
fn chosen_number(
    alloc: Global,
    line: u32,
    test: Box<CoreExpr>,
    type_: IntegerType,
    yes: Box<CoreExpr>,
    no: Box<CoreExpr>,
) -> Result<TypedOperand, AllocError>
    ensures { IfOk result (λ x. view_typed x ≡ plain (integer type_) (choice line (view test.value) (as_type type_ (view yes.value)) (as_type type_ (view no.value)))) }
{
    let yes = as_type(alloc, type_, yes)?;
    let no = as_type(alloc, type_, no)?;
    let choice = CoreExpr::Choice {
        line,
        test,
        yes,
        no,
    };
    made(alloc, Ty::Integer(type_), choice)
}

// A choice of two values of these types, of which each may be a null pointer constant.
fn chosen(
    alloc: Global,
    line: u32,
    test: Box<CoreExpr>,
    yes: (Ty, Box<CoreExpr>),
    no: (Ty, Box<CoreExpr>),
    nulls: (bool, bool),
) -> Result<TypedOperand, Broken>
    ensures { GivesNode view_typed result (chosen line (view test.value) (type_view yes.0) (type_view no.0) nulls.0 nulls.1 (view yes.1.value) (view no.1.value)) }
{
    let (l, a) = yes;
    let (r, b) = no;
    match (&l, &r) {
        (Ty::Integer(t), Ty::Integer(u)) => {
            Ok(chosen_number(alloc, line, test, common(*t, *u), a, b)?)
        }
        (Ty::Void, Ty::Void) => {
            let choice = CoreExpr::Choice {
                line,
                test,
                yes: a,
                no: b,
            };
            Ok(made(alloc, Ty::Void, choice)?)
        }
        (
            Ty::Pointer { to, constant },
            Ty::Pointer {
                to: other,
                constant: fixed,
            },
        ) => {
            let pointee = chosen_pointer(to, *constant, other, *fixed, nulls)?;
            chosen_node(alloc, line, test, pointee, a, b)
        }
        (Ty::Pointer { to, constant }, Ty::Integer(_)) => {
            if !nulls.1 {
                return Err(Broken::Rule { rule: 7 });
            }
            chosen_node(alloc, line, test, Some((to.copied()?, *constant)), a, b)
        }
        (Ty::Integer(_), Ty::Pointer { to, constant }) => {
            if !nulls.0 {
                return Err(Broken::Rule { rule: 7 });
            }
            chosen_node(alloc, line, test, Some((to.copied()?, *constant)), a, b)
        }
        _ => Err(Broken::Rule { rule: 7 }),
    }
}

// A choice of two values of struct or union types.
fn chosen_record(
    alloc: Global,
    line: u32,
    test: Box<CoreExpr>,
    yes: (Ty, Box<CoreStructure>),
    no: (Ty, Box<CoreStructure>),
) -> Result<TypedOperand, Broken>
    ensures { GivesNode view_typed result (chosen_record line (view test.value) (type_view yes.0) (type_view no.0) (view_structure yes.1.value) (view_structure no.1.value)) }
{
    let (type_, yes) = yes;
    let (other, no) = no;
    let fits = match &type_ {
        Ty::Record(place) => same_record(*place, &other),
        Ty::Void | Ty::Integer(_) | Ty::Array { .. } | Ty::Pointer { .. } | Ty::Function(_) =>
            false,
    };
    if !fits {
        return Err(Broken::Rule { rule: 7 });
    }
    let choice = CoreStructure::Choice {
        line,
        test,
        yes,
        no,
    };
    Ok(TypedOperand::Structure {
        type_,
        value: structure_in_box(alloc, choice)?,
    })
}

// A choice of two used operands.
fn choice_by(
    alloc: Global,
    line: u32,
    test: Box<CoreExpr>,
    yes: TypedOperand,
    no: TypedOperand,
) -> Result<TypedOperand, Broken>
    ensures { GivesNode view_typed result (choice_by line (view test.value) (view_typed yes) (view_typed no)) }
{
    let nulls = (is_null(&yes), is_null(&no));
    match (yes, no) {
        (
            TypedOperand::Value {
                type_: t,
                value: a,
                ..
            },
            TypedOperand::Value {
                type_: u,
                value: b,
                ..
            },
        ) => chosen(alloc, line, test, (t, a), (u, b), nulls),
        (
            TypedOperand::Structure { type_: t, value: a },
            TypedOperand::Structure { type_: u, value: b },
        ) => chosen_record(alloc, line, test, (t, a), (u, b)),
        _ => Err(Broken::Rule { rule: 7 }),
    }
}

/// `?:` of used operands.
pub fn choice_operand(
    alloc: Global,
    line: u32,
    test: TypedOperand,
    yes: TypedOperand,
    no: TypedOperand,
) -> Result<TypedOperand, Broken>
    ensures { GivesNode view_typed result (choice_operand line (view_typed test) (view_typed yes) (view_typed no)) }
{
    let test = scalar(test, 7)?;
    choice_by(alloc, line, test, yes, no)
}
