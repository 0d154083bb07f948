//! What `+`, `-`, comparisons and `?:` make of used operands, pointers among them (C11 6.5.6, 6.5.8, 6.5.9, 6.5.15).

ghost use Rattle.std.specs.Prelude.{◌≡◌, IfOk};
ghost use Rattle.c_types.specs.Types.{view as type_view};
ghost use Rattle.core_tree.specs.Trees.{sum, view};
ghost use Rattle.c_scope.specs.Faults.{GivesNode};
ghost use Rattle.c_operators.specs.Pointers.{view_typed, plain, forth, back, stepped, kind_of, type_in, valued, arithmetic_type, arithmetic_node, add_node, distance_node, subtract_node, relation_node, with_void, equal_pointers, equality_node};

use crate::typed_operands::{TypedOperand, is_function, is_void};
use c_operands::{as_type, binary_node, in_box};
use c_scope::{Broken, same_ctype, type_size};
use c_tree::BinaryOp;
use c_types::{IntegerType, Layouts, Ty, common, promote};
use core_tree::{Comparison, CoreExpr};
use std::alloc::{AllocError, Global};

/// The expression of a used operand that is a value, with its type.
pub fn valued(operand: TypedOperand) -> Result<(Ty, Box<CoreExpr>), Broken>
    ensures value { GivesNode (λ p. view p.1.value) result (valued (view_typed operand)) }
    ensures type_ { IfOk result (λ p. type_view p.0 ≡ type_in (view_typed operand)) }
{
    match operand {
        TypedOperand::Value { type_, value, .. } => Ok((type_, value)),
        TypedOperand::Place { .. }
        | TypedOperand::Structure { .. }
        | TypedOperand::Designator { .. } => Err(Broken::Rule { rule: 7 }),
    }
}

// The type of an operator's result whose operands are both integers.
fn arithmetic_type(operator: BinaryOp, left: IntegerType, right: IntegerType) -> IntegerType
    ensures { result ≡ arithmetic_type operator left right }
{
    match operator {
        BinaryOp::ShiftLeft | BinaryOp::ShiftRight => promote(left),
        BinaryOp::LogicalOr
        | BinaryOp::LogicalAnd
        | BinaryOp::Equal
        | BinaryOp::NotEqual
        | BinaryOp::Less
        | BinaryOp::Greater
        | BinaryOp::LessEqual
        | BinaryOp::GreaterEqual => IntegerType::Int,
        BinaryOp::Or
        | BinaryOp::Xor
        | BinaryOp::And
        | BinaryOp::Add
        | BinaryOp::Subtract
        | BinaryOp::Multiply
        | BinaryOp::Divide
        | BinaryOp::Remainder => common(left, right),
    }
}

/// An operator of two integers.
pub fn arithmetic_node(
    alloc: Global,
    line: u32,
    operator: BinaryOp,
    types: (IntegerType, IntegerType),
    left: Box<CoreExpr>,
    right: Box<CoreExpr>,
) -> Result<TypedOperand, Broken>
    ensures { GivesNode view_typed result (arithmetic_node line operator types.0 types.1 (view left.value) (view right.value)) }
{
    let value = binary_node(alloc, line, operator, left, right)?;
    Ok(TypedOperand::Value {
        type_: Ty::Integer(arithmetic_type(operator, types.0, types.1)),
        null: false,
        value,
    })
}

/// The bytes by which a pointer to a type moves for each of a number.
pub fn step_forth(to: &Ty, layouts: &Layouts) -> Result<i64, Broken>
    ensures { GivesNode (λ n. n) result (stepped layouts.now.done (type_view to.now) forth) }
{
    let size = type_size(to, layouts)?;
    Ok(size as i64)
}

/// The same, backwards.
pub fn step_back(to: &Ty, layouts: &Layouts) -> Result<i64, Broken>
    ensures { GivesNode (λ n. n) result (stepped layouts.now.done (type_view to.now) back) }
{
    let size = type_size(to, layouts)?;
    Ok(-(size as i64))
}

// A pointer of this type and a number of steps.
fn moved(
    alloc: Global,
    line: u32,
    type_: Ty,
    pointer: Box<CoreExpr>,
    index: Box<CoreExpr>,
    step: i64,
    swapped: bool,
) -> Result<TypedOperand, AllocError>
    ensures { IfOk result (λ x. view_typed x ≡ plain (type_view type_) (sum line (view pointer.value) (view index.value) step swapped)) }
{
    let node = CoreExpr::Sum {
        line,
        pointer,
        index,
        step,
        swapped,
    };
    Ok(TypedOperand::Value {
        type_,
        null: false,
        value: in_box(alloc, node)?,
    })
}

/// The sum of two values of these types.
pub fn add_node(
    alloc: Global,
    line: u32,
    left: (Ty, Box<CoreExpr>),
    right: (Ty, Box<CoreExpr>),
    layouts: &Layouts,
) -> Result<TypedOperand, Broken>
    ensures { GivesNode view_typed result (add_node layouts.now.done line (kind_of (type_view left.0)) (kind_of (type_view right.0)) (view left.1.value) (view right.1.value)) }
{
    let (l, a) = left;
    let (r, b) = right;
    match (&l, &r) {
        (Ty::Integer(t), Ty::Integer(u)) => {
            arithmetic_node(alloc, line, BinaryOp::Add, (*t, *u), a, b)
        }
        (Ty::Pointer { to, .. }, Ty::Integer(_)) => {
            let step = step_forth(to, layouts)?;
            Ok(moved(alloc, line, l, a, b, step, false)?)
        }
        (Ty::Integer(_), Ty::Pointer { to, .. }) => {
            let step = step_forth(to, layouts)?;
            Ok(moved(alloc, line, r, b, a, step, true)?)
        }
        _ => Err(Broken::Rule { rule: 7 }),
    }
}

// How many elements lie between two pointers to these types.
fn distance_node(
    alloc: Global,
    line: u32,
    to: &Ty,
    other: &Ty,
    left: Box<CoreExpr>,
    right: Box<CoreExpr>,
    layouts: &Layouts,
) -> Result<TypedOperand, Broken>
    ensures { GivesNode view_typed result (distance_node layouts.now.done line (type_view to.now) (type_view other.now) (view left.value) (view right.value)) }
{
    if !same_ctype(to, other) {
        return Err(Broken::Rule { rule: 7 });
    }
    let step = type_size(to, layouts)? as u32;
    let node = CoreExpr::Distance {
        line,
        left,
        right,
        step,
    };
    Ok(TypedOperand::Value {
        type_: Ty::Integer(IntegerType::Long),
        null: false,
        value: in_box(alloc, node)?,
    })
}

/// The difference of two values of these types.
pub fn subtract_node(
    alloc: Global,
    line: u32,
    left: (Ty, Box<CoreExpr>),
    right: (Ty, Box<CoreExpr>),
    layouts: &Layouts,
) -> Result<TypedOperand, Broken>
    ensures { GivesNode view_typed result (subtract_node layouts.now.done line (kind_of (type_view left.0)) (kind_of (type_view right.0)) (view left.1.value) (view right.1.value)) }
{
    let (l, a) = left;
    let (r, b) = right;
    match (&l, &r) {
        (Ty::Integer(t), Ty::Integer(u)) => {
            arithmetic_node(alloc, line, BinaryOp::Subtract, (*t, *u), a, b)
        }
        (Ty::Pointer { to, .. }, Ty::Integer(_)) => {
            let step = step_back(to, layouts)?;
            Ok(moved(alloc, line, l, a, b, step, false)?)
        }
        (Ty::Pointer { to, .. }, Ty::Pointer { to: other, .. }) => {
            distance_node(alloc, line, to, other, a, b, layouts)
        }
        _ => Err(Broken::Rule { rule: 7 }),
    }
}

/// Which of two values of these types comes first.
pub fn relation_node(
    alloc: Global,
    line: u32,
    operator: BinaryOp,
    comparison: Comparison,
    left: (Ty, Box<CoreExpr>),
    right: (Ty, Box<CoreExpr>),
) -> Result<TypedOperand, Broken>
    ensures { GivesNode view_typed result (relation_node line operator comparison (kind_of (type_view left.0)) (kind_of (type_view right.0)) (view left.1.value) (view right.1.value)) }
{
    let (l, a) = left;
    let (r, b) = right;
    match (&l, &r) {
        (Ty::Integer(t), Ty::Integer(u)) => {
            arithmetic_node(alloc, line, operator, (*t, *u), a, b)
        }
        (Ty::Pointer { to, .. }, Ty::Pointer { to: other, .. }) => {
            if same_ctype(to, other) && !is_function(to) {
                let node = CoreExpr::Relation {
                    line,
                    operator: comparison,
                    left: a,
                    right: b,
                };
                Ok(TypedOperand::Value {
                    type_: Ty::Integer(IntegerType::Int),
                    null: false,
                    value: in_box(alloc, node)?,
                })
            } else {
                Err(Broken::Rule { rule: 7 })
            }
        }
        _ => Err(Broken::Rule { rule: 7 }),
    }
}

/// A pointer to objects beside one to void.
pub fn with_void(to: &Ty, other: &Ty) -> bool
    ensures { result ≡ with_void (type_view to.now) (type_view other.now) }
{
    (is_void(to) && !is_function(other)) || (is_void(other) && !is_function(to))
}

// Two pointers compared as 64 bits.
fn equal_pointers(
    alloc: Global,
    line: u32,
    operator: Comparison,
    left: Box<CoreExpr>,
    right: Box<CoreExpr>,
) -> Result<TypedOperand, AllocError>
    ensures { IfOk result (λ x. view_typed x ≡ equal_pointers line operator (view left.value) (view right.value)) }
{
    let left = as_type(alloc, IntegerType::UnsignedLong, left)?;
    let right = as_type(alloc, IntegerType::UnsignedLong, right)?;
    let node = CoreExpr::Compare {
        line,
        operator,
        left,
        right,
    };
    Ok(TypedOperand::Value {
        type_: Ty::Integer(IntegerType::Int),
        null: false,
        value: in_box(alloc, node)?,
    })
}

/// Whether two values of these types are equal, of which each may be a null pointer constant.
pub fn equality_node(
    alloc: Global,
    line: u32,
    operator: BinaryOp,
    comparison: Comparison,
    left: (Ty, Box<CoreExpr>),
    right: (Ty, Box<CoreExpr>),
    nulls: (bool, bool),
) -> Result<TypedOperand, Broken>
    ensures { GivesNode view_typed result (equality_node line operator comparison (kind_of (type_view left.0)) (kind_of (type_view right.0)) nulls.0 nulls.1 (view left.1.value) (view right.1.value)) }
{
    let (l, a) = left;
    let (r, b) = right;
    let fits = match (&l, &r) {
        (Ty::Integer(t), Ty::Integer(u)) => {
            return arithmetic_node(alloc, line, operator, (*t, *u), a, b);
        }
        (Ty::Pointer { to, .. }, Ty::Pointer { to: other, .. }) => {
            same_ctype(to, other) || with_void(to, other) || nulls.0 || nulls.1
        }
        (Ty::Pointer { .. }, Ty::Integer(_)) => nulls.1,
        (Ty::Integer(_), Ty::Pointer { .. }) => nulls.0,
        _ => false,
    };
    if fits {
        Ok(equal_pointers(alloc, line, comparison, a, b)?)
    } else {
        Err(Broken::Rule { rule: 7 })
    }
}
