//! What an operator makes of typed values, or the lowest rule that they break.

ghost use Rattle.std.specs.Prelude.{◌≡◌, ◌≤◌, ◌%◌, ◌^◌, option_map, IfOk};
ghost use Rattle.c_types.specs.Types.{view as type_view, integer as integer_type};
ghost use Rattle.core_tree.specs.Trees.{view, view_place, boxed};
ghost use Rattle.core_tree.specs.Typed.{type_of, is_shift};
ghost use Rattle.c_scope.specs.Faults.{required, GivesNode};
ghost use Rattle.c_operands.specs.Nodes.{integer, as_type, place_of, target_of, constant_type, constant_node, character_node, size_node, value_size, discarded, cast_node, sign_node, not_node, step_node, unary_node, postfix_node, left_type, right_type, arithmetic_node, compare_node, logical_node, binary_node, chosen, choice_node, assign_node, operator_of, update_node, assignment_node};

use c_scope::Broken;
use c_token::{Constant, ConstantType};
use c_tree::{BinaryOp, StepOp, UnaryOp};
use c_types::{IntegerType, Ty, ValueType, common, promote};
use core_tree::{
    ArithmeticOperator, Comparison, CoreExpr, CoreStructure, LogicalOperator, Place, SignOperator,
    StepOperator, type_of,
};
use std::alloc::{AllocError, Global};

/// The integer type of a value, or the broken rule.
pub fn integer(expr: &CoreExpr, rule: u32) -> Result<IntegerType, Broken>
    ensures { GivesNode (λ t. t) result (integer rule (view expr.now)) }
{
    match type_of(expr) {
        ValueType::Integer(type_) => Ok(type_),
        ValueType::Void => Err(Broken::Rule { rule }),
    }
}

fn place_of(expr: Box<CoreExpr>) -> Option<Box<Place>>
    ensures { option_map (λ p. view_place p.value) result ≡ place_of (view expr.value) }
{
    match Box::into_inner(expr) {
        CoreExpr::Read { place, .. } => Some(place),
        _ => None,
    }
}

// The place that may be changed, which isn't const.
fn target(constant: bool, expr: Box<CoreExpr>) -> Result<Box<Place>, Broken>
    ensures { GivesNode (λ p. view_place p.value) result (required 9 (target_of constant (view expr.value))) }
{
    if constant {
        return Err(Broken::Rule { rule: 9 });
    }
    match place_of(expr) {
        Some(place) => Ok(place),
        None => Err(Broken::Rule { rule: 9 }),
    }
}

/// A node on the heap. The one place where it is dropped when there is no memory.
pub fn in_box(alloc: Global, node: CoreExpr) -> Result<Box<CoreExpr>, AllocError>
    ensures { IfOk result (λ e. e.value ≡ node) }
{
    Ok(Box::new(alloc, node)?)
}

/// The same of a structure value.
pub fn structure_in_box(
    alloc: Global,
    node: CoreStructure,
) -> Result<Box<CoreStructure>, AllocError>
    ensures { IfOk result (λ a. a.value ≡ node) }
{
    Ok(Box::new(alloc, node)?)
}

/// The same of a place.
pub fn place_in_box(alloc: Global, place: Place) -> Result<Box<Place>, AllocError>
    ensures { IfOk result (λ p. p.value ≡ place) }
{
    Ok(Box::new(alloc, place)?)
}

/// The value in a type: a conversion stands only where it changes the type.
pub fn as_type(
    alloc: Global,
    type_: IntegerType,
    expr: Box<CoreExpr>,
) -> Result<Box<CoreExpr>, AllocError>
    ensures { IfOk result (λ e. view e.value ≡ as_type type_ (view expr.value)) }
{
    if type_of(&expr) == ValueType::Integer(type_) {
        Ok(expr)
    } else {
        in_box(
            alloc,
            CoreExpr::Convert {
                to: type_,
                operand: expr,
            },
        )
    }
}

fn constant_type(type_: ConstantType) -> IntegerType
    ensures { result ≡ constant_type type_ }
{
    match type_ {
        ConstantType::Int => IntegerType::Int,
        ConstantType::UnsignedInt => IntegerType::UnsignedInt,
        ConstantType::Long => IntegerType::Long,
        ConstantType::UnsignedLong => IntegerType::UnsignedLong,
        ConstantType::LongLong => IntegerType::LongLong,
        ConstantType::UnsignedLongLong => IntegerType::UnsignedLongLong,
    }
}

/// The last bits of a number.
pub fn low_bits(value: u64, width: u32) -> u64
    requires { width ≤ 64 }
    ensures { result ≡ value % 2 ^ width }
{
    if width < 64 {
        value % (1 << width)
    } else {
        value
    }
}

/// The node of an integer constant: its value in its type (C11 6.4.4.1).
pub fn constant_node(line: u32, constant: &Constant) -> CoreExpr
    ensures { view result ≡ constant_node line constant.now }
{
    let type_ = constant_type(constant.type_);
    let bits = low_bits(constant.value, type_.width());
    CoreExpr::Constant { line, type_, bits }
}

/// The node of a character constant: an `int` (C11 6.4.4.4p10).
pub fn character_node(line: u32, bits: u32) -> CoreExpr
    ensures { view result ≡ character_node line bits }
{
    CoreExpr::Constant {
        line,
        type_: IntegerType::Int,
        bits: low_bits(bits as u64, 32),
    }
}

/// A constant of type unsigned long.
pub fn size_node(line: u32, size: u64) -> CoreExpr
    ensures { view result ≡ size_node line size }
{
    CoreExpr::Constant {
        line,
        type_: IntegerType::UnsignedLong,
        bits: low_bits(size, 64),
    }
}

/// The bytes of a value's type.
pub fn value_size(type_: ValueType) -> Result<u64, Broken>
    ensures { GivesNode (λ n. n) result (value_size type_) }
{
    match type_ {
        ValueType::Void => Err(Broken::Rule { rule: 3 }),
        ValueType::Integer(integer) => Ok(integer.size() as u64),
    }
}

// A value that isn't used.
fn discarded(alloc: Global, line: u32, expr: Box<CoreExpr>) -> Result<Box<CoreExpr>, AllocError>
    ensures { IfOk result (λ e. view e.value ≡ discarded line (type_of (view expr.value)) (view expr.value)) }
{
    match type_of(&expr) {
        ValueType::Void => Ok(expr),
        ValueType::Integer(_) => in_box(
            alloc,
            CoreExpr::Discard {
                line,
                operand: expr,
            },
        ),
    }
}

// The value of an integer, converted.
fn converted_to(
    alloc: Global,
    to: IntegerType,
    expr: Box<CoreExpr>,
) -> Result<Box<CoreExpr>, Broken>
    ensures { GivesNode boxed result (cast_node 0 (integer_type to) (view expr.value)) }
{
    let _type = integer(&expr, 7)?;
    let converted = CoreExpr::Convert { to, operand: expr };
    Ok(in_box(alloc, converted)?)
}

/// A value that is cast to a type.
pub fn cast_node(
    alloc: Global,
    line: u32,
    type_: &Ty,
    expr: Box<CoreExpr>,
) -> Result<Box<CoreExpr>, Broken>
    ensures { GivesNode boxed result (cast_node line (type_view type_.now) (view expr.value)) }
{
    match type_ {
        Ty::Void => Ok(discarded(alloc, line, expr)?),
        Ty::Integer(to) => converted_to(alloc, *to, expr),
        Ty::Pointer { .. } => converted_to(alloc, IntegerType::UnsignedLong, expr),
        Ty::Record(_) => Err(Broken::Rule { rule: 7 }),
        Ty::Array { .. } => Err(Broken::Rule { rule: 7 }),
        Ty::Function(_) => Err(Broken::Rule { rule: 7 }),
    }
}

fn sign_node(
    alloc: Global,
    line: u32,
    operator: SignOperator,
    expr: Box<CoreExpr>,
) -> Result<Box<CoreExpr>, Broken>
    ensures { GivesNode boxed result (sign_node line operator (view expr.value)) }
{
    let type_ = integer(&expr, 7)?;
    let operand = as_type(alloc, promote(type_), expr)?;
    let signed = CoreExpr::Sign {
        line,
        operator,
        operand,
    };
    Ok(in_box(alloc, signed)?)
}

fn not_node(alloc: Global, line: u32, operand: Box<CoreExpr>) -> Result<Box<CoreExpr>, Broken>
    ensures { GivesNode boxed result (not_node line (view operand.value)) }
{
    let _type = integer(&operand, 7)?;
    Ok(in_box(alloc, CoreExpr::IsZero { line, operand })?)
}

fn step_node(
    alloc: Global,
    constant: bool,
    line: u32,
    operator: StepOperator,
    before: bool,
    expr: Box<CoreExpr>,
) -> Result<Box<CoreExpr>, Broken>
    ensures { GivesNode boxed result (step_node constant line operator before (view expr.value)) }
{
    let type_ = integer(&expr, 7)?;
    let place = target(constant, expr)?;
    let step = CoreExpr::Step {
        line,
        type_,
        place,
        operator,
        before,
    };
    Ok(in_box(alloc, step)?)
}

/// The node of a unary operator on its operand's value, or the rule that this breaks (C11 6.5.3).
pub fn unary_node(
    alloc: Global,
    constant: bool,
    line: u32,
    operator: UnaryOp,
    expr: Box<CoreExpr>,
) -> Result<Box<CoreExpr>, Broken>
    ensures { GivesNode boxed result (unary_node constant line operator (view expr.value)) }
{
    match operator {
        UnaryOp::Increment => step_node(alloc, constant, line, StepOperator::Increment, true, expr),
        UnaryOp::Decrement => step_node(alloc, constant, line, StepOperator::Decrement, true, expr),
        UnaryOp::Plus => sign_node(alloc, line, SignOperator::Plus, expr),
        UnaryOp::Minus => sign_node(alloc, line, SignOperator::Minus, expr),
        UnaryOp::Complement => sign_node(alloc, line, SignOperator::Complement, expr),
        UnaryOp::Not => not_node(alloc, line, expr),
    }
}

/// The node of `++` or `--` behind its operand (C11 6.5.2.4).
pub fn postfix_node(
    alloc: Global,
    constant: bool,
    line: u32,
    operator: StepOp,
    expr: Box<CoreExpr>,
) -> Result<Box<CoreExpr>, Broken>
    ensures { GivesNode boxed result (postfix_node constant line operator (view expr.value)) }
{
    match operator {
        StepOp::Increment => step_node(alloc, constant, line, StepOperator::Increment, false, expr),
        StepOp::Decrement => step_node(alloc, constant, line, StepOperator::Decrement, false, expr),
    }
}

/// Whether an operator shifts: its operands are promoted each by itself (C11 6.5.7p3).
pub fn is_shift(operator: ArithmeticOperator) -> bool
    ensures { result ≡ is_shift operator }
{
    match operator {
        ArithmeticOperator::ShiftLeft | ArithmeticOperator::ShiftRight => true,
        ArithmeticOperator::Multiply
        | ArithmeticOperator::Divide
        | ArithmeticOperator::Remainder
        | ArithmeticOperator::Add
        | ArithmeticOperator::Subtract
        | ArithmeticOperator::And
        | ArithmeticOperator::Xor
        | ArithmeticOperator::Or => false,
    }
}

/// The type of the left operand of an operator of two numbers.
pub fn left_type(operator: ArithmeticOperator, left: IntegerType, right: IntegerType) -> IntegerType
    ensures { result ≡ left_type operator left right }
{
    if is_shift(operator) {
        promote(left)
    } else {
        common(left, right)
    }
}

/// The type of the right operand.
pub fn right_type(
    operator: ArithmeticOperator,
    left: IntegerType,
    right: IntegerType,
) -> IntegerType
    ensures { result ≡ right_type operator left right }
{
    if is_shift(operator) {
        promote(right)
    } else {
        common(left, right)
    }
}

fn arithmetic_node(
    alloc: Global,
    line: u32,
    operator: ArithmeticOperator,
    left: Box<CoreExpr>,
    right: Box<CoreExpr>,
) -> Result<Box<CoreExpr>, Broken>
    ensures { GivesNode boxed result (arithmetic_node line operator (view left.value) (view right.value)) }
{
    let t = integer(&left, 7)?;
    let u = integer(&right, 7)?;
    let left = as_type(alloc, left_type(operator, t, u), left)?;
    let right = as_type(alloc, right_type(operator, t, u), right)?;
    let arithmetic = CoreExpr::Arithmetic {
        line,
        operator,
        left,
        right,
    };
    Ok(in_box(alloc, arithmetic)?)
}

fn compare_node(
    alloc: Global,
    line: u32,
    operator: Comparison,
    left: Box<CoreExpr>,
    right: Box<CoreExpr>,
) -> Result<Box<CoreExpr>, Broken>
    ensures { GivesNode boxed result (compare_node line operator (view left.value) (view right.value)) }
{
    let t = integer(&left, 7)?;
    let u = integer(&right, 7)?;
    let left = as_type(alloc, common(t, u), left)?;
    let right = as_type(alloc, common(t, u), right)?;
    let comparison = CoreExpr::Compare {
        line,
        operator,
        left,
        right,
    };
    Ok(in_box(alloc, comparison)?)
}

fn logical_node(
    alloc: Global,
    line: u32,
    operator: LogicalOperator,
    left: Box<CoreExpr>,
    right: Box<CoreExpr>,
) -> Result<Box<CoreExpr>, Broken>
    ensures { GivesNode boxed result (logical_node line operator (view left.value) (view right.value)) }
{
    let _t = integer(&left, 7)?;
    let _u = integer(&right, 7)?;
    let logical = CoreExpr::Logical {
        line,
        operator,
        left,
        right,
    };
    Ok(in_box(alloc, logical)?)
}

/// The node of a binary operator on two numbers (C11 6.5.5 to 6.5.14).
pub fn binary_node(
    alloc: Global,
    line: u32,
    operator: BinaryOp,
    left: Box<CoreExpr>,
    right: Box<CoreExpr>,
) -> Result<Box<CoreExpr>, Broken>
    ensures { GivesNode boxed result (binary_node line operator (view left.value) (view right.value)) }
{
    match operator {
        BinaryOp::LogicalOr => logical_node(alloc, line, LogicalOperator::Or, left, right),
        BinaryOp::LogicalAnd => logical_node(alloc, line, LogicalOperator::And, left, right),
        BinaryOp::Or => arithmetic_node(alloc, line, ArithmeticOperator::Or, left, right),
        BinaryOp::Xor => arithmetic_node(alloc, line, ArithmeticOperator::Xor, left, right),
        BinaryOp::And => arithmetic_node(alloc, line, ArithmeticOperator::And, left, right),
        BinaryOp::Equal => compare_node(alloc, line, Comparison::Equal, left, right),
        BinaryOp::NotEqual => compare_node(alloc, line, Comparison::NotEqual, left, right),
        BinaryOp::Less => compare_node(alloc, line, Comparison::Less, left, right),
        BinaryOp::Greater => compare_node(alloc, line, Comparison::Greater, left, right),
        BinaryOp::LessEqual => compare_node(alloc, line, Comparison::LessEqual, left, right),
        BinaryOp::GreaterEqual => compare_node(alloc, line, Comparison::GreaterEqual, left, right),
        BinaryOp::ShiftLeft => arithmetic_node(
            alloc,
            line,
            ArithmeticOperator::ShiftLeft,
            left,
            right,
        ),
        BinaryOp::ShiftRight => arithmetic_node(
            alloc,
            line,
            ArithmeticOperator::ShiftRight,
            left,
            right,
        ),
        BinaryOp::Add => arithmetic_node(alloc, line, ArithmeticOperator::Add, left, right),
        BinaryOp::Subtract => arithmetic_node(
            alloc,
            line,
            ArithmeticOperator::Subtract,
            left,
            right,
        ),
        BinaryOp::Multiply => arithmetic_node(
            alloc,
            line,
            ArithmeticOperator::Multiply,
            left,
            right,
        ),
        BinaryOp::Divide => arithmetic_node(alloc, line, ArithmeticOperator::Divide, left, right),
        BinaryOp::Remainder => arithmetic_node(
            alloc,
            line,
            ArithmeticOperator::Remainder,
            left,
            right,
        ),
    }
}

fn chosen(
    alloc: Global,
    line: u32,
    test: Box<CoreExpr>,
    yes: Box<CoreExpr>,
    no: Box<CoreExpr>,
) -> Result<Box<CoreExpr>, Broken>
    ensures { GivesNode boxed result (chosen line (view test.value) (type_of (view yes.value)) (type_of (view no.value)) (view yes.value) (view no.value)) }
{
    let (yes, no) = match type_of(&yes) {
        ValueType::Void => match type_of(&no) {
            ValueType::Void => (yes, no),
            ValueType::Integer(_) => return Err(Broken::Rule { rule: 7 }),
        },
        ValueType::Integer(t) => match type_of(&no) {
            ValueType::Void => return Err(Broken::Rule { rule: 7 }),
            ValueType::Integer(u) => (
                as_type(alloc, common(t, u), yes)?,
                as_type(alloc, common(t, u), no)?,
            ),
        },
    };
    let choice = CoreExpr::Choice {
        line,
        test,
        yes,
        no,
    };
    Ok(in_box(alloc, choice)?)
}

/// The node of `?:` on numbers, of their common type (C11 6.5.15p5).
pub fn choice_node(
    alloc: Global,
    line: u32,
    test: Box<CoreExpr>,
    yes: Box<CoreExpr>,
    no: Box<CoreExpr>,
) -> Result<Box<CoreExpr>, Broken>
    ensures { GivesNode boxed result (choice_node line (view test.value) (view yes.value) (view no.value)) }
{
    let _type = integer(&test, 7)?;
    chosen(alloc, line, test, yes, no)
}

fn assign_node(
    alloc: Global,
    constant: bool,
    line: u32,
    place: Box<CoreExpr>,
    value: Box<CoreExpr>,
) -> Result<Box<CoreExpr>, Broken>
    ensures { GivesNode boxed result (assign_node constant line (view place.value) (view value.value)) }
{
    let type_ = integer(&place, 8)?;
    let _u = integer(&value, 8)?;
    let place = target(constant, place)?;
    let value = as_type(alloc, type_, value)?;
    let assign = CoreExpr::Assign {
        line,
        type_,
        place,
        value,
    };
    Ok(in_box(alloc, assign)?)
}

/// The operator that stands before `=`; rule 7 where none can.
pub fn operator_of(operator: BinaryOp) -> Result<ArithmeticOperator, Broken>
    ensures { GivesNode (λ o. o) result (required 7 (operator_of operator)) }
{
    match operator {
        BinaryOp::Or => Ok(ArithmeticOperator::Or),
        BinaryOp::Xor => Ok(ArithmeticOperator::Xor),
        BinaryOp::And => Ok(ArithmeticOperator::And),
        BinaryOp::ShiftLeft => Ok(ArithmeticOperator::ShiftLeft),
        BinaryOp::ShiftRight => Ok(ArithmeticOperator::ShiftRight),
        BinaryOp::Add => Ok(ArithmeticOperator::Add),
        BinaryOp::Subtract => Ok(ArithmeticOperator::Subtract),
        BinaryOp::Multiply => Ok(ArithmeticOperator::Multiply),
        BinaryOp::Divide => Ok(ArithmeticOperator::Divide),
        BinaryOp::Remainder => Ok(ArithmeticOperator::Remainder),
        BinaryOp::LogicalOr
        | BinaryOp::LogicalAnd
        | BinaryOp::Equal
        | BinaryOp::NotEqual
        | BinaryOp::Less
        | BinaryOp::Greater
        | BinaryOp::LessEqual
        | BinaryOp::GreaterEqual => Err(Broken::Rule { rule: 7 }),
    }
}

fn update_node(
    alloc: Global,
    constant: bool,
    line: u32,
    operator: BinaryOp,
    place: Box<CoreExpr>,
    value: Box<CoreExpr>,
) -> Result<Box<CoreExpr>, Broken>
    ensures { GivesNode boxed result (update_node constant line operator (view place.value) (view value.value)) }
{
    let operator = operator_of(operator)?;
    let t = integer(&place, 7)?;
    let u = integer(&value, 7)?;
    let place = target(constant, place)?;
    let value = as_type(alloc, right_type(operator, t, u), value)?;
    let update = CoreExpr::Update {
        line,
        type_: t,
        place,
        operator,
        operand: left_type(operator, t, u),
        value,
    };
    Ok(in_box(alloc, update)?)
}

/// The node of an assignment to a place, plain or with an operator (C11 6.5.16).
pub fn assignment_node(
    alloc: Global,
    constant: bool,
    line: u32,
    operator: Option<BinaryOp>,
    place: Box<CoreExpr>,
    value: Box<CoreExpr>,
) -> Result<Box<CoreExpr>, Broken>
    ensures { GivesNode boxed result (assignment_node constant line operator (view place.value) (view value.value)) }
{
    match operator {
        None => assign_node(alloc, constant, line, place, value),
        Some(operator) => update_node(alloc, constant, line, operator, place, value),
    }
}
