//! The types of typed trees, and the variables that they name.

ghost use Rattle.std.specs.Prelude.{◌≡◌, ◌||◌};
ghost use Rattle.core_tree.specs.Trees.{view, view_place, view_structure, Parts, parts_of, with_part, Arguments, arguments_of, with_argument};
ghost use Rattle.core_tree.specs.Typed.{type_of, size_of, place_names, names_variable, structure_names, parts_name, arguments_name};

use crate::expression::{CoreArgument, CoreExpr, CorePart, CoreStructure, Place};
use c_types::{IntegerType, ValueType};

/// The type of an expression. It goes down one path of the tree.
pub fn type_of(expr: &CoreExpr) -> ValueType
    ensures { result ≡ type_of (view expr.now) }
{
    match expr {
        CoreExpr::Constant { type_, .. } => ValueType::Integer(*type_),
        CoreExpr::Read { type_, .. } => ValueType::Integer(*type_),
        CoreExpr::Convert { to, .. } => ValueType::Integer(*to),
        CoreExpr::Sign { operand, .. } => type_of(operand),
        CoreExpr::IsZero { .. } => ValueType::Integer(IntegerType::Int),
        CoreExpr::Arithmetic { left, .. } => type_of(left),
        CoreExpr::Compare { .. } => ValueType::Integer(IntegerType::Int),
        CoreExpr::Logical { .. } => ValueType::Integer(IntegerType::Int),
        CoreExpr::Choice { yes, .. } => type_of(yes),
        CoreExpr::Assign { type_, .. } => ValueType::Integer(*type_),
        CoreExpr::Update { type_, .. } => ValueType::Integer(*type_),
        CoreExpr::Step { type_, .. } => ValueType::Integer(*type_),
        CoreExpr::Comma { right, .. } => type_of(right),
        CoreExpr::Assertion { .. } => ValueType::Void,
        CoreExpr::Assumption { .. } => ValueType::Void,
        CoreExpr::Draw { type_, .. } => ValueType::Integer(*type_),
        CoreExpr::Member { type_, .. } => ValueType::Integer(*type_),
        CoreExpr::Discard { .. } => ValueType::Void,
        CoreExpr::DiscardStructure { .. } => ValueType::Void,
        CoreExpr::Call { type_, .. } => *type_,
        CoreExpr::FunctionName { .. } => ValueType::Void,
        CoreExpr::SizeOf { .. } => ValueType::Integer(IntegerType::UnsignedLong),
        CoreExpr::SizeOfStructure { .. } => ValueType::Integer(IntegerType::UnsignedLong),
        CoreExpr::Address { .. } => ValueType::Integer(IntegerType::UnsignedLong),
        CoreExpr::Sum { .. } => ValueType::Integer(IntegerType::UnsignedLong),
        CoreExpr::Distance { .. } => ValueType::Integer(IntegerType::Long),
        CoreExpr::Relation { .. } => ValueType::Integer(IntegerType::Int),
        CoreExpr::PointerUpdate { .. } => ValueType::Integer(IntegerType::UnsignedLong),
        CoreExpr::PointerStep { .. } => ValueType::Integer(IntegerType::UnsignedLong),
        CoreExpr::Allocate { .. } => ValueType::Integer(IntegerType::UnsignedLong),
        CoreExpr::AllocateZeroed { .. } => ValueType::Integer(IntegerType::UnsignedLong),
        CoreExpr::Release { .. } => ValueType::Void,
        CoreExpr::Exit { .. } => ValueType::Void,
        CoreExpr::Abort { .. } => ValueType::Void,
    }
}

/// How many bytes a structure value has. It goes down one path of the tree.
pub fn structure_size(value: &CoreStructure) -> u32
    ensures { result ≡ size_of (view_structure value.now) }
{
    match value {
        CoreStructure::Read { size, .. } => *size,
        CoreStructure::Choice { yes, .. } => structure_size(yes),
        CoreStructure::Assign { value, .. } => structure_size(value),
        CoreStructure::Comma { right, .. } => structure_size(right),
        CoreStructure::Member { size, .. } => *size,
        CoreStructure::List { size, .. } => *size,
        CoreStructure::String { size, .. } => *size,
        CoreStructure::Call { size, .. } => *size,
    }
}

/// Whether a place names the variable with this number where it is evaluated.
#[cycle(names)]
pub fn place_names_variable(variable: u32, place: &Place) -> bool
    ensures { result ≡ place_names variable (view_place place.now) }
{
    match place {
        Place::Variable {
            variable: named,
            ..
        } => variable == *named,
        Place::Object { .. } => false,
        Place::Literal { .. } => false,
        Place::Pointed { pointer, .. } => names_variable(variable, pointer),
        Place::Arrow { pointer, .. } => names_variable(variable, pointer),
        Place::Member { place, .. } => place_names_variable(variable, place),
        Place::Element { place, index, .. } => place_names_variable(variable, place)
            || names_variable(variable, index),
        Place::Subscript { pointer, index, .. } => names_variable(variable, pointer)
            || names_variable(variable, index),
    }
}

/// Whether an expression names the variable with this number, outside of `sizeof`.
#[cycle(names)]
#[tactic(auto, using(crate::proofs::Views::view_call))]
pub fn names_variable(variable: u32, expr: &CoreExpr) -> bool
    ensures { result ≡ names_variable variable (view expr.now) }
{
    match expr {
        CoreExpr::Constant { .. } => false,
        CoreExpr::Read { place, .. } => place_names_variable(variable, place),
        CoreExpr::Convert { operand, .. } => names_variable(variable, operand),
        CoreExpr::Sign { operand, .. } => names_variable(variable, operand),
        CoreExpr::IsZero { operand, .. } => names_variable(variable, operand),
        CoreExpr::Arithmetic { left, right, .. } => names_variable(variable, left)
            || names_variable(variable, right),
        CoreExpr::Compare { left, right, .. } => names_variable(variable, left)
            || names_variable(variable, right),
        CoreExpr::Logical { left, right, .. } => names_variable(variable, left)
            || names_variable(variable, right),
        CoreExpr::Choice { test, yes, no, .. } => {
            names_variable(variable, test)
                || names_variable(variable, yes)
                || names_variable(variable, no)
        }
        CoreExpr::Assign { place, value, .. } => place_names_variable(variable, place)
            || names_variable(variable, value),
        CoreExpr::Update { place, value, .. } => place_names_variable(variable, place)
            || names_variable(variable, value),
        CoreExpr::Step { place, .. } => place_names_variable(variable, place),
        CoreExpr::Comma { left, right, .. } => names_variable(variable, left)
            || names_variable(variable, right),
        CoreExpr::Assertion { condition, .. } => names_variable(variable, condition),
        CoreExpr::Assumption { condition, .. } => names_variable(variable, condition),
        CoreExpr::Draw { .. } => false,
        CoreExpr::Member { value, .. } => structure_names_variable(variable, value),
        CoreExpr::Discard { operand, .. } => names_variable(variable, operand),
        CoreExpr::DiscardStructure { value } => structure_names_variable(variable, value),
        CoreExpr::Call { arguments, .. } => arguments_name(variable, arguments),
        CoreExpr::FunctionName { .. } => false,
        CoreExpr::SizeOf { .. } => false,
        CoreExpr::SizeOfStructure { .. } => false,
        CoreExpr::Address { place, .. } => place_names_variable(variable, place),
        CoreExpr::Sum { pointer, index, .. } => names_variable(variable, pointer)
            || names_variable(variable, index),
        CoreExpr::Distance { left, right, .. } => names_variable(variable, left)
            || names_variable(variable, right),
        CoreExpr::Relation { left, right, .. } => names_variable(variable, left)
            || names_variable(variable, right),
        CoreExpr::PointerUpdate { place, value, .. } => place_names_variable(variable, place)
            || names_variable(variable, value),
        CoreExpr::PointerStep { place, .. } => place_names_variable(variable, place),
        CoreExpr::Allocate { size, .. } => names_variable(variable, size),
        CoreExpr::AllocateZeroed { count, size, .. } => names_variable(variable, count)
            || names_variable(variable, size),
        CoreExpr::Release { pointer, .. } => names_variable(variable, pointer),
        CoreExpr::Exit { status, .. } => names_variable(variable, status),
        CoreExpr::Abort { .. } => false,
    }
}

/// Whether a structure value names the variable with this number.
#[cycle(names)]
#[tactic(auto, using(crate::proofs::Views::view_list, crate::proofs::Views::view_give))]
pub fn structure_names_variable(variable: u32, value: &CoreStructure) -> bool
    ensures { result ≡ structure_names variable (view_structure value.now) }
{
    match value {
        CoreStructure::Read { place, .. } => place_names_variable(variable, place),
        CoreStructure::Choice { test, yes, no, .. } => {
            names_variable(variable, test)
                || structure_names_variable(variable, yes)
                || structure_names_variable(variable, no)
        }
        CoreStructure::Assign { place, value, .. } => place_names_variable(variable, place)
            || structure_names_variable(variable, value),
        CoreStructure::Comma { left, right, .. } => names_variable(variable, left)
            || structure_names_variable(variable, right),
        CoreStructure::Member { value, .. } => structure_names_variable(variable, value),
        CoreStructure::List { parts, .. } => parts_name(variable, parts),
        CoreStructure::String { .. } => false,
        CoreStructure::Call { arguments, .. } => arguments_name(variable, arguments),
    }
}

#[cycle(names)]
fn parts_name(variable: u32, parts: &[CorePart]) -> bool
    ensures { result ≡ parts_name variable (parts_of parts.now) }
{
    for part in parts {
        if part_names(variable, part) {
            return true;
        }
    }
    false
}

#[cycle(names)]
fn part_names(variable: u32, part: &CorePart) -> bool
    ensures { (rest : Parts) → (result || parts_name variable rest) ≡ parts_name variable (with_part part.now rest) }
{
    match part {
        CorePart::Number { value, .. } => names_variable(variable, value),
        CorePart::Structure { value, .. } => structure_names_variable(variable, value),
    }
}

#[cycle(names)]
fn arguments_name(variable: u32, arguments: &[CoreArgument]) -> bool
    ensures { result ≡ arguments_name variable (arguments_of arguments.now) }
{
    for argument in arguments {
        if argument_names(variable, argument) {
            return true;
        }
    }
    false
}

#[cycle(names)]
fn argument_names(variable: u32, argument: &CoreArgument) -> bool
    ensures { (rest : Arguments) → (result || arguments_name variable rest) ≡ arguments_name variable (with_argument argument.now rest) }
{
    match argument {
        CoreArgument::Number { value } => names_variable(variable, value),
        CoreArgument::Structure { value } => structure_names_variable(variable, value),
    }
}
