//! Whether places, expressions and structure values are typed.

ghost use Rattle.std.specs.Prelude.{◌≡◌, ◌&&◌, ◌∷◌};
ghost use Rattle.core_tree.specs.Trees.{view, view_place, view_structure, parts_of, with_part, arguments_of, with_argument, Parts, Arguments, call, give, list};
ghost use Rattle.core_tree.specs.Typed as typed;
ghost use Rattle.core_check.specs.Around.{sizes_around, fits};

use crate::around::{
    Around, Room, gives_this, has_address, has_room, lies_in, object_room, parameters_of,
    room_behind, room_element, room_pointed, variable_room,
};
use crate::types::{
    are_bytes, are_operands, fits_at, given_as, has_width, is_integer, is_order, is_pointer,
    is_promoted, is_structure_type, same_given, same_type,
};
use c_types::{IntegerType, ValueType};
use core_tree::{
    CoreArgument, CoreExpr, CorePart, CoreStructure, PassedType, Place, structure_size, type_of,
};

// How many bytes can be read and written at a place.
#[cycle(expression)]
fn room_of(around: &Around, place: &Place) -> Room
    ensures { (n : _) → fits result n ≡ typed.is_place (sizes_around around.now) n (view_place place.now) }
{
    match place {
        Place::Variable {
            variable,
            offset,
            ..
        } => variable_room(around.variables, *variable, *offset),
        Place::Object { object, offset, .. } => object_room(around.objects, *object, *offset),
        Place::Literal { literal, .. } => {
            room_pointed(around.pointers && (*literal as usize) < around.literals.len())
        }
        Place::Pointed { pointer, .. } => room_pointed(is_typed_pointer(around, pointer)),
        Place::Arrow { pointer, .. } => room_pointed(is_typed_pointer(around, pointer)),
        Place::Member { place, offset, .. } => {
            if around.pointers {
                room_behind(room_of(around, place), *offset)
            } else {
                Room::Nothing
            }
        }
        Place::Element {
            place,
            index,
            size,
            whole,
            ..
        } => room_element(
            *size,
            around.pointers
                && 0 < *size
                && lies_in(around, place, *whole)
                && is_integer(type_of(index))
                && has_room(room_of(around, place), 0)
                && is_typed(around, index),
        ),
        Place::Subscript {
            pointer,
            index,
            size,
            ..
        } => room_pointed(
            around.pointers
                && 0 < *size
                && is_pointer(type_of(pointer))
                && is_integer(type_of(index))
                && is_typed(around, pointer)
                && is_typed(around, index),
        ),
    }
}

// A pointer, where one may stand.
#[cycle(expression)]
fn is_typed_pointer(around: &Around, pointer: &CoreExpr) -> bool
    ensures { result ≡ (around.now.pointers && typed.is_pointer (typed.type_of (view pointer.now)) && typed.is_typed (sizes_around around.now) (view pointer.now)) }
{
    around.pointers && is_pointer(type_of(pointer)) && is_typed(around, pointer)
}

#[cycle(expression)]
pub(crate) fn is_typed(around: &Around, expr: &CoreExpr) -> bool
    ensures { result ≡ typed.is_typed (sizes_around around.now) (view expr.now) }
{
    match expr {
        CoreExpr::Constant { type_, bits, .. } => has_width(*bits, type_.width()),
        CoreExpr::Read { type_, place } => has_room(room_of(around, place), type_.size()),
        CoreExpr::Convert { operand, .. } => {
            is_integer(type_of(operand)) && is_typed(around, operand)
        }
        CoreExpr::Sign { operand, .. } => {
            is_promoted(type_of(operand)) && is_typed(around, operand)
        }
        CoreExpr::IsZero { operand, .. } => {
            is_integer(type_of(operand)) && is_typed(around, operand)
        }
        CoreExpr::Arithmetic {
            operator,
            left,
            right,
            ..
        } => {
            are_operands(*operator, type_of(left), type_of(right))
                && is_typed(around, left)
                && is_typed(around, right)
        }
        CoreExpr::Compare { left, right, .. } => {
            is_promoted(type_of(left))
                && same_type(type_of(left), type_of(right))
                && is_typed(around, left)
                && is_typed(around, right)
        }
        CoreExpr::Logical { left, right, .. } => {
            is_integer(type_of(left))
                && is_integer(type_of(right))
                && is_typed(around, left)
                && is_typed(around, right)
        }
        CoreExpr::Choice { test, yes, no, .. } => {
            is_integer(type_of(test))
                && same_type(type_of(yes), type_of(no))
                && is_typed(around, test)
                && is_typed(around, yes)
                && is_typed(around, no)
        }
        CoreExpr::Assign {
            type_,
            place,
            value,
            ..
        } => {
            has_room(room_of(around, place), type_.size())
                && same_type(type_of(value), ValueType::Integer(*type_))
                && is_typed(around, value)
        }
        CoreExpr::Update {
            type_,
            place,
            operator,
            operand,
            value,
            ..
        } => {
            has_room(room_of(around, place), type_.size())
                && are_operands(*operator, ValueType::Integer(*operand), type_of(value))
                && is_typed(around, value)
        }
        CoreExpr::Step { type_, place, .. } => has_room(room_of(around, place), type_.size()),
        CoreExpr::Comma { left, right, .. } => is_typed(around, left) && is_typed(around, right),
        CoreExpr::Assertion { condition, .. } => {
            is_integer(type_of(condition)) && is_typed(around, condition)
        }
        CoreExpr::Assumption { condition, .. } => {
            is_integer(type_of(condition)) && is_typed(around, condition)
        }
        CoreExpr::Draw { .. } => true,
        CoreExpr::Member {
            type_,
            offset,
            value,
            ..
        } => {
            *offset as u64 + type_.size() as u64 <= structure_size(value) as u64
                && is_structure(around, value)
        }
        CoreExpr::Discard { operand, .. } => {
            is_integer(type_of(operand)) && is_typed(around, operand)
        }
        CoreExpr::DiscardStructure { value } => is_structure(around, value),
        CoreExpr::Call {
            function,
            used,
            type_,
            arguments,
            ..
        } => is_typed_call(around, *function, *used, *type_, arguments),
        CoreExpr::FunctionName { .. } => true,
        CoreExpr::SizeOf { bits, operand, .. } => has_width(*bits, 64) && is_typed(around, operand),
        CoreExpr::SizeOfStructure { bits, operand, .. } => {
            has_width(*bits, 64) && is_structure(around, operand)
        }
        CoreExpr::Address { place, .. } => {
            around.pointers && has_address(around, place) && has_room(room_of(around, place), 0)
        }
        CoreExpr::Sum { pointer, index, .. } => {
            around.pointers
                && is_pointer(type_of(pointer))
                && is_integer(type_of(index))
                && is_typed(around, pointer)
                && is_typed(around, index)
        }
        CoreExpr::Distance {
            left,
            right,
            step,
            ..
        } => {
            around.pointers
                && 0 < *step
                && is_pointer(type_of(left))
                && is_pointer(type_of(right))
                && is_typed(around, left)
                && is_typed(around, right)
        }
        CoreExpr::Relation {
            operator,
            left,
            right,
            ..
        } => {
            around.pointers
                && is_order(*operator)
                && is_pointer(type_of(left))
                && is_pointer(type_of(right))
                && is_typed(around, left)
                && is_typed(around, right)
        }
        CoreExpr::PointerUpdate { place, value, .. } => {
            around.pointers
                && is_integer(type_of(value))
                && has_room(room_of(around, place), 8)
                && is_typed(around, value)
        }
        CoreExpr::PointerStep { place, .. } => {
            around.pointers && has_room(room_of(around, place), 8)
        }
        CoreExpr::Allocate { size, .. } => is_typed_pointer(around, size),
        CoreExpr::AllocateZeroed { count, size, .. } => {
            around.pointers
                && is_pointer(type_of(count))
                && is_pointer(type_of(size))
                && is_typed(around, count)
                && is_typed(around, size)
        }
        CoreExpr::Release { pointer, .. } => is_typed_pointer(around, pointer),
        CoreExpr::Exit { status, .. } => {
            around.pointers
                && same_type(type_of(status), ValueType::Integer(IntegerType::Int))
                && is_typed(around, status)
        }
        CoreExpr::Abort { .. } => around.pointers,
    }
}

#[cycle(expression)]
pub(crate) fn is_structure(around: &Around, value: &CoreStructure) -> bool
    ensures { result ≡ typed.is_structure (sizes_around around.now) (view_structure value.now) }
{
    match value {
        CoreStructure::Read { place, size } => has_room(room_of(around, place), *size),
        CoreStructure::Choice { test, yes, no, .. } => {
            is_integer(type_of(test))
                && structure_size(yes) == structure_size(no)
                && is_typed(around, test)
                && is_structure(around, yes)
                && is_structure(around, no)
        }
        CoreStructure::Assign { place, value, .. } => {
            has_room(room_of(around, place), structure_size(value)) && is_structure(around, value)
        }
        CoreStructure::Comma { left, right, .. } => {
            is_typed(around, left) && is_structure(around, right)
        }
        CoreStructure::Member {
            offset,
            size,
            value,
            ..
        } => {
            *offset as u64 + *size as u64 <= structure_size(value) as u64
                && is_structure(around, value)
        }
        CoreStructure::List { size, parts, .. } => is_list(around, *size, parts),
        CoreStructure::String { size, bytes, .. } => {
            *size < 1 << 31 && bytes.len() <= *size as usize && are_bytes(bytes)
        }
        CoreStructure::Call {
            function,
            size,
            arguments,
            ..
        } => is_given(around, *function, *size, arguments),
    }
}

// A call of a function that gives nothing or a number of this type.
#[cycle(expression)]
fn is_typed_call(
    around: &Around,
    function: u32,
    used: bool,
    type_: ValueType,
    arguments: &[CoreArgument],
) -> bool
    ensures { (line : _) → result ≡ typed.is_typed (sizes_around around.now) (call line function used type_ (arguments_of arguments.now)) }
{
    (!used || is_integer(type_))
        && gives_this(around.functions, function, given_as(type_))
        && are_arguments(around, parameters_of(around.functions, function), arguments)
}

// A call of a function that gives a struct or union of so many bytes.
#[cycle(expression)]
fn is_given(around: &Around, function: u32, size: u32, arguments: &[CoreArgument]) -> bool
    ensures { (line : _) (used : _) → result ≡ typed.is_structure (sizes_around around.now) (give line function used size (arguments_of arguments.now)) }
{
    size < 1 << 31
        && gives_this(
            around.functions,
            function,
            Some(PassedType::Structure(size)),
        )
        && are_arguments(around, parameters_of(around.functions, function), arguments)
}

// The list of an initializer for so many bytes.
#[cycle(expression)]
fn is_list(around: &Around, size: u32, parts: &[CorePart]) -> bool
    ensures { (line : _) → result ≡ typed.is_structure (sizes_around around.now) (list line size (parts_of parts.now)) }
{
    size < 1 << 31 && are_parts(around, size, parts)
}

// Parts of so many bytes.
#[cycle(expression)]
fn are_parts(around: &Around, size: u32, parts: &[CorePart]) -> bool
    ensures { result ≡ typed.are_parts (sizes_around around.now) size (parts_of parts.now) }
{
    let mut all = true;
    for place in (0..parts.len()).rev() {
        all = is_part(around, size, &parts[place]) && all;
    }
    all
}

#[cycle(expression)]
fn is_part(around: &Around, size: u32, part: &CorePart) -> bool
    ensures { (rest : Parts) → (result && typed.are_parts (sizes_around around.now) size rest) ≡ typed.are_parts (sizes_around around.now) size (with_part part.now rest) }
{
    match part {
        CorePart::Number { offset, value } => {
            fits_at(size, *offset, type_of(value)) && is_typed(around, value)
        }
        CorePart::Structure { offset, value } => {
            *offset as u64 + structure_size(value) as u64 <= size as u64
                && is_structure(around, value)
        }
    }
}

// As many arguments as parameters, each of its parameter's type.
#[cycle(expression)]
#[tactic(auto, using(crate::proofs::Lists::unequal))]
fn are_arguments(around: &Around, parameters: &[PassedType], arguments: &[CoreArgument]) -> bool
    ensures { result ≡ typed.are_arguments (sizes_around around.now) parameters.now (arguments_of arguments.now) }
{
    if parameters.len() != arguments.len() {
        return false;
    }
    let mut all = true;
    for place in (0..arguments.len()).rev() {
        all = is_argument(around, parameters[place], &arguments[place]) && all;
    }
    all
}

#[cycle(expression)]
fn is_argument(around: &Around, parameter: PassedType, argument: &CoreArgument) -> bool
    ensures { (parameters : _) (rest : Arguments) → (result && typed.are_arguments (sizes_around around.now) parameters rest) ≡ typed.are_arguments (sizes_around around.now) (parameter ∷ parameters) (with_argument argument.now rest) }
{
    match argument {
        CoreArgument::Number { value } => {
            same_given(Some(parameter), given_as(type_of(value))) && is_typed(around, value)
        }
        CoreArgument::Structure { value } => {
            is_structure_type(parameter, structure_size(value)) && is_structure(around, value)
        }
    }
}
