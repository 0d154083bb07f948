//! Tests of types.

ghost use Rattle.std.specs.Prelude.{◌≡◌, ◌≤◌, ◌^◌, nat_lt};
ghost use Rattle.std.specs.List.{list_all};
ghost use Rattle.c_types.specs.Integers.{number_of, same_integer, same_type};
ghost use Rattle.core_tree.specs.Typed as typed;

use c_types::{IntegerType, ValueType, promote};
use core_tree::{ArithmeticOperator, Comparison, PassedType};

// Where a type stands among the integer types.
fn number_of(type_: IntegerType) -> u32
    ensures { result ≡ number_of type_ }
{
    match type_ {
        IntegerType::Bool => 0,
        IntegerType::Char => 1,
        IntegerType::SignedChar => 2,
        IntegerType::UnsignedChar => 3,
        IntegerType::Short => 4,
        IntegerType::UnsignedShort => 5,
        IntegerType::Int => 6,
        IntegerType::UnsignedInt => 7,
        IntegerType::Long => 8,
        IntegerType::UnsignedLong => 9,
        IntegerType::LongLong => 10,
        IntegerType::UnsignedLongLong => 11,
    }
}

fn same_integer(left: IntegerType, right: IntegerType) -> bool
    ensures { result ≡ same_integer left right }
{
    number_of(left) == number_of(right)
}

pub(crate) fn same_type(left: ValueType, right: ValueType) -> bool
    ensures { result ≡ same_type left right }
{
    match left {
        ValueType::Void => match right {
            ValueType::Void => true,
            ValueType::Integer(_) => false,
        },
        ValueType::Integer(left) => match right {
            ValueType::Void => false,
            ValueType::Integer(right) => same_integer(left, right),
        },
    }
}

pub(crate) fn is_integer(type_: ValueType) -> bool
    ensures { result ≡ typed.is_integer type_ }
{
    match type_ {
        ValueType::Void => false,
        ValueType::Integer(_) => true,
    }
}

pub(crate) fn is_promoted(type_: ValueType) -> bool
    ensures { result ≡ typed.is_promoted type_ }
{
    match type_ {
        ValueType::Void => false,
        ValueType::Integer(type_) => same_integer(promote(type_), type_),
    }
}

fn is_shift(operator: ArithmeticOperator) -> bool
    ensures { result ≡ typed.is_shift operator }
{
    match operator {
        ArithmeticOperator::Multiply => false,
        ArithmeticOperator::Divide => false,
        ArithmeticOperator::Remainder => false,
        ArithmeticOperator::Add => false,
        ArithmeticOperator::Subtract => false,
        ArithmeticOperator::ShiftLeft => true,
        ArithmeticOperator::ShiftRight => true,
        ArithmeticOperator::And => false,
        ArithmeticOperator::Xor => false,
        ArithmeticOperator::Or => false,
    }
}

// Operands of promoted types, which are one but for shifts.
pub(crate) fn are_operands(operator: ArithmeticOperator, left: ValueType, right: ValueType) -> bool
    ensures { result ≡ typed.are_operands operator left right }
{
    is_promoted(left) && is_promoted(right) && (is_shift(operator) || same_type(left, right))
}

// A pointer is a number of type unsigned long.
pub(crate) fn is_pointer(type_: ValueType) -> bool
    ensures { result ≡ typed.is_pointer type_ }
{
    same_type(type_, ValueType::Integer(IntegerType::UnsignedLong))
}

// One of the four that say which of two comes first.
pub(crate) fn is_order(operator: Comparison) -> bool
    ensures { result ≡ typed.is_order operator }
{
    match operator {
        Comparison::Less => true,
        Comparison::Greater => true,
        Comparison::LessEqual => true,
        Comparison::GreaterEqual => true,
        Comparison::Equal => false,
        Comparison::NotEqual => false,
    }
}

fn same_passed(left: PassedType, right: PassedType) -> bool
    ensures { result ≡ typed.same_passed left right }
{
    match left {
        PassedType::Integer(left) => match right {
            PassedType::Integer(right) => same_integer(left, right),
            PassedType::Structure(_) => false,
        },
        PassedType::Structure(left) => match right {
            PassedType::Integer(_) => false,
            PassedType::Structure(right) => left == right,
        },
    }
}

pub(crate) fn same_given(left: Option<PassedType>, right: Option<PassedType>) -> bool
    ensures { result ≡ typed.same_given left right }
{
    match left {
        None => match right {
            None => true,
            Some(_) => false,
        },
        Some(left) => match right {
            None => false,
            Some(right) => same_passed(left, right),
        },
    }
}

// A value of a struct or union of so many bytes is of a parameter's type.
pub(crate) fn is_structure_type(type_: PassedType, size: u32) -> bool
    ensures { result ≡ typed.same_passed type_ (PassedType.Structure size) }
{
    same_passed(type_, PassedType::Structure(size))
}

// A function without value, or with one of this type.
pub(crate) fn given_as(type_: ValueType) -> Option<PassedType>
    ensures { result ≡ typed.given_as type_ }
{
    match type_ {
        ValueType::Void => None,
        ValueType::Integer(type_) => Some(PassedType::Integer(type_)),
    }
}

// How many bytes a parameter has.
pub(crate) fn passed_size(type_: PassedType) -> u32
    ensures { result ≡ typed.passed_size type_ }
{
    match type_ {
        PassedType::Integer(type_) => type_.size(),
        PassedType::Structure(size) => size,
    }
}

// These bits are a number of so many bits.
pub(crate) fn has_width(bits: u64, width: u32) -> bool
    requires { width ≤ 64 }
    ensures { result ≡ nat_lt bits (2 ^ width) }
{
    width == 64 || bits < 1 << width
}

// A number of an integer type at an offset of so many bytes.
pub(crate) fn fits_at(size: u32, offset: u32, type_: ValueType) -> bool
    ensures { result ≡ typed.fits_at size offset type_ }
{
    match type_ {
        ValueType::Void => false,
        ValueType::Integer(type_) => offset as u64 + type_.size() as u64 <= size as u64,
    }
}

// Each is a byte.
pub(crate) fn are_bytes(bytes: &[u8]) -> bool
    ensures { result ≡ list_all (λ b. nat_lt b 256) bytes.now }
{
    let mut all = true;
    for place in (0..bytes.len()).rev() {
        all = (bytes[place] as u32) < 256 && all;
    }
    all
}
