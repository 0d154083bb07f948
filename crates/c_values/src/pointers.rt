//! Pointers as numbers: the object's number in the high 32 bits, an offset into it in the low 32.

ghost use Rattle.std.specs.Prelude.{◌≡◌, ◌<◌, ◌^◌, ◌+ℤ◌, pos, int_lt, true, false, MatchOption};
ghost use Rattle.core_tree.specs.Operations.{number};
ghost use Rattle.actions.specs.Pointer as pointer;
ghost use Rattle.c_values.specs.Pointers as pointers;
ghost use Rattle.c_values.specs.Pointers.{pointer_at, in_range, offset_by};
ghost use Rattle.c_values.specs.Variables as variables;

use crate::number::{Number, value};
use c_types::IntegerType;
use core_tree::ArithmeticOperator;

/// The pointer to an offset of the object with this number.
pub fn pointer_to(object: u32, offset: u32) -> u64
    ensures is { result ≡ variables.pointer_to object offset }
    ensures small { result < 2 ^ 64 }
{
    object as u64 * 4_294_967_296 + offset as u64
}

/// The number of the object to which a pointer points.
pub fn object_of(at: u64) -> u32
    ensures { result ≡ pointer.object_of at }
{
    (at / 4_294_967_296) as u32
}

/// The offset into it.
pub fn offset_of(at: u64) -> u32
    ensures { result ≡ pointer.offset_of at }
{
    (at % 4_294_967_296) as u32
}

/// A pointer so many bytes further on, modulo 2 ^ 32.
pub fn further(at: u64, count: u32) -> u64
    ensures { result ≡ pointers.further at count }
{
    pointer_to(object_of(at), offset_of(at).wrapping_add(count))
}

// A whole number is from 0 to a size.
fn is_in_range(offset: i128, size: u64) -> bool
    ensures { result ≡ in_range offset size }
{
    0 <= offset && offset <= size as i128
}

fn is_above(distance: i128, size: u64) -> bool
    ensures { result ≡ int_lt (pos size) distance }
{
    (size as i128) < distance
}

// An offset so many bytes further on, where that is from 0 to a size.
#[tactic(auto, using(crate::proofs::Offsets::beyond))]
fn sum_within(offset: u32, distance: i128, size: u64) -> Option<u64>
    ensures { MatchOption result (in_range (pos offset +ℤ distance) size ≡ false) (λ o. (in_range (pos offset +ℤ distance) size ≡ true) × (pos o ≡ pos offset +ℤ distance)) }
{
    if is_above(distance, size) {
        return None;
    }
    let sum = offset as i128 + distance;
    if is_in_range(sum, size) {
        Some(sum as u64)
    } else {
        None
    }
}

// The offset of an element, so many steps from an offset, where it is from 0 to a size.
#[tactic(auto, using(crate::proofs::Offsets::too_far))]
fn offset_within(offset: u32, index: Number, step: i64, size: u64) -> Option<u64>
    ensures { MatchOption result (in_range (offset_by offset (number index.type index.bits) step) size ≡ false) (λ o. (in_range (offset_by offset (number index.type index.bits) step) size ≡ true) × (pos o ≡ offset_by offset (number index.type index.bits) step)) }
{
    match index.number().checked_mul(step as i128) {
        Some(distance) => sum_within(offset, distance, size),
        None => None,
    }
}

/// A pointer so many steps of an index further on, where that lies from 0 to the size of its object.
pub fn moved(at: u64, index: Number, step: i64, size: u64) -> Option<u64>
    ensures { MatchOption result (in_range (offset_by (pointer.offset_of at) (number index.type index.bits) step) size ≡ false) (λ q. (in_range (offset_by (pointer.offset_of at) (number index.type index.bits) step) size ≡ true) × (q ≡ pointer_at at (offset_by (pointer.offset_of at) (number index.type index.bits) step))) }
{
    match offset_within(offset_of(at), index, step, size) {
        Some(offset) => Some(pointer_to(object_of(at), (offset % 4_294_967_296) as u32)),
        None => None,
    }
}

/// How many elements of so many bytes lie between the offsets of two pointers, toward 0, as bits of a `long`.
pub fn elements_between(left: u64, right: u64, step: u32) -> u64
    requires { 0 < step }
    ensures { result ≡ pointers.elements_between left right step }
{
    let long = IntegerType::Long;
    let difference = value(
        ArithmeticOperator::Subtract,
        Number::new(long, offset_of(left) as u64),
        Number::new(long, offset_of(right) as u64),
    );
    value(
        ArithmeticOperator::Divide,
        difference,
        Number::new(long, step as u64),
    )
    .bits()
}
