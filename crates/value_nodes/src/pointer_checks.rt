//! Nodes of what checks of pointers ask, as whole numbers.

ghost use Rattle.std.specs.Prelude.{◌≡◌, ◌==◌, ◌<◌, ◌≤◌, ◌+◌, ◌-◌, ◌*◌, ◌%◌, ◌^◌, ℕ, pos, unsigned_abs, true, false, not, ◌&&◌, ◌||◌, nat_le, nat_lt, int_lt, IfOk, if◌then◌else◌};
ghost use Rattle.words.specs.Operators.{word_difference, word_negation, word_product};
ghost use Rattle.c_types.specs.Integers.{width as type_width};
ghost use Rattle.core_tree.specs.Operations.{number};
ghost use Rattle.actions.specs.Pointer as pointer;
ghost use Rattle.c_values.specs.Pointers.{in_range, offset_by};
ghost use Rattle.word_dag.specs.Growth.{Extends};
ghost use Rattle.word_dag.specs.Meaning.{value, holds};
ghost use Rattle.value_nodes.specs.Values.{IsWord, IsValue, IsTest};
ghost use Rattle.value_nodes.specs.Distances.{differ, goes_on, goes_back, stays_within};

use crate::numbers::converted;
use crate::pointers::{object_of, offset_of};
use crate::truth::{both, chosen, either, equal, inverse, zero_test};
use c_types::IntegerType;
use std::alloc::AllocError;
use word_dag::{BinaryOperator, Comparison, Dag, Id, Node};

// A truth value that is a constant.
fn constant_test(dag: &mut Dag, holds: bool) -> Result<Id, AllocError>
    ensures extends { Extends dag.old dag.new }
    ensures made { IfOk result (λ i. IsTest dag.new i (λ v. holds)) }
{
    let bits = if holds { 1 } else { 0 };
    let id = dag.make(Node::Constant(bits, 1))?;
    Ok(id)
}

// Whether a word is at most another one, without a sign.
fn at_most(dag: &mut Dag, a: Id, b: Id, width: u32) -> Result<Id, AllocError>
    requires a { IsWord dag.old a width }
    requires b { IsWord dag.old b width }
    ensures extends { Extends dag.old dag.new }
    ensures made { IfOk result (λ i. IsTest dag.new i (λ v. not (nat_lt (value v dag.old b) (value v dag.old a)))) }
{
    let above = dag.make(Node::Compare(Comparison::UnsignedLess, b, a))?;
    let id = inverse(dag, above)?;
    Ok(id)
}

/// Whether two pointers have the numbers of different objects (C11 6.5.6p9, 6.5.8p5).
pub fn objects_differ(dag: &mut Dag, p: Id, q: Id) -> Result<Id, AllocError>
    requires left { IsWord dag.old p 64 }
    requires right { IsWord dag.old q 64 }
    ensures extends { Extends dag.old dag.new }
    ensures made { IfOk result (λ i. IsTest dag.new i (λ v. not (pointer.object_of (value v dag.old p) == pointer.object_of (value v dag.old q)))) }
{
    let a = object_of(dag, p)?;
    let b = object_of(dag, q)?;
    let same = equal(dag, a, b, 32)?;
    let id = inverse(dag, same)?;
    Ok(id)
}

// Whether a word of 32 bits is greater than a number.
fn is_beyond(dag: &mut Dag, a: Id, most: u32) -> Result<Id, AllocError>
    requires { IsWord dag.old a 32 }
    ensures extends { Extends dag.old dag.new }
    ensures made { IfOk result (λ i. IsTest dag.new i (λ v. nat_lt most (value v dag.old a))) }
{
    let limit = dag.make(Node::Constant(most as u64, 32))?;
    let id = dag.make(Node::Compare(Comparison::UnsignedLess, limit, a))?;
    Ok(id)
}

/// Whether so many bytes from the offset of a pointer on don't lie within so many.
#[tactic(auto, using(crate::proofs::Reaching::outside_always, crate::proofs::Reaching::outside_by))]
pub fn lies_outside(dag: &mut Dag, p: Id, count: u32, whole: u32) -> Result<Id, AllocError>
    requires { IsWord dag.old p 64 }
    ensures extends { Extends dag.old dag.new }
    ensures made { IfOk result (λ i. IsTest dag.new i (λ v. not (nat_le (pointer.offset_of (value v dag.old p) + count) whole))) }
{
    if count > whole {
        let id = constant_test(dag, true)?;
        return Ok(id);
    }
    let offset = offset_of(dag, p)?;
    let id = is_beyond(dag, offset, whole - count)?;
    Ok(id)
}

// ---- products

// Whether a word of 64 bits is below 2 ^ 32.
fn is_short(dag: &mut Dag, a: Id) -> Result<Id, AllocError>
    requires { IsWord dag.old a 64 }
    ensures extends { Extends dag.old dag.new }
    ensures made { IfOk result (λ i. IsTest dag.new i (λ v. pointer.object_of (value v dag.old a) == 0)) }
{
    let high = object_of(dag, a)?;
    let id = zero_test(dag, high)?;
    Ok(id)
}

// The low 32 bits of a word of 64, at this width.
fn low_word(dag: &mut Dag, a: Id) -> Result<Id, AllocError>
    requires { IsWord dag.old a 64 }
    ensures extends { Extends dag.old dag.new }
    ensures made { IfOk result (λ i. IsValue dag.new i 64 (λ v. pointer.offset_of (value v dag.old a))) }
{
    let low = offset_of(dag, a)?;
    let id = dag.make(Node::ZeroExtend(low, 64))?;
    Ok(id)
}

// Whether the product of two numbers below 2 ^ 32, the low 32 bits of words, is at most so much.
#[tactic(auto, using(crate::proofs::Reaching::low_product))]
fn low_product_within(dag: &mut Dag, a: Id, b: Id, most: u32) -> Result<Id, AllocError>
    requires a { IsWord dag.old a 64 }
    requires b { IsWord dag.old b 64 }
    ensures extends { Extends dag.old dag.new }
    ensures made { IfOk result (λ i. IsTest dag.new i (λ v. not (nat_lt most (pointer.offset_of (value v dag.old a) * pointer.offset_of (value v dag.old b))))) }
{
    let first = low_word(dag, a)?;
    let second = low_word(dag, b)?;
    let product = dag.make(Node::Binary(BinaryOperator::Multiply, first, second))?;
    let limit = dag.make(Node::Constant(most as u64, 64))?;
    let id = at_most(dag, product, limit, 64)?;
    Ok(id)
}

// Whether two words are both below 2 ^ 32.
fn are_short(dag: &mut Dag, a: Id, b: Id) -> Result<Id, AllocError>
    requires a { IsWord dag.old a 64 }
    requires b { IsWord dag.old b 64 }
    ensures extends { Extends dag.old dag.new }
    ensures made { IfOk result (λ i. IsTest dag.new i (λ v. (pointer.object_of (value v dag.old a) == 0) && (pointer.object_of (value v dag.old b) == 0))) }
{
    let first = is_short(dag, a)?;
    let second = is_short(dag, b)?;
    let id = both(dag, first, second)?;
    Ok(id)
}

// Whether one of two words is 0.
fn has_zero(dag: &mut Dag, a: Id, b: Id) -> Result<Id, AllocError>
    requires a { IsWord dag.old a 64 }
    requires b { IsWord dag.old b 64 }
    ensures extends { Extends dag.old dag.new }
    ensures made { IfOk result (λ i. IsTest dag.new i (λ v. (value v dag.old a == 0) || (value v dag.old b == 0))) }
{
    let first = zero_test(dag, a)?;
    let second = zero_test(dag, b)?;
    let id = either(dag, first, second)?;
    Ok(id)
}

/// Whether the product of two words of 64 bits is greater than so much, as a whole number.
#[tactic(auto, using(crate::proofs::Reaching::exceeds_by))]
pub fn product_exceeds(dag: &mut Dag, a: Id, b: Id, most: u32) -> Result<Id, AllocError>
    requires a { IsWord dag.old a 64 }
    requires b { IsWord dag.old b 64 }
    ensures extends { Extends dag.old dag.new }
    ensures made { IfOk result (λ i. IsTest dag.new i (λ v. not (nat_le (value v dag.old a * value v dag.old b) most))) }
{
    let _ = dag.nodes();
    let zero = has_zero(dag, a, b)?;
    let short = are_short(dag, a, b)?;
    let few = low_product_within(dag, a, b, most)?;
    let small = both(dag, short, few)?;
    let within = either(dag, zero, small)?;
    let id = inverse(dag, within)?;
    Ok(id)
}

// ---- a pointer moved

// Whether a number is negative.
#[tactic(auto, using(crate::proofs::Reaching::negative_by, crate::proofs::Reaching::never_negative))]
fn is_negative(dag: &mut Dag, type_: IntegerType, a: Id) -> Result<Id, AllocError>
    requires { IsWord dag.old a (type_width type_) }
    ensures extends { Extends dag.old dag.new }
    ensures made { IfOk result (λ i. IsTest dag.new i (λ v. int_lt (number type_ (value v dag.old a)) (pos 0))) }
{
    if type_.is_signed() {
        let zero = dag.make(Node::Constant(0, type_.width()))?;
        let id = dag.make(Node::Compare(Comparison::SignedLess, a, zero))?;
        return Ok(id);
    }
    let id = constant_test(dag, false)?;
    Ok(id)
}

// The negation of a word of 64 bits where a test is true, else the word.
fn negated(dag: &mut Dag, test: Id, a: Id) -> Result<Id, AllocError>
    requires test { IsWord dag.old test 1 }
    requires a { IsWord dag.old a 64 }
    ensures extends { Extends dag.old dag.new }
    ensures made { IfOk result (λ i. IsValue dag.new i 64 (λ v. if holds (value v dag.old test) then word_negation 64 (value v dag.old a) else value v dag.old a)) }
{
    let other = dag.make(Node::Negate(a))?;
    let id = chosen(dag, test, other, a)?;
    Ok(id)
}

// How far a number is from 0, where the test tells whether it is negative.
#[tactic(auto, using(crate::proofs::Reaching::distance_by))]
fn distance_from_0(dag: &mut Dag, type_: IntegerType, a: Id, negative: Id) -> Result<Id, AllocError>
    requires a { IsWord dag.old a (type_width type_) }
    requires negative { IsTest dag.old negative (λ v. int_lt (number type_ (value v dag.old a)) (pos 0)) }
    ensures extends { Extends dag.old dag.new }
    ensures made { IfOk result (λ i. IsValue dag.new i 64 (λ v. unsigned_abs (number type_ (value v dag.old a)))) }
{
    let _ = dag.nodes();
    let wide = converted(dag, type_, IntegerType::UnsignedLong, a)?;
    let id = negated(dag, negative, wide)?;
    Ok(id)
}

// Whether a word by a factor is below 2 ^ 64.
#[tactic(auto, using(crate::proofs::Reaching::short_always, crate::proofs::Reaching::short_by))]
fn is_product_short(dag: &mut Dag, a: Id, factor: u64) -> Result<Id, AllocError>
    requires { IsWord dag.old a 64 }
    ensures extends { Extends dag.old dag.new }
    ensures made { IfOk result (λ i. IsTest dag.new i (λ v. nat_lt (value v dag.old a * factor) (2 ^ 64))) }
{
    let _ = dag.nodes();
    if factor < 2 {
        let id = constant_test(dag, true)?;
        return Ok(id);
    }
    let limit = dag.make(Node::Constant(u64::MAX / factor, 64))?;
    let id = at_most(dag, a, limit, 64)?;
    Ok(id)
}

// The difference of two words.
fn word_left(dag: &mut Dag, a: Id, b: Id) -> Result<Id, AllocError>
    requires a { IsWord dag.old a 64 }
    requires b { IsWord dag.old b 64 }
    ensures extends { Extends dag.old dag.new }
    ensures made { IfOk result (λ i. IsValue dag.new i 64 (λ v. word_difference 64 (value v dag.old a) (value v dag.old b))) }
{
    let id = dag.make(Node::Binary(BinaryOperator::Subtract, a, b))?;
    Ok(id)
}

// Whether an offset, so far on, is at most a size.
#[tactic(auto, using(crate::proofs::Reaching::on_by))]
fn goes_on(dag: &mut Dag, offset: Id, distance: Id, size: Id) -> Result<Id, AllocError>
    requires offset { IsWord dag.old offset 64 }
    requires distance { IsWord dag.old distance 64 }
    requires size { IsWord dag.old size 64 }
    ensures extends { Extends dag.old dag.new }
    ensures made { IfOk result (λ i. IsTest dag.new i (λ v. goes_on (value v dag.old offset) (value v dag.old distance) (value v dag.old size))) }
{
    let _ = dag.nodes();
    let first = at_most(dag, distance, size, 64)?;
    let rest = word_left(dag, size, distance)?;
    let second = at_most(dag, offset, rest, 64)?;
    let id = both(dag, first, second)?;
    Ok(id)
}

// Whether an offset, so far back, is from 0 to a size.
#[tactic(auto, using(crate::proofs::Reaching::back_by))]
fn goes_back(dag: &mut Dag, offset: Id, distance: Id, size: Id) -> Result<Id, AllocError>
    requires offset { IsWord dag.old offset 64 }
    requires distance { IsWord dag.old distance 64 }
    requires size { IsWord dag.old size 64 }
    ensures extends { Extends dag.old dag.new }
    ensures made { IfOk result (λ i. IsTest dag.new i (λ v. goes_back (value v dag.old offset) (value v dag.old distance) (value v dag.old size))) }
{
    let _ = dag.nodes();
    let first = at_most(dag, distance, offset, 64)?;
    let rest = word_left(dag, offset, distance)?;
    let second = at_most(dag, rest, size, 64)?;
    let id = both(dag, first, second)?;
    Ok(id)
}

// Whether an offset, so far back or so far on, is from 0 to a size.
#[tactic(auto, using(crate::proofs::Reaching::stays_by))]
fn stays_within(
    dag: &mut Dag,
    back: Id,
    offset: Id,
    distance: Id,
    size: Id,
) -> Result<Id, AllocError>
    requires back { IsWord dag.old back 1 }
    requires offset { IsWord dag.old offset 64 }
    requires distance { IsWord dag.old distance 64 }
    requires size { IsWord dag.old size 64 }
    ensures extends { Extends dag.old dag.new }
    ensures made { IfOk result (λ i. IsTest dag.new i (λ v. stays_within (holds (value v dag.old back)) (value v dag.old offset) (value v dag.old distance) (value v dag.old size))) }
{
    let first = goes_back(dag, offset, distance, size)?;
    let second = goes_on(dag, offset, distance, size)?;
    let id = chosen(dag, back, first, second)?;
    Ok(id)
}

// Whether a product is negative, of which the step is a factor, and the test tells whether the other one is.
#[tactic(auto, using(crate::proofs::Reaching::turned_by, crate::proofs::Reaching::same_way))]
fn turned(dag: &mut Dag, negative: Id, step: i64) -> Result<Id, AllocError>
    requires { IsWord dag.old negative 1 }
    ensures extends { Extends dag.old dag.new }
    ensures made { IfOk result (λ i. IsTest dag.new i (λ v. differ (holds (value v dag.old negative)) (int_lt step (pos 0)))) }
{
    let _ = dag.nodes();
    if step < 0 {
        let id = inverse(dag, negative)?;
        return Ok(id);
    }
    Ok(negative)
}

// A word by a factor, modulo 2 ^ 64.
fn product_by(dag: &mut Dag, a: Id, factor: u64) -> Result<Id, AllocError>
    requires { IsWord dag.old a 64 }
    ensures extends { Extends dag.old dag.new }
    ensures made { IfOk result (λ i. IsValue dag.new i 64 (λ v. word_product 64 (value v dag.old a) factor)) }
{
    let number = dag.make(Node::Constant(factor, 64))?;
    let id = dag.make(Node::Binary(BinaryOperator::Multiply, a, number))?;
    Ok(id)
}

// Whether an offset, so many times a distance back or on, is from 0 to a size.
fn steps_within(
    dag: &mut Dag,
    back: Id,
    offset: Id,
    count: Id,
    factor: u64,
    size: Id,
) -> Result<Id, AllocError>
    requires back { IsWord dag.old back 1 }
    requires offset { IsWord dag.old offset 64 }
    requires count { IsWord dag.old count 64 }
    requires size { IsWord dag.old size 64 }
    ensures extends { Extends dag.old dag.new }
    ensures made { IfOk result (λ i. IsTest dag.new i (λ v. nat_lt (value v dag.old count * factor) (2 ^ 64) && stays_within (holds (value v dag.old back)) (value v dag.old offset) (word_product 64 (value v dag.old count) factor) (value v dag.old size))) }
{
    let short = is_product_short(dag, count, factor)?;
    let distance = product_by(dag, count, factor)?;
    let within = stays_within(dag, back, offset, distance, size)?;
    let id = both(dag, short, within)?;
    Ok(id)
}

/// Whether the offset of a pointer, so many bytes further on for each 1 of an index, isn't from 0 to a size, as a whole
/// number (C11 6.5.6p8).
#[tactic(auto, using(crate::proofs::Reaching::leaves_stepped))]
pub fn leaves_range(
    dag: &mut Dag,
    p: Id,
    type_: IntegerType,
    index: Id,
    step: i64,
    size: Id,
) -> Result<Id, AllocError>
    requires pointer { IsWord dag.old p 64 }
    requires index { IsWord dag.old index (type_width type_) }
    requires size { IsWord dag.old size 64 }
    ensures extends { Extends dag.old dag.new }
    ensures made { IfOk result (λ i. IsTest dag.new i (λ v. not (in_range (offset_by (pointer.offset_of (value v dag.old p)) (number type_ (value v dag.old index)) step) (value v dag.old size)))) }
{
    let _ = dag.nodes();
    let offset = low_word(dag, p)?;
    let negative = is_negative(dag, type_, index)?;
    let count = distance_from_0(dag, type_, index, negative)?;
    let back = turned(dag, negative, step)?;
    let within = steps_within(dag, back, offset, count, step.unsigned_abs(), size)?;
    let id = inverse(dag, within)?;
    Ok(id)
}
