//! Nodes of pointers: the number of an object in the high 32 bits, an offset into it in the low 32.

ghost use Rattle.std.specs.Prelude.{◌≡◌, ◌+◌, ◌<◌, ◌^◌, ◌*◌, ◌%◌, ℕ, IfOk};
ghost use Rattle.words.specs.Operators.{wrapped, word_product};
ghost use Rattle.c_types.specs.Integers.{width as type_width};
ghost use Rattle.core_tree.specs.Operations as operations;
ghost use Rattle.core_tree.specs.Operations.{number, truth_bits};
ghost use Rattle.actions.specs.Pointer as pointer;
ghost use Rattle.c_values.specs.Pointers as pointers;
ghost use Rattle.c_values.specs.Pointers.{pointer_at, further, offset_by};
ghost use Rattle.c_values.specs.Variables.{pointer_to};
ghost use Rattle.word_dag.specs.Growth.{Extends};
ghost use Rattle.word_dag.specs.Meaning.{value};
ghost use Rattle.value_nodes.specs.Values.{IsWord, IsValue};

use crate::numbers::{compared, constant, converted};
use crate::operations::arithmetic;
use c_types::IntegerType;
use core_tree::{ArithmeticOperator, Comparison};
use std::alloc::AllocError;
use word_dag::{BinaryOperator, Dag, Id, Node};

/// The number of a pointer's object.
#[tactic(auto, using(crate::proofs::Halves::made_object))]
pub fn object_of(dag: &mut Dag, p: Id) -> Result<Id, AllocError>
    requires { IsWord dag.old p 64 }
    ensures extends { Extends dag.old dag.new }
    ensures made { IfOk result (λ i. IsValue dag.new i 32 (λ v. pointer.object_of (value v dag.old p))) }
{
    let _ = dag.nodes();
    let id = dag.make(Node::Cut(p, 32, 32))?;
    Ok(id)
}

/// The offset of a pointer.
#[tactic(auto, using(crate::proofs::Halves::made_offset))]
pub fn offset_of(dag: &mut Dag, p: Id) -> Result<Id, AllocError>
    requires { IsWord dag.old p 64 }
    ensures extends { Extends dag.old dag.new }
    ensures made { IfOk result (λ i. IsValue dag.new i 32 (λ v. pointer.offset_of (value v dag.old p))) }
{
    let id = dag.make(Node::Cut(p, 0, 32))?;
    Ok(id)
}

/// The pointer to an offset of the object with this number.
#[tactic(auto, using(crate::proofs::Halves::made_pointer))]
pub fn pointer_to(dag: &mut Dag, object: Id, offset: Id) -> Result<Id, AllocError>
    requires object { IsWord dag.old object 32 }
    requires offset { IsWord dag.old offset 32 }
    ensures extends { Extends dag.old dag.new }
    ensures made { IfOk result (λ i. IsValue dag.new i 64 (λ v. pointer_to (value v dag.old object) (value v dag.old offset))) }
{
    let id = dag.make(Node::Join(object, offset))?;
    Ok(id)
}

// The sum of two words of 32 bits.
#[tactic(auto, using(crate::proofs::Halves::made_sum))]
fn sum(dag: &mut Dag, a: Id, b: Id) -> Result<Id, AllocError>
    requires a { IsWord dag.old a 32 }
    requires b { IsWord dag.old b 32 }
    ensures extends { Extends dag.old dag.new }
    ensures made { IfOk result (λ i. IsValue dag.new i 32 (λ v. (value v dag.old a + value v dag.old b) % 2 ^ 32)) }
{
    let id = dag.make(Node::Binary(BinaryOperator::Add, a, b))?;
    Ok(id)
}

// A pointer so many bytes further on, modulo 2 ^ 32.
#[tactic(auto, using(crate::proofs::Halves::made_further))]
fn further_by(dag: &mut Dag, p: Id, distance: Id) -> Result<Id, AllocError>
    requires pointer { IsWord dag.old p 64 }
    requires distance { IsWord dag.old distance 32 }
    ensures extends { Extends dag.old dag.new }
    ensures made { IfOk result (λ i. IsValue dag.new i 64 (λ v. further (value v dag.old p) (value v dag.old distance))) }
{
    let object = object_of(dag, p)?;
    let offset = offset_of(dag, p)?;
    let there = sum(dag, offset, distance)?;
    let id = pointer_to(dag, object, there)?;
    Ok(id)
}

/// A pointer so many bytes further on, with its offset modulo 2 ^ 32 (C11 6.5.2.3p4).
pub fn displaced(dag: &mut Dag, p: Id, count: u32) -> Result<Id, AllocError>
    requires { IsWord dag.old p 64 }
    ensures extends { Extends dag.old dag.new }
    ensures made { IfOk result (λ i. IsValue dag.new i 64 (λ v. further (value v dag.old p) count)) }
{
    let distance = dag.make(Node::Constant(count as u64, 32))?;
    let id = further_by(dag, p, distance)?;
    Ok(id)
}

// The low 32 bits of a step.
#[tactic(auto, using(crate::proofs::Distances::step_low))]
fn low_step(step: i64) -> u32
    ensures { result ≡ wrapped 32 step }
{
    (step.cast_unsigned() % 4_294_967_296) as u32
}

// The low 32 bits of so many steps.
#[tactic(auto, using(crate::proofs::Halves::made_distance))]
fn distance_of(dag: &mut Dag, type_: IntegerType, index: Id, step: i64) -> Result<Id, AllocError>
    requires { IsWord dag.old index (type_width type_) }
    ensures extends { Extends dag.old dag.new }
    ensures made { IfOk result (λ i. IsValue dag.new i 32 (λ v. (wrapped 32 (number type_ (value v dag.old index)) * wrapped 32 step) % 2 ^ 32)) }
{
    let low = converted(dag, type_, IntegerType::UnsignedInt, index)?;
    let factor = dag.make(Node::Constant(low_step(step) as u64, 32))?;
    let id = dag.make(Node::Binary(BinaryOperator::Multiply, low, factor))?;
    Ok(id)
}

/// A pointer so many bytes further on for each 1 of an index, with its offset modulo 2 ^ 32 (C11 6.5.6p8).
#[tactic(auto, using(crate::proofs::Halves::made_moved))]
pub fn moved(
    dag: &mut Dag,
    p: Id,
    type_: IntegerType,
    index: Id,
    step: i64,
) -> Result<Id, AllocError>
    requires pointer { IsWord dag.old p 64 }
    requires index { IsWord dag.old index (type_width type_) }
    ensures extends { Extends dag.old dag.new }
    ensures made { IfOk result (λ i. IsValue dag.new i 64 (λ v. pointer_at (value v dag.old p) (offset_by (pointer.offset_of (value v dag.old p)) (number type_ (value v dag.old index)) step))) }
{
    let _ = dag.nodes();
    let distance = distance_of(dag, type_, index, step)?;
    let id = further_by(dag, p, distance)?;
    Ok(id)
}

// The offset of a pointer as a number of type long.
fn long_offset(dag: &mut Dag, p: Id) -> Result<Id, AllocError>
    requires { IsWord dag.old p 64 }
    ensures extends { Extends dag.old dag.new }
    ensures made { IfOk result (λ i. IsValue dag.new i 64 (λ v. pointer.offset_of (value v dag.old p))) }
{
    let offset = offset_of(dag, p)?;
    let id = dag.make(Node::ZeroExtend(offset, 64))?;
    Ok(id)
}

// The difference of the offsets of two pointers.
fn difference(dag: &mut Dag, p: Id, q: Id) -> Result<Id, AllocError>
    requires left { IsWord dag.old p 64 }
    requires right { IsWord dag.old q 64 }
    ensures extends { Extends dag.old dag.new }
    ensures made { IfOk result (λ i. IsValue dag.new i 64 (λ v. operations.arithmetic_value ArithmeticOperator.Subtract IntegerType.Long (pointer.offset_of (value v dag.old p)) (pointer.offset_of (value v dag.old q)))) }
{
    let a = long_offset(dag, p)?;
    let b = long_offset(dag, q)?;
    let long = IntegerType::Long;
    let id = arithmetic(dag, ArithmeticOperator::Subtract, long, long, a, b)?;
    Ok(id)
}

/// How many elements of so many bytes lie between the offsets of two pointers, toward 0, of type long (C11 6.5.6p9).
pub fn elements_between(dag: &mut Dag, p: Id, q: Id, step: u32) -> Result<Id, AllocError>
    requires left { IsWord dag.old p 64 }
    requires right { IsWord dag.old q 64 }
    ensures extends { Extends dag.old dag.new }
    ensures made { IfOk result (λ i. IsValue dag.new i 64 (λ v. pointers.elements_between (value v dag.old p) (value v dag.old q) step)) }
{
    let bytes = difference(dag, p, q)?;
    let long = IntegerType::Long;
    let size = constant(dag, step as u64, long)?;
    let id = arithmetic(dag, ArithmeticOperator::Divide, long, long, bytes, size)?;
    Ok(id)
}

/// 1 where the offsets of two pointers compare so, else 0, of type int (C11 6.5.8p5, p6).
#[tactic(auto, using(crate::proofs::Halves::related_offsets))]
pub fn offsets_compared(dag: &mut Dag, operator: Comparison, p: Id, q: Id) -> Result<Id, AllocError>
    requires left { IsWord dag.old p 64 }
    requires right { IsWord dag.old q 64 }
    ensures extends { Extends dag.old dag.new }
    ensures made { IfOk result (λ i. IsValue dag.new i 32 (λ v. truth_bits (operations.compared operator IntegerType.UnsignedLong (pointer.offset_of (value v dag.old p)) (pointer.offset_of (value v dag.old q))))) }
{
    let a = offset_of(dag, p)?;
    let b = offset_of(dag, q)?;
    let id = compared(dag, operator, IntegerType::UnsignedInt, a, b)?;
    Ok(id)
}
