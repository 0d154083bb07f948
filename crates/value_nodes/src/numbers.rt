//! Nodes of numbers of an integer type.

ghost use Rattle.std.specs.Prelude.{◌≡◌, ◌==◌, ◌<◌, ◌≤◌, ◌^◌, ℕ, IfOk, if◌then◌else◌};
ghost use Rattle.c_types.specs.Integers.{width as type_width, is_signed, same_integer};
ghost use Rattle.core_tree.specs.Operations as operations;
ghost use Rattle.core_tree.specs.Operations.{sign_value, truth_bits};
ghost use Rattle.word_dag.specs.Growth.{Within, Extends};
ghost use Rattle.word_dag.specs.Meaning.{value};
ghost use Rattle.value_nodes.specs.Values.{IsWord, IsTest, IsValue};

use crate::truth::{equal, inverse, nonzero_test, number, zero_test};
use c_types::IntegerType;
use core_tree::{Comparison, SignOperator};
use std::alloc::AllocError;
use word_dag::{Comparison as Test, Dag, Id, Node};

/// The number of this type with these bits.
pub fn constant(dag: &mut Dag, bits: u64, type_: IntegerType) -> Result<Id, AllocError>
    requires { bits < 2 ^ type_width type_ }
    ensures extends { Extends dag.old dag.new }
    ensures made { IfOk result (λ i. IsValue dag.new i (type_width type_) (λ v. bits)) }
{
    let id = dag.make(Node::Constant(bits, type_.width()))?;
    Ok(id)
}

/// The result of a sign operator, whether or not it breaks a check (C11 6.5.3.3).
pub fn sign(
    dag: &mut Dag,
    operator: SignOperator,
    type_: IntegerType,
    a: Id,
) -> Result<Id, AllocError>
    requires { IsWord dag.old a (type_width type_) }
    ensures extends { Extends dag.old dag.new }
    ensures made { IfOk result (λ i. IsValue dag.new i (type_width type_) (λ v. sign_value operator type_ (value v dag.old a))) }
{
    match operator {
        SignOperator::Plus => Ok(a),
        SignOperator::Minus => dag.make(Node::Negate(a)),
        SignOperator::Complement => dag.make(Node::Not(a)),
    }
}

/// 1 where the word is 0, else 0, of type int (C11 6.5.3.3p5).
#[tactic(auto, using(crate::proofs::Made::number_of_test))]
pub fn is_zero(dag: &mut Dag, a: Id) -> Result<Id, AllocError>
    requires { Within dag.old a }
    ensures extends { Extends dag.old dag.new }
    ensures made { IfOk result (λ i. IsValue dag.new i 32 (λ v. truth_bits (value v dag.old a == 0))) }
{
    let test = zero_test(dag, a)?;
    let id = number(dag, test, 32)?;
    Ok(id)
}

pub(crate) fn is_bool(type_: IntegerType) -> bool
    ensures { result ≡ same_integer type_ IntegerType.Bool }
{
    matches!(type_, IntegerType::Bool)
}

/// The number converted to _Bool.
#[tactic(auto, using(crate::proofs::Made::number_of_test))]
pub(crate) fn truth_of(dag: &mut Dag, a: Id) -> Result<Id, AllocError>
    requires { Within dag.old a }
    ensures extends { Extends dag.old dag.new }
    ensures made { IfOk result (λ i. IsValue dag.new i 8 (λ v. truth_bits (operations.is_true (value v dag.old a)))) }
{
    let test = nonzero_test(dag, a)?;
    let id = number(dag, test, 8)?;
    Ok(id)
}

/// The number of another type (C11 6.3.1.2, 6.3.1.3).
#[tactic(auto, using(crate::proofs::Conversions::made_bool))]
pub fn converted(dag: &mut Dag, from: IntegerType, to: IntegerType, a: Id) -> Result<Id, AllocError>
    requires { IsWord dag.old a (type_width from) }
    ensures extends { Extends dag.old dag.new }
    ensures made { IfOk result (λ i. IsValue dag.new i (type_width to) (λ v. operations.converted from to (value v dag.old a))) }
{
    let _ = dag.nodes();
    if is_bool(to) {
        let id = truth_of(dag, a)?;
        return Ok(id);
    }
    if to.width() <= from.width() {
        let id = dag.make(Node::Cut(a, 0, to.width()))?;
        return Ok(id);
    }
    if from.is_signed() {
        let id = dag.make(Node::SignExtend(a, to.width()))?;
        return Ok(id);
    }
    let id = dag.make(Node::ZeroExtend(a, to.width()))?;
    Ok(id)
}

// How numbers of the type are compared.
fn order(type_: IntegerType) -> Test
    ensures { result ≡ (if is_signed type_ then Test.SignedLess else Test.UnsignedLess) }
{
    if type_.is_signed() {
        Test::SignedLess
    } else {
        Test::UnsignedLess
    }
}

// Whether the first is less than the second.
fn less(dag: &mut Dag, type_: IntegerType, a: Id, b: Id) -> Result<Id, AllocError>
    requires a { IsWord dag.old a (type_width type_) }
    requires b { IsWord dag.old b (type_width type_) }
    ensures extends { Extends dag.old dag.new }
    ensures made { IfOk result (λ i. IsTest dag.new i (λ v. operations.compared Comparison.Less type_ (value v dag.old a) (value v dag.old b))) }
{
    let test = order(type_);
    let id = dag.make(Node::Compare(test, a, b))?;
    Ok(id)
}

// Whether a comparison holds.
#[tactic(auto, using(crate::proofs::Made::inverse_of_test))]
fn holds(
    dag: &mut Dag,
    operator: Comparison,
    type_: IntegerType,
    a: Id,
    b: Id,
) -> Result<Id, AllocError>
    requires a { IsWord dag.old a (type_width type_) }
    requires b { IsWord dag.old b (type_width type_) }
    ensures extends { Extends dag.old dag.new }
    ensures made { IfOk result (λ i. IsTest dag.new i (λ v. operations.compared operator type_ (value v dag.old a) (value v dag.old b))) }
{
    match operator {
        Comparison::Less => less(dag, type_, a, b),
        Comparison::Greater => less(dag, type_, b, a),
        Comparison::LessEqual => {
            let test = less(dag, type_, b, a)?;
            let id = inverse(dag, test)?;
            Ok(id)
        }
        Comparison::GreaterEqual => {
            let test = less(dag, type_, a, b)?;
            let id = inverse(dag, test)?;
            Ok(id)
        }
        Comparison::Equal => equal(dag, a, b, type_.width()),
        Comparison::NotEqual => {
            let test = equal(dag, a, b, type_.width())?;
            let id = inverse(dag, test)?;
            Ok(id)
        }
    }
}

/// 1 where a comparison holds, else 0, of type int (C11 6.5.8p6, 6.5.9p3).
#[tactic(auto, using(crate::proofs::Made::number_of_test))]
pub fn compared(
    dag: &mut Dag,
    operator: Comparison,
    type_: IntegerType,
    a: Id,
    b: Id,
) -> Result<Id, AllocError>
    requires a { IsWord dag.old a (type_width type_) }
    requires b { IsWord dag.old b (type_width type_) }
    ensures extends { Extends dag.old dag.new }
    ensures made { IfOk result (λ i. IsValue dag.new i 32 (λ v. truth_bits (operations.compared operator type_ (value v dag.old a) (value v dag.old b)))) }
{
    let test = holds(dag, operator, type_, a, b)?;
    let id = number(dag, test, 32)?;
    Ok(id)
}
