//! Nodes of one bit: and, or, not, choice.

ghost use Rattle.std.specs.Prelude.{◌≡◌, ◌==◌, ◌≤◌, ℕ, not, ◌&&◌, ◌||◌, IfOk, if◌then◌else◌};
ghost use Rattle.core_tree.specs.Operations.{is_true, truth_bits};
ghost use Rattle.word_dag.specs.Growth.{Within, Extends};
ghost use Rattle.word_dag.specs.Meaning.{width, value, holds};
ghost use Rattle.value_nodes.specs.Values.{IsWord, IsTest, IsValue};

use rewritten_nodes::simplified;
use std::alloc::AllocError;
use word_dag::{BinaryOperator, Comparison, Dag, Id, Node};

/// Whether a word is 0.
pub fn zero_test(dag: &mut Dag, a: Id) -> Result<Id, AllocError>
    requires { Within dag.old a }
    ensures extends { Extends dag.old dag.new }
    ensures made { IfOk result (λ i. IsTest dag.new i (λ v. value v dag.old a == 0)) }
{
    let zero = dag.make(Node::Constant(0, dag.width(a)))?;
    let id = dag.make(Node::Compare(Comparison::Equal, a, zero))?;
    Ok(id)
}

/// Whether two words of one width are equal.
pub fn equal(dag: &mut Dag, a: Id, b: Id, width: u32) -> Result<Id, AllocError>
    requires a { IsWord dag.old a width }
    requires b { IsWord dag.old b width }
    ensures extends { Extends dag.old dag.new }
    ensures made { IfOk result (λ i. IsTest dag.new i (λ v. value v dag.old a == value v dag.old b)) }
{
    let id = dag.make(Node::Compare(Comparison::Equal, a, b))?;
    Ok(id)
}

/// Whether a truth value is false.
#[tactic(auto, using(crate::proofs::Made::made_not))]
pub fn inverse(dag: &mut Dag, a: Id) -> Result<Id, AllocError>
    requires { IsWord dag.old a 1 }
    ensures extends { Extends dag.old dag.new }
    ensures made { IfOk result (λ i. IsTest dag.new i (λ v. not (holds (value v dag.old a)))) }
{
    let _ = dag.nodes();
    let id = dag.make(Node::Not(a))?;
    Ok(id)
}

/// Whether a word isn't 0.
#[tactic(auto, using(crate::proofs::Made::zero_inverse))]
pub fn nonzero_test(dag: &mut Dag, a: Id) -> Result<Id, AllocError>
    requires { Within dag.old a }
    ensures extends { Extends dag.old dag.new }
    ensures made { IfOk result (λ i. IsTest dag.new i (λ v. is_true (value v dag.old a))) }
{
    let zero = zero_test(dag, a)?;
    let id = inverse(dag, zero)?;
    Ok(id)
}

/// Whether one of two truth values is true. Where one is a constant no node is made.
#[tactic(auto, using(crate::proofs::Made::made_or))]
pub fn either(dag: &mut Dag, a: Id, b: Id) -> Result<Id, AllocError>
    requires a { IsWord dag.old a 1 }
    requires b { IsWord dag.old b 1 }
    ensures extends { Extends dag.old dag.new }
    ensures made { IfOk result (λ i. IsTest dag.new i (λ v. holds (value v dag.old a) || holds (value v dag.old b))) }
{
    let _ = dag.nodes();
    let id = simplified(dag, Node::Binary(BinaryOperator::Or, a, b))?;
    Ok(id)
}

/// Whether both of two truth values are true. Where one is a constant no node is made.
#[tactic(auto, using(crate::proofs::Made::made_and))]
pub fn both(dag: &mut Dag, a: Id, b: Id) -> Result<Id, AllocError>
    requires a { IsWord dag.old a 1 }
    requires b { IsWord dag.old b 1 }
    ensures extends { Extends dag.old dag.new }
    ensures made { IfOk result (λ i. IsTest dag.new i (λ v. holds (value v dag.old a) && holds (value v dag.old b))) }
{
    let _ = dag.nodes();
    let id = simplified(dag, Node::Binary(BinaryOperator::And, a, b))?;
    Ok(id)
}

/// The first word where the test is true, else the second. Where both are one node, or the test is a constant, no
/// node is made, and a choice by the same test is looked through.
pub fn chosen(dag: &mut Dag, test: Id, a: Id, b: Id) -> Result<Id, AllocError>
    requires test { IsWord dag.old test 1 }
    requires a { Within dag.old a }
    requires b { IsWord dag.old b (width dag.old a) }
    ensures extends { Extends dag.old dag.new }
    ensures made { IfOk result (λ i. IsValue dag.new i (width dag.old a) (λ v. if holds (value v dag.old test) then value v dag.old a else value v dag.old b)) }
{
    if a == b {
        return Ok(a);
    }
    let id = simplified(dag, Node::Choice(test, a, b))?;
    Ok(id)
}

/// A truth value as the number 1 or 0 at this width.
#[tactic(auto, using(crate::proofs::Made::made_number))]
pub(crate) fn number(dag: &mut Dag, test: Id, width: u32) -> Result<Id, AllocError>
    requires test { IsWord dag.old test 1 }
    requires positive { 1 ≤ width }
    requires at_most_64 { width ≤ 64 }
    ensures extends { Extends dag.old dag.new }
    ensures made { IfOk result (λ i. IsValue dag.new i width (λ v. truth_bits (holds (value v dag.old test)))) }
{
    let _ = dag.nodes();
    let id = dag.make(Node::ZeroExtend(test, width))?;
    Ok(id)
}
