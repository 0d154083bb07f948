//! Nodes that are there already, or that a plainer node says.

ghost use Rattle.std.specs.Prelude.{◌≡◌, ℕ, true, IfOk, IfSome};
ghost use Rattle.word_dag.specs.Meaning.{width, value, holds};
ghost use Rattle.word_dag.specs.Growth.{Within, Extends, Makes, IsFitting};
ghost use Rattle.rewritten_nodes.specs.Same.{IsTruth, AreConjuncts, IsSide, IsSame};

use std::alloc::AllocError;
use word_dag::{BinaryOperator, Dag, Id, Node};

/// The truth value of a node that is a constant of width 1.
pub fn truth(dag: &Dag, id: Id) -> Option<bool>
    requires { Within dag.now id }
    ensures { IfSome result (IsTruth dag.now id) }
{
    let _ = dag.nodes();
    match dag.node(id) {
        Node::Constant(bits, width) => { if width == 1 { Some(bits > 0) } else { None } }
        _ => None,
    }
}

// The operand that a conjunction is, where one of them is a constant truth value.
#[tactic(auto, using(crate::proofs::Sides::and_true_first, crate::proofs::Sides::and_false_first, crate::proofs::Sides::and_true_second, crate::proofs::Sides::and_false_second))]
fn conjunct(dag: &Dag, a: Id, b: Id) -> Option<Id>
    requires { IsFitting dag.now (Node.Binary BinaryOperator.And a b) }
    ensures { IfSome result (Makes dag.now dag.now (Node.Binary BinaryOperator.And a b)) }
{
    let _ = dag.nodes();
    if let Some(first) = truth(dag, a) {
        if first {
            return Some(b);
        }
        return Some(a);
    }
    let second = truth(dag, b)?;
    if second {
        return Some(a);
    }
    Some(b)
}

// The operand that a disjunction is, where one of them is a constant truth value.
#[tactic(auto, using(crate::proofs::Sides::or_true_first, crate::proofs::Sides::or_false_first, crate::proofs::Sides::or_true_second, crate::proofs::Sides::or_false_second))]
fn disjunct(dag: &Dag, a: Id, b: Id) -> Option<Id>
    requires { IsFitting dag.now (Node.Binary BinaryOperator.Or a b) }
    ensures { IfSome result (Makes dag.now dag.now (Node.Binary BinaryOperator.Or a b)) }
{
    let _ = dag.nodes();
    if let Some(first) = truth(dag, a) {
        if first {
            return Some(a);
        }
        return Some(b);
    }
    let second = truth(dag, b)?;
    if second {
        return Some(b);
    }
    Some(a)
}

// The operand that an operation on two words is.
fn part(dag: &Dag, operator: BinaryOperator, a: Id, b: Id) -> Option<Id>
    requires { IsFitting dag.now (Node.Binary operator a b) }
    ensures { IfSome result (Makes dag.now dag.now (Node.Binary operator a b)) }
{
    match operator {
        BinaryOperator::And => conjunct(dag, a, b),
        BinaryOperator::Or => disjunct(dag, a, b),
        _ => None,
    }
}

// The node that this one is, where it is an operand of it.
fn operand(dag: &Dag, node: Node) -> Option<Id>
    requires { IsFitting dag.now node }
    ensures { IfSome result (Makes dag.now dag.now node) }
{
    match node {
        Node::Binary(operator, a, b) => part(dag, operator, a, b),
        Node::Choice(_, a, b) => { if a.index == b.index { Some(a) } else { None } }
        _ => None,
    }
}

// The operands of a conjunction of truth values.
fn conjuncts(dag: &Dag, id: Id) -> Option<(Id, Id)>
    requires there { Within dag.now id }
    requires bit { width dag.now id ≡ 1 }
    ensures { IfSome result (λ r. AreConjuncts dag.now id r.0 r.1) }
{
    let _ = dag.nodes();
    match dag.node(id) {
        Node::Binary(operator, a, b) => {
            match operator {
                BinaryOperator::And => Some((a, b)),
                _ => None,
            }
        }
        _ => None,
    }
}

// Whether it is seen that a truth value is true wherever another one is: it is that one, or a part of its
// conjunction, on the left down to the sixteenth.
fn implies(dag: &Dag, condition: Id, part: Id) -> bool
    requires there { Within dag.now condition }
    requires bit { width dag.now condition ≡ 1 }
    ensures { result ≡ true → (v : ℕ → ℕ) → holds (value v dag.now condition) ≡ true → holds (value v dag.now part) ≡ true }
{
    let mut left = condition;
    'descending: for _ in 0..16 {
        if left.index == part.index {
            return true;
        }
        match conjuncts(dag, left) {
            Some((a, b)) => {
                if b.index == part.index {
                    return true;
                }
                left = a;
            }
            None => return false,
        }
    }
    false
}

/// What a node is where a condition is true, or where it is false: the side of a choice that the condition decides.
pub fn side(dag: &Dag, condition: Id, id: Id, is: bool) -> Id
    requires condition { Within dag.now condition }
    requires bit { width dag.now condition ≡ 1 }
    requires there { Within dag.now id }
    ensures { IsSide dag.now condition id is result }
{
    let _ = dag.nodes();
    match dag.node(id) {
        Node::Choice(other, a, b) => {
            if is {
                if implies(dag, condition, other) {
                    return a;
                }
                return id;
            }
            if implies(dag, other, condition) {
                return b;
            }
            id
        }
        _ => id,
    }
}

// A node that says the same, where a choice's sides are no choices that its condition decides.
fn plain(dag: &Dag, node: Node) -> Node
    requires { IsFitting dag.now node }
    ensures { IsSame dag.now node result }
{
    match node {
        Node::Choice(condition, a, b) => {
            let first = side(dag, condition, a, true);
            let second = side(dag, condition, b, false);
            Node::Choice(condition, first, second)
        }
        _ => node,
    }
}

/// Makes a node, and gives its Id, which may be that of an operand: of a conjunction or disjunction of truth
/// values of which one is a constant, and of a choice between one node and itself. A side of a choice that is a
/// choice which the condition decides is looked through. The only error is that there is no memory.
#[tactic(auto, using(crate::proofs::Sides::makes_same))]
pub fn simplified(dag: &mut Dag, node: Node) -> Result<Id, AllocError>
    requires { IsFitting dag.old node }
    ensures extends { Extends dag.old dag.new }
    ensures made { IfOk result (Makes dag.old dag.new node) }
{
    let same = plain(dag, node);
    if let Some(id) = operand(dag, same) {
        return Ok(id);
    }
    let id = dag.make(same)?;
    Ok(id)
}
