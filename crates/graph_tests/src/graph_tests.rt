//! Tests of the graph of words.

// Graphs of words and their values.

ghost use Rattle.std.specs.Prelude.{◌≡◌, ℕ, ◌<◌, IfOk};
ghost use Rattle.words.specs.Operators.{word_sum};
ghost use Rattle.word_dag.specs.Meaning.{width, value};
ghost use Rattle.word_dag.specs.Growth.{Within, Extends};

use crate::node_values::{A, B, MOST, NO, NODE_VALUES, YES, ZERO};
use std::alloc::{AllocError, Global};
use std::test::Fail;
use word_dag::{
    BinaryOperator, Comparison, Dag, FitsTest, Id, Node, Quantifier, ShiftKind, Valuation,
};
use words::Word;

const PAST: Id = Id { index: 6 };

// The first nodes: A is 0x96, which is -106 with a sign, and B is 5, both of 8 bits; ZERO is 0; YES and
// NO are truth values; MOST is 0x7f.
static FIRST: [Node; 6] = [
    Node::Variable(0, 8),
    Node::Variable(1, 8),
    Node::Variable(2, 8),
    Node::Variable(3, 1),
    Node::Variable(2, 1),
    Node::Variable(4, 8),
];

// The values of the variables 0 to 4; what is above the width is cut.
static VALUES: [u64; 5] = [0x1_0096, 5, 0, 0xffff_ffff, 0x7f];

// More nodes over the first nodes.
static ROWS: [(Node, u32, u64); 2] = [
    (Node::Variable(0, 64), 64, 0x1_0096),
    (Node::Variable(5, 8), 8, 0),
];

// Nodes that don't fit behind the first ones.
static MISFITS: [Node; 16] = [
    Node::Constant(0x100, 8),
    Node::Constant(0, 0),
    Node::Variable(0, 65),
    Node::Not(PAST),
    Node::Binary(BinaryOperator::Add, A, YES),
    Node::Shift(ShiftKind::Left, A, PAST),
    Node::Compare(Comparison::Equal, YES, A),
    Node::Choice(A, A, B),
    Node::Choice(YES, A, NO),
    Node::ZeroExtend(A, 7),
    Node::SignExtend(A, 65),
    Node::Cut(A, 4, 5),
    Node::Join(A, PAST),
    Node::Quantify(Quantifier::All, ZERO, 2),
    Node::Quantify(Quantifier::Any, YES, 3),
    Node::Quantify(Quantifier::All, MOST, usize::MAX),
];

fn made(dag: &mut Dag, node: Node) -> Option<Id> {
    if dag.fits(node) {
        dag.make(node).ok()
    } else {
        None
    }
}

fn value_of(alloc: Global, dag: &Dag, valuation: &Valuation, id: Id) -> Option<Word> {
    if id.index < dag.len() {
        dag.value(alloc, valuation, id).ok()
    } else {
        None
    }
}

fn node_at(dag: &Dag, id: Id) -> Option<Node> {
    if id.index < dag.len() {
        Some(dag.node(id))
    } else {
        None
    }
}

// The sum of three words of one width.
fn sum_of_three(dag: &mut Dag, a: Id, b: Id, c: Id) -> Result<Id, AllocError>
    requires first { Within dag.old a }
    requires second { Within dag.old b }
    requires third { Within dag.old c }
    requires widths { width dag.old a ≡ width dag.old b }
    requires third_width { width dag.old a ≡ width dag.old c }
    ensures extends { Extends dag.old dag.new }
    ensures value { IfOk result (λ i. (v : ℕ → ℕ) → value v dag.new i ≡ word_sum (width dag.old a) (word_sum (width dag.old a) (value v dag.old a) (value v dag.old b)) (value v dag.old c)) }
{
    let both = dag.make(Node::Binary(BinaryOperator::Add, a, b))?;
    dag.make(Node::Binary(BinaryOperator::Add, both, c))
}

// The first row whose node is made otherwise, or has another value.
fn wrong_value(
    alloc: Global,
    dag: &mut Dag,
    valuation: &Valuation,
    rows: &[(Node, u32, u64)],
) -> Option<usize> {
    for (i, (node, width, bits)) in rows.iter().enumerate() {
        let id = made(dag, *node).unwrap_or(PAST);
        let word = value_of(alloc, dag, valuation, id);
        let found = word.map(|word| (word.width(), word.bits()));
        if found != Some((*width, *bits)) || node_at(dag, id) != Some(*node) {
            return Some(i);
        }
    }
    None
}

// Makes nodes; whether each fits.
fn are_made(dag: &mut Dag, nodes: &[Node]) -> bool {
    for node in nodes {
        if made(dag, *node).is_none() {
            return false;
        }
    }
    true
}

// The first row whose node fits.
fn fitting_node(dag: &Dag, rows: &[Node]) -> Option<usize> {
    for (i, node) in rows.iter().enumerate() {
        if dag.fits(*node) {
            return Some(i);
        }
    }
    None
}

#[test]
fn each_node_has_its_value(rt: HostRuntime) -> Result<(), Fail> {
    let alloc = rt.alloc();
    let valuation = Valuation::from_values(Vec::from_slice(alloc, &VALUES)?);
    let mut dag = Dag::new(alloc);
    assert!(rt; are_made(&mut dag, &FIRST));
    assert_eq!(rt; fitting_node(&dag, &MISFITS), None);
    let wrong = (
        wrong_value(alloc, &mut dag, &valuation, &NODE_VALUES),
        wrong_value(alloc, &mut dag, &valuation, &ROWS),
    );
    assert_eq!(rt; wrong, (None, None));
    let count = FIRST.len() + NODE_VALUES.len() + ROWS.len();
    let words = dag.words(alloc, &valuation)?.len();
    assert_eq!(rt;
        (dag.nodes().len(), dag.len(), words),
        (count, count, count)
    );
    Ok(())
}

// Nodes over SIX, SEVEN and the variable B, and the nodes that stand for them.
const SIX: Id = Id { index: 0 };

const SEVEN: Id = Id { index: 1 };

const NONE: Id = Id { index: 2 };

const TRUE: Id = Id { index: 3 };

const FREE: Id = Id { index: 4 };

static FOLDED_FIRST: [Node; 5] = [
    Node::Constant(6, 8),
    Node::Constant(7, 8),
    Node::Constant(0, 8),
    Node::Constant(1, 1),
    Node::Variable(0, 8),
];

static FOLDED: [(Node, Node); 18] = [
    (Node::Not(SIX), Node::Constant(0xf9, 8)),
    (Node::Negate(SIX), Node::Constant(0xfa, 8)),
    (
        Node::Binary(BinaryOperator::Multiply, SIX, SEVEN),
        Node::Constant(42, 8),
    ),
    (
        Node::Binary(BinaryOperator::UnsignedDivide, SIX, NONE),
        Node::Constant(0, 8),
    ),
    (
        Node::Shift(ShiftKind::Left, SIX, SEVEN),
        Node::Constant(0, 8),
    ),
    (
        Node::Compare(Comparison::SignedLess, SIX, SEVEN),
        Node::Constant(1, 1),
    ),
    (Node::Fits(FitsTest::Sum, SIX, SEVEN), Node::Constant(1, 1)),
    (Node::Choice(TRUE, FREE, SIX), Node::Variable(0, 8)),
    (Node::ZeroExtend(SIX, 16), Node::Constant(6, 16)),
    (Node::SignExtend(SIX, 16), Node::Constant(6, 16)),
    (Node::Cut(SIX, 1, 2), Node::Constant(3, 2)),
    (Node::Join(SIX, SEVEN), Node::Constant(0x607, 16)),
    (Node::Constant(6, 8), Node::Constant(6, 8)),
    (Node::Not(FREE), Node::Not(FREE)),
    (
        Node::Binary(BinaryOperator::And, FREE, NONE),
        Node::Binary(BinaryOperator::And, FREE, NONE),
    ),
    (
        Node::Compare(Comparison::Equal, FREE, FREE),
        Node::Compare(Comparison::Equal, FREE, FREE),
    ),
    (Node::Join(FREE, SIX), Node::Join(FREE, SIX)),
    (
        Node::Quantify(Quantifier::All, TRUE, 1),
        Node::Quantify(Quantifier::All, TRUE, 1),
    ),
];

// The first row whose node is kept as another one.
fn wrong_folding(dag: &mut Dag, rows: &[(Node, Node)]) -> Option<usize> {
    for (i, (node, kept)) in rows.iter().enumerate() {
        let id = made(dag, *node).unwrap_or(PAST);
        if node_at(dag, id) != Some(*kept) {
            return Some(i);
        }
    }
    None
}

#[test]
fn a_valuation_gives_its_values_back(rt: HostRuntime) -> Result<(), Fail> {
    let valuation = Valuation::from_values(Vec::from_slice(rt.alloc(), &[3])?);
    assert_eq!(rt;
        (valuation.value(0), valuation.value(1), valuation.values()),
        (3, 0, &[3][..])
    );
    assert_eq!(rt; valuation.into_values().as_slice(), &[3][..]);
    Ok(())
}

#[test]
fn constants_are_folded(rt: HostRuntime) -> Result<(), Fail> {
    let mut dag = Dag::new(rt.alloc());
    assert!(rt; are_made(&mut dag, &FOLDED_FIRST));
    assert_eq!(rt; wrong_folding(&mut dag, &FOLDED), None);
    let chosen = made(&mut dag, Node::Choice(TRUE, FREE, SIX));
    // Eleven of the nodes weren't there.
    let count = FOLDED_FIRST.len() + 11;
    assert_eq!(rt; (chosen, dag.len()), (Some(FREE), count));
    Ok(())
}

// The first row whose node is another one, or is added once more, where it is made again.
fn made_again(dag: &mut Dag, rows: &[(Node, Node)]) -> Option<usize> {
    for (i, (node, _)) in rows.iter().enumerate() {
        let first = made(dag, *node);
        let count = dag.len();
        if made(dag, *node) != first || dag.len() != count {
            return Some(i);
        }
    }
    None
}

// Operands the other way round make another node.
#[test]
fn a_node_is_made_once(rt: HostRuntime) -> Result<(), Fail> {
    let mut dag = Dag::new(rt.alloc());
    assert!(rt; are_made(&mut dag, &FOLDED_FIRST));
    assert_eq!(rt; made_again(&mut dag, &FOLDED), None);
    let count = dag.len();
    let turned = made(&mut dag, Node::Binary(BinaryOperator::And, NONE, FREE));
    assert_eq!(rt;
        (turned, dag.len().saturating_sub(count)),
        (Some(Id { index: count }), 1)
    );
    Ok(())
}

// The last of a million sums of the variable and SEVENs.
fn long_sum(dag: &mut Dag) -> Id {
    let mut last = FREE;
    for _ in 0..1_000_000 {
        let next = Node::Binary(BinaryOperator::Add, last, SEVEN);
        last = made(dag, next).unwrap_or(PAST);
    }
    last
}

#[test]
fn a_long_chain_is_evaluated(rt: HostRuntime) -> Result<(), Fail> {
    let alloc = rt.alloc();
    let valuation = Valuation::from_values(Vec::from_slice(alloc, &[3])?);
    let mut dag = Dag::new(alloc);
    assert!(rt; are_made(&mut dag, &FOLDED_FIRST));
    let last = long_sum(&mut dag);
    let sum = sum_of_bytes(&mut dag)?;
    let words = (
        value_of(alloc, &dag, &valuation, last).map(|word| word.bits()),
        value_of(alloc, &dag, &valuation, sum).map(|word| word.bits()),
    );
    assert_eq!(rt; words, (Some(0xc3), Some(16)));
    Ok(())
}

// SIX + SEVEN + FREE
fn sum_of_bytes(dag: &mut Dag) -> Result<Id, AllocError> {
    if FREE.index < dag.len() {
        let width = dag.width(FREE);
        if dag.width(SIX) == width && dag.width(SEVEN) == width {
            return sum_of_three(dag, SIX, SEVEN, FREE);
        }
    }
    Err(AllocError)
}
