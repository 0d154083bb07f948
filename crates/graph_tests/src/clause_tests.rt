//! Tests of the clauses of gates and of goals.

// Goals that are solved as clauses, and the laws of the operators.

use crate::node_values::{NODE_VALUES, YES};
use bit_blast::{blast, lift};
use cdcl_core::{Answer, solve};
use std::alloc::{AllocError, Global};
use std::test::Fail;
use word_dag::{BinaryOperator, Comparison, Dag, FitsTest, Id, Node, ShiftKind, Valuation};

// Makes a node, where it fits.
fn made(dag: &mut Dag, node: Node) -> Result<Id, Fail> {
    if dag.fits(node) {
        Ok(dag.make(node)?)
    } else {
        Err("a node that doesn't fit")?
    }
}

fn binary(dag: &mut Dag, operator: BinaryOperator, a: Id, b: Id) -> Result<Id, Fail> {
    made(dag, Node::Binary(operator, a, b))
}

fn equal(dag: &mut Dag, a: Id, b: Id) -> Result<Id, Fail> {
    made(dag, Node::Compare(Comparison::Equal, a, b))
}

// The value of a node; 0 where there is none.
fn value_of(alloc: Global, dag: &Dag, valuation: &Valuation, id: Id) -> Result<u64, AllocError> {
    if id.index < dag.len() {
        Ok(dag.value(alloc, valuation, id)?.bits())
    } else {
        Ok(0)
    }
}

// More units than the formulas of these tests take.
const AMPLE: u64 = 1_000_000;

// The values of the variables that make a goal true, if there are some; they are checked.
fn solved(alloc: Global, dag: &Dag, goal: Id) -> Result<Option<Valuation>, Fail> {
    if goal.index < dag.len() && dag.width(goal) == 1 {
        let blasted = blast(alloc, dag, goal)?;
        return match solve(alloc, &blasted.cnf, AMPLE)? {
            Answer::Sat(model) => {
                let valuation = lift(alloc, &blasted, &model)?;
                if value_of(alloc, dag, &valuation, goal)? == 1 {
                    Ok(Some(valuation))
                } else {
                    Err("a model that doesn't make the goal true")?
                }
            }
            Answer::Unsat(_) => Ok(None),
            Answer::Spent(_) => Err("a budget that is spent")?,
        };
    }
    Err("a goal that is no truth value")?
}

// Six words, and the values that they are to have.
static FIRST: [(u32, u64); 6] = [(8, 0x96), (8, 5), (8, 0), (1, 1), (1, 0), (8, 0x7f)];

// The first words, as variables, and that each has its value.
fn first_words(dag: &mut Dag) -> Result<Id, Fail> {
    for (number, (width, _)) in FIRST.iter().enumerate() {
        made(dag, Node::Variable(number as u32, *width))?;
    }
    let mut all = YES;
    for (number, (width, value)) in FIRST.iter().enumerate() {
        let constant = made(dag, Node::Constant(*value, *width))?;
        let same = equal(dag, Id { index: number }, constant)?;
        all = binary(dag, BinaryOperator::And, all, same)?;
    }
    Ok(all)
}

// Whether a node has this value, and can have no other, where the words have theirs.
fn has_only(alloc: Global, node: Node, width: u32, value: u64) -> Result<bool, Fail> {
    let mut dag = Dag::new(alloc);
    let all = first_words(&mut dag)?;
    let id = made(&mut dag, node)?;
    let constant = made(&mut dag, Node::Constant(value, width))?;
    let same = equal(&mut dag, id, constant)?;
    let goal = binary(&mut dag, BinaryOperator::And, all, same)?;
    let Some(valuation) = solved(alloc, &dag, goal)? else {
        return Ok(false);
    };
    for (number, (_, value)) in FIRST.iter().enumerate() {
        if valuation.value(number as u32) != *value {
            return Ok(false);
        }
    }
    let other = made(&mut dag, Node::Not(same))?;
    let goal = binary(&mut dag, BinaryOperator::And, all, other)?;
    Ok(solved(alloc, &dag, goal)?.is_none())
}

// The first row whose node has another value, or can have one.
fn wrong_node(alloc: Global, rows: &[(Node, u32, u64)]) -> Result<Option<usize>, Fail> {
    for (i, (node, width, value)) in rows.iter().enumerate() {
        if !has_only(alloc, *node, *width, *value)? {
            return Ok(Some(i));
        }
    }
    Ok(None)
}

#[test]
fn each_node_has_its_value_and_no_other(rt: HostRuntime) -> Result<(), Fail> {
    assert_eq!(rt; wrong_node(rt.alloc(), &NODE_VALUES)?, None);
    Ok(())
}

static OPERATORS: [BinaryOperator; 10] = [
    BinaryOperator::Add,
    BinaryOperator::Subtract,
    BinaryOperator::Multiply,
    BinaryOperator::UnsignedDivide,
    BinaryOperator::SignedDivide,
    BinaryOperator::UnsignedRemainder,
    BinaryOperator::SignedRemainder,
    BinaryOperator::And,
    BinaryOperator::Or,
    BinaryOperator::Xor,
];

// The next of a fixed row of numbers (Knuth's linear congruential generator for MMIX), below the bound.
fn next(state: &mut u64, bound: u64) -> u64 {
    *state = (*state)
        .wrapping_mul(6_364_136_223_846_793_005)
        .wrapping_add(1_442_695_040_888_963_407);
    (*state >> 33) % bound.max(1)
}

// A node of three bits over two of the words before it.
fn random_node(state: &mut u64, words: &[Id]) -> Option<Node> {
    let count = words.len() as u64;
    let a = *words.get(next(state, count) as usize)?;
    let b = *words.get(next(state, count) as usize)?;
    Some(match next(state, 8) {
        0 => Node::Not(a),
        1 => Node::Negate(a),
        2 => Node::Shift(ShiftKind::Left, a, b),
        3 => Node::Shift(ShiftKind::Arithmetic, a, b),
        4 => Node::Constant(next(state, 8), 3),
        _ => Node::Binary(*OPERATORS.get(next(state, 10) as usize)?, a, b),
    })
}

// A goal over two variables of three bits.
fn random_goal(alloc: Global, dag: &mut Dag, state: &mut u64) -> Result<Id, Fail> {
    let mut words = Vec::new(alloc);
    words.push(made(dag, Node::Variable(0, 3))?)?;
    words.push(made(dag, Node::Variable(1, 3))?)?;
    for _ in 0..6 {
        let node = random_node(state, &words).ok_or("no node")?;
        words.push(made(dag, node)?)?;
    }
    let last = words.pop().ok_or("no word")?;
    let other = words.pop().ok_or("no word")?;
    match next(state, 3) {
        0 => equal(dag, last, other),
        1 => made(dag, Node::Compare(Comparison::SignedLess, last, other)),
        _ => made(dag, Node::Fits(FitsTest::Difference, last, other)),
    }
}

// Whether some values of two variables of three bits make the goal true.
fn some_true(alloc: Global, dag: &Dag, goal: Id) -> Result<bool, Fail> {
    for first in 0..8 {
        for second in 0..8 {
            let valuation = Valuation::from_values(Vec::from_slice(alloc, &[first, second])?);
            if value_of(alloc, dag, &valuation, goal)? == 1 {
                return Ok(true);
            }
        }
    }
    Ok(false)
}

#[test]
fn random_goals_are_true_where_their_form_has_a_model(rt: HostRuntime) -> Result<(), Fail> {
    let alloc = rt.alloc();
    let mut state = 7;
    let mut unsatisfied = 0;
    for i in 0..150 {
        let mut dag = Dag::new(alloc);
        let goal = random_goal(alloc, &mut dag, &mut state)?;
        let expected = some_true(alloc, &dag, goal)?;
        let found = solved(alloc, &dag, goal)?.is_some();
        assert_eq!(rt; found, expected, "goal {i}");
        if !expected {
            unsatisfied = unsatisfied % 1000 + 1;
        }
    }
    assert!(rt; 0 < unsatisfied && unsatisfied < 150);
    Ok(())
}

// Words by names of one letter.
#[derive(Drop)]
struct Words {
    dag: Dag,
    named: Vec<(u8, Id)>,
}

// A node of two words.
fn of_two(sign: u8, a: Id, b: Id) -> Option<Node> {
    match sign {
        b'+' => Some(Node::Binary(BinaryOperator::Add, a, b)),
        b'-' => Some(Node::Binary(BinaryOperator::Subtract, a, b)),
        b'*' => Some(Node::Binary(BinaryOperator::Multiply, a, b)),
        b'/' => Some(Node::Binary(BinaryOperator::UnsignedDivide, a, b)),
        b'%' => Some(Node::Binary(BinaryOperator::UnsignedRemainder, a, b)),
        b'D' => Some(Node::Binary(BinaryOperator::SignedDivide, a, b)),
        b'R' => Some(Node::Binary(BinaryOperator::SignedRemainder, a, b)),
        b'&' => Some(Node::Binary(BinaryOperator::And, a, b)),
        b'|' => Some(Node::Binary(BinaryOperator::Or, a, b)),
        b'^' => Some(Node::Binary(BinaryOperator::Xor, a, b)),
        b'<' => Some(Node::Shift(ShiftKind::Left, a, b)),
        b'>' => Some(Node::Shift(ShiftKind::Logical, a, b)),
        b'A' => Some(Node::Shift(ShiftKind::Arithmetic, a, b)),
        b'=' => Some(Node::Compare(Comparison::Equal, a, b)),
        b'U' => Some(Node::Compare(Comparison::UnsignedLess, a, b)),
        b'S' => Some(Node::Compare(Comparison::SignedLess, a, b)),
        b'F' => Some(Node::Fits(FitsTest::Sum, a, b)),
        b'G' => Some(Node::Fits(FitsTest::Difference, a, b)),
        b'P' => Some(Node::Fits(FitsTest::Product, a, b)),
        b'Q' => Some(Node::Fits(FitsTest::LeftShift, a, b)),
        b'J' => Some(Node::Join(a, b)),
        _ => None,
    }
}

// A node of one word.
fn of_one(sign: u8, a: Id) -> Option<Node> {
    match sign {
        b'~' => Some(Node::Not(a)),
        b'N' => Some(Node::Negate(a)),
        b'Z' => Some(Node::ZeroExtend(a, 16)),
        b'X' => Some(Node::SignExtend(a, 16)),
        b'L' => Some(Node::Cut(a, 0, 4)),
        b'H' => Some(Node::Cut(a, 4, 4)),
        b'B' => Some(Node::Cut(a, 0, 8)),
        _ => None,
    }
}

impl Words {
    // Four variables of eight bits are w, x, y and z.
    fn new(alloc: Global) -> Result<Words, Fail> {
        let mut words = Words {
            dag: Dag::new(alloc),
            named: Vec::new(alloc),
        };
        for (number, name) in b"wxyz".iter().enumerate() {
            let id = made(&mut words.dag, Node::Variable(number as u32, 8))?;
            words.named.push((*name, id))?;
        }
        Ok(words)
    }

    // The word that was last named so.
    fn named(&self, name: u8) -> Option<Id> {
        for (other, id) in self.named.iter().rev() {
            if *other == name {
                return Some(*id);
            }
        }
        None
    }

    fn name(&mut self, name: u8, id: Id) -> Result<(), Fail> {
        Ok(self.named.push((name, id))?)
    }

    // The node of a sign, with its operands, the last of which is on top.
    fn node(&self, sign: u8, operands: &mut Vec<Id>) -> Result<Node, Fail> {
        if let b'0'..=b'9' = sign {
            return Ok(Node::Constant((sign - b'0') as u64, 8));
        }
        let last = operands.pop().ok_or("no operand")?;
        if let Some(node) = of_one(sign, last) {
            return Ok(node);
        }
        let first = operands.pop().ok_or("one operand")?;
        if let Some(node) = of_two(sign, first, last) {
            return Ok(node);
        }
        let condition = operands.pop().ok_or("two operands")?;
        Ok(Node::Choice(condition, first, last))
    }

    // The word of a text that has its operators behind their operands.
    fn word(&mut self, alloc: Global, text: &[u8]) -> Result<Id, Fail> {
        let mut operands = Vec::new(alloc);
        for sign in text {
            let id = match self.named(*sign) {
                Some(id) => id,
                None => {
                    let node = self.node(*sign, &mut operands)?;
                    made(&mut self.dag, node)?
                }
            };
            operands.push(id)?;
        }
        Ok(operands.pop().ok_or("no word")?)
    }

    // Whether no values of the variables make the word of this text 1.
    fn is_never(&mut self, alloc: Global, text: &[u8]) -> Result<bool, Fail> {
        let goal = self.word(alloc, text)?;
        Ok(solved(alloc, &self.dag, goal)?.is_none())
    }
}

// What is never 1, since two words are equal whatever the variables are: laws of two operators at eight bits. The operators stand
// behind their operands.
static NEVER: [&[u8]; 45] = [
    b"xy+yx+=~",
    b"xy+z+xyz++=~",
    b"wx+yz++wy+xz++=~",
    b"xy-xyN+=~",
    b"xy+y-x=~",
    b"xy+NxNyN+=~",
    b"xNx~1+=~",
    b"xN~x1-=~",
    b"xx+x1<=~",
    b"xy&xy|+xy+=~",
    b"xy|xy&-xy^=~",
    b"xyz|&xy&xz&|=~",
    b"xyz&|xy|xz|&=~",
    b"xyz^&xy&xz&^=~",
    b"xxy&|x=~",
    b"xy&~x~y~|=~",
    b"xy^~x~y^=~",
    b"xy^y^x=~",
    b"x3>3<x7~&=~",
    b"x3<x8*=~",
    b"x3>x8/=~",
    b"x8%x7&=~",
    b"xy+3<x3<y3<+=~",
    b"xy&z>xz>yz>&=~",
    b"xy^zAxzAyzA^=~",
    b"x~3Ax3A~=~",
    b"xy*yx*=~",
    b"xyN*xy*N=~",
    b"x1y+*xxy*+=~",
    b"x3<y*xy*3<=~",
    b"xy/y*xy%+x=~y0=~&",
    b"xyDy*xyR+x=~y0=~&",
    b"xy%yU~y0=~&",
    b"xyUyxUxy=|~=~",
    b"xySx17<^y17<^U=~",
    b"xyFxXyX+xy+X==~",
    b"xyGxXyX-xy-X==~",
    b"xyQxy<yAx=x0S~&=~y8U&",
    b"xyPxXyX*xy*X==~",
    b"xHxLJx=~",
    b"xXBx=~",
    b"xZBx=~",
    b"xy+LxLyL+=~",
    b"xyUxy?z+xyUxz+yz+?=~",
    b"xy^ZxZyZ^=~",
];

#[test]
fn laws_of_two_operators_hold(rt: HostRuntime) -> Result<(), Fail> {
    let alloc = rt.alloc();
    for text in &NEVER {
        let mut words = Words::new(alloc)?;
        assert!(rt; words.is_never(alloc, text)?, "{text:?}");
    }
    Ok(())
}

// Words of a product from one bit k of x to the next: m is the bits of x below k, and n these and bit k. Each by y, by z and by their
// sum: a, b and c are the products by m, d, e and f those by n, and g, h and i the rows of bit k.
static BIT: [(u8, &[u8]); 14] = [
    (b's', b"yz+"),
    (b'm', b"x1k<1-&"),
    (b'n', b"x1k1+<1-&"),
    (b'a', b"my*"),
    (b'b', b"mz*"),
    (b'c', b"ms*"),
    (b'd', b"ny*"),
    (b'e', b"nz*"),
    (b'f', b"ns*"),
    (b'q', b"x1k<&0="),
    (b'g', b"q0yk<?"),
    (b'h', b"q0zk<?"),
    (b'i', b"q0sk<?"),
    (b'u', b"gh+"),
];

// Below bit 0 the product by the sum is the sum of products; a product by n is that by m and the row; the row of the sum is the sum
// of rows; and with bit 7, n is x.
static BIT_NEVER: [&[u8]; 4] = [b"k0=cab+=~&", b"dag+=~", b"iu=~", b"k7=nx=~&"];

// So the product by the sum is the sum of products at each next bit, whatever the words are.
static NEXT_BIT: &[u8] = b"cab+=igh+=&dag+=&ebh+=&fci+=&fde+=~&";

// The words of this bit.
fn words_of_bit(alloc: Global, bit: u64) -> Result<Words, Fail> {
    let mut words = Words::new(alloc)?;
    let place = made(&mut words.dag, Node::Constant(bit, 8))?;
    words.name(b'k', place)?;
    for (name, text) in &BIT {
        let id = words.word(alloc, text)?;
        words.name(*name, id)?;
    }
    Ok(words)
}

// The first text that can be 1 with the words of this bit.
fn wrong_bit(alloc: Global, bit: u64) -> Result<Option<usize>, Fail> {
    let mut words = words_of_bit(alloc, bit)?;
    for (i, text) in BIT_NEVER.iter().enumerate() {
        if !words.is_never(alloc, text)? {
            return Ok(Some(i));
        }
    }
    Ok(None)
}

// The words of a step, as variables.
fn words_of_step(alloc: Global) -> Result<Words, Fail> {
    let mut words = Words::new(alloc)?;
    for (number, name) in b"abcdefghi".iter().enumerate() {
        let id = made(&mut words.dag, Node::Variable(number as u32, 8))?;
        words.name(*name, id)?;
    }
    Ok(words)
}

#[test]
fn a_product_by_a_sum_is_the_sum_of_products(rt: HostRuntime) -> Result<(), Fail> {
    let alloc = rt.alloc();
    for bit in 0..8 {
        assert_eq!(rt; wrong_bit(alloc, bit)?, None, "{bit}");
    }
    let mut words = words_of_step(alloc)?;
    assert!(rt; words.is_never(alloc, NEXT_BIT)?);
    Ok(())
}

#[test]
fn a_long_chain_is_blasted(rt: HostRuntime) -> Result<(), Fail> {
    let alloc = rt.alloc();
    let mut dag = Dag::new(alloc);
    let mut last = made(&mut dag, Node::Variable(0, 1))?;
    let mut other = made(&mut dag, Node::Variable(1, 1))?;
    for _ in 0..LENGTH {
        let next = binary(&mut dag, BinaryOperator::Xor, last, other)?;
        other = last;
        last = made(&mut dag, Node::Not(next))?;
        let aside = made(&mut dag, Node::Negate(other))?;
        assert!(rt; aside.index > last.index);
    }
    if last.index < dag.len() && dag.width(last) == 1 {
        let blasted = blast(alloc, &dag, last)?;
        assert!(rt; blasted.cnf.variables() as usize > LENGTH);
        assert!(rt; blasted.cnf.clauses().len() < 6 * LENGTH);
    }
    Ok(())
}

const LENGTH: usize = 50_000;
