//! Nodes over six others, with their values: a table for the tests of the graph and of its clauses.

use word_dag::{BinaryOperator, Comparison, FitsTest, Id, Node, Quantifier, ShiftKind};

/// The variable 0, of 8 bits: 0x96, which is -106 with a sign.
pub const A: Id = Id { index: 0 };

/// The variable 1, of 8 bits: 5.
pub const B: Id = Id { index: 1 };

/// The variable 2, of 8 bits: 0.
pub const ZERO: Id = Id { index: 2 };

/// A truth value that is 1.
pub const YES: Id = Id { index: 3 };

/// A truth value that is 0.
pub const NO: Id = Id { index: 4 };

/// A variable of 8 bits: 0x7f.
pub const MOST: Id = Id { index: 5 };

/// A node over these nodes; its width, and its value where these nodes have their values.
pub static NODE_VALUES: [(Node, u32, u64); 50] = [
    (Node::Constant(0xbeef, 16), 16, 0xbeef),
    (Node::Variable(0, 4), 4, 6),
    (Node::Not(A), 8, 0x69),
    (Node::Negate(A), 8, 0x6a),
    (Node::Binary(BinaryOperator::Add, A, A), 8, 0x2c),
    (Node::Binary(BinaryOperator::Subtract, B, A), 8, 0x6f),
    (Node::Binary(BinaryOperator::Multiply, A, B), 8, 0xee),
    (Node::Binary(BinaryOperator::UnsignedDivide, A, B), 8, 0x1e),
    (Node::Binary(BinaryOperator::UnsignedDivide, A, ZERO), 8, 0),
    (Node::Binary(BinaryOperator::SignedDivide, A, B), 8, 0xeb),
    (Node::Binary(BinaryOperator::SignedDivide, A, ZERO), 8, 0),
    (Node::Binary(BinaryOperator::UnsignedRemainder, B, A), 8, 5),
    (
        Node::Binary(BinaryOperator::UnsignedRemainder, B, ZERO),
        8,
        0,
    ),
    (Node::Binary(BinaryOperator::SignedRemainder, A, B), 8, 0xff),
    (Node::Binary(BinaryOperator::SignedRemainder, A, ZERO), 8, 0),
    (Node::Binary(BinaryOperator::And, A, B), 8, 0x04),
    (Node::Binary(BinaryOperator::Or, A, B), 8, 0x97),
    (Node::Binary(BinaryOperator::Xor, A, B), 8, 0x93),
    (Node::Shift(ShiftKind::Left, A, B), 8, 0xc0),
    (Node::Shift(ShiftKind::Logical, A, B), 8, 0x04),
    (Node::Shift(ShiftKind::Arithmetic, A, B), 8, 0xfc),
    (Node::Shift(ShiftKind::Left, B, A), 8, 0),
    (Node::Shift(ShiftKind::Logical, A, A), 8, 0),
    (Node::Shift(ShiftKind::Arithmetic, A, A), 8, 0),
    (Node::Compare(Comparison::Equal, A, A), 1, 1),
    (Node::Compare(Comparison::Equal, A, B), 1, 0),
    (Node::Compare(Comparison::UnsignedLess, B, A), 1, 1),
    (Node::Compare(Comparison::SignedLess, B, A), 1, 0),
    (Node::Compare(Comparison::SignedLess, A, B), 1, 1),
    (Node::Fits(FitsTest::Sum, A, A), 1, 0),
    (Node::Fits(FitsTest::Sum, A, B), 1, 1),
    (Node::Fits(FitsTest::Difference, A, MOST), 1, 0),
    (Node::Fits(FitsTest::Difference, A, B), 1, 1),
    (Node::Fits(FitsTest::Product, A, B), 1, 0),
    (Node::Fits(FitsTest::Product, B, B), 1, 1),
    (Node::Fits(FitsTest::LeftShift, B, B), 1, 0),
    (Node::Fits(FitsTest::LeftShift, B, A), 1, 0),
    (Node::Fits(FitsTest::LeftShift, ZERO, A), 1, 1),
    (Node::Choice(YES, A, B), 8, 0x96),
    (Node::Choice(NO, A, B), 8, 5),
    (Node::ZeroExtend(A, 16), 16, 0x0096),
    (Node::SignExtend(A, 16), 16, 0xff96),
    (Node::Cut(A, 4, 3), 3, 1),
    (Node::Join(A, B), 16, 0x9605),
    (Node::Quantify(Quantifier::All, YES, 1), 1, 1),
    (Node::Quantify(Quantifier::All, YES, 2), 1, 0),
    (Node::Quantify(Quantifier::All, YES, 0), 1, 1),
    (Node::Quantify(Quantifier::Any, NO, 1), 1, 0),
    (Node::Quantify(Quantifier::Any, YES, 2), 1, 1),
    (Node::Quantify(Quantifier::Any, YES, 0), 1, 0),
];
