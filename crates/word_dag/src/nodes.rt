//! What a node is.

/// The place of a node among the nodes of its graph, from 0.
#[derive(Clone, Copy, Debug, PartialEq, Eq, Hash)]
pub struct Id {
    pub index: usize,
}

/// An operation on two words of one width that gives a word of that width.
#[derive(Clone, Copy, PartialEq, Eq, Hash)]
pub enum BinaryOperator {
    /// The sum modulo 2 ^ width (C11 6.5.6p5).
    Add,
    /// The difference modulo 2 ^ width (C11 6.5.6p6).
    Subtract,
    /// The product modulo 2 ^ width (C11 6.5.5p4).
    Multiply,
    /// The quotient of unsigned numbers, rounded down; 0 where the divisor is 0 (C11 6.5.5p5).
    UnsignedDivide,
    /// The quotient of signed numbers, rounded toward zero, modulo 2 ^ width; 0 where the divisor is 0
    /// (C11 6.5.5p6).
    SignedDivide,
    /// The remainder of unsigned numbers; 0 where the divisor is 0 (C11 6.5.5p5).
    UnsignedRemainder,
    /// The remainder of signed numbers, with the sign of the dividend; 0 where the divisor is 0
    /// (C11 6.5.5p6).
    SignedRemainder,
    /// The bits that are 1 in both (C11 6.5.10p4).
    And,
    /// The bits that are 1 in at least one (C11 6.5.12p4).
    Or,
    /// The bits that are 1 in exactly one (C11 6.5.11p4).
    Xor,
}

/// A shift (C11 6.5.7). Where the count is at least the width, the value is 0.
#[derive(Clone, Copy, PartialEq, Eq, Hash)]
pub enum ShiftKind {
    /// The bits moved up, zeros coming in (C11 6.5.7p4).
    Left,
    /// The bits moved down, zeros coming in: the right shift of an unsigned number (C11 6.5.7p5).
    Logical,
    /// The bits moved down, copies of the sign bit coming in: the right shift of a signed number,
    /// rounded down (C11 6.5.7p5).
    Arithmetic,
}

/// A test of two words of one width.
#[derive(Clone, Copy, PartialEq, Eq, Hash)]
pub enum Comparison {
    /// Whether they are equal (C11 6.5.9p3).
    Equal,
    /// Whether the first is less, as unsigned numbers (C11 6.5.8p6).
    UnsignedLess,
    /// Whether the first is less, as signed numbers (C11 6.5.8p6).
    SignedLess,
}

/// A test of whether a result on signed numbers is in the range of the operands' width (C11 6.5p5).
#[derive(Clone, Copy, PartialEq, Eq, Hash)]
pub enum FitsTest {
    /// Whether the sum is in range.
    Sum,
    /// Whether the difference is in range.
    Difference,
    /// Whether the product is in range.
    Product,
    /// Whether the first isn't negative and its product by 2 to the power of the second, read without
    /// a sign, is in range (C11 6.5.7p4).
    LeftShift,
}

/// What a node over a list of truth values asks.
#[derive(Clone, Copy, PartialEq, Eq, Hash)]
pub enum Quantifier {
    /// Whether each is true.
    All,
    /// Whether at least one is true.
    Any,
}

/// A word by its operation on earlier nodes. Widths are from 1 to 64; a truth value is a word of
/// width 1, which is 1 for true.
#[derive(Clone, Copy, PartialEq, Eq, Hash)]
pub enum Node {
    /// These bits, below 2 ^ width, at this width.
    Constant(u64, u32),
    /// The variable with this number, cut to this width.
    Variable(u32, u32),
    /// Each bit turned over (C11 6.5.3.3p4).
    Not(Id),
    /// The negation modulo 2 ^ width (C11 6.5.3.3p3).
    Negate(Id),
    /// An operation on two words of one width.
    Binary(BinaryOperator, Id, Id),
    /// The first word, shifted by the second, which has the same width and is read without a sign.
    Shift(ShiftKind, Id, Id),
    /// The truth value of a test of two words of one width.
    Compare(Comparison, Id, Id),
    /// Whether a result on two words of one width is in range, as a truth value.
    Fits(FitsTest, Id, Id),
    /// The second word where the first, of width 1, is 1, else the third, which has the width of the
    /// second.
    Choice(Id, Id, Id),
    /// The same unsigned number at this width, which is from the word's own to 64 (C11 6.3.1.3p1).
    ZeroExtend(Id, u32),
    /// The same signed number at this width, which is from the word's own to 64 (C11 6.3.1.3p1).
    SignExtend(Id, u32),
    /// As many bits as the last number says, from the bit with the first number on, the lowest bit
    /// being bit 0. They are bits of the word.
    Cut(Id, u32, u32),
    /// The bits of the first word above those of the second. Both widths together are at most 64.
    Join(Id, Id),
    /// Whether all, or any, of so many nodes are true: truth values that stand one behind the other from
    /// this one on. Of none all are true, and not any is.
    Quantify(Quantifier, Id, usize),
}
