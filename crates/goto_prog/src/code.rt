//! Instructions: operations on registers and blocks, checks, actions and jumps.

use c_types::IntegerType;
use core_tree::{ArithmeticOperator, Comparison, SignOperator};
use words::Class;

/// What an explicit check asks of registers; it breaks where that isn't so (C11 6.5). Values are read at
/// the types that stand beside the operators. Pointers are numbers of type unsigned long.
#[derive(Clone, Copy)]
pub enum Condition {
    /// The divisor isn't 0: class division.
    Divisor {
        divisor: usize,
    },
    /// It isn't the least value of a signed type that is divided by -1: class overflow.
    Quotient {
        type_: IntegerType,
        left: usize,
        right: usize,
    },
    /// The result of `+`, `-` or `*` is in the range of a signed type: class overflow.
    Range {
        operator: ArithmeticOperator,
        type_: IntegerType,
        left: usize,
        right: usize,
    },
    /// The result of unary `-` is in the range of a signed type: class overflow.
    Negation {
        type_: IntegerType,
        operand: usize,
    },
    /// The count of a shift is from 0 to less than the width: class shift.
    Count {
        type_: IntegerType,
        count_type: IntegerType,
        count: usize,
    },
    /// The count of a left shift of a signed type is from 0 to less than the width, its operand isn't
    /// negative, and its result is in range: class shift.
    LeftShift {
        type_: IntegerType,
        count_type: IntegerType,
        left: usize,
        count: usize,
    },
    /// The call whose register this is handed something over: class return (C11 6.9.1p12).
    Returned {
        returned: usize,
    },
    /// The offset of a pointer, so many bytes further on for each 1 of an index, is from 0 to the size in a register, as whole
    /// numbers: this class (C11 6.5.6p8).
    Within {
        pointer: usize,
        index: usize,
        index_type: IntegerType,
        step: i64,
        size: usize,
        class: Class,
    },
    /// Two pointers have the number of one object: class pointer (C11 6.5.6p9, 6.5.8p5).
    SameObject {
        left: usize,
        right: usize,
    },
    /// So many bytes from the offset of a pointer on lie within the bytes of a block, of which there are `whole`: class bounds.
    Inside {
        offset: usize,
        count: u32,
        whole: u32,
    },
    /// The product of two registers is at most so much, as a whole number: class malloc-limit.
    AtMost {
        left: usize,
        right: usize,
        most: u32,
    },
}

/// What an instruction does. Registers hold words and blocks hold bytes, both are numbered from 0. A pointer is a word of type
/// unsigned long: the number of its object in the high 32 bits, an offset in the low 32.
#[derive(Clone, Copy)]
pub enum Operation {
    /// Sets a register to these bits.
    Constant {
        into: usize,
        bits: u64,
    },
    /// Sets a register to another's word.
    Copy {
        into: usize,
        operand: usize,
    },
    /// Sets a register to the value of this type that lies at an offset of a block.
    Load {
        into: usize,
        type_: IntegerType,
        block: usize,
        offset: u32,
    },
    /// Writes so many of the lowest bytes of a register's word into a block, from an offset on.
    Store {
        block: usize,
        offset: u32,
        count: u32,
        operand: usize,
    },
    /// Sets each byte of a block to 0, of which there are so many.
    Clear {
        block: usize,
        size: u32,
    },
    /// Writes so many bytes of the block `from`, from `offset` on, into the block `into`, from `at` on.
    CopyBytes {
        into: usize,
        at: u32,
        from: usize,
        offset: u32,
        count: u32,
    },
    /// Sets a register to another's word, converted (C11 6.3.1).
    Convert {
        into: usize,
        from: IntegerType,
        to: IntegerType,
        operand: usize,
    },
    Sign {
        into: usize,
        operator: SignOperator,
        type_: IntegerType,
        operand: usize,
    },
    /// The right operand of a shift has a type of its own, else both have the first.
    Arithmetic {
        into: usize,
        operator: ArithmeticOperator,
        type_: IntegerType,
        right_type: IntegerType,
        left: usize,
        right: usize,
    },
    Compare {
        into: usize,
        operator: Comparison,
        type_: IntegerType,
        left: usize,
        right: usize,
    },
    /// Sets a register to 1 where another is 0, else to 0.
    IsZero {
        into: usize,
        operand: usize,
    },
    /// Passes over this many instructions.
    Skip {
        count: usize,
    },
    /// Passes over this many instructions where a register is 0.
    SkipIfZero {
        operand: usize,
        count: usize,
    },
    /// Breaks where the condition isn't met.
    Check {
        condition: Condition,
    },
    /// Breaks the class assertion where a register is 0.
    Assert {
        operand: usize,
    },
    /// Blocks the thread for good where a register is 0.
    Assume {
        operand: usize,
    },
    /// Sets a register to this many bits of the thread's next input word.
    Draw {
        into: usize,
        bits: u32,
    },
    /// Reads so many bytes of a static object, from `offset` on, into a block, from `at` on.
    ReadObject {
        block: usize,
        at: u32,
        object: u32,
        offset: u32,
        count: u32,
    },
    /// Writes so many bytes of a block, from `at` on, into a static object, from `offset` on.
    WriteObject {
        object: u32,
        offset: u32,
        block: usize,
        at: u32,
        count: u32,
    },
    /// Ends the process.
    Exit,
    /// Breaks a class.
    Fail {
        class: Class,
    },
    /// The value of a call is used, whose register this is. In strict code it breaks the class return by
    /// itself where that is 0.
    Use {
        returned: usize,
    },
    /// Calls a function with the bytes of so many blocks, from the block `first` on, as its arguments. What
    /// the function hands over takes the place of as many bytes of the block `into`, from its first on and
    /// at most all of them, and the register `returned` is set to 1; it is set to 0 where the function hands
    /// over nothing.
    Call {
        callee: u32,
        first: usize,
        count: usize,
        into: usize,
        returned: usize,
    },
    /// The function ends and hands over the bytes of a block, or nothing.
    Return {
        value: Option<usize>,
    },
    /// Sets a register to a pointer so many bytes further on for each 1 of an index, fewer than 0 where `step` is; its offset is
    /// taken modulo 2 ^ 32 (C11 6.5.6p8). In strict code it breaks the class by itself where the offset, as a whole number, is
    /// not from 0 to the size in a register.
    Move {
        into: usize,
        pointer: usize,
        index: usize,
        index_type: IntegerType,
        step: i64,
        size: usize,
        class: Class,
    },
    /// Sets a register to a pointer so many bytes further on, with its offset modulo 2 ^ 32 (C11 6.5.2.3p4).
    Offset {
        into: usize,
        pointer: usize,
        count: u32,
    },
    /// Two pointers are subtracted or compared. In strict code it breaks the class pointer by itself where their objects'
    /// numbers differ.
    Same {
        left: usize,
        right: usize,
    },
    /// Sets a register to how many elements of so many bytes lie between the offsets of two pointers, toward 0 (C11 6.5.6p9).
    Distance {
        into: usize,
        left: usize,
        right: usize,
        step: u32,
    },
    /// Sets a register to 1 where the offsets of two pointers compare so, else to 0 (C11 6.5.8p5).
    Relate {
        into: usize,
        operator: Comparison,
        left: usize,
        right: usize,
    },
    /// Writes so many bytes of the block `from`, which has `whole` of them, from the offset of the pointer in a register on, into
    /// a block, from `at` on; bytes past the end are 0. In strict code it breaks the class bounds by itself where they aren't
    /// all there.
    Take {
        block: usize,
        at: u32,
        from: usize,
        offset: usize,
        count: u32,
        whole: u32,
    },
    /// Writes so many bytes of the block `from`, from `at` on, into a block, which has `whole` of them, from the offset of the
    /// pointer in a register on, as far as it has some. In strict code it breaks the class bounds by itself where they don't
    /// all have a place.
    Put {
        block: usize,
        offset: usize,
        from: usize,
        at: u32,
        count: u32,
        whole: u32,
    },
    /// Reads so many bytes from the pointer in a register on into a block, from `at` on.
    Read {
        block: usize,
        at: u32,
        pointer: usize,
        count: u32,
    },
    /// Writes so many bytes of a block, from `at` on, where the pointer in a register points to; `first` where they initialize
    /// the object.
    Write {
        pointer: usize,
        block: usize,
        at: u32,
        count: u32,
        first: bool,
    },
    /// Sets a register to the size of the object of a pointer, for a subscript or for another sum.
    Look {
        into: usize,
        pointer: usize,
        subscript: bool,
    },
    /// Draws the first bytes of a block, as many as a register says and as the block has, in words of 8 bytes, the last of
    /// the bytes that are left.
    Fill {
        block: usize,
        count: usize,
    },
    /// Makes an object of the first bytes of a block, as many as a register says and as the block has, and sets a register to
    /// the pointer to it.
    Alloc {
        into: usize,
        block: usize,
        size: usize,
        readonly: bool,
        heap: bool,
    },
    /// Ends the lifetime of the object of a pointer (C11 6.2.4p6).
    Die {
        pointer: usize,
    },
    /// Frees the object that a pointer, which isn't null, points to (C11 7.22.3.3).
    Free {
        pointer: usize,
    },
    /// Sets a register to a drawn bit where an allocation may fail, else to 0. Only code with bounds has it.
    MayFail {
        into: usize,
    },
    /// Breaks the class malloc-limit where the product of two registers, as a whole number, is greater than the limit. Only
    /// code with bounds has it.
    Limit {
        left: usize,
        right: usize,
    },
}

/// An instruction: what it does, and the line and the function in whose name it breaks or acts.
#[derive(Clone, Copy)]
pub struct Instruction {
    pub line: u32,
    pub function: u32,
    pub operation: Operation,
}
