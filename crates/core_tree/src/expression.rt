//! Typed expressions, and values of structures.

use crate::operators::{
    ArithmeticOperator, Comparison, LogicalOperator, SignOperator, StepOperator,
};
use c_types::{IntegerType, ValueType};

/// What can be read and written (C11 6.3.2.1p1): bytes from an offset on, of which the type stands where the place is used. Each
/// has the line of its node's own token; offsets and sizes are in bytes.
#[derive(Drop)]
#[cycle(expression)]
pub enum Place {
    /// Within a variable of the function, which its number there tells. Whether that has an address the function says.
    Variable {
        line: u32,
        variable: u32,
        offset: u32,
    },
    /// Within a static object, which its number tells, from 1.
    Object {
        line: u32,
        object: u32,
        offset: u32,
    },
    /// A string literal that is an object, by its place among those of the file, from 0 (C11 6.4.5p6).
    Literal {
        line: u32,
        literal: u32,
    },
    /// What a pointer points to (C11 6.5.3.2p4).
    Pointed {
        line: u32,
        pointer: Box<CoreExpr>,
    },
    /// A member of the structure that a pointer points to. The offset is added modulo 2 ^ 32 and isn't checked (C11 6.5.2.3p4).
    Arrow {
        line: u32,
        pointer: Box<CoreExpr>,
        offset: u32,
    },
    /// A member of a place of a structure (C11 6.5.2.3p3).
    Member {
        line: u32,
        place: Box<Place>,
        offset: u32,
    },
    /// An element, of so many bytes, of an array within a named object of `whole` bytes, whose bounds are those of that object
    /// (C11 6.5.2.1p2). Where `swapped` stands the index is evaluated first.
    Element {
        line: u32,
        place: Box<Place>,
        index: Box<CoreExpr>,
        size: u32,
        whole: u32,
        swapped: bool,
    },
    /// An element, of so many bytes, of the array to which a pointer points, whose bounds are those of the object there.
    Subscript {
        line: u32,
        pointer: Box<CoreExpr>,
        index: Box<CoreExpr>,
        size: u32,
        swapped: bool,
    },
}

/// A typed expression without value or with one of an integer type (C11 6.5).
#[derive(Drop)]
#[cycle(expression)]
pub enum CoreExpr {
    /// The number of this type with these bits.
    Constant {
        line: u32,
        type_: IntegerType,
        bits: u64,
    },
    /// The number of this type at a place.
    Read {
        type_: IntegerType,
        place: Box<Place>,
    },
    /// The value, converted to a type (C11 6.3.1).
    Convert {
        to: IntegerType,
        operand: Box<CoreExpr>,
    },
    Sign {
        line: u32,
        operator: SignOperator,
        operand: Box<CoreExpr>,
    },
    /// `!`: 1 where the value is 0, else 0 (C11 6.5.3.3p5).
    IsZero {
        line: u32,
        operand: Box<CoreExpr>,
    },
    Arithmetic {
        line: u32,
        operator: ArithmeticOperator,
        left: Box<CoreExpr>,
        right: Box<CoreExpr>,
    },
    Compare {
        line: u32,
        operator: Comparison,
        left: Box<CoreExpr>,
        right: Box<CoreExpr>,
    },
    Logical {
        line: u32,
        operator: LogicalOperator,
        left: Box<CoreExpr>,
        right: Box<CoreExpr>,
    },
    /// `?:` (C11 6.5.15).
    Choice {
        line: u32,
        test: Box<CoreExpr>,
        yes: Box<CoreExpr>,
        no: Box<CoreExpr>,
    },
    /// `=`: a value of this type takes the place (C11 6.5.16.1).
    Assign {
        line: u32,
        type_: IntegerType,
        place: Box<Place>,
        value: Box<CoreExpr>,
    },
    /// `=` with an operator: the number of this type at the place, converted to `operand`, and the value beside it, are the
    /// operands; the result is converted back (C11 6.5.16.2).
    Update {
        line: u32,
        type_: IntegerType,
        place: Box<Place>,
        operator: ArithmeticOperator,
        operand: IntegerType,
        value: Box<CoreExpr>,
    },
    /// `++` or `--`, before its operand or behind it. The number of this type at the place is promoted, and the result
    /// converted back (C11 6.5.2.4, 6.5.3.1).
    Step {
        line: u32,
        type_: IntegerType,
        place: Box<Place>,
        operator: StepOperator,
        before: bool,
    },
    /// `,` (C11 6.5.17).
    Comma {
        line: u32,
        left: Box<CoreExpr>,
        right: Box<CoreExpr>,
    },
    /// A call of `assert`, with the line of that name.
    Assertion {
        line: u32,
        condition: Box<CoreExpr>,
    },
    /// A call of `__CPROVER_assume`.
    Assumption {
        line: u32,
        condition: Box<CoreExpr>,
    },
    /// A call of a function that gives a number of this type from the inputs.
    Draw {
        line: u32,
        type_: IntegerType,
    },
    /// The number of this type at an offset, in bytes, of a structure value that is no place (C11
    /// 6.5.2.3).
    Member {
        line: u32,
        type_: IntegerType,
        offset: u32,
        value: Box<CoreStructure>,
    },
    /// A cast to void (C11 6.3.2.2).
    Discard {
        line: u32,
        operand: Box<CoreExpr>,
    },
    /// A structure value that isn't used further.
    DiscardStructure {
        value: Box<CoreStructure>,
    },
    /// A call of the function with this number, which gives nothing or a number of this type (C11 6.5.2.2).
    /// Where `used` stands its value is used, so that the function has to end by a `return`.
    Call {
        line: u32,
        function: u32,
        used: bool,
        type_: ValueType,
        arguments: Vec<CoreArgument>,
    },
    /// The name of a function that isn't called and whose value isn't used.
    FunctionName {
        line: u32,
    },
    /// `sizeof` of an expression with a number or without a value, which isn't evaluated: the number of type unsigned long with
    /// these bits (C11 6.5.3.4).
    SizeOf {
        line: u32,
        bits: u64,
        operand: Box<CoreExpr>,
    },
    /// `sizeof` of a structure value, which isn't evaluated.
    SizeOfStructure {
        line: u32,
        bits: u64,
        operand: Box<CoreStructure>,
    },
    /// `&`, or an array or string that becomes a pointer to its first element: the pointer to a place (C11 6.3.2.1p3, 6.5.3.2p3).
    /// Pointers are numbers of type unsigned long.
    Address {
        line: u32,
        place: Box<Place>,
    },
    /// A pointer moved by so many bytes for each 1 of an integer, fewer than 0 where it is subtracted (C11 6.5.6p8). Where
    /// `swapped` stands the integer is evaluated first.
    Sum {
        line: u32,
        pointer: Box<CoreExpr>,
        index: Box<CoreExpr>,
        step: i64,
        swapped: bool,
    },
    /// The difference of two pointers to elements of so many bytes, of type long (C11 6.5.6p9).
    Distance {
        line: u32,
        left: Box<CoreExpr>,
        right: Box<CoreExpr>,
        step: u32,
    },
    /// `<`, `>`, `<=` or `>=` of two pointers (C11 6.5.8p5).
    Relation {
        line: u32,
        operator: Comparison,
        left: Box<CoreExpr>,
        right: Box<CoreExpr>,
    },
    /// `+=` or `-=` at the place of a pointer, with so many bytes for each 1 of the integer beside it.
    PointerUpdate {
        line: u32,
        place: Box<Place>,
        step: i64,
        value: Box<CoreExpr>,
    },
    /// `++` or `--` at the place of a pointer, which moves by so many bytes.
    PointerStep {
        line: u32,
        place: Box<Place>,
        step: i64,
        before: bool,
    },
    /// A call of `malloc`, with its argument of type unsigned long (C11 7.22.3.4).
    Allocate {
        line: u32,
        size: Box<CoreExpr>,
    },
    /// A call of `calloc`, whose bytes are 0 (C11 7.22.3.2).
    AllocateZeroed {
        line: u32,
        count: Box<CoreExpr>,
        size: Box<CoreExpr>,
    },
    /// A call of `free` (C11 7.22.3.3).
    Release {
        line: u32,
        pointer: Box<CoreExpr>,
    },
    /// A call of `exit`, which evaluates its argument and ends the process (C11 7.22.4.4).
    Exit {
        line: u32,
        status: Box<CoreExpr>,
    },
    /// A call of `abort` (C11 7.22.4.1).
    Abort {
        line: u32,
    },
}

/// A typed expression with a value of a struct, union or array type: the value's bytes (C11 6.2.6.1).
#[derive(Drop)]
#[cycle(expression)]
pub enum CoreStructure {
    /// The value of a place: so many bytes from it on.
    Read {
        place: Box<Place>,
        size: u32,
    },
    /// `?:` (C11 6.5.15).
    Choice {
        line: u32,
        test: Box<CoreExpr>,
        yes: Box<CoreStructure>,
        no: Box<CoreStructure>,
    },
    /// `=`: the value takes the place of as many bytes (C11 6.5.16.1).
    Assign {
        line: u32,
        place: Box<Place>,
        value: Box<CoreStructure>,
    },
    /// `,` (C11 6.5.17).
    Comma {
        line: u32,
        left: Box<CoreExpr>,
        right: Box<CoreStructure>,
    },
    /// A struct or union of `size` bytes at an offset of a structure value that is no place (C11
    /// 6.5.2.3).
    Member {
        line: u32,
        offset: u32,
        size: u32,
        value: Box<CoreStructure>,
    },
    /// The list of an initializer for `size` bytes: its parts from left to right, over bytes that are 0
    /// (C11 6.7.9).
    List {
        line: u32,
        size: u32,
        parts: Vec<CorePart>,
    },
    /// A string that initializes an array of `size` chars; those beyond it are 0 (C11 6.7.9p14).
    String {
        line: u32,
        size: u32,
        bytes: Vec<u8>,
    },
    /// A call of the function with this number, which gives a struct or union of `size` bytes (C11
    /// 6.5.2.2). Where `used` stands its value is used.
    Call {
        line: u32,
        function: u32,
        used: bool,
        size: u32,
        arguments: Vec<CoreArgument>,
    },
}

/// An argument of a call, of its parameter's type (C11 6.5.2.2p7).
#[derive(Drop)]
#[cycle(expression)]
pub enum CoreArgument {
    Number { value: Box<CoreExpr> },
    Structure { value: Box<CoreStructure> },
}

/// What an initializer's list writes at an offset, in bytes.
#[derive(Drop)]
#[cycle(expression)]
pub enum CorePart {
    Number {
        offset: u32,
        value: Box<CoreExpr>,
    },
    Structure {
        offset: u32,
        value: Box<CoreStructure>,
    },
}
