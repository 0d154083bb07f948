//! Typed statements and items of blocks.

use crate::expression::{CoreExpr, CoreStructure};
use c_types::IntegerType;

/// A typed statement (C11 6.8).
#[derive(Drop)]
#[cycle(statement)]
pub enum CoreStatement {
    Block {
        items: Vec<CoreItem>,
    },
    If {
        line: u32,
        test: Box<CoreExpr>,
        yes: Box<CoreStatement>,
    },
    IfElse {
        line: u32,
        test: Box<CoreExpr>,
        yes: Box<CoreStatement>,
        no: Box<CoreStatement>,
    },
    /// An expression statement.
    Evaluate {
        expression: Box<CoreExpr>,
    },
    /// `return` with a number of the function's type.
    Return {
        line: u32,
        value: Box<CoreExpr>,
    },
    /// `return` with a structure value of the function's type.
    ReturnStructure {
        line: u32,
        value: Box<CoreStructure>,
    },
    /// `return` without a value.
    ReturnNothing {
        line: u32,
    },
    /// `while` and `for` (C11 6.8.5.1, 6.8.5.3), with the loop's number: how many loops of the function have
    /// their keyword before its own. A missing test is 1. The declaration of a `for` stands before it in a
    /// block around it.
    For {
        line: u32,
        number: u32,
        first: Option<Box<CoreExpr>>,
        test: Option<Box<CoreExpr>>,
        last: Option<Box<CoreExpr>>,
        body: Box<CoreStatement>,
    },
    /// `do` (C11 6.8.5.2), with the loop's number.
    Do {
        line: u32,
        number: u32,
        body: Box<CoreStatement>,
        test: Box<CoreExpr>,
    },
    /// `switch` on a promoted value (C11 6.8.4.2), with the items of its body's block.
    Switch {
        line: u32,
        value: Box<CoreExpr>,
        items: Vec<CoreItem>,
    },
    Break {
        line: u32,
    },
    Continue {
        line: u32,
    },
    /// `goto`, with the label's number in the function.
    Goto {
        line: u32,
        label: u32,
    },
    /// A statement behind a `case` or `default`, whose line this is, that doesn't stand among the items of a
    /// switch's body.
    Stray {
        line: u32,
        statement: Box<CoreStatement>,
    },
}

/// What stands in a block.
#[derive(Drop)]
#[cycle(statement)]
pub enum CoreItem {
    /// A variable without an initializer, by its number in the function, with the line of its
    /// declarator. Its first bytes are drawn on entry to the block.
    Declare {
        line: u32,
        variable: u32,
    },
    /// A variable of an integer type with an initializer of that type, which is written when the
    /// declaration is reached. Where `drawn` stands its first bytes are drawn too, since the initializer
    /// names it, or a `goto` or `case` passes over the declaration.
    Initialize {
        line: u32,
        variable: u32,
        drawn: bool,
        value: Box<CoreExpr>,
    },
    /// A variable of a struct, union or array type with an initializer of that type, as above.
    InitializeStructure {
        line: u32,
        variable: u32,
        drawn: bool,
        value: Box<CoreStructure>,
    },
    Statement {
        statement: Box<CoreStatement>,
    },
    /// A label, by its number in the function.
    Label {
        label: u32,
    },
    /// `case`, with its value's bits, converted to the type of the switch.
    Case {
        line: u32,
        type_: IntegerType,
        bits: u64,
    },
    Default {
        line: u32,
    },
}
