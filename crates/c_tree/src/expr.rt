//! Expressions, and the type names and declarators in them.

use crate::specifier::{Qualifier, TypeSpecifier};
use c_token::Constant;

/// A name, by its bytes.
#[derive(Drop)]
pub struct Name {
    pub bytes: Vec<u8>,
}

/// A binary operator without the assignments and the comma (C11 6.5.5 to 6.5.14).
#[derive(Clone, Copy, PartialEq, Eq)]
pub enum BinaryOp {
    LogicalOr,
    LogicalAnd,
    Or,
    Xor,
    And,
    Equal,
    NotEqual,
    Less,
    Greater,
    LessEqual,
    GreaterEqual,
    ShiftLeft,
    ShiftRight,
    Add,
    Subtract,
    Multiply,
    Divide,
    Remainder,
}

/// An operator before its operand (C11 6.5.3).
#[derive(Clone, Copy, PartialEq, Eq)]
pub enum UnaryOp {
    Increment,
    Decrement,
    Plus,
    Minus,
    Complement,
    Not,
}

/// `++` or `--` behind its operand (C11 6.5.2.4).
#[derive(Clone, Copy, PartialEq, Eq)]
pub enum StepOp {
    Increment,
    Decrement,
}

/// An expression. Each node but a call has the line of its own token: of the constant, the name, the first string, the operator,
/// the `?`, the `.`, the `->`, the `sizeof`, or the bracket or parenthesis that opens it. A call has the line of its function's
/// name, which is a node.
#[derive(Drop)]
#[cycle(expression)]
pub enum Expr {
    Constant {
        line: u32,
        constant: Constant,
    },
    /// A character constant, with the bits of its value of type int.
    Character {
        line: u32,
        value: u32,
    },
    /// String literals in a row, one at least, each as it is spelled.
    Strings {
        line: u32,
        parts: Vec<Name>,
    },
    Name {
        line: u32,
        name: Name,
    },
    Parens {
        line: u32,
        inner: Box<Expr>,
    },
    Unary {
        line: u32,
        operator: UnaryOp,
        operand: Box<Expr>,
    },
    /// `&operand`
    Address {
        line: u32,
        operand: Box<Expr>,
    },
    /// `*operand`
    Dereference {
        line: u32,
        operand: Box<Expr>,
    },
    /// `(type_name) operand`
    Cast {
        line: u32,
        type_name: Box<TypeName>,
        operand: Box<Expr>,
    },
    /// `sizeof operand`
    SizeofExpr {
        line: u32,
        operand: Box<Expr>,
    },
    /// `sizeof (type_name)`
    SizeofType {
        line: u32,
        type_name: Box<TypeName>,
    },
    /// `++` or `--` behind its operand.
    Step {
        line: u32,
        operator: StepOp,
        operand: Box<Expr>,
    },
    /// `left.name`
    Member {
        line: u32,
        left: Box<Expr>,
        name: Name,
    },
    /// `left->name`
    Arrow {
        line: u32,
        left: Box<Expr>,
        name: Name,
    },
    /// `left[index]`
    Subscript {
        line: u32,
        left: Box<Expr>,
        index: Box<Expr>,
    },
    Binary {
        line: u32,
        operator: BinaryOp,
        left: Box<Expr>,
        right: Box<Expr>,
    },
    /// `test ? yes : no`, with the line of the `?`.
    Choice {
        line: u32,
        test: Box<Expr>,
        yes: Box<Expr>,
        no: Box<Expr>,
    },
    /// `place = value`, or `place op= value` with the operator.
    Assign {
        line: u32,
        operator: Option<BinaryOp>,
        place: Box<Expr>,
        value: Box<Expr>,
    },
    Comma {
        line: u32,
        left: Box<Expr>,
        right: Box<Expr>,
    },
    Call {
        function: Box<Expr>,
        arguments: Vec<Expr>,
    },
}

/// The name of a type (C11 6.7.7): specifiers, one at least, and a declarator without a name, which may be empty.
#[derive(Drop)]
#[cycle(expression)]
pub struct TypeName {
    pub specifiers: Vec<TypeSpecifier>,
    pub declarator: Declarator,
}

/// `*` before a declarator, with its line and the qualifiers behind it (C11 6.7.6.1).
#[derive(Drop)]
pub struct PointerMark {
    pub line: u32,
    pub qualifiers: Vec<Qualifier>,
}

/// A declarator (C11 6.7.6), or an abstract one, which has no name (C11 6.7.7). The empty abstract declarator is an absent core
/// without pointers and suffixes.
#[derive(Drop)]
#[cycle(expression)]
pub struct Declarator {
    pub pointers: Vec<PointerMark>,
    pub core: DeclaratorCore,
    pub suffixes: Vec<ArraySuffix>,
}

/// What a declarator's suffixes stand behind.
#[derive(Drop)]
#[cycle(expression)]
pub enum DeclaratorCore {
    Absent,
    Named { line: u32, name: Name },
    /// `(inner)`, with the line of its parenthesis.
    Inside { line: u32, inner: Box<Declarator> },
}

/// A suffix of an array's declarator, with the line of its bracket.
#[derive(Drop)]
#[cycle(expression)]
pub enum ArraySuffix {
    /// `[bound]`
    Bounded { line: u32, bound: Box<Expr> },
    /// `[]`
    Open { line: u32 },
}
