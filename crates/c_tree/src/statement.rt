//! Statements and the file.

use crate::declaration::{Declaration, FullDeclarator, Specifier};
use crate::expr::{Expr, Name};

/// A statement (C11 6.8). Each has the line of its first token, but for an expression statement, whose expression has one.
#[derive(Drop)]
#[cycle(statement)]
pub enum Stmt {
    /// `{ items }`
    Block {
        line: u32,
        items: Vec<Item>,
    },
    /// `if (test) yes` without an `else`.
    If {
        line: u32,
        test: Box<Expr>,
        yes: Box<Stmt>,
    },
    IfElse {
        line: u32,
        test: Box<Expr>,
        yes: Box<Stmt>,
        no: Box<Stmt>,
    },
    /// `expression;`
    Evaluate {
        expression: Box<Expr>,
    },
    /// `return;`
    ReturnNothing {
        line: u32,
    },
    ReturnValue {
        line: u32,
        value: Box<Expr>,
    },
    /// `;`
    Empty {
        line: u32,
    },
    /// `while (test) body`
    While {
        line: u32,
        test: Box<Expr>,
        body: Box<Stmt>,
    },
    /// `do body while (test);`
    Do {
        line: u32,
        body: Box<Stmt>,
        test: Box<Expr>,
    },
    /// `for (first; test; last) body`
    For {
        line: u32,
        first: Option<Box<Expr>>,
        test: Option<Box<Expr>>,
        last: Option<Box<Expr>>,
        body: Box<Stmt>,
    },
    /// `for (declaration test; last) body`
    ForDeclared {
        line: u32,
        declaration: Box<Declaration>,
        test: Option<Box<Expr>>,
        last: Option<Box<Expr>>,
        body: Box<Stmt>,
    },
    /// `switch (value) body`
    Switch {
        line: u32,
        value: Box<Expr>,
        body: Box<Stmt>,
    },
    /// `case value: body`
    Case {
        line: u32,
        value: Box<Expr>,
        body: Box<Stmt>,
    },
    /// `default: body`
    Default {
        line: u32,
        body: Box<Stmt>,
    },
    /// `name: body`
    Label {
        line: u32,
        name: Name,
        body: Box<Stmt>,
    },
    /// `goto name;`
    Goto {
        line: u32,
        name: Name,
    },
    /// `break;`
    Break {
        line: u32,
    },
    /// `continue;`
    Continue {
        line: u32,
    },
}

/// What stands in a block (C11 6.8.2).
#[derive(Drop)]
#[cycle(statement)]
pub enum Item {
    Declares(Box<Declaration>),
    Does(Box<Stmt>),
}

/// The definition of a function (C11 6.9.1): specifiers, one at least, a declarator of a function, and the body, a block.
#[derive(Drop)]
pub struct Definition {
    pub specifiers: Vec<Specifier>,
    pub declarator: FullDeclarator,
    pub body: Box<Stmt>,
}

/// What stands in a file (C11 6.9).
#[derive(Drop)]
pub enum External {
    Declares(Box<Declaration>),
    Defines(Box<Definition>),
}

/// A file (C11 6.9).
#[derive(Drop)]
pub struct File {
    pub externals: Vec<External>,
}
