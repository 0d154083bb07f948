//! Declarations.

use crate::expr::{Expr, Name, PointerMark};
use crate::specifier::TypeSpecifier;

/// A storage class (C11 6.7.1).
#[derive(Clone, Copy, PartialEq, Eq)]
pub enum StorageClass {
    Typedef,
    Extern,
    Static,
    Auto,
    Register,
}

/// A function specifier (C11 6.7.4).
#[derive(Clone, Copy, PartialEq, Eq)]
pub enum FunctionSpecifier {
    Inline,
    Noreturn,
}

/// What has members (C11 6.7.2.1).
#[derive(Clone, Copy, PartialEq, Eq)]
pub enum RecordKind {
    Struct,
    Union,
}

/// A declaration specifier (C11 6.7), with the line of its keyword.
#[derive(Drop)]
#[cycle(specifier)]
pub enum Specifier {
    Type(TypeSpecifier),
    Storage {
        line: u32,
        class: StorageClass,
    },
    Function {
        line: u32,
        specifier: FunctionSpecifier,
    },
    /// `struct tag { members }`, with one member declaration at least.
    Record {
        line: u32,
        kind: RecordKind,
        tag: Option<Name>,
        members: Vec<MemberDeclaration>,
    },
    /// `enum tag { enumerators }`, with one enumerator at least.
    Enumeration {
        line: u32,
        tag: Option<Name>,
        enumerators: Vec<Enumerator>,
    },
}

/// A declaration of members (C11 6.7.2.1); without declarators it is an anonymous structure's or declares a tag alone.
#[derive(Drop)]
#[cycle(specifier)]
pub struct MemberDeclaration {
    pub specifiers: Vec<Specifier>,
    pub declarators: Vec<FullDeclarator>,
}

/// A declarator of a declaration, of a member or of a parameter (C11 6.7.6), or the abstract one of a parameter, which has no
/// name (C11 6.7.7) and is empty without pointers and suffixes.
#[derive(Drop)]
#[cycle(specifier)]
pub enum FullDeclarator {
    Unnamed {
        pointers: Vec<PointerMark>,
        suffixes: Vec<DeclaratorSuffix>,
    },
    Named {
        pointers: Vec<PointerMark>,
        line: u32,
        name: Name,
        suffixes: Vec<DeclaratorSuffix>,
    },
    /// `(inner)` and suffixes, with the line of the parenthesis.
    Inside {
        pointers: Vec<PointerMark>,
        line: u32,
        inner: Box<FullDeclarator>,
        suffixes: Vec<DeclaratorSuffix>,
    },
}

/// A suffix of an array's or a function's declarator, with the line of its bracket or parenthesis.
#[derive(Drop)]
#[cycle(specifier)]
pub enum DeclaratorSuffix {
    /// `[bound]`
    Bounded {
        line: u32,
        bound: Box<Expr>,
    },
    /// `[]`
    Open {
        line: u32,
    },
    /// `()`
    Empty {
        line: u32,
    },
    /// `(void)`
    Void {
        line: u32,
    },
    /// `(parameters)`, with one parameter at least, or `(parameters, ...)`, which is variadic.
    Parameters {
        line: u32,
        parameters: Vec<Parameter>,
        variadic: bool,
    },
}

/// A parameter (C11 6.7.6): specifiers, one at least, and a declarator, which may have no name and may be empty.
#[derive(Drop)]
#[cycle(specifier)]
pub struct Parameter {
    pub specifiers: Vec<Specifier>,
    pub declarator: FullDeclarator,
}

/// `name` or `name = value` among enumerators (C11 6.7.2.2), with the line of the name.
#[derive(Drop)]
pub struct Enumerator {
    pub line: u32,
    pub name: Name,
    pub value: Option<Box<Expr>>,
}

/// An initializer (C11 6.7.9).
#[derive(Drop)]
#[cycle(initializer)]
pub enum Initializer {
    Value(Box<Expr>),
    /// `{ items }`, with one item at least, with the line of its brace.
    List { line: u32, items: Vec<Initializer> },
}

/// A declarator with its initializer (C11 6.7).
#[derive(Drop)]
pub struct InitDeclarator {
    pub declarator: FullDeclarator,
    pub initializer: Option<Initializer>,
}

/// A declaration (C11 6.7): specifiers, one at least, and declarators.
#[derive(Drop)]
pub struct Declaration {
    pub specifiers: Vec<Specifier>,
    pub declarators: Vec<InitDeclarator>,
}
