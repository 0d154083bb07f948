//! The words that specify a type.

use crate::expr::Name;

/// A qualifier (C11 6.7.3).
#[derive(Clone, Copy, PartialEq, Eq)]
pub enum Qualifier {
    Const,
    Volatile,
    Restrict,
}

/// A keyword that specifies a type (C11 6.7.2).
#[derive(Clone, Copy, PartialEq, Eq)]
pub enum TypeWord {
    Void,
    Char,
    Short,
    Int,
    Long,
    Signed,
    Unsigned,
    Bool,
}

/// What a tag stands for (C11 6.7.2.3).
#[derive(Clone, Copy, PartialEq, Eq)]
pub enum TagKind {
    Struct,
    Union,
    Enum,
}

/// One of the specifiers of a type, without members or enumerators, or a qualifier (C11 6.7.2, 6.7.3).
#[derive(Drop)]
pub enum TypeSpecifier {
    Qualifier {
        line: u32,
        qualifier: Qualifier,
    },
    Word {
        line: u32,
        word: TypeWord,
    },
    /// `struct name` and the like, with the line of the keyword.
    Tagged {
        line: u32,
        kind: TagKind,
        name: Name,
    },
    /// The name of a typedef.
    Named {
        line: u32,
        name: Name,
    },
}
