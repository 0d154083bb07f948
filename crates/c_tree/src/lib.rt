//! The trees of C expressions, declarations, statements and files (C11 6.5, 6.7, 6.8, 6.9), and which tokens spell them.
#![tactic(auto)]

mod declaration;
mod expr;
mod file_levels;
mod levels;
mod specifier;
mod statement;

pub use declaration::{
    Declaration, DeclaratorSuffix, Enumerator, FullDeclarator, FunctionSpecifier, InitDeclarator,
    Initializer, MemberDeclaration, Parameter, RecordKind, Specifier, StorageClass,
};
pub use expr::{
    ArraySuffix, BinaryOp, Declarator, DeclaratorCore, Expr, Name, PointerMark, StepOp, TypeName,
    UnaryOp,
};
pub use file_levels::depth;
pub use levels::{declarator_depth, expression_depth};
pub use specifier::{Qualifier, TagKind, TypeSpecifier, TypeWord};
pub use statement::{Definition, External, File, Item, Stmt};
