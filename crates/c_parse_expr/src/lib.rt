//! The tree of a C expression (C11 6.5) among the tokens of a file, with the type names and declarators in it (C11 6.7.6,
//! 6.7.7).
#![tactic(auto)]

mod declarator_start;
mod fault;
mod flags;
mod frames;
mod names;
mod nodes;
mod place;
mod reading;
mod slices;
mod table;
mod words;

pub use fault::{ExpressionError, Refused};
pub use frames::Frame;
pub use names::TypeNames;
pub use nodes::{Found, FoundDeclarator};
pub use place::{Level, expression, line_of, one_declarator, one_expression};
pub use reading::{declarator, read};
pub use slices::{behind_mark, identifier, is_mark, name_of, split, text_name, token_text};
pub use words::{begins_type, type_specifier};
