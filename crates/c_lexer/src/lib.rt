//! The tokens of a C file (C11 5.1.1.2, 6.4): splices removed, comments as spaces, longest tokens.
#![tactic(auto)]

mod class;
mod constant;
mod fault;
mod kind;
mod lexing;
mod literal;
mod piece;
mod position;
mod tokens;

pub use fault::LexError;
pub use lexing::{lex, one_cutting};
pub use literal::{Element, element_at, string_bytes};
pub use tokens::{Tokens, text_of};
