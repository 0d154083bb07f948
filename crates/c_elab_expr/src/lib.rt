//! The typing of expressions (C11 6.5): the one typed tree of an expression in a scope, or the broken rule.
#![tactic(auto)]

mod calls;
mod strings;
mod texts;
mod typing;

pub use strings::prove_string_length;
pub use texts::strings_bytes;
pub use typing::{bound, first_line, ignored, no_pointers, operand, typed};
