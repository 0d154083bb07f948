//! What calls make of operands with a C type of their own, pointers among them (C11 6.5.2.2).
#![tactic(auto)]

mod arguments;
mod built_in_calls;
mod function_calls;
mod named_calls;
mod pointer_calls;

pub use named_calls::named_call;
pub use pointer_calls::pointer_call;
