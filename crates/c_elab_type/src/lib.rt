//! The types that specifiers and declarators say, and what initializers store (C11 6.7.2 to 6.7.9).
#![tactic(auto)]

mod constant_bytes;
mod enumerators;
mod initializers;
mod items;
mod specifiers;
mod typedefs;
mod variables;

pub use constant_bytes::initial_bytes;
pub use initializers::{initializer_of, no_initializer};
pub use items::Value;
pub use specifiers::{Base, named_parts, typed_full, typed_parameters, typed_specifiers};
pub use typedefs::{typed_function_typedef, typed_typedef};
pub use variables::{give_lengths, typed_variable};
