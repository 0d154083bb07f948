//! The trees of specifiers, declarators and declarations among the tokens of a file (C11 6.7).
#![tactic(auto)]

mod declarations;
mod declared;
mod enumerators;
mod parts;
mod slices;
mod table;

pub use declarations::{declaration, declarators, initializer};
pub use declared::{declare_body, declared_name, is_function};
pub use parts::{Specified, are_some, full, specifiers};
pub use slices::{declares_at, identifier_at, keyword_at, mark_at, stands, start_at};
pub use table::Start;
