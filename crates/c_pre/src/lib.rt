//! The directives of a C file carried out (C11 6.10): the listed headers, macros without parameters, and conditionals.
#![tactic(auto)]

mod carrying;
mod conditional;
mod directive;
mod error;
mod expanding;
mod header;
mod known;
mod lines;
mod macros;
mod noting;
mod planning;
mod replacing;
mod rising;

pub use error::PreError;
pub use expanding::{an_expansion, expand, one_expansion};
