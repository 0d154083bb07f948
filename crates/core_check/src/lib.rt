//! Whether functions, static objects and literals make a typed file. Who makes them otherwise than from a text has it from here.
#![tactic(auto)]

mod around;
mod expressions;
mod files;
mod standing;
mod statements;
mod types;

pub use files::core_of;
