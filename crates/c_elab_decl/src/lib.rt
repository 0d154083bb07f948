//! The typing of statements, definitions and files (C11 6.8, 6.9): the one typed file, or the broken rule.
#![tactic(auto)]

mod external_definitions;
mod statements;

pub use external_definitions::elaborate;
