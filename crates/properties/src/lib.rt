//! The loops and assertions of a file, as `--show-properties` lists them.
#![tactic(auto)]

mod declarations;
mod expressions;
mod listing;
mod spots;
mod statements;

pub use listing::properties;
