//! Typed trees in a notation of words, for tests of forms to which no text comes.
#![tactic(auto)]

mod flow;
mod reading;
mod vocabulary;

pub use reading::{Unread, tree_of};
