//! Why a tree has no typing.

ghost use Rattle.std.specs.Prelude.{◌≡◌};
ghost use Rattle.c_scope.specs.declared.fault.TypingError.TheVariants as errors;
ghost use Rattle.c_scope.specs.declared.fault.Broken.TheVariants as broken;

use std::alloc::{AllocError, AllocFailed};
use thiserror::Error;

/// Why a tree has no typed tree.
#[derive(Clone, Copy, Debug, PartialEq, Eq, Error)]
pub enum TypingError {
    /// A rule is broken: the line of the first token of the node that breaks it, and the rule's number.
    #[error("line {line}: rule {rule} is broken")]
    Typing { line: u32, rule: u32 },
    #[error("out of memory")]
    Memory,
}

/// Why operands have no typed node, where the line is told elsewhere.
#[derive(Clone, Copy, Debug, PartialEq, Eq, Error)]
pub enum Broken {
    #[error("rule {rule} is broken")]
    Rule { rule: u32 },
    #[error("out of memory")]
    Memory,
}

impl From<AllocError> for TypingError {
    ghost from_gives = { λ _ e. e ≡ errors.Memory };

    fn from(_e: AllocError) -> TypingError {
        TypingError::Memory
    }
}

impl<T: Drop> From<AllocFailed<T>> for TypingError {
    ghost from_gives = { λ _ e. e ≡ errors.Memory };

    fn from(_e: AllocFailed<T>) -> TypingError {
        TypingError::Memory
    }
}

impl From<AllocError> for Broken {
    ghost from_gives = { λ _ e. e ≡ broken.Memory };

    fn from(_e: AllocError) -> Broken {
        Broken::Memory
    }
}

impl<T: Drop> From<AllocFailed<T>> for Broken {
    ghost from_gives = { λ _ e. e ≡ broken.Memory };

    fn from(_e: AllocFailed<T>) -> Broken {
        Broken::Memory
    }
}
