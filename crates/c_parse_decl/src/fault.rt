//! Why a file has no tree.

ghost use Rattle.std.specs.Prelude.{◌≡◌};
ghost use Rattle.c_parse_decl.specs.declared.fault.ParseError.TheVariants.{Memory};

use std::alloc::{AllocError, AllocFailed};
use thiserror::Error;

/// Why a file has no tree.
#[derive(Clone, Copy, Debug, PartialEq, Eq, Error)]
pub enum ParseError {
    /// No tree of a file spells its tokens. The line is that of the first token of the first external declaration that has no tree,
    /// or the file's last line where no token is left.
    #[error("line {line}: no external declaration")]
    Syntax { line: u32 },
    #[error("out of memory")]
    Memory,
}

impl From<AllocError> for ParseError {
    ghost from_gives = { λ _ e. e ≡ Memory };

    fn from(_e: AllocError) -> ParseError {
        ParseError::Memory
    }
}

impl<T: Drop> From<AllocFailed<T>> for ParseError {
    ghost from_gives = { λ _ e. e ≡ Memory };

    fn from(_e: AllocFailed<T>) -> ParseError {
        ParseError::Memory
    }
}
