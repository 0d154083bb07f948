//! Why a text has no tokens.

ghost use Rattle.std.specs.Prelude.{◌≡◌};
ghost use Rattle.c_lexer.specs.declared.fault.LexError.TheVariants.{Memory};

use std::alloc::{AllocError, AllocFailed};
use thiserror::Error;

/// What is wrong at a position of a text.
#[derive(Clone, Copy, PartialEq, Eq)]
pub enum Fault {
    /// A byte that begins no token.
    BadByte,
    /// A comment without end, or a newline or the end of the file in a string or a character constant.
    Unclosed,
    /// A number that is no integer constant, or a literal with a wrong escape or a wrong number of characters.
    BadConstant,
    /// A keyword of C11 that the profile leaves out, or a literal directly behind `L`, `u`, `U` or `u8`.
    Foreign,
}

/// Why a file could not be cut into tokens. The line is that on which the fault begins.
#[derive(Clone, Copy, Debug, PartialEq, Eq, Error)]
pub enum LexError {
    #[error("line {line}: a byte that begins no token")]
    BadByte { line: u32 },
    #[error("line {line}: a comment, string or character constant without end")]
    Unclosed { line: u32 },
    #[error("line {line}: a malformed constant")]
    BadConstant { line: u32 },
    #[error("line {line}: a word or literal outside the profile")]
    Foreign { line: u32 },
    #[error("out of memory")]
    Memory,
}

impl From<AllocError> for LexError {
    ghost from_gives = { λ _ e. e ≡ Memory };

    fn from(_e: AllocError) -> LexError {
        LexError::Memory
    }
}

impl<T: Drop> From<AllocFailed<T>> for LexError {
    ghost from_gives = { λ _ e. e ≡ Memory };

    fn from(_e: AllocFailed<T>) -> LexError {
        LexError::Memory
    }
}
