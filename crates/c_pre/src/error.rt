//! Why a file's directives could not be carried out.

ghost use Rattle.std.specs.Prelude.{◌≡◌};
ghost use Rattle.c_pre.specs.declared.error.PreError.TheVariants.{Memory};

use std::alloc::{AllocError, AllocFailed};
use thiserror::Error;

/// Why a file's directives could not be carried out. The line is that of the directive's `#`.
#[derive(Clone, Copy, Debug, PartialEq, Eq, Error)]
pub enum PreError {
    #[error("line {line}: a directive that isn't one of the profile, or a second definition of a macro")]
    Directive { line: u32 },
    #[error("line {line}: an include of another header")]
    Include { line: u32 },
    #[error("line {line}: a conditional without its partner")]
    Conditional { line: u32 },
    #[error("more than 200000 tokens")]
    TooMany,
    #[error("out of memory")]
    Memory,
}

impl From<AllocError> for PreError {
    ghost from_gives = { λ _ e. e ≡ Memory };

    fn from(_e: AllocError) -> PreError {
        PreError::Memory
    }
}

impl<T: Drop> From<AllocFailed<T>> for PreError {
    ghost from_gives = { λ _ e. e ≡ Memory };

    fn from(_e: AllocFailed<T>) -> PreError {
        PreError::Memory
    }
}
