//! Why there is no type or no layout.

ghost use Rattle.std.specs.Prelude.{◌≡◌};
ghost use Rattle.c_types.specs.declared.fault.LayoutError.TheVariants as errors;

use std::alloc::{AllocError, AllocFailed};
use thiserror::Error;

/// The type is incomplete (C11 6.2.5p1, p19, p22).
#[derive(Clone, Copy, Debug, PartialEq, Eq, Error)]
#[error("the type is incomplete")]
pub struct Incomplete;

/// Why there is no such struct, union or array.
#[derive(Clone, Copy, Debug, PartialEq, Eq, Error)]
pub enum LayoutError {
    /// A member or element is incomplete (C11 6.7.2.1p3, 6.7.6.2p1).
    #[error("a member or element is incomplete")]
    Incomplete,
    /// An array without elements (C11 6.7.6.2p1).
    #[error("an array has no elements")]
    NoElements,
    /// More than 2,147,483,647 bytes.
    #[error("more than 2147483647 bytes")]
    TooLarge,
    #[error("out of memory")]
    Memory,
}

impl From<AllocError> for LayoutError {
    ghost from_gives = { λ _ e. e ≡ errors.Memory };

    fn from(_e: AllocError) -> LayoutError {
        LayoutError::Memory
    }
}

impl<T: Drop> From<AllocFailed<T>> for LayoutError {
    ghost from_gives = { λ _ e. e ≡ errors.Memory };

    fn from(_e: AllocFailed<T>) -> LayoutError {
        LayoutError::Memory
    }
}
