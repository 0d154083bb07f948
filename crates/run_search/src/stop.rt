//! Why a file is not checked.

ghost use Rattle.std.specs.Prelude.{◌≡◌};
ghost use Rattle.run_search.specs.declared.stop.Stop.TheVariants as stops;

use core_tree::{Limit, Refusal};
use std::alloc::AllocError;

/// Why a file is not checked.
#[derive(Clone, Copy, PartialEq, Eq)]
pub enum Stop {
    Refused(Refusal),
    Limited(Limit),
    Memory,
}

impl From<AllocError> for Stop {
    ghost from_gives = { λ _ e. e ≡ stops.Memory };

    fn from(_e: AllocError) -> Stop {
        Stop::Memory
    }
}
