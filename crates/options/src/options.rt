//! What a command asks for.

ghost use Rattle.std.specs.Prelude.{◌≡◌, ◌≤◌, true, string_bytes};
ghost use Rattle.options.specs.Values.{are_once, is_file};
ghost use Rattle.options.specs.Ranges.{is_generated};
ghost use Rattle.options.specs.declared.options.CommandError.TheVariants.{Memory};

use core_tree::Bounds;
use std::alloc::{AllocError, AllocFailed};
use thiserror::Error;

/// What is done with the file.
#[derive(Clone, Copy, PartialEq, Eq)]
pub enum Job {
    /// It is checked.
    Check,
    /// Its loops and assertions are listed.
    Properties,
}

/// A job, and how many threads the generated program has that takes the file's place, from 1 to 16, if one does.
#[derive(Clone, Copy)]
pub struct Task {
    pub job: Job,
    pub generate: Option<u32>,
}

/// What a command asks for. All that it says of ranges holds by its type.
#[derive(Drop)]
pub struct Options {
    /// The file's name as the texts print it: not empty, and without a control character.
    pub name: String,
    /// The bounds, in which no loop stands twice.
    pub bounds: Bounds,
    /// The greatest number of conflicts, from 1 to 1,000,000,000.
    pub budget: u32,
    pub task: Task,
    pub ghost budgeted: { (1 ≤ budget) × (budget ≤ 1000000000) },
    pub ghost named: { is_file (string_bytes name) ≡ true },
    pub ghost once: { are_once bounds.set ≡ true },
    pub ghost generated: { is_generated task.generate ≡ true },
}

/// Why words are no command.
#[derive(Clone, Copy, Debug, PartialEq, Eq, Error)]
pub enum CommandError {
    /// A word, a value, a repetition or a FILE that the command doesn't have.
    #[error("usage: cbmc FILE [OPTIONS]")]
    Usage,
    #[error("out of memory")]
    Memory,
}

impl From<AllocError> for CommandError {
    ghost from_gives = { λ _ e. e ≡ Memory };

    fn from(_e: AllocError) -> CommandError {
        CommandError::Memory
    }
}

impl<T: Drop> From<AllocFailed<T>> for CommandError {
    ghost from_gives = { λ _ e. e ≡ Memory };

    fn from(_e: AllocFailed<T>) -> CommandError {
        CommandError::Memory
    }
}
