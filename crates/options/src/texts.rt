//! The text of each option that is given.

ghost use Rattle.std.specs.Prelude.{◌≡◌, IfOk, IfErr, List, [], drop, map, string_bytes};
ghost use Rattle.options.specs.Words.{Given, Reads};
ghost use Rattle.options.specs.Told.{HasTexts, Tells};
ghost use Rattle.clap.specs.Words.{found_of, kind_of};
ghost use Rattle.clap.specs.declared.error.kind.ErrorKind.TheVariants.{OutOfMemory};
ghost use Rattle.options.specs.declared.options.CommandError.TheVariants as errors;

use crate::options::CommandError;
use crate::table::command;
use clap::error::ErrorKind;
use clap::{ArgMatches, Error};
use std::alloc::Global;

/// The text of each option with a value and of FILE, and whether each other option is given.
#[derive(Clone, Copy)]
pub struct Texts<'a> {
    pub unwind: Option<&'a str>,
    pub unwindset: Option<&'a str>,
    pub no_assertions: bool,
    pub malloc_limit: Option<&'a str>,
    pub malloc_may_fail: bool,
    pub budget: Option<&'a str>,
    pub properties: bool,
    pub generate: Option<&'a str>,
    pub file: Option<&'a str>,
}

/// What `clap` found.
fn texts_of<'a>(matches: &ArgMatches<'a>) -> Texts<'a>
    ensures { Tells (found_of matches.now) result }
{
    Texts {
        unwind: matches.get_str("unwind"),
        unwindset: matches.get_str("unwindset"),
        no_assertions: matches.get_flag("no-unwinding-assertions"),
        malloc_limit: matches.get_str("malloc-limit"),
        malloc_may_fail: matches.get_flag("malloc-may-fail"),
        budget: matches.get_str("budget"),
        properties: matches.get_flag("show-properties"),
        generate: matches.get_str("generate"),
        file: matches.get_str("FILE"),
    }
}

/// Want of memory, or else words that are no command.
fn error_of(error: &Error) -> CommandError
    ensures { result ≡ errors.Usage → kind_of error.now ≡ OutOfMemory → ⊥ }
{
    match error.kind() {
        ErrorKind::OutOfMemory => CommandError::Memory,
        _ => CommandError::Usage,
    }
}

/// The texts that the words behind the first give. `Usage` where they give none.
pub fn read_texts<'a>(alloc: Global, words: &'a [String]) -> Result<Texts<'a>, CommandError>
    ensures given { IfOk result (λ t. (all : List Given) × Reads [] (drop 1 (map string_bytes words.entry.now)) all × HasTexts all t) }
    ensures each { IfOk result (λ t. (all : List Given) → Reads [] (drop 1 (map string_bytes words.entry.now)) all → HasTexts all t) }
    ensures usage { IfErr result (λ e. e ≡ errors.Usage → (all : List Given) → Reads [] (drop 1 (map string_bytes words.entry.now)) all → ⊥) }
{
    let told = command(alloc)?;
    match told.try_get_matches_from(words) {
        Ok(matches) => Ok(texts_of(&matches)),
        Err(error) => Err(error_of(&error)),
    }
}
