//! The options as `clap` is told them.

ghost use Rattle.std.specs.Prelude.{◌≡◌, true, false, IfOk, codes};
ghost use Rattle.clap.specs.Words.{app_of, rule_of, with_rule};
ghost use Rattle.options.specs.Parser.{command as told, start, option_rule, word_rule};
ghost use Rattle.options.specs.Table.{valued as with_value, flag as standing_alone};

use clap::{Arg, ArgAction, Command};
use std::alloc::{AllocError, Global};

/// An option with a value.
fn valued<'a>(alloc: Global, name: &'a str) -> Arg<'a>
    ensures rule { rule_of result ≡ option_rule (name.entry.now, with_value) }
    ensures local { result.global ≡ false }
{
    Arg::new(alloc, name).long(name).action(ArgAction::Set)
}

/// An option that stands alone.
fn flag<'a>(alloc: Global, name: &'a str) -> Arg<'a>
    ensures rule { rule_of result ≡ option_rule (name.entry.now, standing_alone) }
    ensures local { result.global ≡ false }
{
    Arg::new(alloc, name).long(name).action(ArgAction::SetTrue)
}

/// A word that is no option.
fn word<'a>(alloc: Global, name: &'a str) -> Arg<'a>
    ensures rule { rule_of result ≡ word_rule name.entry.now }
    ensures local { result.global ≡ false }
{
    Arg::new(alloc, name).action(ArgAction::Set)
}

/// The command, with one more option that has a value.
fn with_valued<'a>(
    alloc: Global,
    command: Command<'a>,
    name: &'a str,
) -> Result<Command<'a>, AllocError>
    ensures { IfOk result (λ c. app_of c ≡ with_rule (app_of command.entry) (option_rule (name.entry.now, with_value))) }
{
    let arg = valued(alloc, name);
    command.arg(arg)
}

/// The command, with one more option that stands alone.
fn with_flag<'a>(
    alloc: Global,
    command: Command<'a>,
    name: &'a str,
) -> Result<Command<'a>, AllocError>
    ensures { IfOk result (λ c. app_of c ≡ with_rule (app_of command.entry) (option_rule (name.entry.now, standing_alone))) }
{
    let arg = flag(alloc, name);
    command.arg(arg)
}

/// The command, with one more word.
fn with_word<'a>(
    alloc: Global,
    command: Command<'a>,
    name: &'a str,
) -> Result<Command<'a>, AllocError>
    ensures { IfOk result (λ c. app_of c ≡ with_rule (app_of command.entry) (word_rule name.entry.now)) }
{
    let arg = word(alloc, name);
    command.arg(arg)
}

/// The command without options, and without `--help`.
fn bare<'a>(alloc: Global) -> Command<'a>
    ensures { app_of result ≡ start }
{
    Command::new(alloc, "cbmc").disable_help_flag(true)
}

/// The command with all its options and FILE.
pub fn command<'a>(alloc: Global) -> Result<Command<'a>, AllocError>
    ensures { IfOk result (λ c. app_of c ≡ told) }
{
    let none = bare(alloc);
    let one = with_valued(alloc, none, "unwind")?;
    let two = with_valued(alloc, one, "unwindset")?;
    let three = with_flag(alloc, two, "no-unwinding-assertions")?;
    let four = with_valued(alloc, three, "malloc-limit")?;
    let five = with_flag(alloc, four, "malloc-may-fail")?;
    let six = with_valued(alloc, five, "budget")?;
    let seven = with_flag(alloc, six, "show-properties")?;
    let eight = with_valued(alloc, seven, "generate")?;
    with_word(alloc, eight, "FILE")
}
