//! The words of a command read as options.

ghost use Rattle.std.specs.Prelude.{◌≡◌, true, IfOk, IfErr, List, Option, ℕ, map, string_bytes, option_map};
ghost use Rattle.core_tree.specs.Ranges.{Limits};
ghost use Rattle.report.specs.FileNames.{is_name_byte, all_name_bytes};
ghost use Rattle.options.specs.Words.{Given};
ghost use Rattle.options.specs.Values.{are_once, is_file as file_name};
ghost use Rattle.options.specs.Command.{Asked, asked_of, Asks, AsksLimits, IsCommand, IsTarget};
ghost use Rattle.options.specs.Told.{HasTexts};
ghost use Rattle.options.specs.declared.options.CommandError.TheVariants as errors;

use crate::loops::loop_bounds;
use crate::numbers::{chosen, number_in};
use crate::options::{CommandError, Job, Options, Task};
use crate::texts::{Texts, read_texts};
use core_tree::Bounds;
use std::alloc::Global;

fn is_no_control(byte: u8) -> bool
    ensures { result ≡ is_name_byte byte }
{
    32 <= byte && byte != 127
}

fn has_no_control(text: &[u8]) -> bool
    ensures { result ≡ all_name_bytes text.now }
{
    for byte in text {
        if !is_no_control(*byte) {
            return false;
        }
    }
    true
}

/// Whether a word may be a FILE: it is not empty and has no control character.
fn may_be_file(text: &[u8]) -> bool
    ensures { result ≡ file_name text.now }
{
    match text {
        [_, ..] => has_no_control(text),
        [] => false,
    }
}

/// The file, or the generated program that takes its place.
#[derive(Drop)]
struct Target {
    name: String,
    generate: Option<u32>,
}

/// The file that FILE names.
fn file_target(alloc: Global, file: &str) -> Result<Target, CommandError>
    ensures target { IfOk result (λ t. IsTarget (Some file.now) None (string_bytes t.name) t.generate) }
    ensures usage { IfErr result (λ e. e ≡ errors.Usage → (name : List ℕ) (n : Option ℕ) → IsTarget (Some file.now) None name n → ⊥) }
{
    if !may_be_file(file.as_bytes()) {
        return Err(CommandError::Usage);
    }
    let name = String::from_str(alloc, file)?;
    Ok(Target {
        name,
        generate: None,
    })
}

/// The generated program that `--generate` asks for.
fn generated_target(alloc: Global, text: &str) -> Result<Target, CommandError>
    ensures target { IfOk result (λ t. IsTarget None (Some text.now) (string_bytes t.name) t.generate) }
    ensures usage { IfErr result (λ e. e ≡ errors.Usage → (name : List ℕ) (n : Option ℕ) → IsTarget None (Some text.now) name n → ⊥) }
{
    let count = number_in(text, 1, 16).ok_or(CommandError::Usage)?;
    let name = format!(in alloc; "generated-{count}")?;
    Ok(Target {
        name,
        generate: Some(count),
    })
}

/// What FILE and `--generate` name, of which exactly one is given.
fn target_of(
    alloc: Global,
    file: Option<&str>,
    generate: Option<&str>,
) -> Result<Target, CommandError>
    ensures target { IfOk result (λ t. IsTarget (option_map (λ s. s.now) file.entry) (option_map (λ s. s.now) generate.entry) (string_bytes t.name) t.generate) }
    ensures usage { IfErr result (λ e. e ≡ errors.Usage → (name : List ℕ) (n : Option ℕ)
        → IsTarget (option_map (λ s. s.now) file.entry) (option_map (λ s. s.now) generate.entry) name n → ⊥) }
{
    match (file, generate) {
        (Some(file), None) => file_target(alloc, file),
        (None, Some(text)) => generated_target(alloc, text),
        (Some(_), Some(_)) => Err(CommandError::Usage),
        (None, None) => Err(CommandError::Usage),
    }
}

/// The bounds that the texts of options ask for.
fn bounds_of(alloc: Global, texts: Texts) -> Result<Bounds, CommandError>
    ensures asks { IfOk result (λ b. (all : List Given) → HasTexts all texts.entry → AsksLimits all b) }
    ensures once { IfOk result (λ b. are_once b.set ≡ true) }
    ensures usage { IfErr result (λ e. e ≡ errors.Usage → (all : List Given) → HasTexts all texts.entry → (l : Limits) → AsksLimits all l → ⊥) }
{
    let unwind = chosen(texts.unwind, 8, 1, 1000).ok_or(CommandError::Usage)?;
    let malloc_limit = chosen(texts.malloc_limit, 256, 1, 4096).ok_or(CommandError::Usage)?;
    let set = loop_bounds(alloc, texts.unwindset)?;
    Ok(Bounds::new(
        unwind,
        set,
        !texts.no_assertions,
        malloc_limit,
        texts.malloc_may_fail,
    ))
}

/// What the texts of options ask for.
fn options_of(alloc: Global, texts: Texts) -> Result<Options, CommandError>
    ensures asks { IfOk result (λ o. (all : List Given) → HasTexts all texts.entry → Asks all (asked_of o)) }
    ensures usage { IfErr result (λ e. e ≡ errors.Usage → (all : List Given) → HasTexts all texts.entry → (a : Asked) → Asks all a → ⊥) }
{
    let budget = chosen(texts.budget, 1000000, 1, 1000000000).ok_or(CommandError::Usage)?;
    let target = target_of(alloc, texts.file, texts.generate)?;
    let bounds = bounds_of(alloc, texts)?;
    let job = if texts.properties {
        Job::Properties
    } else {
        Job::Check
    };
    Ok(Options {
        name: target.name,
        bounds,
        budget,
        task: Task {
            job,
            generate: target.generate,
        },
    })
}

/// What these words ask for, of which the first is the program's name. `Usage` where they are no command.
pub fn read_words(alloc: Global, words: &[String]) -> Result<Options, CommandError>
    ensures options { IfOk result (λ o. IsCommand (map string_bytes words.now) (asked_of o)) }
    ensures usage { IfErr result (λ e. e ≡ errors.Usage → (a : Asked) → IsCommand (map string_bytes words.now) a → ⊥) }
{
    let texts = read_texts(alloc, words)?;
    options_of(alloc, texts)
}
