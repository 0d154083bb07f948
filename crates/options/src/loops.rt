//! The bounds of single loops.

ghost use Rattle.std.specs.Prelude.{◌≡◌, ◌==◌, ◌<◌, true, false, List, IfOk, IfErr, OnOk, MatchOption, map, option_map};
ghost use Rattle.std.specs.List.{slice_split};
ghost use Rattle.core_tree.specs.Ranges.{LoopLimit, loop_limit, loop_limits};
ghost use Rattle.report.specs.Identifiers.{is_letter as letter, is_word_byte as word_byte, all_word_bytes, is_identifier as identifier};
ghost use Rattle.options.specs.Cut.{Lacks, IsCut, AreEach, item_of};
ghost use Rattle.options.specs.Values.{are_once, AreItems, AreLimits, IsItem};
ghost use Rattle.options.specs.declared.options.CommandError.TheVariants as errors;

use crate::numbers::{number, number_in};
use crate::options::CommandError;
use core_tree::{LoopBound, Name};
use indexmap::IndexSet;
use std::alloc::{AllocError, Global};

fn is_letter(byte: u8) -> bool
    ensures { result ≡ letter byte }
{
    byte.is_ascii_alphabetic() || byte == b'_'
}

fn is_word_byte(byte: u8) -> bool
    ensures { result ≡ word_byte byte }
{
    is_letter(byte) || byte.is_ascii_digit()
}

fn are_word_bytes(text: &[u8]) -> bool
    ensures { result ≡ all_word_bytes text.now }
{
    for byte in text {
        if !is_word_byte(*byte) {
            return false;
        }
    }
    true
}

fn is_identifier(text: &[u8]) -> bool
    ensures { result ≡ identifier text.now }
{
    match text {
        [first, rest @ ..] => is_letter(*first) && are_word_bytes(rest),
        [] => false,
    }
}

/// What stands before the first `at` of a text, and what stands behind it.
fn cut(text: &str, at: char) -> Option<(&str, &str)>
    requires { at < 128 }
    ensures { MatchOption result (Lacks at text.now) (λ p. IsCut at text.now p.0.now p.1.now) }
{
    text.split_once(at)
}

/// One item, `f.n:K`.
#[derive(Clone, Copy)]
struct Item<'a> {
    function: &'a str,
    number: u64,
    unwind: u32,
}

/// The item that a text is; `None` where it is none.
fn read_item<'a>(text: &'a str) -> Option<Item<'a>>
    ensures { MatchOption result ((l : LoopLimit) → IsItem text.entry.now l → ⊥) (λ i. IsItem text.entry.now (item_of i)) }
{
    let (function, rest) = cut(text, '.')?;
    let (place, bound) = cut(rest, ':')?;
    if !is_identifier(function.as_bytes()) {
        return None;
    }
    let number = number(place)?;
    let unwind = number_in(bound, 1, 1000)?;
    Some(Item {
        function,
        number,
        unwind,
    })
}

/// The bound of an item, with a name of its own.
fn owned(alloc: Global, item: Item) -> Result<LoopBound, AllocError>
    ensures { IfOk result (λ b. loop_limit b ≡ item_of item.entry) }
{
    let bytes = Vec::from_slice(alloc, item.function.as_bytes())?;
    Ok(LoopBound {
        function: Name { bytes },
        number: item.number,
        unwind: item.unwind,
    })
}

/// What stands between the commas of a text.
fn between_commas<'a>(alloc: Global, text: &'a str) -> Result<Vec<&'a str>, AllocError>
    ensures { IfOk result (λ v. map (λ x. x.now) v.items ≡ slice_split (λ b. b == 44) text.entry.now) }
{
    text.split(',').collect(alloc)
}

/// The bounds of items, each in a text of its own.
fn bounds_of(alloc: Global, texts: &[&str]) -> Result<Vec<LoopBound>, CommandError>
    ensures items { IfOk result (λ bounds. AreEach (map (λ x. x.now) texts.now) (loop_limits bounds.items)) }
    ensures usage { IfErr result (λ e. e ≡ errors.Usage → (ls : List LoopLimit) → AreEach (map (λ x. x.now) texts.now) ls → ⊥) }
{
    let mut bounds = Vec::new(alloc);
    for text in texts {
        let item = read_item(text).ok_or(CommandError::Usage)?;
        bounds.push(owned(alloc, item)?)?;
    }
    Ok(bounds)
}

/// The bounds of items with one comma between.
fn items(alloc: Global, text: &str) -> Result<Vec<LoopBound>, CommandError>
    ensures items { IfOk result (λ bounds. AreItems text.now (loop_limits bounds.items)) }
    ensures usage { IfErr result (λ e. e ≡ errors.Usage → (ls : List LoopLimit) → AreItems text.now ls → ⊥) }
{
    let texts = between_commas(alloc, text)?;
    bounds_of(alloc, &texts)
}

/// A loop, by its function's name and its number there.
#[derive(Clone, Copy, PartialEq, Eq, Hash)]
struct Loop<'a> {
    function: &'a [u8],
    number: u64,
}

/// Refuses bounds of which two are of one loop.
fn once(alloc: Global, bounds: &[LoopBound]) -> Result<(), CommandError>
    ensures once { OnOk result (are_once (loop_limits bounds.now) ≡ true) }
    ensures usage { IfErr result (λ e. e ≡ errors.Usage → are_once (loop_limits bounds.now) ≡ false) }
{
    let mut seen = IndexSet::new(alloc);
    for bound in bounds {
        let (_, is_new) = seen.insert_full(Loop {
            function: bound.function.bytes.as_slice(),
            number: bound.number,
        })?;
        if !is_new {
            return Err(CommandError::Usage);
        }
    }
    Ok(())
}

/// The bounds of single loops that `--unwindset` gives, in the order of its items; none where it isn't given.
pub fn loop_bounds(alloc: Global, text: Option<&str>) -> Result<Vec<LoopBound>, CommandError>
    ensures limits { IfOk result (λ bounds. AreLimits (option_map (λ s. s.now) text.entry) (loop_limits bounds.items)) }
    ensures usage { IfErr result (λ e. e ≡ errors.Usage
        → (ls : List LoopLimit) → AreLimits (option_map (λ s. s.now) text.entry) ls → ⊥) }
{
    let Some(text) = text else {
        return Ok(Vec::new(alloc));
    };
    let bounds = items(alloc, text)?;
    once(alloc, &bounds)?;
    Ok(bounds)
}
