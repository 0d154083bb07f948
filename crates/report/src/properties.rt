//! The loops and assertions of a file, as the texts list them.

ghost use Rattle.std.specs.Prelude.{◌≡◌, ◌++◌, map, IfOk, OnOk};
ghost use Rattle.std.specs.List.{flat_map};
ghost use Rattle.report.specs.Properties.{loop, assertion, told_of, property_line, properties_text as properties_bytes};

use crate::text::Text;
use core_tree::Name;
use std::alloc::{AllocError, Global};

/// A loop or an assertion of a file.
#[derive(Drop)]
pub enum Property {
    /// A loop, by the name of its function and its number there, with its line.
    Loop {
        function: Name,
        number: u32,
        line: u32,
    },
    /// An assertion, by its line and the name of its function.
    Assertion {
        line: u32,
        function: Name,
    },
}

/// Appends the line of a loop.
fn push_loop(
    text: &mut Text,
    alloc: Global,
    function: &Name,
    number: u32,
    line: u32,
) -> Result<(), AllocError>
    ensures { OnOk result (text.new ≡ text.old ++ property_line (loop function.now.bytes.items number line)) }
{
    let back = format!(in alloc; ".{number} line {line}\n")?;
    text.push("loop ")?;
    text.push_name(function)?;
    text.push(back.as_str())?;
    Ok(())
}

/// Appends the line of an assertion.
fn push_assertion(
    text: &mut Text,
    alloc: Global,
    line: u32,
    function: &Name,
) -> Result<(), AllocError>
    ensures { OnOk result (text.new ≡ text.old ++ property_line (assertion line function.now.bytes.items)) }
{
    let front = format!(in alloc; "assertion line {line} function ")?;
    text.push(front.as_str())?;
    text.push_name(function)?;
    text.push("\n")?;
    Ok(())
}

/// Appends the line of a loop or an assertion.
fn push_property(text: &mut Text, alloc: Global, property: &Property) -> Result<(), AllocError>
    ensures { OnOk result (text.new ≡ text.old ++ property_line (told_of property.now)) }
{
    match property {
        Property::Loop {
            function,
            number,
            line,
        } => push_loop(text, alloc, function, *number, *line),
        Property::Assertion { line, function } => push_assertion(text, alloc, *line, function),
    }
}

/// Appends a line for each loop or assertion.
fn push_properties(
    text: &mut Text,
    alloc: Global,
    properties: &[Property],
) -> Result<(), AllocError>
    ensures { OnOk result (text.new ≡ text.old ++ flat_map (λ p. property_line (told_of p)) properties.now) }
{
    for property in properties {
        push_property(text, alloc, property)?;
    }
    Ok(())
}

/// The text that lists loops and assertions, a line for each, in this order.
pub fn properties_text(alloc: Global, properties: &[Property]) -> Result<Text, AllocError>
    ensures { IfOk result (λ text. text ≡ properties_bytes (map told_of properties.now)) }
{
    let mut text = Text::new(alloc);
    push_properties(&mut text, alloc, properties)?;
    Ok(text)
}
