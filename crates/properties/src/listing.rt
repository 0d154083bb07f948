//! The loops and assertions of a file, by their functions.

ghost use Rattle.std.specs.Prelude.{◌≡◌, ◌+◌, ◌++◌, ◌∷◌, [], map, IfOk, OnOk};
ghost use Rattle.c_tree.specs.Declarations.{view_full, name_of};
ghost use Rattle.c_tree.specs.Statements.{view_statement, externals_of, view_file};
ghost use Rattle.properties.specs.Spots.{with_statement};
ghost use Rattle.report.specs.Properties.{told_of};
ghost use Rattle.properties.specs.Properties.{told, told_in, after, properties_of, with_external};

use crate::spots::Spot;
use crate::statements::push_statement;
use c_tree::{Definition, External, File, FullDeclarator};
use core_tree::Name;
use report::Property;
use std::alloc::{AllocError, Global};

/// The name that a declarator declares, empty where it has none.
fn name_of(declarator: &FullDeclarator) -> &[u8]
    ensures { result.now ≡ name_of (view_full declarator.now) }
{
    match declarator {
        FullDeclarator::Unnamed { .. } => &[],
        FullDeclarator::Named { name, .. } => &name.bytes,
        FullDeclarator::Inside { inner, .. } => name_of(inner),
    }
}

/// The number of the next loop. There is no memory for one behind 2^32 - 1 others of a function.
fn next_number(number: u32) -> Result<u32, AllocError>
    ensures { IfOk result (λ next. next ≡ number + 1) }
{
    match number.checked_add(1) {
        Some(next) => Ok(next),
        None => Err(AllocError),
    }
}

/// Lists a loop or an assertion of the function of this name, where so many loops stand before it. Gives how many stand
/// before the next.
fn push_spot(
    alloc: Global,
    name: &[u8],
    number: u32,
    spot: Spot,
    properties: &mut Vec<Property>,
) -> Result<u32, AllocError>
    ensures listed { OnOk result (map told_of properties.new.items ≡ map told_of properties.old.items ++ told name.now number spot ∷ []) }
    ensures next { IfOk result (λ next. next ≡ after number spot) }
{
    let function = Name {
        bytes: Vec::from_slice(alloc, name)?,
    };
    match spot {
        Spot::Loop { line } => {
            let next = next_number(number)?;
            properties.push(Property::Loop {
                function,
                number,
                line,
            })?;
            Ok(next)
        }
        Spot::Assertion { line } => {
            properties.push(Property::Assertion { line, function })?;
            Ok(number)
        }
    }
}

/// Lists the loops and assertions of a function, with the loops counted from 0.
fn push_spots(
    alloc: Global,
    name: &[u8],
    spots: &[Spot],
    properties: &mut Vec<Property>,
) -> Result<(), AllocError>
    ensures { OnOk result (map told_of properties.new.items ≡ map told_of properties.old.items ++ told_in name.now 0 spots.now) }
{
    let mut number = 0;
    for spot in spots {
        number = push_spot(alloc, name, number, *spot, properties)?;
    }
    Ok(())
}

/// Lists the loops and assertions of a definition's body.
fn push_definition(
    alloc: Global,
    definition: &Definition,
    properties: &mut Vec<Property>,
) -> Result<(), AllocError>
    ensures { OnOk result (map told_of properties.new.items
        ≡ map told_of properties.old.items ++ told_in (name_of (view_full definition.now.declarator)) 0 (with_statement [] (view_statement definition.now.body.value))) }
{
    let mut spots = Vec::new(alloc);
    push_statement(&definition.body, &mut spots)?;
    push_spots(alloc, name_of(&definition.declarator), &spots, properties)?;
    Ok(())
}

/// Lists the loops and assertions of an external declaration, if it is a function's definition.
fn push_external(
    alloc: Global,
    external: &External,
    properties: &mut Vec<Property>,
) -> Result<(), AllocError>
    ensures { OnOk result (map told_of properties.new.items ≡ with_external (map told_of properties.old.items) external.now) }
{
    match external {
        External::Declares(_) => Ok(()),
        External::Defines(definition) => {
            push_definition(alloc, definition, properties)?;
            Ok(())
        }
    }
}

/// The loops and assertions that stand in the bodies of a file's functions, also within `sizeof`, in the order of their own
/// tokens: the keyword of a loop, the name of the function that a call of an assertion calls. A function's loops are numbered
/// by their keywords from 0.
pub fn properties(alloc: Global, file: &File) -> Result<Vec<Property>, AllocError>
    ensures { IfOk result (λ properties. map told_of properties.items ≡ properties_of (view_file file.now)) }
{
    let mut properties = Vec::new(alloc);
    for external in &file.externals {
        push_external(alloc, external, &mut properties)?;
    }
    Ok(properties)
}
