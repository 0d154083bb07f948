//! What items in braces and expressions make of the objects that they initialize.

ghost use Rattle.std.specs.Prelude.{◌≡◌, ℕ, List, map, option_map, reverse, Result, Err, OnOk, IfOk};
ghost use Rattle.c_types.specs.Types.{view as type_view};
ghost use Rattle.core_tree.specs.Trees.{Parts, with_part};
ghost use Rattle.c_scope.specs.Types.{lower};
ghost use Rattle.c_scope.specs.Faults.{Gives, GivesNode, on_line, required};
ghost use Rattle.c_elab_base.specs.Slots.{slot};
ghost use Rattle.c_elab_type.specs.Initializers.{Value as SpecValue, view_made, view_value, view_found, only, is_character, scalar_value, record_node, array_node, value_node, is_constant, initial_value, joined, part_with, item_node, parts_from, list_made, braced};

use c_elab_base::{object_bytes, slot};
use c_operands::{CoreOperand, as_type, constant_in, number, record_value};
use c_scope::{Broken, TypingError};
use c_types::{IntegerType, Layouts, Ty};
use core_tree::{CoreExpr, CorePart, CoreStructure};
use std::alloc::{AllocError, Global};

/// What an initializer is, before the node around it is judged.
#[derive(Drop)]
pub enum Made {
    /// An expression.
    Single { operand: CoreOperand },
    /// A string, by its bytes without the zero behind them.
    Text { line: u32, bytes: Vec<u8> },
    /// Braces around the items of a struct, a union or an array.
    Listed { value: Box<CoreStructure> },
}

/// A value of an integer type, or of struct, union or array type.
#[derive(Drop)]
pub enum Value {
    Number { value: Box<CoreExpr> },
    Structure { value: Box<CoreStructure> },
}

/// The parts of a list from an item on, the last first, and the lowest rule that an item breaks.
#[derive(Drop)]
struct Found {
    parts: Vec<CorePart>,
    broken: Option<u32>,
}

// What braces are for a scalar: the one item in them.
fn only(mut items: Vec<Made>) -> Option<Made>
    ensures { option_map view_made result ≡ only (map view_made items.items) }
{
    if items.len() == 1 { items.pop() } else { None }
}

// Braces of a scalar on this line.
fn only_on(line: u32, items: Vec<Made>) -> Result<Made, TypingError>
    ensures { Gives view_made result (on_line line (required 12 (only (map view_made items.items)))) }
{
    match only(items) {
        Some(item) => Ok(item),
        None => Err(TypingError::Typing { line, rule: 12 }),
    }
}

// The value of a scalar.
fn scalar_value(alloc: Global, type_: IntegerType, made: Made) -> Result<Value, Broken>
    ensures { GivesNode view_value result (scalar_value type_ (view_made made)) }
{
    match made {
        Made::Single { operand } => {
            let value = number(operand, 8)?;
            Ok(Value::Number {
                value: as_type(alloc, type_, value)?,
            })
        }
        Made::Text { .. } => Err(Broken::Rule { rule: 8 }),
        Made::Listed { .. } => Err(Broken::Rule { rule: 12 }),
    }
}

// The value of a struct or union.
fn record_node(alloc: Global, type_: &Ty, made: Made, layouts: &Layouts) -> Result<Value, Broken>
    ensures { GivesNode view_value result (record_node layouts.now.done (type_view type_.now) (view_made made)) }
{
    match made {
        Made::Single { operand } => Ok(Value::Structure {
            value: record_value(alloc, type_, operand, layouts, 12)?,
        }),
        Made::Text { .. } => Err(Broken::Rule { rule: 12 }),
        Made::Listed { value } => Ok(Value::Structure { value }),
    }
}

fn is_character(type_: &Ty) -> bool
    ensures { result ≡ is_character (type_view type_.now) }
{
    matches!(
        type_,
        Ty::Integer(IntegerType::Char)
            | Ty::Integer(IntegerType::SignedChar)
            | Ty::Integer(IntegerType::UnsignedChar)
    )
}

// The value of an array.
fn array_node(alloc: Global, element: &Ty, length: u32, made: Made) -> Result<Value, Broken>
    ensures { GivesNode view_value result (array_node (type_view element.now) length (view_made made)) }
{
    match made {
        Made::Single { .. } => Err(Broken::Rule { rule: 12 }),
        Made::Text { line, bytes } => {
            if is_character(element) && bytes.len() <= length as usize {
                let string = CoreStructure::String {
                    line,
                    size: length,
                    bytes,
                };
                Ok(Value::Structure {
                    value: Box::new(alloc, string)?,
                })
            } else {
                Err(Broken::Rule { rule: 12 })
            }
        }
        Made::Listed { value } => Ok(Value::Structure { value }),
    }
}

// The value of an object of this type, or the lowest rule.
fn value_node(alloc: Global, type_: &Ty, made: Made, layouts: &Layouts) -> Result<Value, Broken>
    ensures { GivesNode view_value result (value_node layouts.now.done (type_view type_.now) (view_made made)) }
{
    match type_ {
        Ty::Void => Err(Broken::Rule { rule: 12 }),
        Ty::Integer(type_) => scalar_value(alloc, *type_, made),
        Ty::Record(_) => record_node(alloc, type_, made, layouts),
        Ty::Array { element, length } => array_node(alloc, element, *length, made),
        Ty::Pointer { .. } => Err(Broken::Rule { rule: 8 }),
        Ty::Function(_) => Err(Broken::Rule { rule: 12 }),
    }
}

// Braces have judged their own items.
fn is_constant(made: &Made) -> bool
    ensures { result ≡ is_constant (view_made made.now) }
{
    match made {
        Made::Single { operand } => constant_in(operand).is_some(),
        Made::Text { .. } | Made::Listed { .. } => true,
    }
}

// The same of an object that lives as long as the program, whose value is of constants, or of another.
fn initial_value(
    alloc: Global,
    object_entry: bool,
    type_: &Ty,
    made: Made,
    layouts: &Layouts,
) -> Result<Value, Broken>
    ensures { GivesNode view_value result (initial_value object_entry layouts.now.done (type_view type_.now) (view_made made)) }
{
    let fits = !object_entry || is_constant(&made);
    let value = value_node(alloc, type_, made, layouts)?;
    if fits {
        Ok(value)
    } else {
        Err(Broken::Rule { rule: 13 })
    }
}

/// The value of an object of this type, which lives as long as the program or doesn't, or the lowest rule, on the line.
pub fn value_on(
    alloc: Global,
    object_entry: bool,
    line: u32,
    type_: &Ty,
    made: Made,
    layouts: &Layouts,
) -> Result<Value, TypingError>
    ensures { Gives view_value result (on_line line (initial_value object_entry layouts.now.done (type_view type_.now) (view_made made))) }
{
    match initial_value(alloc, object_entry, type_, made, layouts) {
        Ok(value) => Ok(value),
        Err(Broken::Rule { rule }) => Err(TypingError::Typing { line, rule }),
        Err(Broken::Memory) => Err(TypingError::Memory),
    }
}

fn lower(a: u32, b: u32) -> u32
    ensures { result ≡ lower a b }
{
    if a < b { a } else { b }
}

fn part(offset: u32, value: Value) -> CorePart
    ensures { (rest : Parts) → with_part result rest ≡ part_with offset (view_value value) rest }
{
    match value {
        Value::Number { value } => CorePart::Number { offset, value },
        Value::Structure { value } => CorePart::Structure { offset, value },
    }
}

// An item in front of those behind it.
fn join(found: &mut Found, offset: u32, node: Result<Value, Broken>) -> Result<(), AllocError>
    ensures { (r : Result SpecValue ℕ) → GivesNode view_value node r → OnOk result (view_found found.new.parts.items found.new.broken ≡ joined offset r (view_found found.old.parts.items found.old.broken)) }
{
    match node {
        Ok(value) => {
            found.parts.push(part(offset, value))?;
            Ok(())
        }
        Err(Broken::Rule { rule }) => {
            found.broken = match found.broken {
                None => Some(rule),
                Some(other) => Some(lower(rule, other)),
            };
            Ok(())
        }
        Err(Broken::Memory) => Err(AllocError),
    }
}

// The item with a number, in an object of this type, in front of those behind it.
fn add_item(
    alloc: Global,
    object_entry: bool,
    type_: &Ty,
    number: usize,
    made: Made,
    layouts: &Layouts,
    found: &mut Found,
) -> Result<(), AllocError>
    ensures { OnOk result (view_found found.new.parts.items found.new.broken
        ≡ item_node object_entry layouts.now.done (slot layouts.now (type_view type_.now) number) (view_made made) (view_found found.old.parts.items found.old.broken)) }
{
    match slot(type_, number, layouts)? {
        Some((object, offset)) => {
            let node = initial_value(alloc, object_entry, object, made, layouts);
            join(found, offset, node)
        }
        None => join(found, 0, Err(Broken::Rule { rule: 12 })),
    }
}

// The parts of the items of an object of this type.
fn parts_from(
    alloc: Global,
    object_entry: bool,
    type_: &Ty,
    items: Vec<Made>,
    layouts: &Layouts,
) -> Result<Found, AllocError>
    ensures { IfOk result (λ f. view_found f.parts.items f.broken ≡ parts_from object_entry layouts.now (type_view type_.now) 0 (map view_made items.items)) }
{
    let mut left = items;
    let mut found = Found {
        parts: Vec::new(alloc),
        broken: None,
    };
    'items: while let Some(made) = left.pop() {
        add_item(
            alloc,
            object_entry,
            type_,
            left.len(),
            made,
            layouts,
            &mut found,
        )?;
    }
    Ok(found)
}

// Braces on this line around these items of an object of this type.
fn list_made(
    alloc: Global,
    object_entry: bool,
    line: u32,
    type_: &Ty,
    items: Vec<Made>,
    layouts: &Layouts,
) -> Result<Made, TypingError>
    ensures { Gives view_made result (list_made object_entry line layouts.now (type_view type_.now) (map view_made items.items)) }
{
    let mut found = parts_from(alloc, object_entry, type_, items, layouts)?;
    match found.broken {
        Some(rule) => Err(TypingError::Typing { line, rule }),
        None => {
            let size = object_bytes(type_, layouts)?;
            found.parts.reverse();
            let list = CoreStructure::List {
                line,
                size,
                parts: found.parts,
            };
            Ok(Made::Listed {
                value: Box::new(alloc, list)?,
            })
        }
    }
}

/// What braces on this line around these items are for an object of this type.
pub fn braced(
    alloc: Global,
    object_entry: bool,
    line: u32,
    type_: &Ty,
    items: Vec<Made>,
    layouts: &Layouts,
) -> Result<Made, TypingError>
    ensures { Gives view_made result (braced object_entry line layouts.now (type_view type_.now) (map view_made items.items)) }
{
    match type_ {
        Ty::Void => only_on(line, items),
        Ty::Integer(_) => only_on(line, items),
        Ty::Record(_) => list_made(alloc, object_entry, line, type_, items, layouts),
        Ty::Array { .. } => list_made(alloc, object_entry, line, type_, items, layouts),
        Ty::Pointer { .. } => only_on(line, items),
        Ty::Function(_) => only_on(line, items),
    }
}
