//! The bytes that an initializer of constants says.

ghost use Rattle.std.specs.Prelude.{◌≡◌, [], IfOk, OnOk};
ghost use Rattle.core_tree.specs.Trees.{Parts, view, view_structure, parts_of, with_part};
ghost use Rattle.c_operands.specs.Constants.{constant_of};
ghost use Rattle.c_elab_type.specs.Initializers.{view_value, bytes_of_number, put_far, structure_bytes, parts_bytes, initial_bytes};

use crate::items::Value;
use c_operands::constant_of;
use c_values::low_bytes;
use core_tree::{CoreExpr, CorePart, CoreStructure};
use std::alloc::{AllocError, Global};

fn number_bytes(alloc: Global, expr: &CoreExpr) -> Result<Vec<u8>, AllocError>
    ensures { IfOk result (λ bytes. bytes.items ≡ bytes_of_number (constant_of (view expr.now))) }
{
    match constant_of(expr) {
        Some(number) => low_bytes(alloc, number.type_of().size() as usize, number.bits()),
        None => Ok(Vec::new(alloc)),
    }
}

// Bytes at an offset of others, behind which 0 fills up.
fn put_far(known: &mut Vec<u8>, at: u32, new: &[u8]) -> Result<(), AllocError>
    ensures { OnOk result (known.new.items ≡ put_far at new.now known.old.items) }
{
    let start = at as usize;
    let end = start + new.len();
    if known.len() < end {
        known.resize(end, 0)?;
    }
    known[start..end].copy_from_slice(new);
    Ok(())
}

#[cycle(initial_bytes)]
fn structure_bytes(alloc: Global, value: &CoreStructure) -> Result<Vec<u8>, AllocError>
    ensures { IfOk result (λ bytes. bytes.items ≡ structure_bytes (view_structure value.now)) }
{
    match value {
        CoreStructure::List { parts, .. } => parts_bytes(alloc, parts),
        CoreStructure::String { bytes, .. } => bytes.to_vec(alloc),
        _ => Ok(Vec::new(alloc)),
    }
}

#[cycle(initial_bytes)]
fn parts_bytes(alloc: Global, parts: &[CorePart]) -> Result<Vec<u8>, AllocError>
    ensures { IfOk result (λ known. known.items ≡ parts_bytes (parts_of parts.now) []) }
{
    let mut known = Vec::new(alloc);
    for part in parts {
        put_part(alloc, part, &mut known)?;
    }
    Ok(known)
}

#[cycle(initial_bytes)]
fn put_part(alloc: Global, part: &CorePart, known: &mut Vec<u8>) -> Result<(), AllocError>
    ensures { (rest : Parts) → OnOk result (parts_bytes rest known.new.items ≡ parts_bytes (with_part part.now rest) known.old.items) }
{
    match part {
        CorePart::Number { offset, value } => {
            let bytes = number_bytes(alloc, value)?;
            put_far(known, *offset, &bytes)
        }
        CorePart::Structure { offset, value } => {
            let bytes = structure_bytes(alloc, value)?;
            put_far(known, *offset, &bytes)
        }
    }
}

/// The bytes that a value of constants says.
pub fn initial_bytes(alloc: Global, value: &Value) -> Result<Vec<u8>, AllocError>
    ensures { IfOk result (λ bytes. bytes.items ≡ initial_bytes (view_value value.now)) }
{
    match value {
        Value::Number { value } => number_bytes(alloc, value),
        Value::Structure { value } => structure_bytes(alloc, value),
    }
}
