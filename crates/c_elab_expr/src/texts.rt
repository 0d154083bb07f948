//! The bytes that strings stand for (C11 6.4.5).

ghost use Rattle.std.specs.Prelude.{◌≡◌, ◌%◌, map, IfOk};
ghost use Rattle.c_lexer.specs.Literals.{bytes_behind, string_bytes};
ghost use Rattle.c_tree.specs.Tree.{view_name};
ghost use Rattle.c_elab_expr.specs.Texts.{text_bytes, bytes_of};

use crate::strings::enclosed;
use c_lexer::{Element, element_at};
use c_tree::Name;
use std::alloc::{AllocError, Global};

// A byte has 8 bits.
fn byte_of(element: Element) -> u8
    ensures { result ≡ element.byte % 256 }
{
    element.byte
}

// The bytes of a text of characters and escapes, none where it isn't one.
fn bytes_within(alloc: Global, text: &[u8]) -> Result<Vec<u8>, AllocError>
    ensures { IfOk result (λ v. v.items ≡ text_bytes (bytes_behind 0 text.now)) }
{
    let mut bytes = Vec::new(alloc);
    let mut rest = text;
    'elements: while !rest.is_empty() {
        match element_at(rest) {
            Some(element) => {
                bytes.push(byte_of(element))?;
                rest = rest.split_at(element.length).1;
            }
            None => return Ok(Vec::new(alloc)),
        }
    }
    Ok(bytes)
}

/// The bytes that strings in a row stand for, without the zero behind them.
pub fn strings_bytes(alloc: Global, parts: &[Name]) -> Result<Vec<u8>, AllocError>
    ensures { IfOk result (λ v. v.items ≡ bytes_of (map view_name parts.now)) }
{
    let mut bytes = Vec::new(alloc);
    'parts: for part in parts {
        let more = bytes_within(alloc, enclosed(&part.bytes))?;
        bytes.extend_from_slice(&more)?;
    }
    Ok(bytes)
}
