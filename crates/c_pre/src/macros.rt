//! The macros that are defined at a place of a file.

ghost use Rattle.std.specs.Prelude.{◌≡◌, ◌&&◌, not, ℕ, List, Some, None, IfOk, OnOk, map, option_map, if◌then◌else◌};
ghost use Rattle.c_token.specs.Spelling.{text_of};
ghost use Rattle.c_pre.specs.Macros.{with_body, is_name, is_definable, has_parameters, same_spelling, defined, undefined, name_alone};
ghost use Rattle.c_pre.specs.Headers.{all_defined};
ghost use Rattle.c_pre.specs.Known.{findings_of, Keeps};
ghost use Rattle.c_pre.specs.Views.{tokens_of, macros_in};

use crate::directive::{spells, split, text_at};
use crate::known::{Known, forget, forget_body};
use crate::lines::Line;
use c_token::{Kind, Token};
use indexmap::IndexMap;
use std::alloc::{AllocError, Global};

/// What replaces each name. A name whose definition was taken back keeps its entry, without a body.
pub type Macros<'a> = IndexMap<Vec<u8>, Option<Line<'a>>>;

/// What replaces a name, if it is a macro's.
pub fn body_of<'a>(macros: &Macros<'a>, name: &[u8]) -> Option<Line<'a>>
    ensures { option_map tokens_of result ≡ macros_in macros.now.entries name.now }
{
    match macros.get(name) {
        Some(body) => *body,
        None => None,
    }
}

/// Gives a name another body, or none.
fn set_body<'a>(
    alloc: Global,
    macros: &mut Macros<'a>,
    name: &[u8],
    body: Option<Line<'a>>,
) -> Result<(), AllocError>
    ensures { OnOk result (macros_in macros.new.entries ≡ with_body name.now (option_map tokens_of body.entry) (macros_in macros.old.entries)) }
{
    let key = name.to_vec(alloc)?;
    macros.insert(key, body)?;
    Ok(())
}

fn is_name(kind: Kind) -> bool
    ensures { result ≡ is_name kind }
{
    match kind {
        Kind::Identifier => true,
        Kind::Keyword(_) => true,
        Kind::Constant(_) => false,
        Kind::Character(_) => false,
        Kind::String => false,
        Kind::Mark(_) => false,
    }
}

/// Whether a token can be the name of a macro.
fn is_definable(bytes: &[u8], token: Token) -> bool
    ensures { result ≡ is_definable bytes.now token }
{
    is_name(token.kind) && !spells(bytes, token, b"defined")
}

/// Whether a `(` stands directly behind a token.
fn has_parameters(bytes: &[u8], token: Token, rest: &[Token]) -> bool
    ensures { result ≡ has_parameters bytes.now token rest.now }
{
    match split(rest) {
        None => false,
        Some((next, _)) => {
            next.start as u64 == token.start as u64 + token.length as u64
                && spells(bytes, next, b"(")
        }
    }
}

/// Whether both are the same tokens, by their spelling.
fn same_spelling(bytes: &[u8], a: &[Token], b: &[Token]) -> bool
    ensures { result ≡ same_spelling bytes.now a.now b.now }
{
    let mut left = a;
    let mut right = b;
    while let Some((token, behind)) = split(left) {
        match split(right) {
            None => return false,
            Some((other, rest)) => {
                if !spells(bytes, token, text_at(bytes, other)) {
                    return false;
                }
                left = behind;
                right = rest;
            }
        }
    }
    right.is_empty()
}

/// Defines a macro by a name and what replaces it. False where it isn't of this form, or the name has another body. What is
/// known of macros stays so, but for what rests on the name.
pub fn define<'a>(
    alloc: Global,
    bytes: &[u8],
    macros: &mut Macros<'a>,
    known: &mut Known,
    definition: &'a [Token],
) -> Result<bool, AllocError>
    ensures defined { IfOk result (λ is_defined. defined bytes.now definition.now (macros_in macros.old.entries)
        ≡ (if is_defined then Some (macros_in macros.new.entries) else None)) }
    ensures keeps { OnOk result (Keeps bytes.now macros.old.entries (findings_of known.old) macros.new.entries (findings_of known.new)) }
{
    let (name, body) = match split(definition) {
        None => return Ok(false),
        Some(parts) => parts,
    };
    if !is_definable(bytes, name) || has_parameters(bytes, name, body) {
        return Ok(false);
    }
    let word = text_at(bytes, name);
    match body_of(macros, word) {
        None => {
            forget(alloc, known, word)?;
            set_body(alloc, macros, word, Some(Line { tokens: body }))?;
            Ok(true)
        }
        Some(old) => Ok(same_spelling(bytes, old.tokens, body)),
    }
}

/// Takes back a definition. False where no name stands alone. What is known of macros stays so, but for what rests on the name.
pub fn undefine(
    alloc: Global,
    bytes: &[u8],
    macros: &mut Macros,
    known: &mut Known,
    args: &[Token],
) -> Result<bool, AllocError>
    ensures undefined { IfOk result (λ is_undefined. undefined bytes.now args.now (macros_in macros.old.entries)
        ≡ (if is_undefined then Some (macros_in macros.new.entries) else None)) }
    ensures keeps { OnOk result (Keeps bytes.now macros.old.entries (findings_of known.old) macros.new.entries (findings_of known.new)) }
{
    match split(args) {
        None => Ok(false),
        Some((name, rest)) => {
            if !rest.is_empty() || !is_definable(bytes, name) {
                return Ok(false);
            }
            let word = text_at(bytes, name);
            forget_body(alloc, macros, known, word)?;
            set_body(alloc, macros, word, None)?;
            Ok(true)
        }
    }
}

/// The name that stands alone.
pub fn name_alone<'a>(bytes: &'a [u8], args: &[Token]) -> Option<&'a [u8]>
    ensures { option_map (λ name. name.now) result ≡ name_alone bytes.now args.now }
{
    match split(args) {
        None => None,
        Some((name, rest)) => {
            if rest.is_empty() && is_name(name.kind) {
                Some(text_at(bytes, name))
            } else {
                None
            }
        }
    }
}

/// Defines the macros of some of the headers' lines. False where one has another body already. What is known of macros stays
/// so, but for what rests on their names.
pub fn define_all<'a>(
    alloc: Global,
    bytes: &[u8],
    macros: &mut Macros<'a>,
    known: &mut Known,
    rows: &[Line<'a>],
) -> Result<bool, AllocError>
    ensures defined { IfOk result (λ are_defined. all_defined bytes.now (map tokens_of rows.now) (macros_in macros.old.entries)
        ≡ (if are_defined then Some (macros_in macros.new.entries) else None)) }
    ensures keeps { OnOk result (Keeps bytes.now macros.old.entries (findings_of known.old) macros.new.entries (findings_of known.new)) }
{
    for row in rows {
        if !define(alloc, bytes, macros, known, row.tokens)? {
            return Ok(false);
        }
    }
    Ok(true)
}
