//! How many characters a string has (C11 6.4.4.4, 6.4.5).

ghost use Rattle.std.specs.Prelude.{◌≡◌, ℕ, List, Some, ◌≤◌, ◌<◌, ◌^◌, ◌+◌, ◌∷◌, length, drop, map, option_map, IfOk};
ghost use Rattle.c_lexer.specs.Constants.{is_digit_of, digits};
ghost use Rattle.c_lexer.specs.Literals.{enclosed, string_bytes};
ghost use Rattle.c_tree.specs.Tree.{view as tree, view_name};
ghost use Rattle.c_elab_expr.specs.Strings.{escape_length, element_length, characters_behind, string_length, strings_length, strings_of};

use c_tree::{Expr, Name};
use std::alloc::AllocError;

// More characters than this have no memory.
const CHARACTERS: usize = 0x3fff_ffff_ffff_ffff;

fn is_digit_of(base: u8, byte: u8) -> bool
    ensures { result ≡ is_digit_of base byte }
{
    let value = match byte {
        b'0'..=b'9' => byte - b'0',
        b'a'..=b'f' => byte - b'a' + 10,
        b'A'..=b'F' => byte - b'A' + 10,
        _ => 16,
    };
    value < base
}

// How many digits of this base stand at the front.
fn digits_end(base: u8, text: &[u8]) -> usize
    ensures length { result ≡ length (digits base text.now) }
    ensures within { result ≤ length text.now }
{
    for (i, byte) in text.iter().enumerate() {
        if !is_digit_of(base, *byte) {
            return i;
        }
    }
    text.len()
}

// How many bytes spell an escape behind its backslash.
fn escape_length(text: &[u8]) -> usize
    ensures is { result ≡ escape_length text.now }
    ensures within { result ≤ length text.now }
{
    if text.is_empty() {
        return 0;
    }
    if text[0] == b'x' {
        return digits_end(16, text.split_at(1).1) + 1;
    }
    let octal = digits_end(8, text.split_at(text.len().min(3)).0);
    if octal == 0 { 1 } else { octal }
}

/// What a string's quotes enclose.
pub fn enclosed(text: &[u8]) -> &[u8]
    ensures { result.now ≡ enclosed text.now }
{
    if text.len() < 2 {
        &[]
    } else {
        text.split_at(1).1.split_at(text.len() - 2).0
    }
}

// How many bytes spell the character or escape at the front.
fn element_length(text: &[u8]) -> usize
    requires { 0 < length text.now }
    ensures is { result ≡ element_length text.now }
    ensures some { 0 < result }
    ensures within { result ≤ length text.now }
{
    if text[0] == b'\\' {
        escape_length(text.split_at(1).1) + 1
    } else {
        1
    }
}

// The characters and escapes of a text.
fn characters(text: &[u8]) -> usize
    ensures { result ≡ characters_behind 0 text.now }
{
    let mut rest = text;
    let mut found = 0;
    while !rest.is_empty() {
        rest = rest.split_at(element_length(rest)).1;
        found += 1;
    }
    found
}

/// The bytes of strings in a row, without the zero behind them.
pub fn strings_length(parts: &[Name]) -> Result<u64, AllocError>
    ensures is { IfOk result (λ n. n ≡ strings_length (map view_name parts.now)) }
    ensures small { IfOk result (λ n. n < 2 ^ 63) }
{
    let mut total: usize = 0;
    for part in parts {
        let length = characters(enclosed(&part.bytes));
        if length > CHARACTERS || total > CHARACTERS {
            return Err(AllocError);
        }
        total += length;
    }
    Ok(total as u64)
}

/// The strings that an expression is, in parentheses or not. It goes down one path of the tree.
pub fn strings_of(expr: &Expr) -> Option<&[Name]>
    ensures { option_map (λ parts. map view_name parts.now) result ≡ strings_of (tree expr.now) }
{
    match expr {
        Expr::Strings { parts, .. } => Some(parts),
        Expr::Parens { inner, .. } => strings_of(inner),
        _ => None,
    }
}

/// A string has as many characters as it stands for bytes. Computes nothing.
#[tactic(auto, using(crate::proofs::Sizes::length_of_bytes))]
pub fn prove_string_length()
    ensures { (text bytes : List ℕ) → string_bytes text ≡ Some bytes → string_length text ≡ length bytes }
{}
