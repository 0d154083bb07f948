//! Character constants and strings (C11 6.4.4.4, 6.4.5).

ghost use Rattle.std.specs.Prelude.{◌≡◌, ◌==◌, ◌&&◌, not, ◌+◌, true, ◌<◌, ◌≤◌, length, take, drop, Some, Ok, IfOk, IfSome, IsTrue, is_some, MatchOption};
ghost use Rattle.c_lexer.specs.Bytes.{is_quote};
ghost use Rattle.c_lexer.specs.Forms.{begins, is_token, IsLongest, NonePasses};
ghost use Rattle.c_lexer.specs.Kinds.{kind_of};
ghost use Rattle.c_lexer.specs.Literals.{simple_escape, escape_by, escape_at, element_at, bytes_behind, enclosed, string_bytes, character_byte};

use crate::constant::{digits_end, number};
use c_token::Kind;
use std::alloc::{AllocError, Global};

/// A character or an escape within a literal: the byte that it stands for, and the number of bytes that spell it.
#[derive(Clone, Copy)]
pub struct Element {
    pub byte: u8,
    pub length: usize,
}

/// Whether a byte is the wanted one, and no backslash escapes it.
fn is_plain(escaped: bool, byte: u8, wanted: u8) -> bool
    ensures { result ≡ (not escaped && byte == wanted) }
{
    !escaped && byte == wanted
}

/// Where the literal at the front ends, behind its closing quote.
pub fn literal_end(text: &[u8]) -> Option<usize>
    requires { begins is_quote text.now ≡ true }
    ensures { MatchOption result (NonePasses is_token text.now) (λ n. IsLongest is_token text.now n) }
{
    let quote = text[0];
    let mut escaped = false;
    let mut end = 1;
    while end < text.len() {
        let byte = text[end];
        if byte == b'\n' {
            return None;
        }
        end += 1;
        if is_plain(escaped, byte, quote) {
            return Some(end);
        }
        escaped = is_plain(escaped, byte, b'\\');
    }
    None
}

/// The byte of an escape by one letter or mark.
#[tactic(auto, unfolding(crate::specs::Literals::simple_escape))]
fn simple_escape(byte: u8) -> Option<u8>
    ensures { result ≡ simple_escape byte }
{
    match byte {
        b'\'' => Some(b'\''),
        b'"' => Some(b'"'),
        b'?' => Some(b'?'),
        b'\\' => Some(b'\\'),
        b'a' => Some(7),
        b'b' => Some(8),
        b'f' => Some(12),
        b'n' => Some(10),
        b'r' => Some(13),
        b't' => Some(9),
        b'v' => Some(11),
        _ => None,
    }
}

#[tactic(auto, unfolding(crate::specs::Literals::escape_by))]
fn escape_by(base: u8, digits: &[u8], length: usize) -> Option<Element>
    requires { (0 < base) × (base ≤ 16) }
    ensures value { result ≡ escape_by base digits.now length }
    ensures length { IfSome result (λ e. e.length ≡ length) }
{
    if digits.is_empty() {
        return None;
    }
    let value = number(base, digits)?;
    if value < 256 {
        Some(Element {
            byte: value as u8,
            length,
        })
    } else {
        None
    }
}

/// The escape whose text behind the backslash is at the front.
#[tactic(auto, unfolding(crate::specs::Literals::escape_at))]
fn escape_at(text: &[u8]) -> Option<Element>
    ensures value { result ≡ escape_at text.now }
    ensures within { IfSome result (λ e. (0 < e.length) × (e.length ≤ length text.now + 1)) }
{
    if text.is_empty() {
        return None;
    }
    if text[0] == b'x' {
        let (_, rest) = text.split_at(1);
        let (hexadecimal, _) = rest.split_at(digits_end(16, rest));
        return escape_by(16, hexadecimal, hexadecimal.len() + 2);
    }
    let (front, _) = text.split_at(text.len().min(3));
    let (octal, _) = front.split_at(digits_end(8, front));
    if octal.is_empty() {
        let byte = simple_escape(text[0])?;
        Some(Element { byte, length: 2 })
    } else {
        escape_by(8, octal, octal.len() + 1)
    }
}

/// The character or the escape at the front.
#[tactic(auto, unfolding(crate::specs::Literals::element_at))]
pub fn element_at(text: &[u8]) -> Option<Element>
    ensures value { result ≡ element_at text.now }
    ensures within { IfSome result (λ e. (0 < e.length) × (e.length ≤ length text.now)) }
{
    if text.is_empty() {
        None
    } else if text[0] == b'\\' {
        let (_, rest) = text.split_at(1);
        escape_at(rest)
    } else {
        Some(Element {
            byte: text[0],
            length: 1,
        })
    }
}

/// Whether a text is all characters and escapes.
fn is_well_formed(text: &[u8]) -> bool
    ensures { result ≡ is_some (bytes_behind 0 text.now) }
{
    let mut rest = text;
    while !rest.is_empty() {
        match element_at(rest) {
            None => return false,
            Some(element) => rest = rest.split_at(element.length).1,
        }
    }
    true
}

/// What a literal's quotes enclose.
fn enclosed(text: &[u8]) -> &[u8]
    requires { 2 ≤ length text.now }
    ensures { result.now ≡ enclosed text.now }
{
    let (_, behind) = text.split_at(1);
    behind.split_at(text.len() - 2).0
}

/// Whether a string's characters and escapes are well formed.
pub fn is_string(text: &[u8]) -> bool
    requires { 2 ≤ length text.now }
    ensures { result ≡ is_some (string_bytes text.now) }
{
    is_well_formed(enclosed(text))
}

/// The byte of a character constant.
pub fn character_byte(text: &[u8]) -> Option<u8>
    requires { 2 ≤ length text.now }
    ensures { result ≡ character_byte text.now }
{
    let inner = enclosed(text);
    let element = element_at(inner)?;
    if element.length == inner.len() {
        Some(element.byte)
    } else {
        None
    }
}

/// The bytes that the text of a string token stands for, without the zero behind them.
pub fn string_bytes(alloc: Global, text: &[u8]) -> Result<Vec<u8>, AllocError>
    requires { kind_of text.now ≡ Ok Kind.String }
    ensures { IfOk result (λ v. string_bytes text.now ≡ Some v.items) }
{
    let mut bytes = Vec::new(alloc);
    let mut rest = enclosed(text);
    while let Some(element) = element_at(rest) {
        bytes.push(element.byte)?;
        rest = rest.split_at(element.length).1;
    }
    Ok(bytes)
}
