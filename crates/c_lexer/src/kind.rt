//! What a token is, by its text.

ghost use Rattle.std.specs.Prelude.{◌≡◌, ◌≤◌, true, length};
ghost use Rattle.c_lexer.specs.Forms.{begins_number, is_token};
ghost use Rattle.c_lexer.specs.Kinds.{is_foreign, is_prefix, word_kind, number_kind, literal_kind, mark_kind, int_bits, kind_of};

use crate::class::{Class, class_of, spells};
use crate::constant::constant_of;
use crate::fault::Fault;
use crate::literal::{character_byte, is_string};
use c_token::{Kind, keyword_of, mark_of};

/// Whether a word is a keyword of C11 that the profile leaves out.
#[tactic(auto, unfolding(crate::specs::Kinds::is_foreign))]
fn is_foreign(text: &[u8]) -> bool
    ensures { result ≡ is_foreign text.now }
{
    spells(text, b"float")
        || spells(text, b"double")
        || spells(text, b"_Complex")
        || spells(text, b"_Imaginary")
        || spells(text, b"_Generic")
        || spells(text, b"_Alignas")
        || spells(text, b"_Alignof")
        || spells(text, b"_Atomic")
        || spells(text, b"_Thread_local")
        || spells(text, b"_Static_assert")
}

/// Whether a word makes a literal directly behind it one of another type.
#[tactic(auto, unfolding(crate::specs::Kinds::is_prefix))]
pub fn is_prefix(text: &[u8]) -> bool
    ensures { result ≡ is_prefix text.now }
{
    spells(text, b"L") || spells(text, b"u") || spells(text, b"U") || spells(text, b"u8")
}

#[tactic(auto, unfolding(crate::specs::Kinds::word_kind))]
fn word_kind(text: &[u8]) -> Result<Kind, Fault>
    ensures { result ≡ word_kind text.now }
{
    if is_foreign(text) {
        return Err(Fault::Foreign);
    }
    match keyword_of(text) {
        Some(keyword) => Ok(Kind::Keyword(keyword)),
        None => Ok(Kind::Identifier),
    }
}

#[tactic(auto, unfolding(crate::specs::Kinds::number_kind))]
fn number_kind(text: &[u8]) -> Result<Kind, Fault>
    ensures { result ≡ number_kind text.now }
{
    match constant_of(text) {
        Some(constant) => Ok(Kind::Constant(constant)),
        None => Err(Fault::BadConstant),
    }
}

/// The bits of an int that has the value of the signed char with these bits.
fn int_bits(byte: u8) -> u32
    ensures { result ≡ int_bits byte }
{
    if byte < 128 {
        byte as u32
    } else {
        byte as u32 + 0xffff_ff00
    }
}

#[tactic(auto, unfolding(crate::specs::Kinds::literal_kind))]
fn literal_kind(text: &[u8]) -> Result<Kind, Fault>
    requires { 2 ≤ length text.now }
    ensures { result ≡ literal_kind text.now }
{
    if text[0] == b'"' {
        if is_string(text) {
            Ok(Kind::String)
        } else {
            Err(Fault::BadConstant)
        }
    } else {
        match character_byte(text) {
            Some(byte) => Ok(Kind::Character(int_bits(byte))),
            None => Err(Fault::BadConstant),
        }
    }
}

#[tactic(auto, unfolding(crate::specs::Kinds::mark_kind))]
fn mark_kind(text: &[u8]) -> Result<Kind, Fault>
    ensures { result ≡ mark_kind text.now }
{
    match mark_of(text) {
        Some(mark) => Ok(Kind::Mark(mark)),
        None => Err(Fault::BadByte),
    }
}

/// Whether a number begins at the front: a digit, or a point and a digit.
pub fn begins_number(text: &[u8]) -> bool
    ensures { result ≡ begins_number text.now }
{
    if text.is_empty() {
        false
    } else if class_of(text[0]) == Class::Digit {
        true
    } else {
        text[0] == b'.' && text.len() > 1 && class_of(text[1]) == Class::Digit
    }
}

/// The kind of a token by its text, or what is wrong with it.
pub fn kind_of(text: &[u8]) -> Result<Kind, Fault>
    requires { is_token text.now ≡ true }
    ensures { result ≡ kind_of text.now }
{
    match class_of(text[0]) {
        Class::Letter => word_kind(text),
        Class::Digit => number_kind(text),
        Class::Quote => literal_kind(text),
        Class::Space => mark_kind(text),
        Class::Other => {
            if begins_number(text) {
                number_kind(text)
            } else {
                mark_kind(text)
            }
        }
    }
}
