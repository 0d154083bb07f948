//! Integer constants (C11 6.4.4.1).

ghost use Rattle.std.specs.Prelude.{◌≡◌, ◌≤◌, ◌<◌, ◌^◌, ◌-◌, length, slice_index, find, take, drop, nat_lt, option_map};
ghost use Rattle.std.specs.Option.{SomeIff};
ghost use Rattle.c_lexer.specs.Forms.{begins};
ghost use Rattle.c_lexer.specs.Constants.{digit_value, digits, number, base_of, behind_prefix, is_u, long_suffix, suffix, suffix_of, limit_of, is_unsigned, longs_of, constant_types, admits, typed, constant_of};

use crate::class::spells;
use c_token::{CONSTANT_TYPES, Constant, ConstantType};

/// The suffix of an integer constant: whether it has a u, and how many l's.
#[derive(Clone, Copy)]
pub struct Suffix {
    pub unsigned: bool,
    pub longs: u8,
}

/// The value of a digit of base 16, and 16 for a byte that isn't one.
pub fn digit_value(byte: u8) -> u8
    ensures value { result ≡ digit_value byte }
    ensures small { result ≤ 16 }
{
    match byte {
        b'0'..=b'9' => byte - b'0',
        b'a'..=b'f' => byte - b'a' + 10,
        b'A'..=b'F' => byte - b'A' + 10,
        _ => 16,
    }
}

/// How many digits of this base stand at the front.
pub fn digits_end(base: u8, text: &[u8]) -> usize
    ensures within { result ≤ length text.now }
    ensures digits { take result text.now ≡ digits base text.now }
    ensures length { result ≡ length (digits base text.now) }
{
    for (i, byte) in text.iter().enumerate() {
        if digit_value(*byte) >= base {
            return i;
        }
    }
    text.len()
}

/// The number that digits of a base of at most 16 stand for, where it is less than 2 ^ 64.
pub fn number(base: u8, digits: &[u8]) -> Option<u64>
    requires { (0 < base) × (base ≤ 16) }
    ensures { SomeIff result (number base digits.now < 2 ^ 64) (number base digits.now) }
{
    let mut number: u64 = 0;
    for digit in digits {
        let shifted = number.checked_mul(base as u64)?;
        number = shifted.checked_add(digit_value(*digit) as u64)?;
    }
    Some(number)
}

fn base_of(text: &[u8]) -> u8
    ensures value { result ≡ base_of text.now }
    ensures small { (0 < result) × (result ≤ 16) }
{
    if text.is_empty() || text[0] != b'0' {
        10
    } else if text.len() < 2 {
        8
    } else if text[1] == b'x' || text[1] == b'X' {
        16
    } else {
        8
    }
}

fn long_suffix(text: &[u8]) -> Option<u8>
    ensures { result ≡ long_suffix text.now }
{
    if text.is_empty() {
        Some(0)
    } else if spells(text, b"l") || spells(text, b"L") {
        Some(1)
    } else if spells(text, b"ll") || spells(text, b"LL") {
        Some(2)
    } else {
        None
    }
}

fn is_u(byte: u8) -> bool
    ensures { result ≡ is_u byte }
{
    byte == b'u' || byte == b'U'
}

fn begins_with_u(text: &[u8]) -> bool
    ensures { result ≡ begins is_u text.now }
{
    !text.is_empty() && is_u(text[0])
}

fn ends_with_u(text: &[u8]) -> bool
    ensures { result ≡ is_u (slice_index text.now (length text.now - 1)) }
{
    !text.is_empty() && is_u(text[text.len() - 1])
}

/// The suffix whose l's these are, with a u or without.
fn suffix_with(unsigned: bool, longs: &[u8]) -> Option<Suffix>
    ensures { result ≡ option_map (suffix unsigned) (long_suffix longs.now) }
{
    let longs = long_suffix(longs)?;
    Some(Suffix { unsigned, longs })
}

#[tactic(auto, unfolding(crate::specs::Constants::suffix_of))]
fn suffix_of(text: &[u8]) -> Option<Suffix>
    ensures { result ≡ suffix_of text.now }
{
    if begins_with_u(text) {
        suffix_with(true, text.split_at(1).1)
    } else if ends_with_u(text) {
        suffix_with(true, text.split_at(text.len() - 1).0)
    } else {
        suffix_with(false, text)
    }
}

/// Whether a type holds a value.
fn holds(type_: ConstantType, value: u64) -> bool
    ensures { result ≡ nat_lt value (limit_of type_) }
{
    match type_ {
        ConstantType::Int => value < 0x8000_0000,
        ConstantType::UnsignedInt => value < 0x1_0000_0000,
        ConstantType::Long => value < 0x8000_0000_0000_0000,
        ConstantType::UnsignedLong => true,
        ConstantType::LongLong => value < 0x8000_0000_0000_0000,
        ConstantType::UnsignedLongLong => true,
    }
}

fn is_unsigned(type_: ConstantType) -> bool
    ensures { result ≡ is_unsigned type_ }
{
    match type_ {
        ConstantType::Int => false,
        ConstantType::UnsignedInt => true,
        ConstantType::Long => false,
        ConstantType::UnsignedLong => true,
        ConstantType::LongLong => false,
        ConstantType::UnsignedLongLong => true,
    }
}

fn longs_of(type_: ConstantType) -> u8
    ensures { result ≡ longs_of type_ }
{
    match type_ {
        ConstantType::Int => 0,
        ConstantType::UnsignedInt => 0,
        ConstantType::Long => 1,
        ConstantType::UnsignedLong => 1,
        ConstantType::LongLong => 2,
        ConstantType::UnsignedLongLong => 2,
    }
}

/// Whether a type stands in the list of a constant of this base and suffix, and holds its value.
fn admits(base: u8, suffix: Suffix, value: u64, type_: ConstantType) -> bool
    ensures { result ≡ admits base suffix value type_ }
{
    let listed = if suffix.unsigned {
        is_unsigned(type_)
    } else {
        base != 10 || !is_unsigned(type_)
    };
    suffix.longs <= longs_of(type_) && listed && holds(type_, value)
}

/// The first type of the list that holds the value.
fn type_of(base: u8, suffix: Suffix, value: u64) -> Option<ConstantType>
    ensures { result ≡ find (admits base suffix value) constant_types }
{
    CONSTANT_TYPES
        .iter()
        .copied()
        .find(|type_| admits(base, suffix, value, *type_))
}

/// The constant that digits and a suffix spell.
#[tactic(auto, unfolding(crate::specs::Constants::typed))]
fn typed(base: u8, suffix: Suffix, digits: &[u8]) -> Option<Constant>
    requires { (0 < base) × (base ≤ 16) }
    ensures { result ≡ typed base suffix (number base digits.now) }
{
    let value = number(base, digits)?;
    let type_ = type_of(base, suffix, value)?;
    Some(Constant { value, type_ })
}

/// The integer constant that a number spells.
#[tactic(auto, unfolding(crate::specs::Constants::constant_of))]
pub fn constant_of(text: &[u8]) -> Option<Constant>
    ensures { result ≡ constant_of text.now }
{
    let base = base_of(text);
    let body = if base == 16 { text.split_at(2).1 } else { text };
    let (digits, rest) = body.split_at(digits_end(base, body));
    if digits.is_empty() {
        return None;
    }
    let suffix = suffix_of(rest)?;
    typed(base, suffix, digits)
}
