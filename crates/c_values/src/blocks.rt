//! Blocks of bytes, and numbers in them.

ghost use Rattle.std.specs.Prelude.{◌≡◌, ◌+◌, ◌<◌, ◌≤◌, ◌^◌, length, drop, slice_index, IfOk};
ghost use Rattle.std.specs.Int.{from_le_bytes};
ghost use Rattle.c_types.specs.Integers.{width};
ghost use Rattle.c_values.specs.Variables.{storage, low_bytes, put_at, number_at};
ghost use Rattle.c_values.specs.Numbers.{typed};

use crate::number::Number;
use c_types::IntegerType;
use std::alloc::{AllocError, Global};

/// Writes the lowest `count` bytes of a number, the lowest first, in the place of as many from an offset
/// of a block on.
pub fn write_block(block: &mut [u8], offset: usize, count: usize, bits: u64)
    requires few { count ≤ 8 }
    requires within { offset + count ≤ length block.old }
    ensures { block.new ≡ put_at offset (low_bytes count bits) block.old }
{
    let all = bits.to_le_bytes();
    block[offset..offset + count].copy_from_slice(&all[..count]);
}

/// The lowest `count` bytes of a number, the lowest first.
pub fn low_bytes(alloc: Global, count: usize, bits: u64) -> Result<Vec<u8>, AllocError>
    requires { count ≤ 8 }
    ensures { IfOk result (λ bytes. bytes.items ≡ low_bytes count bits) }
{
    let bytes = bits.to_le_bytes();
    Vec::from_slice(alloc, &bytes[..count])
}

fn byte(block: &[u8], i: usize) -> u8
    ensures { result ≡ slice_index block.now i }
{
    match block.get(i) {
        Some(byte) => *byte,
        None => 0,
    }
}

// The number that the bytes of an object of the type are.
fn number_in(block: &[u8], type_: IntegerType) -> u64
    ensures value { result ≡ from_le_bytes (storage type_) block.now }
    ensures within { result < 2 ^ width type_ }
{
    match type_ {
        IntegerType::Bool
        | IntegerType::Char
        | IntegerType::SignedChar
        | IntegerType::UnsignedChar => byte(block, 0) as u64,
        IntegerType::Short | IntegerType::UnsignedShort => {
            u16::from_le_bytes([byte(block, 0), byte(block, 1)]) as u64
        }
        IntegerType::Int | IntegerType::UnsignedInt => number_32(block) as u64,
        IntegerType::Long
        | IntegerType::UnsignedLong
        | IntegerType::LongLong
        | IntegerType::UnsignedLongLong => number_64(block),
    }
}

fn number_32(block: &[u8]) -> u32
    ensures { result ≡ from_le_bytes (storage IntegerType.Int) block.now }
{
    u32::from_le_bytes([
        byte(block, 0),
        byte(block, 1),
        byte(block, 2),
        byte(block, 3),
    ])
}

fn number_64(block: &[u8]) -> u64
    ensures { result ≡ from_le_bytes (storage IntegerType.Long) block.now }
{
    u64::from_le_bytes([
        byte(block, 0),
        byte(block, 1),
        byte(block, 2),
        byte(block, 3),
        byte(block, 4),
        byte(block, 5),
        byte(block, 6),
        byte(block, 7),
    ])
}

// The bytes from an offset on, none past the end.
fn bytes_from(block: &[u8], offset: usize) -> &[u8]
    ensures { result.now ≡ drop offset block.now }
{
    if offset <= block.len() {
        &block[offset..]
    } else {
        &[]
    }
}

/// The number that a read of an object of the type at an offset gives, from the bytes of a block.
pub fn read_block(block: &[u8], offset: usize, type_: IntegerType) -> Number
    ensures { result ≡ typed type_ (number_at type_ offset block.now) }
{
    let bits = number_in(bytes_from(block, offset), type_);
    match type_ {
        IntegerType::Bool => Number::new(type_, (bits != 0) as u64),
        _ => Number::new(type_, bits),
    }
}
