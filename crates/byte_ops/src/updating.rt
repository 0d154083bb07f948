//! Bytes written into a block at an offset.

ghost use Rattle.std.specs.Prelude.{◌≡◌, ◌==◌, ◌&&◌, ◌+◌, ◌<◌, ◌≤◌, ◌^◌, ◌++◌, ℕ, All, IfOk, OnOk, length, map, take, drop, nat_lt, if◌then◌else◌};
ghost use Rattle.word_dag.specs.Growth.{Extends};
ghost use Rattle.word_dag.specs.Meaning.{value, holds};
ghost use Rattle.value_nodes.specs.Values.{IsWord, AreBytes};
ghost use Rattle.byte_ops.specs.Bytes.{updated};
ghost use Rattle.byte_ops.specs.Tests.{IsPlaceTest, IsTestedOffset, is_tested};

use crate::places::{PlaceTest, TestedOffset, tested_offset};
use std::alloc::{AllocError, Global};
use value_nodes::{bytes_of_word, chosen, word_of_bytes};
use word_dag::{Dag, Id};

// The bytes where a test is true, else the others, which are as many.
fn chosen_bytes(
    alloc: Global,
    dag: &mut Dag,
    test: Id,
    bytes: &[Id],
    others: &[Id],
) -> Result<Vec<Id>, AllocError>
    requires test { IsWord dag.old test 1 }
    requires bytes { AreBytes dag.old bytes.now }
    requires others { AreBytes dag.old others.now }
    requires positive { 1 ≤ length bytes.now }
    requires few { length bytes.now ≤ 8 }
    requires same { length others.now ≡ length bytes.now }
    ensures extends { Extends dag.old dag.new }
    ensures bytes { IfOk result (λ ids. AreBytes dag.new ids.items) }
    ensures same { IfOk result (λ ids. length ids.items ≡ length bytes.now) }
    ensures values { IfOk result (λ ids. (v : ℕ → ℕ) → map (value v dag.new) ids.items ≡ (if holds (value v dag.old test) then map (value v dag.old) bytes.now else map (value v dag.old) others.now)) }
{
    let _ = dag.nodes();
    let word = word_of_bytes(dag, bytes)?;
    let other = word_of_bytes(dag, others)?;
    let both = chosen(dag, test, word, other)?;
    let ids = bytes_of_word(alloc, dag, both, 8 * bytes.len() as u32, bytes.len())?;
    Ok(ids)
}

// Bytes in the place of as many, from a place on.
fn put_in(block: &mut Vec<Id>, at: usize, new: &[Id])
    requires { at + length new.now ≤ length block.old.items }
    ensures { block.new.items ≡ take at block.old.items ++ (new.now ++ drop (at + length new.now) block.old.items) }
{
    block[at..at + new.len()].copy_from_slice(new);
}

// The bytes are put at a place below a limit, as far as the block goes, where the offset is that place.
fn put_at(
    alloc: Global,
    dag: &mut Dag,
    block: &mut Vec<Id>,
    offset: Id,
    test: PlaceTest,
    limit: usize,
    bytes: &[Id],
) -> Result<(), AllocError>
    requires block { AreBytes dag.old block.old.items }
    requires limit { limit ≤ length block.old.items }
    requires test { IsPlaceTest dag.old offset test }
    requires bytes { AreBytes dag.old bytes.now }
    requires positive { 1 ≤ length bytes.now }
    requires few { length bytes.now ≤ 8 }
    ensures extends { Extends dag.old dag.new }
    ensures block { OnOk result (AreBytes dag.new block.new.items) }
    ensures length { OnOk result (length block.new.items ≡ length block.old.items) }
    ensures values { OnOk result ((v : ℕ → ℕ) → map (value v dag.new) block.new.items ≡ (if nat_lt test.at limit && (value v dag.old offset == test.at) then updated test.at (map (value v dag.old) bytes.now) (map (value v dag.old) block.old.items) else map (value v dag.old) block.old.items)) }
{
    if test.at >= limit {
        return Ok(());
    }
    let count = bytes.len().min(block.len() - test.at);
    let new = chosen_bytes(
        alloc,
        dag,
        test.test,
        &bytes[..count],
        &block[test.at..test.at + count],
    )?;
    put_in(block, test.at, &new);
    Ok(())
}

// The bytes are put at the offset, where one of the tests of places below a limit is true.
fn put_among(
    alloc: Global,
    dag: &mut Dag,
    block: &mut Vec<Id>,
    offset: Id,
    tests: &[PlaceTest],
    limit: usize,
    bytes: &[Id],
) -> Result<(), AllocError>
    requires block { AreBytes dag.old block.old.items }
    requires limit { limit ≤ length block.old.items }
    requires offset { IsWord dag.old offset 32 }
    requires tests { All (IsPlaceTest dag.old offset) tests.now }
    requires bytes { AreBytes dag.old bytes.now }
    requires positive { 1 ≤ length bytes.now }
    requires few { length bytes.now ≤ 8 }
    ensures extends { Extends dag.old dag.new }
    ensures block { OnOk result (AreBytes dag.new block.new.items) }
    ensures length { OnOk result (length block.new.items ≡ length block.old.items) }
    ensures values { OnOk result ((v : ℕ → ℕ) → map (value v dag.new) block.new.items ≡ (if is_tested limit tests.now (value v dag.old offset) then updated (value v dag.old offset) (map (value v dag.old) bytes.now) (map (value v dag.old) block.old.items) else map (value v dag.old) block.old.items)) }
{
    for k in 0..tests.len() {
        put_at(alloc, dag, block, offset, tests[k], limit, bytes)?;
    }
    Ok(())
}

/// A block with bytes, from 1 to 8, in the place of as many from an offset of 32 bits on; what would stand past the block is
/// left out. The only error is that there is no memory.
pub fn update(
    alloc: Global,
    dag: &mut Dag,
    block: &[Id],
    offset: Id,
    bytes: &[Id],
) -> Result<Vec<Id>, AllocError>
    requires block { AreBytes dag.old block.now }
    requires size { length block.now ≤ 2 ^ 32 }
    requires offset { IsWord dag.old offset 32 }
    requires bytes { AreBytes dag.old bytes.now }
    requires positive { 1 ≤ length bytes.now }
    requires few { length bytes.now ≤ 8 }
    ensures extends { Extends dag.old dag.new }
    ensures bytes { IfOk result (λ ids. AreBytes dag.new ids.items) }
    ensures length { IfOk result (λ ids. length ids.items ≡ length block.now) }
    ensures values { IfOk result (λ ids. (v : ℕ → ℕ) → map (value v dag.new) ids.items ≡ updated (value v dag.old offset) (map (value v dag.old) bytes.now) (map (value v dag.old) block.now)) }
{
    let offsets = tested_offset(alloc, dag, offset, block.len())?;
    let mut new = block.to_vec(alloc)?;
    put_among(
        alloc,
        dag,
        &mut new,
        offset,
        &offsets.tests,
        block.len(),
        bytes,
    )?;
    Ok(new)
}

/// The same where all the bytes lie within the block; where they don't, any bytes. The tests are those of the offset for the
/// places of this block, and maybe of larger ones. The only error is that there is no memory.
pub fn update_within(
    alloc: Global,
    dag: &mut Dag,
    block: &[Id],
    offsets: &TestedOffset,
    bytes: &[Id],
) -> Result<Vec<Id>, AllocError>
    requires block { AreBytes dag.old block.now }
    requires offsets { IsTestedOffset dag.old offsets.now }
    requires size { length block.now < offsets.now.size + length bytes.now }
    requires bytes { AreBytes dag.old bytes.now }
    requires positive { 1 ≤ length bytes.now }
    requires few { length bytes.now ≤ 8 }
    requires within { length bytes.now ≤ length block.now }
    ensures extends { Extends dag.old dag.new }
    ensures bytes { IfOk result (λ ids. AreBytes dag.new ids.items) }
    ensures length { IfOk result (λ ids. length ids.items ≡ length block.now) }
    ensures values { IfOk result (λ ids. (v : ℕ → ℕ) → value v dag.old offsets.now.offset + length bytes.now ≤ length block.now → map (value v dag.new) ids.items ≡ updated (value v dag.old offsets.now.offset) (map (value v dag.old) bytes.now) (map (value v dag.old) block.now)) }
{
    let limit = block.len() + 1 - bytes.len();
    let mut new = block.to_vec(alloc)?;
    put_among(
        alloc,
        dag,
        &mut new,
        offsets.offset,
        &offsets.tests,
        limit,
        bytes,
    )?;
    Ok(new)
}
