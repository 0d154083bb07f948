//! A number read from a block at an offset.

ghost use Rattle.std.specs.Prelude.{◌≡◌, ◌==◌, ◌&&◌, ◌+◌, ◌*◌, ◌<◌, ◌≤◌, ◌^◌, ℕ, true, false, List, All, IfOk, length, map, nat_lt, if◌then◌else◌};
ghost use Rattle.word_dag.specs.Growth.{Extends};
ghost use Rattle.word_dag.specs.Meaning.{value};
ghost use Rattle.word_dag.specs.declared.nodes.Node.{Node};
ghost use Rattle.value_nodes.specs.Values.{IsWord, IsValue, AreBytes};
ghost use Rattle.byte_ops.specs.Bytes.{selected};
ghost use Rattle.byte_ops.specs.Tests.{IsPlaceTest, IsTestedOffset, is_tested};

use crate::places::{PlaceTest, TestedOffset, tested_offset};
use std::alloc::{AllocError, Global};
use value_nodes::{chosen, word_of_bytes};
use word_dag::{Dag, Id, Node};

// The number of n bytes of a block from a place on.
fn number_at(dag: &mut Dag, block: &[Id], at: usize, n: usize) -> Result<Id, AllocError>
    requires block { AreBytes dag.old block.now }
    requires there { at < length block.now }
    requires positive { 1 ≤ n }
    requires few { n ≤ 8 }
    ensures extends { Extends dag.old dag.new }
    ensures made { IfOk result (λ i. IsValue dag.new i (8 * n) (λ v. selected (map (value v dag.old) block.now) at n)) }
{
    let _ = dag.nodes();
    let count = n.min(block.len() - at);
    let word = word_of_bytes(dag, &block[at..at + count])?;
    if count == n {
        return Ok(word);
    }
    let wide = dag.make(Node::ZeroExtend(word, 8 * n as u32))?;
    Ok(wide)
}

// The number at a place below a limit, where the offset is that place, else the other word.
fn chosen_at(
    dag: &mut Dag,
    block: &[Id],
    offset: Id,
    test: PlaceTest,
    limit: usize,
    n: usize,
    other: Id,
) -> Result<Id, AllocError>
    requires block { AreBytes dag.old block.now }
    requires limit { limit ≤ length block.now }
    requires positive { 1 ≤ n }
    requires few { n ≤ 8 }
    requires test { IsPlaceTest dag.old offset test }
    requires other { IsWord dag.old other (8 * n) }
    ensures extends { Extends dag.old dag.new }
    ensures made { IfOk result (λ i. IsValue dag.new i (8 * n) (λ v. if nat_lt test.at limit && (value v dag.old offset == test.at) then selected (map (value v dag.old) block.now) test.at n else value v dag.old other)) }
{
    if test.at >= limit {
        return Ok(other);
    }
    let here = number_at(dag, block, test.at, n)?;
    let id = chosen(dag, test.test, here, other)?;
    Ok(id)
}

// The number at the offset, where one of the tests of places below a limit is true, else the other word.
fn chosen_among(
    dag: &mut Dag,
    block: &[Id],
    offset: Id,
    tests: &[PlaceTest],
    limit: usize,
    n: usize,
    other: Id,
) -> Result<Id, AllocError>
    requires block { AreBytes dag.old block.now }
    requires limit { limit ≤ length block.now }
    requires positive { 1 ≤ n }
    requires few { n ≤ 8 }
    requires tests { All (IsPlaceTest dag.old offset) tests.now }
    requires offset { IsWord dag.old offset 32 }
    requires other { IsWord dag.old other (8 * n) }
    ensures extends { Extends dag.old dag.new }
    ensures made { IfOk result (λ i. IsValue dag.new i (8 * n) (λ v. if is_tested limit tests.now (value v dag.old offset) then selected (map (value v dag.old) block.now) (value v dag.old offset) n else value v dag.old other)) }
{
    let mut word = other;
    for k in 0..tests.len() {
        word = chosen_at(dag, block, offset, tests[k], limit, n, word)?;
    }
    Ok(word)
}

/// The number of n bytes of a block, from 1 to 8, from an offset of 32 bits on, the lowest first; a byte past the block is
/// 0. The only error is that there is no memory.
pub fn select(
    alloc: Global,
    dag: &mut Dag,
    block: &[Id],
    offset: Id,
    n: usize,
) -> Result<Id, AllocError>
    requires block { AreBytes dag.old block.now }
    requires size { length block.now ≤ 2 ^ 32 }
    requires offset { IsWord dag.old offset 32 }
    requires positive { 1 ≤ n }
    requires few { n ≤ 8 }
    ensures extends { Extends dag.old dag.new }
    ensures made { IfOk result (λ i. IsValue dag.new i (8 * n) (λ v. selected (map (value v dag.old) block.now) (value v dag.old offset) n)) }
{
    let offsets = tested_offset(alloc, dag, offset, block.len())?;
    let none = dag.make(Node::Constant(0, 8 * n as u32))?;
    let id = chosen_among(dag, block, offset, &offsets.tests, block.len(), n, none)?;
    Ok(id)
}

// The number at the place of the first test, if that is below a limit, else 0; and the tests behind it.
fn first_number<'a>(
    dag: &mut Dag,
    block: &[Id],
    tests: &'a [PlaceTest],
    limit: usize,
    n: usize,
) -> Result<(Id, &'a [PlaceTest]), AllocError>
    requires block { AreBytes dag.old block.now }
    requires limit { limit ≤ length block.now }
    requires positive { 1 ≤ n }
    requires few { n ≤ 8 }
    ensures extends { Extends dag.old dag.new }
    ensures word { IfOk result (λ r. IsWord dag.new r.0 (8 * n)) }
    ensures tests { IfOk result (λ r. (d : List Node) (offset : Id) → All (IsPlaceTest d offset) tests.now → All (IsPlaceTest d offset) r.1.now) }
    ensures made { IfOk result (λ r. (v : ℕ → ℕ) (x : ℕ) → is_tested limit tests.now x ≡ true → is_tested limit r.1.now x ≡ false → value v dag.new r.0 ≡ selected (map (value v dag.old) block.now) x n) }
{
    if let Some((first, rest)) = tests.split_first() {
        if first.at < limit {
            let word = number_at(dag, block, first.at, n)?;
            return Ok((word, rest));
        }
    }
    let none = dag.make(Node::Constant(0, 8 * n as u32))?;
    Ok((none, tests))
}

/// The same where all n bytes lie within the block; where they don't, any number. The tests are those of the offset for the
/// places of this block, and maybe of larger ones. The only error is that there is no memory.
pub fn select_within(
    dag: &mut Dag,
    block: &[Id],
    offsets: &TestedOffset,
    n: usize,
) -> Result<Id, AllocError>
    requires block { AreBytes dag.old block.now }
    requires offsets { IsTestedOffset dag.old offsets.now }
    requires size { length block.now < offsets.now.size + n }
    requires positive { 1 ≤ n }
    requires few { n ≤ 8 }
    requires within { n ≤ length block.now }
    ensures extends { Extends dag.old dag.new }
    ensures word { IfOk result (λ i. IsWord dag.new i (8 * n)) }
    ensures made { IfOk result (λ i. (v : ℕ → ℕ) → value v dag.old offsets.now.offset + n ≤ length block.now → value v dag.new i ≡ selected (map (value v dag.old) block.now) (value v dag.old offsets.now.offset) n) }
{
    let limit = block.len() + 1 - n;
    let (word, rest) = first_number(dag, block, &offsets.tests, limit, n)?;
    let id = chosen_among(dag, block, offsets.offset, rest, limit, n, word)?;
    Ok(id)
}
