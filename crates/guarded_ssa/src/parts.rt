//! Bytes at an offset that is a node: what is taken of a block and put into one, and the first bytes of one, as many as a
//! node says.

ghost use Rattle.std.specs.Prelude.{◌≡◌, ℕ, ◌+◌, ◌<◌, ◌≤◌, ◌^◌, ◌++◌, length, map, take, drop, min, nat_lt, IfOk};
ghost use Rattle.word_dag.specs.Growth.{Extends};
ghost use Rattle.word_dag.specs.Meaning.{value};
ghost use Rattle.value_nodes.specs.Values.{IsWord, IsTest, AreBytes};
ghost use Rattle.value_nodes.specs.Bytes.{AreBytesOf};
ghost use Rattle.goto_prog.specs.Meaning.{taken_at, put_within};

use byte_ops::{select, update};
use std::alloc::{AllocError, Global};
use value_nodes::{bytes_of_word, chosen};
use word_dag::{Comparison, Dag, Id, Node};

// At most 8 bytes of a block from an offset on; past the end they are 0.
fn taken_word(
    alloc: Global,
    dag: &mut Dag,
    block: &[Id],
    offset: Id,
    count: usize,
) -> Result<Vec<Id>, AllocError>
    requires block { AreBytes dag.old block.now }
    requires size { length block.now ≤ 2 ^ 32 }
    requires offset { IsWord dag.old offset 32 }
    requires positive { 1 ≤ count }
    requires few { count ≤ 8 }
    ensures extends { Extends dag.old dag.new }
    ensures made { IfOk result (λ ids. AreBytesOf dag.new ids.items (λ v. taken_at count (value v dag.old offset) (map (value v dag.old) block.now))) }
{
    let _ = dag.nodes();
    let word = select(alloc, dag, block, offset, count)?;
    let bytes = bytes_of_word(alloc, dag, word, 8 * count as u32, count)?;
    Ok(bytes)
}

/// So many bytes of a block from an offset on; past the end they are 0.
pub fn taken(
    alloc: Global,
    dag: &mut Dag,
    block: &[Id],
    offset: Id,
    count: u32,
) -> Result<Vec<Id>, AllocError>
    requires block { AreBytes dag.old block.now }
    requires size { length block.now ≤ 2 ^ 32 }
    requires offset { IsWord dag.old offset 32 }
    ensures extends { Extends dag.old dag.new }
    ensures made { IfOk result (λ ids. AreBytesOf dag.new ids.items (λ v. taken_at count (value v dag.old offset) (map (value v dag.old) block.now))) }
    ensures size { IfOk result (λ ids. length ids.items ≡ count) }
{
    let mut bytes = Vec::with_capacity(alloc, count as usize)?;
    let mut at = 0;
    'parts: while at < count as usize {
        let size = (count as usize - at).min(8);
        let part = &block[at.min(block.len())..];
        let more = taken_word(alloc, dag, part, offset, size)?;
        bytes.extend_from_slice(&more)?;
        at += size;
    }
    Ok(bytes)
}

// Bytes in the place of as many, from a place on.
fn replace_from(block: &mut Vec<Id>, at: usize, new: &[Id])
    requires { at + length new.now ≡ length block.old.items }
    ensures { block.new.items ≡ take at block.old.items ++ new.now }
{
    block[at..].copy_from_slice(new);
}

/// A block with bytes in the place of as many from an offset on, as far as it has some.
pub fn put(
    alloc: Global,
    dag: &mut Dag,
    block: &[Id],
    offset: Id,
    new: &[Id],
) -> Result<Vec<Id>, AllocError>
    requires block { AreBytes dag.old block.now }
    requires size { length block.now ≤ 2 ^ 32 }
    requires offset { IsWord dag.old offset 32 }
    requires new { AreBytes dag.old new.now }
    ensures extends { Extends dag.old dag.new }
    ensures made { IfOk result (λ ids. AreBytesOf dag.new ids.items (λ v. put_within (value v dag.old offset) (map (value v dag.old) new.now) (map (value v dag.old) block.now))) }
    ensures length { IfOk result (λ ids. length ids.items ≡ length block.now) }
{
    let mut bytes = block.to_vec(alloc)?;
    let mut at = 0;
    'parts: while at < new.len() {
        let size = (new.len() - at).min(8);
        let start = at.min(bytes.len());
        let rest = update(alloc, dag, &bytes[start..], offset, &new[at..at + size])?;
        replace_from(&mut bytes, start, &rest);
        at += size;
    }
    Ok(bytes)
}

// Whether a place is below a number.
fn is_among_first(dag: &mut Dag, count: Id, place: usize) -> Result<Id, AllocError>
    requires count { IsWord dag.old count 64 }
    ensures extends { Extends dag.old dag.new }
    ensures made { IfOk result (λ i. IsTest dag.new i (λ v. nat_lt place (value v dag.old count))) }
{
    let at = dag.make(Node::Constant(place as u64, 64))?;
    let id = dag.make(Node::Compare(Comparison::UnsignedLess, at, count))?;
    Ok(id)
}

/// The first bytes of one list, as many as a node says, and behind them those of another one that is as long.
pub fn first_of(
    alloc: Global,
    dag: &mut Dag,
    count: Id,
    new: &[Id],
    old: &[Id],
) -> Result<Vec<Id>, AllocError>
    requires count { IsWord dag.old count 64 }
    requires new { AreBytes dag.old new.now }
    requires old { AreBytes dag.old old.now }
    requires same { length new.now ≡ length old.now }
    ensures extends { Extends dag.old dag.new }
    ensures made { IfOk result (λ ids. AreBytesOf dag.new ids.items (λ v. take (value v dag.old count) (map (value v dag.old) new.now) ++ drop (value v dag.old count) (map (value v dag.old) old.now))) }
    ensures length { IfOk result (λ ids. length ids.items ≡ length old.now) }
{
    let mut bytes = Vec::with_capacity(alloc, old.len())?;
    for place in 0..old.len() {
        let test = is_among_first(dag, count, place)?;
        let id = chosen(dag, test, new[place], old[place])?;
        bytes.push(id)?;
    }
    Ok(bytes)
}

/// How many of so many bytes are there where a node says how many.
pub fn at_most(dag: &Dag, count: Id, most: u32) -> u32
    requires { IsWord dag.now count 64 }
    ensures few { result ≤ most }
    ensures same { (v : ℕ → ℕ) → min (value v dag.now count) result ≡ min (value v dag.now count) most }
{
    let _ = dag.nodes();
    match dag.node(count) {
        Node::Constant(bits, _) => {
            if bits < most as u64 {
                bits as u32
            } else {
                most
            }
        }
        _ => most,
    }
}
