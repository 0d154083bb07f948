//! Nodes of the bytes of a number.

ghost use Rattle.std.specs.Prelude.{◌≡◌, ◌+◌, ◌*◌, ◌<◌, ◌≤◌, ℕ, true, IfOk, IfSome, map, length, take, drop};
ghost use Rattle.std.specs.Int.{byte_at, to_le_bytes, from_le_bytes};
ghost use Rattle.c_types.specs.Integers.{width as type_width, bytes as object_bytes, same_integer};
ghost use Rattle.core_tree.specs.Operations.{read_bits, truth_bits, is_true};
ghost use Rattle.c_values.specs.Variables.{storage, low_bytes, number_at};
ghost use Rattle.word_dag.specs.Growth.{Within, Extends};
ghost use Rattle.words.specs.Operators.{low_bits, logical_shift};
ghost use Rattle.word_dag.specs.Meaning.{width as node_width, value};
ghost use Rattle.value_nodes.specs.Values.{IsWord, IsValue, AreBytes};
ghost use Rattle.value_nodes.specs.Bytes.{AreBytesOf, AreCuts, sum_of_bytes};

use crate::numbers::{is_bool, truth_of};
use c_types::IntegerType;
use std::alloc::{AllocError, Global};
use word_dag::{Dag, Id, Node};

// A byte of a word, from the lowest.
fn byte_of(dag: &mut Dag, a: Id, width: u32, place: usize) -> Result<Id, AllocError>
    requires a { IsWord dag.old a width }
    requires within { 8 * place + 8 ≤ width }
    requires at_most_64 { width ≤ 64 }
    ensures extends { Extends dag.old dag.new }
    ensures made { IfOk result (λ i. IsValue dag.new i 8 (λ v. byte_at place (value v dag.old a))) }
{
    let id = dag.make(Node::Cut(a, 8 * place as u32, 8))?;
    Ok(id)
}

/// The lowest bytes of a word of this width, so many, the lowest first, each a node of 8 bits.
pub fn bytes_of_word(
    alloc: Global,
    dag: &mut Dag,
    a: Id,
    width: u32,
    count: usize,
) -> Result<Vec<Id>, AllocError>
    requires word { IsWord dag.old a width }
    requires within { 8 * count ≤ width }
    requires at_most_64 { width ≤ 64 }
    ensures extends { Extends dag.old dag.new }
    ensures made { IfOk result (λ ids. AreBytesOf dag.new ids.items (λ v. low_bytes count (value v dag.old a))) }
{
    let mut bytes = Vec::with_capacity(alloc, count)?;
    for place in 0..count {
        let id = byte_of(dag, a, width, place)?;
        bytes.push(id)?;
    }
    Ok(bytes)
}

/// The lowest bytes of a number, so many, the lowest first, each a node of 8 bits (C11 6.2.6.1).
pub fn stored(
    alloc: Global,
    dag: &mut Dag,
    type_: IntegerType,
    a: Id,
    count: usize,
) -> Result<Vec<Id>, AllocError>
    requires word { IsWord dag.old a (type_width type_) }
    requires within { 8 * count ≤ type_width type_ }
    ensures extends { Extends dag.old dag.new }
    ensures made { IfOk result (λ ids. AreBytesOf dag.new ids.items (λ v. low_bytes count (value v dag.old a))) }
{
    let bytes = bytes_of_word(alloc, dag, a, type_.width(), count)?;
    Ok(bytes)
}

// Whether a node is made as the byte that begins with this bit of a word.
fn is_cut(dag: &Dag, i: Id, word: Id, low: u32) -> bool
    requires { Within dag.now i }
    ensures { result ≡ true → (v : ℕ → ℕ) → value v dag.now i ≡ low_bits 8 (logical_shift (value v dag.now word) low) }
{
    let _ = dag.nodes();
    match dag.node(i) {
        Node::Cut(a, bit, width) => {
            if a.index != word.index || bit != low {
                return false;
            }
            width == 8
        }
        _ => false,
    }
}

// The word that two bytes or more are cut out of one behind the other, and the bit with which the first
// begins.
fn source(dag: &Dag, bytes: &[Id]) -> Option<(Id, u32)>
    requires positive { 1 ≤ length bytes.now }
    requires few { length bytes.now ≤ 8 }
    requires bytes { AreBytes dag.now bytes.now }
    ensures { IfSome result (λ s. AreCuts dag.now s.0 s.1 bytes.now (length bytes.now)) }
{
    if bytes.len() < 2 {
        return None;
    }
    let (word, low) = match dag.node(bytes[0]) {
        Node::Cut(word, low, 8) => (word, low),
        _ => return None,
    };
    if word.index >= dag.len() || low > 56 || low + 8 * bytes.len() as u32 > dag.width(word) {
        return None;
    }
    for place in 0..bytes.len() {
        if !is_cut(dag, bytes[place], word, low + 8 * place as u32) {
            return None;
        }
    }
    Some((word, low))
}

// Bits of a word, from one on.
fn bits_of(dag: &mut Dag, word: Id, low: u32, width: u32) -> Result<Id, AllocError>
    requires there { Within dag.old word }
    requires positive { 1 ≤ width }
    requires within { low + width ≤ node_width dag.old word }
    ensures extends { Extends dag.old dag.new }
    ensures made { IfOk result (λ i. IsValue dag.new i width (λ v. low_bits width (logical_shift (value v dag.old word) low))) }
{
    let _ = dag.nodes();
    if width == dag.width(word) {
        return Ok(word);
    }
    let id = dag.make(Node::Cut(word, low, width))?;
    Ok(id)
}

// The number that bytes are, of which the lowest comes first.
fn put_together(dag: &mut Dag, bytes: &[Id]) -> Result<Id, AllocError>
    requires positive { 1 ≤ length bytes.now }
    requires few { length bytes.now ≤ 8 }
    requires bytes { AreBytes dag.old bytes.now }
    ensures extends { Extends dag.old dag.new }
    ensures made { IfOk result (λ i. IsValue dag.new i (8 * length bytes.now) (λ v. sum_of_bytes (map (value v dag.old) bytes.now) (length bytes.now))) }
{
    let mut word = bytes[0];
    for place in 1..bytes.len() {
        word = dag.make(Node::Join(bytes[place], word))?;
    }
    Ok(word)
}

/// The word that bytes are, of which the lowest comes first: bits of a word where they were cut out of it.
pub fn word_of_bytes(dag: &mut Dag, bytes: &[Id]) -> Result<Id, AllocError>
    requires positive { 1 ≤ length bytes.now }
    requires few { length bytes.now ≤ 8 }
    requires bytes { AreBytes dag.old bytes.now }
    ensures extends { Extends dag.old dag.new }
    ensures made { IfOk result (λ i. IsValue dag.new i (8 * length bytes.now) (λ v. sum_of_bytes (map (value v dag.old) bytes.now) (length bytes.now))) }
{
    match source(dag, bytes) {
        Some((word, low)) => {
            let id = bits_of(dag, word, low, 8 * bytes.len() as u32)?;
            Ok(id)
        }
        None => put_together(dag, bytes),
    }
}

/// The number that a read of an object of the type at an offset gives, from the bytes of a block: any
/// nonzero _Bool is 1.
pub fn loaded(
    dag: &mut Dag,
    type_: IntegerType,
    offset: usize,
    block: &[Id],
) -> Result<Id, AllocError>
    requires within { offset + object_bytes type_ ≤ length block.now }
    requires bytes { AreBytes dag.old block.now }
    ensures extends { Extends dag.old dag.new }
    ensures made { IfOk result (λ i. IsValue dag.new i (type_width type_) (λ v. number_at type_ offset (map (value v dag.old) block.now))) }
{
    let size = type_.size() as usize;
    let word = word_of_bytes(dag, &block[offset..offset + size])?;
    if is_bool(type_) {
        let id = truth_of(dag, word)?;
        return Ok(id);
    }
    Ok(word)
}
