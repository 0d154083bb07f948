//! The words that reads find.

ghost use Rattle.std.specs.Prelude.{◌≡◌, ◌+◌, ◌-◌, ◌*◌, ◌<◌, ◌≤◌, ◌^◌, ℕ, List, true, All, Some, IfOk, OnOk, length, map, take, drop, if◌then◌else◌};
ghost use Rattle.actions.specs.Objects.{Objects, break_in, bytes_at, bytes_in};
ghost use Rattle.word_dag.specs.Growth.{Within, Extends};
ghost use Rattle.word_dag.specs.Meaning.{width, value, holds};
ghost use Rattle.value_nodes.specs.Values.{IsWord, AreBytes};
ghost use Rattle.byte_ops.specs.Tests.{IsTestedOffset};
ghost use Rattle.object_memory.specs.Spots.{AreObjectsOf};
ghost use Rattle.object_memory.specs.Places.{PlaceIn, spots, place_object};
ghost use Rattle.object_memory.specs.Hits.{HitIn, truly, IsFound};
ghost use Rattle.object_memory.specs.Words.{AreWords, bytes_of_words};
ghost use Rattle.object_memory.specs.Questions.{objects_of, Reads, HasSize};

use crate::places::{Hit, Place};
use byte_ops::{TestedOffset, select_within, tested_offset};
use rewritten_nodes::side;
use std::alloc::{AllocError, Global};
use value_nodes::chosen;
use word_dag::{Dag, Id, Node};

/// The bytes where the guard is true: choices that it decides are looked through.
fn decided(alloc: Global, dag: &Dag, guard: Id, ids: &[Id]) -> Result<Vec<Id>, AllocError>
    requires guard { IsWord dag.now guard 1 }
    requires ids { AreBytes dag.now ids.now }
    ensures bytes { IfOk result (λ r. AreBytes dag.now r.items) }
    ensures size { IfOk result (λ r. length r.items ≡ length ids.now) }
    ensures values { IfOk result (λ r. (v : ℕ → ℕ) → holds (value v dag.now guard) ≡ true → map (value v dag.now) r.items ≡ map (value v dag.now) ids.now) }
{
    let _ = dag.nodes();
    let mut sides = Vec::with_capacity(alloc, ids.len())?;
    for i in 0..ids.len() {
        let id = side(dag, guard, ids[i], true);
        sides.push(id)?;
    }
    Ok(sides)
}

/// The first nodes where the test is true, else the second, which have the same widths.
pub(crate) fn chosen_all(
    alloc: Global,
    dag: &mut Dag,
    test: Id,
    first: &[Id],
    second: &[Id],
) -> Result<Vec<Id>, AllocError>
    requires test { IsWord dag.old test 1 }
    requires first { All (Within dag.old) first.now }
    requires second { All (Within dag.old) second.now }
    requires widths { map (width dag.old) second.now ≡ map (width dag.old) first.now }
    ensures extends { Extends dag.old dag.new }
    ensures there { IfOk result (λ ids. All (Within dag.new) ids.items) }
    ensures widths { IfOk result (λ ids. map (width dag.new) ids.items ≡ map (width dag.old) first.now) }
    ensures values { IfOk result (λ ids. (v : ℕ → ℕ) → map (value v dag.new) ids.items ≡ (if holds (value v dag.old test) then map (value v dag.old) first.now else map (value v dag.old) second.now)) }
{
    let mut ids = Vec::with_capacity(alloc, first.len())?;
    for i in 0..first.len() {
        let id = chosen(dag, test, first[i], second[i])?;
        ids.push(id)?;
    }
    Ok(ids)
}

// The words of so many bytes from an offset of a block on.
fn words_at(
    alloc: Global,
    dag: &mut Dag,
    block: &[Id],
    offset: &TestedOffset,
    count: usize,
) -> Result<Vec<Id>, AllocError>
    requires block { AreBytes dag.old block.now }
    requires offset { IsTestedOffset dag.old offset.now }
    requires size { offset.now.size ≡ length block.now }
    requires count { count ≤ length block.now }
    ensures extends { Extends dag.old dag.new }
    ensures words { IfOk result (λ ids. AreWords dag.new count ids.items) }
    ensures values { IfOk result (λ ids. (v : ℕ → ℕ) → value v dag.old offset.now.offset + count ≤ length block.now → bytes_of_words count (map (value v dag.new) ids.items) ≡ take count (drop (value v dag.old offset.now.offset) (map (value v dag.old) block.now))) }
{
    let _ = dag.nodes();
    let mut words = Vec::new(alloc);
    let mut at = 0;
    'reading: while at < count {
        let size = (count - at).min(8);
        let word = select_within(dag, &block[at..], offset, size)?;
        words.push(word)?;
        at += size;
    }
    Ok(words)
}

// The words of so many bytes, each 0.
fn zero_words(alloc: Global, dag: &mut Dag, count: usize) -> Result<Vec<Id>, AllocError>
    ensures extends { Extends dag.old dag.new }
    ensures words { IfOk result (λ ids. AreWords dag.new count ids.items) }
{
    let mut words = Vec::new(alloc);
    let mut at = 0;
    'making: while at < count {
        let size = (count - at).min(8);
        let word = dag.make(Node::Constant(0, 8 * size as u32))?;
        words.push(word)?;
        at += size;
    }
    Ok(words)
}

// The words of so many bytes from an offset of a place on, where the guard is true and they lie within its size.
fn place_words(
    alloc: Global,
    dag: &mut Dag,
    guard: Id,
    place: &Place,
    offset: Id,
    count: usize,
) -> Result<Vec<Id>, AllocError>
    requires guard { IsWord dag.old guard 1 }
    requires place { PlaceIn dag.old place.now }
    requires offset { IsWord dag.old offset 32 }
    ensures extends { Extends dag.old dag.new }
    ensures words { IfOk result (λ ids. AreWords dag.new count ids.items) }
    ensures values { IfOk result (λ ids. (v : ℕ → ℕ) → holds (value v dag.old guard) ≡ true → value v dag.old offset + count ≤ value v dag.old place.now.size
        → bytes_of_words count (map (value v dag.new) ids.items) ≡ bytes_in (value v dag.old offset) count (Some (place_object v dag.old place.now))) }
{
    let _ = dag.nodes();
    if count > place.bytes.len() {
        let none = zero_words(alloc, dag, count)?;
        return Ok(none);
    }
    let block = decided(alloc, dag, guard, &place.bytes)?;
    let tested = tested_offset(alloc, dag, offset, block.len())?;
    let words = words_at(alloc, dag, &block, &tested, count)?;
    Ok(words)
}

/// The words of so many bytes that are found where the guard is true, one place is hit, and they lie within its size.
pub(crate) fn found_words(
    alloc: Global,
    dag: &mut Dag,
    guard: Id,
    places: &[Place],
    hits: &[Hit],
    count: usize,
) -> Result<Vec<Id>, AllocError>
    requires guard { IsWord dag.old guard 1 }
    requires places { All (PlaceIn dag.old) places.now }
    requires hits { All (HitIn dag.old (length places.now)) hits.now }
    ensures extends { Extends dag.old dag.new }
    ensures words { IfOk result (λ ids. AreWords dag.new count ids.items) }
    ensures values { IfOk result (λ ids. (v : ℕ → ℕ) → holds (value v dag.old guard) ≡ true → Reads v dag.old (objects_of v dag.old places.now) (truly v dag.old hits.now) count (bytes_of_words count (map (value v dag.new) ids.items))) }
{
    if hits.is_empty() {
        let none = zero_words(alloc, dag, count)?;
        return Ok(none);
    }
    let mut left = hits.len() - 1;
    let last = hits[left];
    let mut words = place_words(alloc, dag, guard, &places[last.place], last.offset, count)?;
    'reading: while left > 0 {
        left -= 1;
        let hit = hits[left];
        let here = place_words(alloc, dag, guard, &places[hit.place], hit.offset, count)?;
        words = chosen_all(alloc, dag, hit.test, &here, &words)?;
    }
    Ok(words)
}

/// The size of the place that is hit, where the guard is true and one is.
pub(crate) fn found_size(
    dag: &mut Dag,
    guard: Id,
    places: &[Place],
    hits: &[Hit],
) -> Result<Id, AllocError>
    requires guard { IsWord dag.old guard 1 }
    requires places { All (PlaceIn dag.old) places.now }
    requires hits { All (HitIn dag.old (length places.now)) hits.now }
    ensures extends { Extends dag.old dag.new }
    ensures size { IfOk result (λ i. IsWord dag.new i 32) }
    ensures value { IfOk result (λ i. (v : ℕ → ℕ) → holds (value v dag.old guard) ≡ true → HasSize (objects_of v dag.old places.now) (truly v dag.old hits.now) (value v dag.new i)) }
{
    let _ = dag.nodes();
    if hits.is_empty() {
        let none = dag.make(Node::Constant(0, 32))?;
        return Ok(none);
    }
    let mut left = hits.len() - 1;
    let last = hits[left];
    let mut size = places[last.place].size;
    'looking: while left > 0 {
        left -= 1;
        let hit = hits[left];
        size = chosen(dag, hit.test, places[hit.place].size, size)?;
    }
    Ok(side(dag, guard, size, true))
}
