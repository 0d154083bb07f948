//! What writes and the ends of lifetimes leave of places.

ghost use Rattle.std.specs.Prelude.{◌≡◌, ◌+◌, ◌-◌, ◌<◌, ◌≤◌, ◌^◌, ◌&&◌, ◌⊎◌, ◌++◌, ℕ, List, [], ◌∷◌, true, false, All, Some, IfOk, OnOk, length, map, take, drop, slice_set, if◌then◌else◌};
ghost use Rattle.actions.specs.ByteList.{put_at};
ghost use Rattle.actions.specs.Objects.{with_bytes_at};
ghost use Rattle.word_dag.specs.Growth.{Within, Extends};
ghost use Rattle.word_dag.specs.Meaning.{width, value, holds};
ghost use Rattle.value_nodes.specs.Values.{IsWord, AreBytes};
ghost use Rattle.byte_ops.specs.Bytes.{updated};
ghost use Rattle.byte_ops.specs.Tests.{IsTestedOffset};
ghost use Rattle.object_memory.specs.Spots.{changed_spot, change_at};
ghost use Rattle.object_memory.specs.Places.{PlaceIn, spot_of, spots, with_live};
ghost use Rattle.object_memory.specs.Hits.{HitIn, truly, changed_by, put_by, dead_by, OneFits, AtMostOne};

use crate::breaking::constant_test;
use crate::places::{Hit, Place};
use crate::reading::chosen_all;
use byte_ops::{TestedOffset, tested_offset, update_within};
use std::alloc::{AllocError, Global};
use value_nodes::{both, chosen};
use word_dag::{Dag, Id};

// Bytes in the place of as many at the end of a block.
fn put_end(block: &mut Vec<Id>, at: usize, new: &[Id])
    requires { at + length new.now ≡ length block.old.items }
    ensures { block.new.items ≡ take at block.old.items ++ new.now }
{
    block[at..].copy_from_slice(new);
}

// Bytes, from 1 to 8, are put into a block at an offset behind a place.
fn put_part(
    alloc: Global,
    dag: &mut Dag,
    block: &mut Vec<Id>,
    at: usize,
    offset: &TestedOffset,
    bytes: &[Id],
) -> Result<(), AllocError>
    requires block { AreBytes dag.old block.old.items }
    requires offset { IsTestedOffset dag.old offset.now }
    requires size { offset.now.size ≡ length block.old.items }
    requires bytes { AreBytes dag.old bytes.now }
    requires positive { 1 ≤ length bytes.now }
    requires few { length bytes.now ≤ 8 }
    requires within { at + length bytes.now ≤ length block.old.items }
    ensures extends { Extends dag.old dag.new }
    ensures block { OnOk result (AreBytes dag.new block.new.items) }
    ensures length { OnOk result (length block.new.items ≡ length block.old.items) }
    ensures values { OnOk result ((v : ℕ → ℕ) → value v dag.old offset.now.offset + at + length bytes.now ≤ length block.old.items
        → map (value v dag.new) block.new.items ≡ put_at (value v dag.old offset.now.offset + at) (map (value v dag.old) bytes.now) (map (value v dag.old) block.old.items)) }
{
    let part = update_within(alloc, dag, &block[at..], offset, bytes)?;
    put_end(block, at, &part);
    Ok(())
}

// Bytes are put into a block at an offset.
fn put_parts(
    alloc: Global,
    dag: &mut Dag,
    block: &mut Vec<Id>,
    offset: &TestedOffset,
    bytes: &[Id],
) -> Result<(), AllocError>
    requires block { AreBytes dag.old block.old.items }
    requires offset { IsTestedOffset dag.old offset.now }
    requires size { offset.now.size ≡ length block.old.items }
    requires bytes { AreBytes dag.old bytes.now }
    requires within { length bytes.now ≤ length block.old.items }
    ensures extends { Extends dag.old dag.new }
    ensures block { OnOk result (AreBytes dag.new block.new.items) }
    ensures length { OnOk result (length block.new.items ≡ length block.old.items) }
    ensures values { OnOk result ((v : ℕ → ℕ) → value v dag.old offset.now.offset + length bytes.now ≤ length block.old.items
        → map (value v dag.new) block.new.items ≡ put_at (value v dag.old offset.now.offset) (map (value v dag.old) bytes.now) (map (value v dag.old) block.old.items)) }
{
    let mut at = 0;
    'writing: while at < bytes.len() {
        let size = (bytes.len() - at).min(8);
        put_part(alloc, dag, block, at, offset, &bytes[at..at + size])?;
        at += size;
    }
    Ok(())
}

// A block with bytes in the place of as many from an offset on, where they lie within it.
fn written(
    alloc: Global,
    dag: &mut Dag,
    block: &[Id],
    offset: Id,
    bytes: &[Id],
) -> Result<Vec<Id>, AllocError>
    requires block { AreBytes dag.old block.now }
    requires short { length block.now < 2 ^ 32 }
    requires offset { IsWord dag.old offset 32 }
    requires bytes { AreBytes dag.old bytes.now }
    ensures extends { Extends dag.old dag.new }
    ensures block { IfOk result (λ ids. AreBytes dag.new ids.items) }
    ensures length { IfOk result (λ ids. length ids.items ≡ length block.now) }
    ensures values { IfOk result (λ ids. (v : ℕ → ℕ) → value v dag.old offset + length bytes.now ≤ length block.now
        → map (value v dag.new) ids.items ≡ put_at (value v dag.old offset) (map (value v dag.old) bytes.now) (map (value v dag.old) block.now)) }
{
    let mut new = block.to_vec(alloc)?;
    if bytes.len() > block.len() {
        return Ok(new);
    }
    let tested = tested_offset(alloc, dag, offset, block.len())?;
    put_parts(alloc, dag, &mut new, &tested, bytes)?;
    Ok(new)
}

// The block with these bytes from an offset on where the test is true. What it holds where its place is not born is free.
fn written_block(
    alloc: Global,
    dag: &mut Dag,
    block: &[Id],
    born: Id,
    test: Id,
    offset: Id,
    bytes: &[Id],
) -> Result<Vec<Id>, AllocError>
    requires block { AreBytes dag.old block.now }
    requires short { length block.now < 2 ^ 32 }
    requires born { IsWord dag.old born 1 }
    requires test { IsWord dag.old test 1 }
    requires offset { IsWord dag.old offset 32 }
    requires bytes { AreBytes dag.old bytes.now }
    ensures extends { Extends dag.old dag.new }
    ensures block { IfOk result (λ ids. AreBytes dag.new ids.items) }
    ensures length { IfOk result (λ ids. length ids.items ≡ length block.now) }
    ensures put { IfOk result (λ ids. (v : ℕ → ℕ) → holds (value v dag.old test) ≡ true → value v dag.old offset + length bytes.now ≤ length block.now
        → map (value v dag.new) ids.items ≡ put_at (value v dag.old offset) (map (value v dag.old) bytes.now) (map (value v dag.old) block.now)) }
    ensures kept { IfOk result (λ ids. (v : ℕ → ℕ) → holds (value v dag.old test) ≡ false → (holds (value v dag.old born) ≡ false) ⊎ (map (value v dag.new) ids.items ≡ map (value v dag.old) block.now)) }
{
    let new = written(alloc, dag, block, offset, bytes)?;
    if born.index == test.index {
        return Ok(new);
    }
    let ids = chosen_all(alloc, dag, test, &new, block)?;
    Ok(ids)
}

// The place with these bytes from an offset on where the test is true.
fn with_written(
    alloc: Global,
    dag: &mut Dag,
    place: &Place,
    test: Id,
    offset: Id,
    bytes: &[Id],
) -> Result<Place, AllocError>
    requires place { PlaceIn dag.old place.now }
    requires test { IsWord dag.old test 1 }
    requires offset { IsWord dag.old offset 32 }
    requires bytes { AreBytes dag.old bytes.now }
    ensures extends { Extends dag.old dag.new }
    ensures within { IfOk result (PlaceIn dag.new) }
    ensures spot { IfOk result (λ r. (v : ℕ → ℕ) → (holds (value v dag.old test) ≡ true → holds (value v dag.old place.now.born) ≡ true → value v dag.old offset + length bytes.now ≤ value v dag.old place.now.size)
        → spot_of v dag.new r ≡ (if holds (value v dag.old test) then changed_spot (with_bytes_at (value v dag.old offset) (map (value v dag.old) bytes.now)) (spot_of v dag.old place.now) else spot_of v dag.old place.now)) }
{
    let block = place.bytes.as_slice();
    let ids = written_block(alloc, dag, block, place.born, test, offset, bytes)?;
    Ok(Place {
        born: place.born,
        number: place.number,
        size: place.size,
        live: place.live,
        readonly: place.readonly,
        heap: place.heap,
        bytes: ids,
    })
}

// Another place at an index.
fn put_place(places: &mut Vec<Place>, at: usize, place: Place)
    requires { at < length places.old.items }
    ensures { places.new.items ≡ slice_set places.old.items at place }
{
    places[at] = place;
}

// Bytes are put where a hit says, where it is true.
fn write_at(
    alloc: Global,
    dag: &mut Dag,
    places: &mut Vec<Place>,
    hit: Hit,
    guard: Id,
    bytes: &[Id],
) -> Result<(), AllocError>
    requires places { All (PlaceIn dag.old) places.old.items }
    requires hit { HitIn dag.old (length places.old.items) hit }
    requires guard { IsWord dag.old guard 1 }
    requires bytes { AreBytes dag.old bytes.now }
    ensures extends { Extends dag.old dag.new }
    ensures within { OnOk result (All (PlaceIn dag.new) places.new.items) }
    ensures size { length places.new.items ≡ length places.old.items }
    ensures spots { OnOk result ((v : ℕ → ℕ) → (holds (value v dag.old guard) ≡ true → OneFits v dag.old (spots v dag.old places.old.items) (length bytes.now) (truly v dag.old (hit ∷ [])))
        → spots v dag.new places.new.items ≡ (if holds (value v dag.old guard) then changed_by (put_by v dag.old (map (value v dag.old) bytes.now)) (truly v dag.old (hit ∷ [])) (spots v dag.old places.old.items) else spots v dag.old places.old.items)) }
{
    let test = both(dag, guard, hit.test)?;
    let place = with_written(alloc, dag, &places[hit.place], test, hit.offset, bytes)?;
    put_place(places, hit.place, place);
    Ok(())
}

/// Bytes are put into the place that is hit, where the guard is true.
pub(crate) fn write_all(
    alloc: Global,
    dag: &mut Dag,
    places: &mut Vec<Place>,
    hits: &[Hit],
    guard: Id,
    bytes: &[Id],
) -> Result<(), AllocError>
    requires places { All (PlaceIn dag.old) places.old.items }
    requires hits { All (HitIn dag.old (length places.old.items)) hits.now }
    requires guard { IsWord dag.old guard 1 }
    requires bytes { AreBytes dag.old bytes.now }
    ensures extends { Extends dag.old dag.new }
    ensures within { OnOk result (All (PlaceIn dag.new) places.new.items) }
    ensures size { length places.new.items ≡ length places.old.items }
    ensures spots { OnOk result ((v : ℕ → ℕ) → (holds (value v dag.old guard) ≡ true → OneFits v dag.old (spots v dag.old places.old.items) (length bytes.now) (truly v dag.old hits.now))
        → spots v dag.new places.new.items ≡ (if holds (value v dag.old guard) then changed_by (put_by v dag.old (map (value v dag.old) bytes.now)) (truly v dag.old hits.now) (spots v dag.old places.old.items) else spots v dag.old places.old.items)) }
{
    for k in 0..hits.len() {
        write_at(alloc, dag, places, hits[k], guard, bytes)?;
    }
    Ok(())
}

// The lifetime of a place from now on.
fn put_live(places: &mut Vec<Place>, at: usize, live: Id)
    requires { at < length places.old.items }
    ensures { places.new.items ≡ with_live places.old.items at live }
{
    places[at].live = live;
}

// The lifetime of the object that a hit says ends, where it is true.
fn end_at(dag: &mut Dag, places: &mut Vec<Place>, hit: Hit, guard: Id) -> Result<(), AllocError>
    requires places { All (PlaceIn dag.old) places.old.items }
    requires hit { HitIn dag.old (length places.old.items) hit }
    requires guard { IsWord dag.old guard 1 }
    ensures extends { Extends dag.old dag.new }
    ensures within { OnOk result (All (PlaceIn dag.new) places.new.items) }
    ensures size { length places.new.items ≡ length places.old.items }
    ensures spots { OnOk result ((v : ℕ → ℕ) → spots v dag.new places.new.items ≡ (if holds (value v dag.old guard) then changed_by dead_by (truly v dag.old (hit ∷ [])) (spots v dag.old places.old.items) else spots v dag.old places.old.items)) }
{
    let ends = both(dag, guard, hit.test)?;
    let ended = constant_test(dag, false)?;
    let live = chosen(dag, ends, ended, places[hit.place].live)?;
    put_live(places, hit.place, live);
    Ok(())
}

/// The lifetime of the place that is hit ends, where the guard is true.
pub(crate) fn end_all(
    dag: &mut Dag,
    places: &mut Vec<Place>,
    hits: &[Hit],
    guard: Id,
) -> Result<(), AllocError>
    requires places { All (PlaceIn dag.old) places.old.items }
    requires hits { All (HitIn dag.old (length places.old.items)) hits.now }
    requires guard { IsWord dag.old guard 1 }
    ensures extends { Extends dag.old dag.new }
    ensures within { OnOk result (All (PlaceIn dag.new) places.new.items) }
    ensures size { length places.new.items ≡ length places.old.items }
    ensures spots { OnOk result ((v : ℕ → ℕ) → spots v dag.new places.new.items ≡ (if holds (value v dag.old guard) then changed_by dead_by (truly v dag.old hits.now) (spots v dag.old places.old.items) else spots v dag.old places.old.items)) }
{
    for k in 0..hits.len() {
        end_at(dag, places, hits[k], guard)?;
    }
    Ok(())
}
