//! Places that are made.

ghost use Rattle.std.specs.Prelude.{◌≡◌, ◌+◌, ◌<◌, ◌≤◌, ◌^◌, ℕ, [], true, false, Some, Ok, IfOk, length, map, min, nat_lt};
ghost use Rattle.actions.specs.StoredObject.{StoredObject, stored};
ghost use Rattle.actions.specs.Access.{look};
ghost use Rattle.actions.specs.Objects.{object_at, state_at};
ghost use Rattle.actions.specs.Pointer.{object_of};
ghost use Rattle.word_dag.specs.Growth.{Extends};
ghost use Rattle.word_dag.specs.Meaning.{value};
ghost use Rattle.value_nodes.specs.Values.{IsWord, IsValue, IsTest, AreBytes};
ghost use Rattle.object_memory.specs.Spots.{IsFirst};
ghost use Rattle.object_memory.specs.Places.{PlaceIn, spot_of};

use crate::breaking::constant_test;
use crate::places::Place;
use actions::{AccessError, Store};
use std::alloc::{AllocError, Global};
use value_nodes::{chosen, offset_of};
use word_dag::{BinaryOperator, Comparison, Dag, Id, Node};

// The bytes as constants.
fn constants(alloc: Global, dag: &mut Dag, bytes: &[u8]) -> Result<Vec<Id>, AllocError>
    ensures extends { Extends dag.old dag.new }
    ensures bytes { IfOk result (λ ids. AreBytes dag.new ids.items) }
    ensures values { IfOk result (λ ids. (v : ℕ → ℕ) → map (value v dag.new) ids.items ≡ bytes.now) }
{
    let mut ids = Vec::with_capacity(alloc, bytes.len())?;
    for i in 0..bytes.len() {
        let id = dag.make(Node::Constant(bytes[i] as u64, 8))?;
        ids.push(id)?;
    }
    Ok(ids)
}

// A live place that is surely born, with these bytes.
fn constant_place(
    alloc: Global,
    dag: &mut Dag,
    number: u32,
    readonly: bool,
    bytes: &[u8],
) -> Result<Place, AllocError>
    requires { length bytes.now < 2 ^ 32 }
    ensures extends { Extends dag.old dag.new }
    ensures within { IfOk result (PlaceIn dag.new) }
    ensures spot { IfOk result (λ p. (v : ℕ → ℕ) → spot_of v dag.new p ≡ Some (record { number = number; object = stored (length bytes.now) [] true readonly false bytes.now })) }
{
    let ids = constants(alloc, dag, bytes)?;
    let sure = constant_test(dag, true)?;
    let number_id = dag.make(Node::Constant(number as u64, 32))?;
    let size = dag.make(Node::Constant(bytes.len() as u64, 32))?;
    Ok(Place {
        born: sure,
        number: number_id,
        size,
        live: sure,
        readonly,
        heap: false,
        bytes: ids,
    })
}

// The size of a pointer's object, and 0 where there is none.
fn size_of(store: &Store, p: u64) -> u32
    ensures { (size : ℕ) → look p (state_at store.now (object_of p)) ≡ Ok size → result ≡ size }
{
    match store.look(p) {
        Ok(size) => size,
        Err(_) => 0,
    }
}

/// The place of an object that a program starts with, by its number. Of any other object it is none.
pub(crate) fn first_place(
    alloc: Global,
    dag: &mut Dag,
    store: &Store,
    number: u32,
) -> Result<Place, AllocError>
    ensures extends { Extends dag.old dag.new }
    ensures within { IfOk result (PlaceIn dag.new) }
    ensures spot { IfOk result (λ p. (o : StoredObject) → 1 ≤ number → object_at store.now number ≡ Some o → IsFirst o → (v : ℕ → ℕ) → spot_of v dag.new p ≡ Some (record { number = number; object = o })) }
{
    let p = number as u64 * 0x1_0000_0000;
    let size = size_of(store, p);
    let readonly = store.break_of(true, p, 0).is_some();
    match store.read(p, size) {
        Ok(bytes) => {
            let place = constant_place(alloc, dag, number, readonly, bytes.as_slice())?;
            Ok(place)
        }
        Err(AccessError::Memory) => Err(AllocError),
        Err(AccessError::Broken(_)) => {
            let place = constant_place(alloc, dag, number, readonly, &[])?;
            Ok(place)
        }
    }
}

/// The number behind a count.
pub(crate) fn next_number(dag: &mut Dag, count: Id) -> Result<Id, AllocError>
    requires { IsWord dag.old count 32 }
    ensures extends { Extends dag.old dag.new }
    ensures made { IfOk result (λ i. IsWord dag.new i 32) }
    ensures value { IfOk result (λ i. (v : ℕ → ℕ) → value v dag.old count + 1 < 2 ^ 32 → value v dag.new i ≡ value v dag.old count + 1) }
{
    let _ = dag.nodes();
    let one = dag.make(Node::Constant(1, 32))?;
    let id = dag.make(Node::Binary(BinaryOperator::Add, count, one))?;
    Ok(id)
}

// Whether a size is less than a number.
fn is_below(dag: &mut Dag, size: Id, count: usize) -> Result<Id, AllocError>
    requires { IsWord dag.old size 64 }
    ensures extends { Extends dag.old dag.new }
    ensures made { IfOk result (λ i. IsTest dag.new i (λ v. nat_lt (value v dag.old size) count)) }
{
    let most = dag.make(Node::Constant(count as u64, 64))?;
    let id = dag.make(Node::Compare(Comparison::UnsignedLess, size, most))?;
    Ok(id)
}

/// The lesser of a size of 64 bits and a number of bytes.
pub(crate) fn lesser(dag: &mut Dag, size: Id, count: usize) -> Result<Id, AllocError>
    requires size { IsWord dag.old size 64 }
    requires count { count < 2 ^ 32 }
    ensures extends { Extends dag.old dag.new }
    ensures made { IfOk result (λ i. IsValue dag.new i 32 (λ v. min (value v dag.old size) count)) }
{
    let less = is_below(dag, size, count)?;
    let low = offset_of(dag, size)?;
    let high = dag.make(Node::Constant(count as u64, 32))?;
    let id = chosen(dag, less, low, high)?;
    Ok(id)
}
