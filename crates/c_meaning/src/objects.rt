//! The store at the start of a run.

ghost use Rattle.std.specs.Prelude.{◌≡◌, ◌+◌, ◌<◌, ◌^◌, ◌&&◌, nat_lt, nat_le, true, length, IfOk};
ghost use Rattle.std.specs.List.{list_all};
ghost use Rattle.core_tree.specs.Trees.{view_static, view_statics, view_literals, view_core};
ghost use Rattle.core_tree.specs.Typed.{is_static};
ghost use Rattle.core_tree.specs.declared.functions.Address.{Address};
ghost use Rattle.c_meaning.specs.Source as source;
ghost use Rattle.c_meaning.specs.Source.{with_addresses, first_bytes, first_object, literal_object, first_objects};

use actions::{Bytes, Cells, Object, Store};
use c_profile::Admitted;
use c_values::{pointer_to, write_block};
use core_tree::{Address, Literal, StaticObject, Target};
use std::alloc::{AllocError, Global};

/// The greatest number of objects.
const MOST_OBJECTS: usize = 8_192;

/// The greatest number of bytes of an object.
const MOST_OBJECT_BYTES: u32 = 65_536;

#[tactic(auto, using(crate::proofs::StaticObjects::large_object, crate::proofs::StaticObjects::small_object, crate::proofs::StaticObjects::no_object))]
fn are_small_objects(objects: &[StaticObject]) -> bool
    ensures { result ≡ source.are_small_objects (view_statics objects.now) }
{
    for object in objects {
        if object.size > MOST_OBJECT_BYTES {
            return false;
        }
    }
    true
}

#[tactic(auto, using(crate::proofs::StaticObjects::long_literal, crate::proofs::StaticObjects::short_literal, crate::proofs::StaticObjects::no_literal))]
fn are_small_literals(literals: &[Literal]) -> bool
    ensures { result ≡ source.are_small_literals (view_literals literals.now) }
{
    for literal in literals {
        if literal.bytes.len() >= MOST_OBJECT_BYTES as usize {
            return false;
        }
    }
    true
}

/// Whether the static objects and the string literals of a file alone pass neither the limit on objects nor
/// that on the bytes of one.
pub fn are_storable(file: &Admitted) -> bool
    ensures { result ≡ source.are_storable (view_core file.now) }
{
    let core = file.core();
    let objects = core.objects();
    let literals = core.literals();
    if objects.len() > MOST_OBJECTS || literals.len() > MOST_OBJECTS - objects.len() {
        return false;
    }
    are_small_objects(objects) && are_small_literals(literals)
}

// The number of the object that an address points into, where this is the first literal's.
fn target_number(literals: u32, target: Target) -> u32
    requires { source.target_number literals target < 2 ^ 32 }
    ensures { result ≡ source.target_number literals target }
{
    match target {
        Target::Object(number) => number,
        Target::Literal(place) => literals + place,
    }
}

// The pointers over the bytes of a static object.
fn put_addresses(literals: u32, addresses: &[Address], bytes: &mut [u8])
    requires { list_all (λ (a : Address). nat_le (a.at + 8) (length bytes.old) && nat_lt (source.target_number literals a.target) (2 ^ 32)) addresses.now ≡ true }
    ensures bytes { bytes.new ≡ with_addresses literals addresses.now bytes.old }
    ensures length { length bytes.new ≡ length bytes.old }
{
    for address in addresses {
        let pointer = pointer_to(target_number(literals, address.target), address.offset);
        write_block(bytes, address.at as usize, 8, pointer);
    }
}

// The bytes of a static object at the start: those that its initializer says, and then 0, and the addresses
// over them.
fn first_bytes(alloc: Global, literals: u32, object: &StaticObject) -> Result<Vec<u8>, AllocError>
    requires few { nat_le (length object.now.bytes.items) object.now.size ≡ true }
    requires addresses { list_all (λ (a : Address). nat_le (a.at + 8) object.now.size && nat_lt (source.target_number literals a.target) (2 ^ 32)) object.now.addresses.items ≡ true }
    ensures bytes { IfOk result (λ bytes. bytes.items ≡ first_bytes literals (view_static object.now)) }
    ensures length { IfOk result (λ bytes. length bytes.items ≡ object.now.size) }
{
    let mut bytes = Vec::from_slice(alloc, &object.bytes)?;
    bytes.resize(object.size as usize, 0)?;
    put_addresses(literals, &object.addresses, &mut bytes);
    Ok(bytes)
}

fn first_object(alloc: Global, literals: u32, object: &StaticObject) -> Result<Object, AllocError>
    requires few { nat_le (length object.now.bytes.items) object.now.size ≡ true }
    requires addresses { list_all (λ (a : Address). nat_le (a.at + 8) object.now.size && nat_lt (source.target_number literals a.target) (2 ^ 32)) object.now.addresses.items ≡ true }
    ensures { IfOk result (λ o. o ≡ first_object literals (view_static object.now)) }
{
    Ok(Object {
        size: object.size,
        cells: Cells::new(Vec::new(alloc)),
        live: true,
        readonly: object.readonly,
        heap: false,
        bytes: Bytes::new(first_bytes(alloc, literals, object)?),
    })
}

fn literal_object(alloc: Global, literal: &Literal) -> Result<Object, AllocError>
    requires { length literal.now.bytes.items < 65536 }
    ensures { IfOk result (λ o. o ≡ literal_object literal.now.bytes.items) }
{
    let mut bytes = Vec::from_slice(alloc, &literal.bytes)?;
    bytes.push(0)?;
    Ok(Object {
        size: bytes.len() as u32,
        cells: Cells::new(Vec::new(alloc)),
        live: true,
        readonly: true,
        heap: false,
        bytes: Bytes::new(bytes),
    })
}

/// The static objects and the string literals of a file as they are from the start: live, with their first
/// bytes, under the numbers from 1 on. Fails only for want of memory.
pub fn first_store(alloc: Global, file: &Admitted) -> Result<Store, AllocError>
    requires { source.are_storable (view_core file.now) ≡ true }
    ensures { IfOk result (λ s. s ≡ first_objects (view_core file.now)) }
{
    let core = file.core();
    let objects = core.objects();
    let literals = core.literals();
    let first_literal = objects.len() as u32 + 1;
    let mut store = Store::new(alloc);
    let mut number = 0;
    for object in objects {
        number += 1;
        store.add(number, first_object(alloc, first_literal, object)?)?;
    }
    for literal in literals {
        number += 1;
        store.add(number, literal_object(alloc, literal)?)?;
    }
    Ok(store)
}
