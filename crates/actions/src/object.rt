//! An object of the store: its kind, its size, and what it holds.

ghost use Rattle.std.specs.Prelude.{◌≡◌, ◌+◌, ◌≤◌, Some, true, length, IfOk};
ghost use Rattle.actions.specs.ByteList.{are_bytes, mutex_number};
ghost use Rattle.actions.specs.Access.{break_at, size_in};
ghost use Rattle.actions.specs.States.{state_of};
ghost use Rattle.actions.specs.Objects.{bytes_in, with_bytes_at};

use crate::bytes::Bytes;
use crate::cells::Cells;
use std::alloc::{AllocError, Global};
use std::marker::Model;
use words::Class;

/// An object: a region of storage with a lifetime (C11 3.15, 6.2.4).
/// It has as many bytes as its size says, and its cells lie within it.
#[derive(Drop)]
pub struct Object {
    /// In bytes.
    pub size: u32,
    /// Where the object is shared between threads, the parts that an access may reach; else none.
    pub cells: Cells,
    /// Whether its lifetime goes on.
    pub live: bool,
    /// A string literal, or an object defined `const`.
    pub readonly: bool,
    /// It comes from `malloc` or `calloc`.
    pub heap: bool,
    pub bytes: Bytes,
}

impl Model for Object {
    ghost use Rattle.actions.specs.StoredObject.{StoredObject, IsObject, stored};

    ghost Value = { StoredObject };

    ghost view = { λ o. stored o.size o.cells o.live o.readonly o.heap o.bytes };

    ghost invariant = { λ o. IsObject (stored o.size o.cells o.live o.readonly o.heap o.bytes) };
}

impl Clone for Object {
    ghost is_clone = { λ o p. p ≡ o };

    fn clone(&self) -> Result<Object, AllocError> {
        Ok(Object {
            size: self.size,
            cells: self.cells.clone()?,
            live: self.live,
            readonly: self.readonly,
            heap: self.heap,
            bytes: self.bytes.clone()?,
        })
    }
}

impl Object {
    /// The first class that an access of n bytes from the offset `at` on breaks.
    pub(crate) fn break_at(&self, writes: bool, at: u32, n: usize) -> Option<Class>
        ensures { result ≡ break_at writes at n (state_of (Some self.now)) }
    {
        if !self.live {
            Some(Class::Lifetime)
        } else if self.size < at || ((self.size - at) as usize) < n {
            Some(Class::Bounds)
        } else if writes && self.readonly {
            Some(Class::Readonly)
        } else if self.cells.is_mixed(at, n) {
            Some(Class::MixedSize)
        } else {
            None
        }
    }

    pub(crate) fn look(&self) -> Result<u32, Class>
        ensures { result ≡ size_in (state_of (Some self.now)) }
    {
        if self.live {
            Ok(self.size)
        } else {
            Err(Class::Lifetime)
        }
    }

    pub(crate) fn part(&self, alloc: Global, at: u32, n: u32) -> Result<Bytes, AllocError>
        requires { at + n ≤ (self.now).size }
        ensures value { IfOk result (λ bytes. bytes ≡ bytes_in at n (Some self.now)) }
        ensures len { IfOk result (λ bytes. length bytes ≡ n) }
        ensures bytes { IfOk result (λ bytes. are_bytes bytes ≡ true) }
    {
        self.bytes.part(alloc, at as usize, n as usize)
    }

    pub(crate) fn put(&mut self, at: u32, new: &[u8])
        requires { at + length new.now ≤ (self.old).size }
        ensures { self.new ≡ with_bytes_at at new.now self.old }
    {
        self.bytes.put(at as usize, new);
    }

    /// The number in the 4 bytes from the offset `at` on, the lowest byte first.
    pub(crate) fn number(&self, at: u32) -> u32
        requires { at + 4 ≤ (self.now).size }
        ensures { result ≡ mutex_number (bytes_in at 4 (Some self.now)) }
    {
        self.bytes.number(at as usize)
    }
}
