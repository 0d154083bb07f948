//! The store: the objects of a run by their numbers, and their lifetimes.

ghost use Rattle.std.specs.Prelude.{◌≡◌, ◌↔◌, [], true, IsTrue, IsSome, length, IfOk, IfErr, OnOk, OnErr};
ghost use Rattle.actions.specs.ByteList.{are_bytes};
ghost use Rattle.actions.specs.Pointer as pointer;
ghost use Rattle.actions.specs.Pointer.{object_of};
ghost use Rattle.actions.specs.Access.{look, can_free};
ghost use Rattle.actions.specs.Objects.{object_at, state_at, with_new, with_dead, break_in, read, mutex, HasCause, result_of, write_break, after_write, free_break, after_free};

use crate::bytes::Bytes;
use crate::object::Object;
use std::alloc::{AllocError, Global};
use std::collections::BTreeMap;
use std::marker::Model;
use thiserror::Error;
use words::Class;

/// Why a read gave no bytes.
#[derive(Clone, Copy, Debug, PartialEq, Eq, Error)]
pub enum AccessError {
    /// The access breaks a check of this class.
    #[error("the access breaks a check")]
    Broken(Class),

    #[error("out of memory")]
    Memory,
}

/// The objects, each under its number.
#[derive(Drop)]
pub struct Store {
    alloc: Global,
    objects: BTreeMap<u32, Object>,
}

impl Model for Store {
    ghost use Rattle.actions.specs.Objects.{Objects};

    ghost Value = { Objects };

    ghost view = { λ s. s.objects.entries };
}

impl Clone for Store {
    ghost is_clone = { λ s t. t ≡ s };

    fn clone(&self) -> Result<Store, AllocError> {
        Ok(Store {
            alloc: self.alloc,
            objects: self.objects.clone()?,
        })
    }
}

impl Store {
    /// No object. The store keeps the allocator.
    pub fn new(alloc: Global) -> Store
        ensures { result ≡ [] }
    {
        Store {
            alloc,
            objects: BTreeMap::new(alloc),
        }
    }

    /// Puts an object under a number that no object has.
    pub fn add(&mut self, number: u32, object: Object) -> Result<(), AllocError>
        requires { object_at self.old number ≡ None }
        ensures ok { OnOk result (self.new ≡ with_new self.old number object) }
        ensures err { OnErr result (self.new ≡ self.old) }
    {
        self.objects.insert(number, object)?;
        Ok(())
    }

    /// Ends the lifetime of the object with this number, if there is one.
    pub fn die(&mut self, number: u32)
        ensures { self.new ≡ with_dead self.old number }
    {
        if let Some(object) = self.objects.get_mut(&number) {
            object.live = false;
        }
    }

    /// Whether an object has this number, live or dead. Takes no memory.
    pub fn contains(&self, number: u32) -> bool
        ensures { IsTrue result ↔ IsSome (object_at self.now number) }
    {
        self.objects.contains_key(&number)
    }

    /// How many objects there are, live and dead. Takes no memory.
    pub fn len(&self) -> usize
        ensures { result ≡ length self.now }
    {
        self.objects.len()
    }

    /// The size of the object that the pointer points to, in bytes; or the first class that the look
    /// breaks, of null, invalid-pointer and lifetime.
    pub fn look(&self, p: u64) -> Result<u32, Class>
        ensures { result ≡ look p (state_at self.now (object_of p)) }
    {
        if object_of(p) == 0 {
            return Err(Class::Null);
        }
        match self.objects.get(&object_of(p)) {
            None => Err(Class::InvalidPointer),
            Some(object) => object.look(),
        }
    }

    /// The n bytes that the pointer points to; or the first class that the access breaks, of null,
    /// invalid-pointer, lifetime, bounds and mixed-size. Memory is told only where it breaks none.
    pub fn read(&self, p: u64, n: u32) -> Result<Bytes, AccessError>
        ensures ok { IfOk result (λ bytes. read self.now p n ≡ Ok bytes) }
        ensures cause { IfErr result (λ e. HasCause e (read self.now p n)) }
        ensures len { IfOk result (λ bytes. length bytes ≡ n) }
        ensures bytes { IfOk result (λ bytes. are_bytes bytes ≡ true) }
    {
        if let Some(class) = self.break_of(false, p, n as usize) {
            return Err(AccessError::Broken(class));
        }
        match self.objects.get(&object_of(p)) {
            None => Err(AccessError::Broken(Class::InvalidPointer)),
            Some(object) => match object.part(self.alloc, offset_of(p), n) {
                Ok(bytes) => Ok(bytes),
                Err(_) => Err(AccessError::Memory),
            },
        }
    }

    /// Stores bytes where the pointer points to; or gives the first class that the access breaks, of
    /// null, invalid-pointer, lifetime, bounds, readonly and mixed-size, and changes nothing. The
    /// first write, which initializes an object, may be to one that is read-only.
    pub fn write(&mut self, p: u64, bytes: &[u8], first: bool) -> Result<(), Class>
        ensures answer { result ≡ result_of (write_break self.old p bytes.now first) }
        ensures after { self.new ≡ after_write self.old p bytes.now first }
    {
        if let Some(class) = self.break_of(!first, p, bytes.len()) {
            return Err(class);
        }
        if let Some(object) = self.objects.get_mut(&object_of(p)) {
            object.put(offset_of(p), bytes);
        }
        Ok(())
    }

    /// Ends the lifetime of the object from `malloc` or `calloc` that the pointer points to the start
    /// of; nothing for the null pointer (C11 7.22.3.3p2).
    pub fn free(&mut self, p: u64) -> Result<(), Class>
        ensures answer { result ≡ result_of (free_break self.old p) }
        ensures after { self.new ≡ after_free self.old p }
    {
        if p == 0 {
            return Ok(());
        }
        if !self.can_free(p) {
            return Err(Class::Free);
        }
        self.die(object_of(p));
        Ok(())
    }

    /// The number in the cell of the mutex that the pointer points to, an access of 4 bytes that may
    /// change them; or the first class that it breaks. Takes no memory.
    pub fn mutex(&self, p: u64) -> Result<u32, Class>
        ensures { result ≡ mutex self.now p }
    {
        if let Some(class) = self.break_of(true, p, 4) {
            return Err(class);
        }
        match self.objects.get(&object_of(p)) {
            None => Err(Class::InvalidPointer),
            Some(object) => Ok(object.number(offset_of(p))),
        }
    }

    /// The first class that an access of n bytes breaks.
    pub fn break_of(&self, writes: bool, p: u64, n: usize) -> Option<Class>
        ensures { result ≡ break_in self.now writes p n }
    {
        if object_of(p) == 0 {
            return Some(Class::Null);
        }
        match self.objects.get(&object_of(p)) {
            None => Some(Class::InvalidPointer),
            Some(object) => object.break_at(writes, offset_of(p), n),
        }
    }

    fn can_free(&self, p: u64) -> bool
        ensures { result ≡ can_free p (state_at self.now (object_of p)) }
    {
        match self.objects.get(&object_of(p)) {
            None => false,
            Some(object) => offset_of(p) == 0 && object.live && object.heap,
        }
    }
}

fn object_of(p: u64) -> u32
    ensures { result ≡ pointer.object_of p }
{
    (p / 0x1_0000_0000) as u32
}

fn offset_of(p: u64) -> u32
    ensures { result ≡ pointer.offset_of p }
{
    (p % 0x1_0000_0000) as u32
}
