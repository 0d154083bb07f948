//! The memory of a program: what its accesses break, find and leave.

ghost use Rattle.std.specs.Prelude.{◌≡◌, ◌+◌, ◌<◌, ◌≤◌, ◌^◌, ℕ, suc, List, true, false, None, All, Ok, IfOk, OnOk, length, map, take, if◌then◌else◌};
ghost use Rattle.actions.specs.Access.{look};
ghost use Rattle.actions.specs.Objects.{Objects, break_in, bytes_at, write_break, after_write, free_break, after_free, with_new, with_dead, state_at};
ghost use Rattle.actions.specs.Pointer as pointer;
ghost use Rattle.c_values.specs.MadeObjects.{made_of};
ghost use Rattle.word_dag.specs.Growth.{Extends};
ghost use Rattle.word_dag.specs.Meaning.{value, holds};
ghost use Rattle.value_nodes.specs.Values.{IsWord, AreBytes};
ghost use Rattle.object_memory.specs.Spots.{AreFirst};
ghost use Rattle.object_memory.specs.Places.{MemoryIn, StandsFor};
ghost use Rattle.object_memory.specs.Failings.{FailingIn, first_class, look_class};
ghost use Rattle.object_memory.specs.Words.{AreWords, bytes_of_words};

use crate::breaking::{access_breaks, constant_test, free_breaks, look_breaks, passes};
use crate::finding::hits_of;
use crate::making::{first_place, lesser, next_number};
use crate::places::{Failing, Found, Place};
use crate::reading::{found_size, found_words};
use crate::writing::{end_all, write_all};
use actions::Store;
use std::alloc::{AllocError, Global};
use value_nodes::chosen;
use word_dag::{Dag, Id, Node};

/// The places of a program so far, the oldest first, and how many of them are born, a node of 32 bits. Under each
/// valuation it stands for the objects of a store.
#[derive(Drop)]
pub struct Memory {
    alloc: Global,
    places: Vec<Place>,
    count: Id,
}

// As many as leave room for numbers of 32 bits: no machine holds more.
const MOST: usize = 0xffff_ffff;

impl Memory {
    /// The memory at the start, with the objects of a store whose numbers are 1, 2 and so on, and which are live, without
    /// cells, and not from the heap. The only error is that there is no memory.
    pub fn first(alloc: Global, dag: &mut Dag, store: &Store) -> Result<Memory, AllocError>
        ensures extends { Extends dag.old dag.new }
        ensures within { IfOk result (MemoryIn dag.new) }
        ensures stands { IfOk result (λ m. AreFirst store.now → (v : ℕ → ℕ) → StandsFor v dag.new m store.now) }
    {
        let size = store.len();
        if size >= MOST {
            return Err(AllocError);
        }
        let mut places = Vec::with_capacity(alloc, size)?;
        for at in 0..size {
            let place = first_place(alloc, dag, store, at as u32 + 1)?;
            places.push(place)?;
        }
        let count = dag.make(Node::Constant(size as u64, 32))?;
        Ok(Memory {
            alloc,
            places,
            count,
        })
    }

    /// What a read of so many bytes at a pointer breaks and finds, where the guard is true: words of 8 bytes each, the last
    /// of the bytes that are left. The only error is that there is no memory.
    pub fn read(&self, dag: &mut Dag, guard: Id, p: Id, count: u32) -> Result<Found, AllocError>
        requires within { MemoryIn dag.old self.now }
        requires guard { IsWord dag.old guard 1 }
        requires pointer { IsWord dag.old p 64 }
        ensures extends { Extends dag.old dag.new }
        ensures breaks_within { IfOk result (λ r. All (FailingIn dag.new) r.breaks.items) }
        ensures words_within { IfOk result (λ r. AreWords dag.new count r.words.items) }
        ensures breaks { IfOk result (λ r. (v : ℕ → ℕ) (objects : Objects) → StandsFor v dag.old self.now objects → holds (value v dag.old guard) ≡ true → first_class v dag.new r.breaks.items ≡ break_in objects false (value v dag.old p) count) }
        ensures words { IfOk result (λ r. (v : ℕ → ℕ) (objects : Objects) → StandsFor v dag.old self.now objects → holds (value v dag.old guard) ≡ true → break_in objects false (value v dag.old p) count ≡ None
            → bytes_of_words count (map (value v dag.new) r.words.items) ≡ bytes_at objects (value v dag.old p) count) }
    {
        let places = self.places.as_slice();
        let found = hits_of(self.alloc, dag, places, p)?;
        let hits = found.as_slice();
        let size = count as usize;
        let breaks = access_breaks(self.alloc, dag, places, hits, p, false, size)?;
        let words = found_words(self.alloc, dag, guard, places, hits, size)?;
        Ok(Found { breaks, words })
    }

    /// What a write of bytes at a pointer breaks, where the guard is true; then the memory is as it leaves it: changed where
    /// it breaks nothing. The first write, which initializes an object, may be to one that is read-only. The only error is
    /// that there is no memory.
    pub fn write(
        &mut self,
        dag: &mut Dag,
        guard: Id,
        p: Id,
        bytes: &[Id],
        first: bool,
    ) -> Result<Vec<Failing>, AllocError>
        requires within { MemoryIn dag.old self.old }
        requires guard { IsWord dag.old guard 1 }
        requires pointer { IsWord dag.old p 64 }
        requires bytes { AreBytes dag.old bytes.now }
        ensures extends { Extends dag.old dag.new }
        ensures within { IfOk result (λ r. MemoryIn dag.new self.new) }
        ensures breaks_within { IfOk result (λ r. All (FailingIn dag.new) r.items) }
        ensures breaks { IfOk result (λ r. (v : ℕ → ℕ) (objects : Objects) → StandsFor v dag.old self.old objects → holds (value v dag.old guard) ≡ true → first_class v dag.new r.items ≡ write_break objects (value v dag.old p) (map (value v dag.old) bytes.now) first) }
        ensures stands { IfOk result (λ r. (v : ℕ → ℕ) (objects : Objects) → StandsFor v dag.old self.old objects
            → StandsFor v dag.new self.new (if holds (value v dag.old guard) then after_write objects (value v dag.old p) (map (value v dag.old) bytes.now) first else objects)) }
    {
        let places = self.places.as_slice();
        let found = hits_of(self.alloc, dag, places, p)?;
        let hits = found.as_slice();
        let size = bytes.len();
        let breaks = access_breaks(self.alloc, dag, places, hits, p, !first, size)?;
        let fine = passes(dag, guard, breaks.as_slice())?;
        write_all(self.alloc, dag, &mut self.places, hits, fine, bytes)?;
        Ok(breaks)
    }

    /// What a look at the size of a pointer's object breaks, where the guard is true, and the size. Where the look isn't for a
    /// subscript each class is that of a pointer sum (C11 6.5.6p8). The only error is that there is no memory.
    pub fn look(
        &self,
        dag: &mut Dag,
        guard: Id,
        p: Id,
        subscript: bool,
    ) -> Result<(Vec<Failing>, Id), AllocError>
        requires within { MemoryIn dag.old self.now }
        requires guard { IsWord dag.old guard 1 }
        requires pointer { IsWord dag.old p 64 }
        ensures extends { Extends dag.old dag.new }
        ensures breaks_within { IfOk result (λ r. All (FailingIn dag.new) r.0.items) }
        ensures size_within { IfOk result (λ r. IsWord dag.new r.1 32) }
        ensures breaks { IfOk result (λ r. (v : ℕ → ℕ) (objects : Objects) → StandsFor v dag.old self.now objects → holds (value v dag.old guard) ≡ true
            → first_class v dag.new r.0.items ≡ look_class subscript (look (value v dag.old p) (state_at objects (pointer.object_of (value v dag.old p))))) }
        ensures size { IfOk result (λ r. (v : ℕ → ℕ) (objects : Objects) (size : ℕ) → StandsFor v dag.old self.now objects → holds (value v dag.old guard) ≡ true
            → look (value v dag.old p) (state_at objects (pointer.object_of (value v dag.old p))) ≡ Ok size → value v dag.new r.1 ≡ size) }
    {
        let places = self.places.as_slice();
        let found = hits_of(self.alloc, dag, places, p)?;
        let hits = found.as_slice();
        let breaks = look_breaks(self.alloc, dag, places, hits, p, subscript)?;
        let size = found_size(dag, guard, places, hits)?;
        Ok((breaks, size))
    }

    /// A new place is born where the guard is true, live, with the first of these bytes, as many as the size says; its number,
    /// which is that behind the numbers so far. The only error is that there is no memory.
    pub fn alloc(
        &mut self,
        dag: &mut Dag,
        guard: Id,
        size: Id,
        bytes: &[Id],
        readonly: bool,
        heap: bool,
    ) -> Result<Id, AllocError>
        requires within { MemoryIn dag.old self.old }
        requires guard { IsWord dag.old guard 1 }
        requires size { IsWord dag.old size 64 }
        requires bytes { AreBytes dag.old bytes.now }
        ensures extends { Extends dag.old dag.new }
        ensures within { IfOk result (λ i. MemoryIn dag.new self.new) }
        ensures number_within { IfOk result (λ i. IsWord dag.new i 32) }
        ensures number { IfOk result (λ i. (v : ℕ → ℕ) (objects : Objects) → StandsFor v dag.old self.old objects → holds (value v dag.old guard) ≡ true → value v dag.new i ≡ suc (length objects)) }
        ensures stands { IfOk result (λ i. (v : ℕ → ℕ) (objects : Objects) → StandsFor v dag.old self.old objects
            → StandsFor v dag.new self.new (if holds (value v dag.old guard) then with_new objects (suc (length objects)) (made_of readonly heap (take (value v dag.old size) (map (value v dag.old) bytes.now))) else objects)) }
    {
        if bytes.len() >= MOST || self.places.len() >= MOST {
            return Err(AllocError);
        }
        let _ = dag.nodes();
        let number = next_number(dag, self.count)?;
        let least = lesser(dag, size, bytes.len())?;
        let live = constant_test(dag, true)?;
        let count = chosen(dag, guard, number, self.count)?;
        let block = bytes.to_vec(self.alloc)?;
        self.places.push(Place {
            born: guard,
            number,
            size: least,
            live,
            readonly,
            heap,
            bytes: block,
        })?;
        self.count = count;
        Ok(number)
    }

    /// The lifetime of a pointer's object ends where the guard is true (C11 6.2.4p2). The only error is that there is no
    /// memory.
    pub fn die(&mut self, dag: &mut Dag, guard: Id, p: Id) -> Result<(), AllocError>
        requires within { MemoryIn dag.old self.old }
        requires guard { IsWord dag.old guard 1 }
        requires pointer { IsWord dag.old p 64 }
        ensures extends { Extends dag.old dag.new }
        ensures within { OnOk result (MemoryIn dag.new self.new) }
        ensures stands { OnOk result ((v : ℕ → ℕ) (objects : Objects) → StandsFor v dag.old self.old objects
            → StandsFor v dag.new self.new (if holds (value v dag.old guard) then with_dead objects (pointer.object_of (value v dag.old p)) else objects)) }
    {
        let found = hits_of(self.alloc, dag, self.places.as_slice(), p)?;
        end_all(dag, &mut self.places, found.as_slice(), guard)?;
        Ok(())
    }

    /// What `free` of a pointer breaks, where the guard is true; then the memory is as it leaves it (C11 7.22.3.3p2). The only
    /// error is that there is no memory.
    pub fn free(&mut self, dag: &mut Dag, guard: Id, p: Id) -> Result<Vec<Failing>, AllocError>
        requires within { MemoryIn dag.old self.old }
        requires guard { IsWord dag.old guard 1 }
        requires pointer { IsWord dag.old p 64 }
        ensures extends { Extends dag.old dag.new }
        ensures within { IfOk result (λ r. MemoryIn dag.new self.new) }
        ensures breaks_within { IfOk result (λ r. All (FailingIn dag.new) r.items) }
        ensures breaks { IfOk result (λ r. (v : ℕ → ℕ) (objects : Objects) → StandsFor v dag.old self.old objects → holds (value v dag.old guard) ≡ true → first_class v dag.new r.items ≡ free_break objects (value v dag.old p)) }
        ensures stands { IfOk result (λ r. (v : ℕ → ℕ) (objects : Objects) → StandsFor v dag.old self.old objects
            → StandsFor v dag.new self.new (if holds (value v dag.old guard) then after_free objects (value v dag.old p) else objects)) }
    {
        let places = self.places.as_slice();
        let found = hits_of(self.alloc, dag, places, p)?;
        let hits = found.as_slice();
        let breaks = free_breaks(self.alloc, dag, places, hits, p)?;
        let fine = passes(dag, guard, breaks.as_slice())?;
        end_all(dag, &mut self.places, hits, fine)?;
        Ok(breaks)
    }
}
