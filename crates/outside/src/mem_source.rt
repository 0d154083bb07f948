//! A source whose files are in memory.

// A source over files in memory.

ghost use Rattle.std.specs.Prelude.{◌≡◌, ◌≢◌, ◌↔◌, ℕ, List, IfOk, IfSome, IsOk, IsSome, IsErrOf, OnOk};
ghost use Rattle.outside.specs.Count.{one_more, HasCause};
ghost use Rattle.outside.specs.HeldFile.{held_in, ReadsAll};
ghost use Rattle.outside.specs.Calls.{calls_made, calls_to_fail, FailsNext};

use crate::calls::Calls;
use crate::ends::{ReadError, Source};
use crate::fault_counts::FaultCounts;
use crate::held_file::{HeldFile, copy_from, find_bytes};
use std::alloc::Global;

/// Files in memory, of which chosen reads fail.
///
/// A read fails where its number is among those that are to fail, or where no file has the name. Every other read gives
/// all the bytes that the buffer has room for.
#[derive(Drop)]
pub struct MemSource {
    files: Vec<HeldFile>,
    calls: Calls,
    faults: FaultCounts,
}

impl MemSource {
    ghost use Rattle.outside.specs.MemSource.{held_by, faults_of, calls_of};

    /// A source of these files, before any read. `failing` has the numbers of the reads that are to fail, in any order;
    /// the first read is number 1. The allocator serves the list of names that failed.
    pub fn new(alloc: Global, files: Vec<HeldFile>, failing: Vec<u64>) -> Self
        ensures holds { (name : List ℕ) → held_by result name ≡ held_in files.items name }
        ensures faults { (name : List ℕ) → faults_of result name ≡ 0 }
        ensures none { calls_made (calls_of result) ≡ 0 }
        ensures plan { calls_to_fail (calls_of result) ≡ failing.items }
    {
        MemSource {
            files,
            calls: Calls::new(failing),
            faults: FaultCounts::new(alloc),
        }
    }

    /// How often reading this name failed.
    pub fn fault_count(&self, name: &str) -> u64
        ensures { result ≡ faults_of self.now name.now }
    {
        self.faults.count(name)
    }
}

impl Source for MemSource {
    ghost use Rattle.outside.specs.MemSource.{held_by, faults_of, calls_of};

    ghost holds = { held_by };

    ghost faults = { faults_of };

    /// Reads all the bytes that the buffer has room for. `Memory` comes only in place of the first `Failed` of a
    /// name, where there is no room to keep the name.
    fn read(&mut self, name: &str, at: u64, into: &mut [u8]) -> Result<usize, ReadError>
        ensures held { (other : List ℕ) → held_by self.new other ≡ held_by self.old other }
        ensures call { calls_made (calls_of self.new) ≡ one_more (calls_made (calls_of self.old)) }
        ensures plan { calls_to_fail (calls_of self.new) ≡ calls_to_fail (calls_of self.old) }

        // Exactly the planned calls fail, and those of a name that isn't held.
        ensures succeeds { IsOk result ↔ ((¬ FailsNext (calls_of self.old)) × IsSome (held_by self.old name.now)) }
        ensures bytes { IfOk result (λ n. IfSome (held_by self.old name.now) (λ held. ReadsAll held at n into.new)) }

        // A failed read is counted once, for its name alone, and no other read is counted.
        ensures others { (other : List ℕ) → other ≢ name.now → faults_of self.new other ≡ faults_of self.old other }
        ensures cause { HasCause (faults_of self.old name.now) (faults_of self.new name.now) (IsErrOf result ReadError.Failed) }
        ensures failed { IsErrOf result ReadError.Failed → faults_of self.new name.now ≡ one_more (faults_of self.old name.now) }
        ensures memory { IsErrOf result ReadError.Memory → faults_of self.new name.now ≡ faults_of self.old name.now }
        ensures first { IsErrOf result ReadError.Memory → faults_of self.old name.now ≡ 0 }
        ensures given { OnOk result (faults_of self.new name.now ≡ faults_of self.old name.now) }
    {
        if self.calls.next_fails() {
            return Err(self.faults.fault(name));
        }
        match find_bytes(&self.files, name) {
            Some(bytes) => Ok(copy_from(bytes, at, into)),
            None => Err(self.faults.fault(name)),
        }
    }
}
