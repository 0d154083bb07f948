//! A sink that keeps what it takes.

// A sink in memory.

ghost use Rattle.std.specs.Prelude.{◌≡◌, ◌≤◌, ◌↔◌, ℕ, List, [], ◌++◌, Some, IfOk, IsErr, length, vec_capacity};
ghost use Rattle.outside.specs.Count.{one_more, HasCause};
ghost use Rattle.outside.specs.Sink.{taken_from, TakesNothing};
ghost use Rattle.outside.specs.Calls.{calls_made, calls_to_fail, FailsNext};

use crate::calls::{Calls, add_one};
use crate::ends::{Failed, Sink};
use crate::held_file::smaller;
use std::alloc::{AllocError, Global};

/// A sink that keeps what it takes, of which chosen writes fail.
///
/// A write fails where its number is among those that are to fail. Every other one takes as many bytes as a write may
/// take and as there is room for.
#[derive(Drop)]
pub struct MemSink {
    taken: Vec<u8>,
    room: usize,
    per_call: usize,
    calls: Calls,
    faults: u64,
    ghost within: { length taken.items ≤ room },
    ghost reserved: { room ≤ vec_capacity taken },
}

impl MemSink {
    ghost use Rattle.outside.specs.MemSink.{taken_by, room_of, per_call_of, faults_of, calls_of};

    /// A sink with room for `room` bytes in all, of which a write takes `per_call` at most, before any write. `failing`
    /// has the numbers of the writes that are to fail, in any order; the first write is number 1.
    pub fn new(
        alloc: Global,
        room: usize,
        per_call: usize,
        failing: Vec<u64>,
    ) -> Result<Self, AllocError>
        ensures taken { IfOk result (λ sink. taken_by sink ≡ []) }
        ensures room { IfOk result (λ sink. room_of sink ≡ room) }
        ensures per_call { IfOk result (λ sink. per_call_of sink ≡ per_call) }
        ensures faults { IfOk result (λ sink. faults_of sink ≡ 0) }
        ensures none { IfOk result (λ sink. calls_made (calls_of sink) ≡ 0) }
        ensures plan { IfOk result (λ sink. calls_to_fail (calls_of sink) ≡ failing.items) }
    {
        Ok(MemSink {
            taken: Vec::with_capacity(alloc, room)?,
            room,
            per_call,
            calls: Calls::new(failing),
            faults: 0,
        })
    }

    /// All the bytes that were taken, in their order.
    pub fn taken(&self) -> &[u8]
        ensures { result.now ≡ taken_by self.now }
    {
        &self.taken
    }

    /// How many writes failed or took nothing of a piece.
    pub fn fault_count(&self) -> u64
        ensures { result ≡ faults_of self.now }
    {
        self.faults
    }
}

impl Sink for MemSink {
    ghost use Rattle.outside.specs.MemSink.{taken_by, room_of, per_call_of, faults_of, calls_of, takes};

    ghost taken = { λ sink. Some (taken_by sink) };

    ghost faults = { faults_of };

    /// Takes as many bytes as a write may take and as there is room for.
    fn write(&mut self, piece: &[u8]) -> Result<usize, Failed>
        ensures call { calls_made (calls_of self.new) ≡ one_more (calls_made (calls_of self.old)) }
        ensures plan { calls_to_fail (calls_of self.new) ≡ calls_to_fail (calls_of self.old) }
        ensures limits { (room_of self.new ≡ room_of self.old) × (per_call_of self.new ≡ per_call_of self.old) }

        // Exactly the planned calls fail.
        ensures fails { IsErr result ↔ FailsNext (calls_of self.old) }
        ensures count { IfOk result (λ n. n ≡ takes self.old piece.now) }
        ensures bytes { taken_by self.new ≡ taken_by self.old ++ taken_from piece.now result }

        // A write that failed or took nothing of a piece is counted once, and no other write is counted.
        ensures cause { HasCause (faults_of self.old) (faults_of self.new) (TakesNothing piece.now result) }
        ensures counted { TakesNothing piece.now result → faults_of self.new ≡ one_more (faults_of self.old) }
        ensures uncounted { (¬ TakesNothing piece.now result) → faults_of self.new ≡ faults_of self.old }
    {
        let before = self.faults;
        if self.calls.next_fails() {
            self.faults = add_one(before);
            return Err(Failed);
        }
        let free = self.room - self.taken.len();
        let count = smaller(piece.len(), smaller(self.per_call, free));
        let _ = self.taken.extend_from_slice(&piece[..count]);
        if count == 0 && !piece.is_empty() {
            self.faults = add_one(before);
        }
        Ok(count)
    }
}
