//! What a thread does with what it shares with others, and what it is answered.

ghost use Rattle.std.specs.Prelude.{◌≡◌, ◌≤◌};

use crate::bytes::Bytes;
use crate::object::Object;
use std::marker::Model;
use words::{Class, Word};

/// How many bits a Draw gives, from 1 to 64.
#[derive(Clone, Copy, PartialEq, Eq)]
pub struct DrawBits {
    bits: u32,
}

impl Model for DrawBits {
    ghost use Rattle.std.specs.Prelude.{ℕ, ◌≤◌};

    ghost Value = { ℕ };

    ghost view = { λ d. d.bits };

    ghost invariant = { λ d. (1 ≤ d.bits) × (d.bits ≤ 64) };

    ghost inverse = { λ n. record { bits = n } };
}

impl DrawBits {
    /// So many bits, from 1 to 64.
    pub fn new(bits: u32) -> DrawBits
        requires positive { 1 ≤ bits }
        requires at_most_64 { bits ≤ 64 }
        ensures { result ≡ bits }
    {
        DrawBits { bits }
    }

    /// How many bits, from 1 to 64.
    pub fn bits(self) -> u32
        ensures value { result ≡ self }
        ensures positive { 1 ≤ result }
        ensures at_most_64 { result ≤ 64 }
    {
        self.bits
    }
}

/// What a thread does with what it shares with others. A pointer has 64 bits: the number of its
/// object in the high 32, an offset in the low 32.
#[derive(Drop)]
pub enum Action {
    /// Reads bytes: the pointer, and how many.
    Read(u64, u32),
    /// Writes bytes: the pointer, the bytes, and whether it is the first write, the one that
    /// initializes an object and that may be to one that is read-only.
    Write(u64, Bytes, bool),
    /// Looks at the size of a pointer's object, for a subscript or else for a pointer sum.
    Look(u64, bool),
    /// Takes the low bits of the thread's next input word.
    Draw(DrawBits),
    /// Makes this object, live, under the thread's next number.
    Alloc(Object),
    /// Ends the lifetime of the object with this number (C11 6.2.4p6).
    Die(u32),
    /// Frees the object that the pointer points to (C11 7.22.3.3).
    Free(u64),
    /// Begins an atomic section: no other thread moves until it ends.
    SectionBegin,
    /// Ends the atomic section.
    SectionEnd,
    /// Locks the mutex at this pointer (POSIX `pthread_mutex_lock`).
    Lock(u64),
    /// Unlocks it (POSIX `pthread_mutex_unlock`).
    Unlock(u64),
    /// Makes it a free mutex (POSIX `pthread_mutex_init`).
    MutexInit(u64),
    /// Destroys it (POSIX `pthread_mutex_destroy`).
    MutexDestroy(u64),
    /// Starts a thread that calls this function with this value (POSIX `pthread_create`).
    Create(u32, u64),
    /// Waits for the end of the thread with this number (POSIX `pthread_join`).
    Join(u64),
    /// Ends the thread with this value.
    End(u64),
    /// Ends the process.
    Exit,
}

/// What an action gives back to its thread.
#[derive(Drop)]
pub enum Answer {
    /// Of every action that the others don't name.
    Done,
    /// Of a Read: as many bytes as it asked for.
    Bytes(Bytes),
    /// Of a Look: the object's size in bytes.
    Size(u32),
    /// Of a Draw: a word of as many bits as it asked for.
    Word(Word),
    /// Of an Alloc or a Create: the number of the new object or thread.
    Number(u32),
    /// Of a Join: the value with which the thread ended.
    Value(u64),
}

/// What a thread does next.
#[derive(Drop)]
pub enum Next {
    /// It makes this action, at this line of the file and in the function with this number.
    Act(Action, u32, u32),
    /// It has ended with this word of 64 bits.
    Ended(Word),
    /// It goes on no more.
    Blocked,
    /// It breaks a check of this class by itself, at this line and in this function.
    Broken(Class, u32, u32),
}
