//! Sources and sinks that never fail.

// Ends that never fail.

ghost use Rattle.std.specs.Prelude.{◌≡◌, ℕ, List, [], Option, Some, None, IsOkAnd, IfSome, unwrap_or, length};
ghost use Rattle.outside.specs.HeldFile.{held_in, ReadsAll};

use crate::ends::{Failed, ReadError, Sink, Source};
use crate::held_file::{HeldFile, copy_from, find_bytes};

/// Files in memory that are always read. Under every other name it holds the empty file.
#[derive(Drop)]
pub struct SureSource {
    files: Vec<HeldFile>,
}

impl SureSource {
    ghost use Rattle.outside.specs.SureSource.{surely_held};

    /// A source of these files.
    pub fn new(files: Vec<HeldFile>) -> Self
        ensures { (name : List ℕ) → surely_held result name ≡ unwrap_or (held_in files.items name) [] }
    {
        SureSource { files }
    }
}

impl Source for SureSource {
    ghost use Rattle.outside.specs.SureSource.{surely_held};

    ghost holds = { λ source name. Some (surely_held source name) };

    ghost faults = { λ _ _. 0 };

    /// Reads all the bytes that the buffer has room for. It takes no memory.
    fn read(&mut self, name: &str, at: u64, into: &mut [u8]) -> Result<usize, ReadError>
        ensures held { (other : List ℕ) → surely_held self.new other ≡ surely_held self.old other }
        ensures bytes { IsOkAnd result (λ n. ReadsAll (surely_held self.old name.now) at n into.new) }
    {
        let bytes = find_bytes(&self.files, name).unwrap_or(&[]);
        Ok(copy_from(bytes, at, into))
    }
}

/// A sink that takes each piece whole and keeps none of it.
#[derive(Clone, Copy)]
pub struct SureSink;

impl Sink for SureSink {
    ghost taken = { λ _. None };

    ghost faults = { λ _. 0 };

    /// Takes the whole piece.
    fn write(&mut self, piece: &[u8]) -> Result<usize, Failed>
        ensures { result ≡ Ok (length piece.now) }
    {
        Ok(piece.len())
    }
}
