//! The files and the standard output of the operating system.

// The ends at a real file and at standard output.

ghost use Rattle.std.specs.Prelude.{◌≡◌, ◌≢◌, ◌≤◌, ◌⊎◌, ℕ, List, None, IfOk, IfErr, IsErr, IsErrOf, IsSome, OnOk, length};
ghost use Rattle.std.specs.IoError.{error_kind};
ghost use Rattle.outside.specs.Count.{one_more, HasCause};
ghost use Rattle.outside.specs.Source.{IsPiece, GivesOn};
ghost use Rattle.outside.specs.Sink.{TakesNothing};

use crate::calls::add_one;
use crate::ends::{Failed, ReadError, Sink, Source};
use crate::fault_counts::FaultCounts;
use std::alloc::Global;
use std::io::{ErrorKind, Read, Seek, SeekFrom};
use std::rt::Files;
use std::{fs, io};

/// The files of the system. It tells nothing of what they hold.
///
/// Each read opens the file, goes to the offset and reads once. A name that can't be opened, as that of a missing file,
/// or whose bytes can't be read, as that of a directory, is a fault.
#[derive(Drop)]
pub struct FileSource<'a, R> {
    runtime: &'a R,
    faults: FaultCounts,
}

impl<'a, R> FileSource<'a, R> {
    ghost use Rattle.outside.specs.FileSource.{faults_of};

    /// The files that this runtime reaches. The allocator serves the list of names that failed.
    pub fn new(alloc: Global, runtime: &'a R) -> Self
        ensures { (name : List ℕ) → faults_of result name ≡ 0 }
    {
        FileSource {
            runtime,
            faults: FaultCounts::new(alloc),
        }
    }

    /// How often reading this name failed.
    pub fn fault_count(&self, name: &str) -> u64
        ensures { result ≡ faults_of self.now name.now }
    {
        self.faults.count(name)
    }

    /// What is answered where the system's read of this name had this outcome: its number of bytes as it is, and its
    /// failure as a failure. `Memory` comes where the system had no memory, or there is none to keep the name of the
    /// first fault.
    fn told(&mut self, name: &str, outcome: io::Result<usize>) -> Result<usize, ReadError>
        ensures ok { IfOk outcome (λ n. result ≡ Ok n) }
        ensures memory { IfErr outcome (λ error. error_kind error ≡ ErrorKind.OutOfMemory → IsErrOf result ReadError.Memory) }
        ensures err { IfErr outcome (λ error. error_kind error ≢ ErrorKind.OutOfMemory
            → IsErrOf result ReadError.Failed ⊎ (IsErrOf result ReadError.Memory × (faults_of self.old name.now ≡ 0))) }

        // A failure that is told as one is counted once, for its name alone, and nothing else is counted.
        ensures others { (other : List ℕ) → other ≢ name.now → faults_of self.new other ≡ faults_of self.old other }
        ensures cause { HasCause (faults_of self.old name.now) (faults_of self.new name.now) (IsErrOf result ReadError.Failed) }
        ensures failed { IsErrOf result ReadError.Failed → faults_of self.new name.now ≡ one_more (faults_of self.old name.now) }
        ensures uncounted { (¬ IsErrOf result ReadError.Failed) → faults_of self.new name.now ≡ faults_of self.old name.now }
    {
        match outcome {
            Ok(count) => Ok(count),
            Err(error) => match error.kind() {
                ErrorKind::OutOfMemory => Err(ReadError::Memory),
                _ => Err(self.faults.fault(name)),
            },
        }
    }
}

impl<R: Files> Source for FileSource<'_, R> {
    ghost use Rattle.outside.specs.FileSource.{faults_of};

    ghost holds = { λ _ _. None };

    ghost faults = { faults_of };

    /// Opens the file, goes to the offset and reads once. `Memory` comes where one of these finds no memory, or there is
    /// none to keep the name of the first fault.
    fn read(&mut self, name: &str, at: u64, into: &mut [u8]) -> Result<usize, ReadError>
        ensures bound { IfOk result (λ n. n ≤ length into.new) }
        ensures bytes { IfOk result (λ n. IsPiece None at n into.new) }

        // A failed read is counted once, for its name alone, and no other read is counted.
        ensures others { (other : List ℕ) → other ≢ name.now → faults_of self.new other ≡ faults_of self.old other }
        ensures cause { HasCause (faults_of self.old name.now) (faults_of self.new name.now) (IsErrOf result ReadError.Failed) }
        ensures failed { IsErrOf result ReadError.Failed → faults_of self.new name.now ≡ one_more (faults_of self.old name.now) }
        ensures memory { IsErrOf result ReadError.Memory → faults_of self.new name.now ≡ faults_of self.old name.now }
        ensures given { OnOk result (faults_of self.new name.now ≡ faults_of self.old name.now) }
    {
        let outcome = read_at(fs::open(self.runtime, name), at, into);
        self.told(name, outcome)
    }
}

/// Goes to an offset of a file that was opened and reads once. A failure to open it is passed on.
fn read_at<F: Read + Seek + Drop>(
    opened: io::Result<F>,
    at: u64,
    into: &mut [u8],
) -> io::Result<usize>
    ensures bound { IfOk result (λ n. n ≤ length into.new) }
    ensures err { IfErr opened (λ error. result ≡ Err error) }

    // Where files give their bytes from their position on, those read of a file that tells both stand at `at`.
    ensures bytes { ((file : F) → GivesOn (F.stream_position file) (F.stream_bytes file) (F.remaining file))
        → IfOk opened (λ file. IsSome (F.stream_position file) → IfOk result (λ n. IsPiece (F.stream_bytes file) at n into.new)) }
{
    let mut file = opened?;
    file.seek(SeekFrom::Start(at))?;
    file.read(into)
}

/// Standard output. It tells nothing of what was taken.
#[derive(Drop)]
pub struct StdSink<'a, R> {
    runtime: &'a R,
    faults: u64,
}

impl<'a, R> StdSink<'a, R> {
    ghost use Rattle.outside.specs.StdSink.{faults_of};

    /// The standard output of this runtime.
    pub fn new(runtime: &'a R) -> Self
        ensures { faults_of result ≡ 0 }
    {
        StdSink { runtime, faults: 0 }
    }

    /// How many writes failed or took nothing of a piece.
    pub fn fault_count(&self) -> u64
        ensures { result ≡ faults_of self.now }
    {
        self.faults
    }

    /// What is answered where the system's write of this piece had this outcome: its number of bytes as it is, and its
    /// failure as a failure.
    fn told(&mut self, piece: &[u8], outcome: io::Result<usize>) -> Result<usize, Failed>
        ensures ok { IfOk outcome (λ n. result ≡ Ok n) }
        ensures err { IfErr outcome (λ _. IsErr result) }

        // A write that failed or took nothing of a piece is counted once, and no other write is counted.
        ensures cause { HasCause (faults_of self.old) (faults_of self.new) (TakesNothing piece.now result) }
        ensures counted { TakesNothing piece.now result → faults_of self.new ≡ one_more (faults_of self.old) }
        ensures uncounted { (¬ TakesNothing piece.now result) → faults_of self.new ≡ faults_of self.old }
    {
        match outcome {
            Ok(count) => {
                if count == 0 && !piece.is_empty() {
                    self.faults = add_one(self.faults);
                }
                Ok(count)
            }
            Err(_) => {
                self.faults = add_one(self.faults);
                Err(Failed)
            }
        }
    }
}

impl<R: Print> Sink for StdSink<'_, R> {
    ghost use Rattle.outside.specs.StdSink.{faults_of};

    ghost taken = { λ _. None };

    ghost faults = { faults_of };

    /// Writes once.
    fn write(&mut self, piece: &[u8]) -> Result<usize, Failed>
        ensures bound { IfOk result (λ n. n ≤ length piece.now) }

        // A write that failed or took nothing of a piece is counted once, and no other write is counted.
        ensures cause { HasCause (faults_of self.old) (faults_of self.new) (TakesNothing piece.now result) }
        ensures counted { TakesNothing piece.now result → faults_of self.new ≡ one_more (faults_of self.old) }
        ensures uncounted { (¬ TakesNothing piece.now result) → faults_of self.new ≡ faults_of self.old }
    {
        let outcome = self.runtime.write_some(piece);
        self.told(piece, outcome)
    }
}
