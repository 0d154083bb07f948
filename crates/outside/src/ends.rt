//! How a reading or a writing ended.

// The two ends that the checker reads from and writes to.

ghost use Rattle.std.specs.Prelude.{◌≡◌, ◌≢◌, ◌≤◌, ℕ, List, Option, IfOk, IsErrOf, OnOk, length};
ghost use Rattle.outside.specs.Count.{HasCause};
ghost use Rattle.outside.specs.Source.{IsPiece};
ghost use Rattle.outside.specs.Sink.{appended, taken_from, TakesNothing};

use thiserror::Error;

/// A write that failed. Nothing of the piece was taken.
#[derive(Clone, Copy, Debug, PartialEq, Eq, Error)]
#[error("the write failed")]
pub struct Failed;

/// Why a read gave no bytes. The buffer may then hold any bytes.
#[derive(Clone, Copy, Debug, PartialEq, Eq, Error)]
pub enum ReadError {
    /// The read failed, and the count of the name that was asked for tells it. A missing file is such a fault.
    #[error("the read failed")]
    Failed,

    /// There was no memory to open the file or to keep the fault. No count changed.
    #[error("out of memory")]
    Memory,
}

/// Files that are read by name and by position.
///
/// `holds` is what stands under a name, where the source tells it: `None` claims nothing. `faults` counts the reads of
/// a name that failed. A count never falls, and one that has come to 2^64 - 1 need not rise any more.
pub trait Source {
    ghost holds: { Self → List ℕ → Option (List ℕ) };

    ghost faults: { Self → List ℕ → ℕ };

    /// Reads bytes of the file `name`, from the offset `at` on, into the front of the buffer, and says how many. An
    /// answer of 0 for a buffer that isn't empty says that the file ends at `at` or before it. Fewer bytes than the
    /// buffer has room for say nothing about the end.
    fn read(&mut self, name: &str, at: u64, into: &mut [u8]) -> Result<usize, ReadError>
        ensures bound { IfOk result (λ n. n ≤ length into.new) }

        // A read changes nothing that is held, and the bytes that it gives are those that stand at `at`.
        ensures held { (other : List ℕ) → holds self.new other ≡ holds self.old other }
        ensures bytes { IfOk result (λ n. IsPiece (holds self.old name.now) at n into.new) }

        // It leaves the counts of all other names; `Failed` has its cause in the count of this one, and no other answer changes it.
        ensures others { (other : List ℕ) → other ≢ name.now → faults self.new other ≡ faults self.old other }
        ensures cause { HasCause (faults self.old name.now) (faults self.new name.now) (IsErrOf result ReadError.Failed) }
        ensures memory { IsErrOf result ReadError.Memory → faults self.new name.now ≡ faults self.old name.now }
        ensures given { OnOk result (faults self.new name.now ≡ faults self.old name.now) };
}

/// A place that bytes are written to, one after another.
///
/// `taken` is all that was taken so far, where the sink tells it: `None` claims nothing. `faults` counts the writes that
/// failed or took nothing of a piece. It never falls, and once it has come to 2^64 - 1 it need not rise any more.
pub trait Sink {
    ghost taken: { Self → Option (List ℕ) };

    ghost faults: { Self → ℕ };

    /// Takes bytes from the front of the piece, and says how many. Taking none of a piece that isn't empty is a fault,
    /// and is counted as a failed write is. A write takes no memory.
    fn write(&mut self, piece: &[u8]) -> Result<usize, Failed>
        ensures bound { IfOk result (λ n. n ≤ length piece.now) }
        ensures bytes { taken self.new ≡ appended (taken self.old) (taken_from piece.now result) }
        ensures cause { HasCause (faults self.old) (faults self.new) (TakesNothing piece.now result) }
        ensures uncounted { (¬ TakesNothing piece.now result) → faults self.new ≡ faults self.old };
}
