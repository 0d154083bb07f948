//! Faults that are put on purpose, for tests.

// The names whose reads failed, each with its count.

ghost use Rattle.std.specs.Prelude.{◌≡◌, ◌≢◌, ℕ, List, OnOk, OnErr, IsOk};
ghost use Rattle.outside.specs.Count.{one_more, HasCause};

use crate::calls::add_one;
use crate::ends::ReadError;
use std::alloc::{AllocError, Global};
use std::collections::BTreeMap;

/// How often reading each name failed.
#[derive(Drop)]
pub(crate) struct FaultCounts {
    alloc: Global,
    counts: BTreeMap<String, u64>,
}

impl FaultCounts {
    ghost use Rattle.outside.specs.FaultCounts.{count_of};

    pub(crate) fn new(alloc: Global) -> Self
        ensures { (name : List ℕ) → count_of result name ≡ 0 }
    {
        FaultCounts {
            alloc,
            counts: BTreeMap::new(alloc),
        }
    }

    pub(crate) fn count(&self, name: &str) -> u64
        ensures { result ≡ count_of self.now name.now }
    {
        self.counts.get(name).copied().unwrap_or(0)
    }

    /// Counts a fault of this name. Where there is no memory to keep a name that has none yet, no count changes.
    pub(crate) fn fault(&mut self, name: &str) -> ReadError
        ensures others { (other : List ℕ) → other ≢ name.now → count_of self.new other ≡ count_of self.old other }
        ensures cause { HasCause (count_of self.old name.now) (count_of self.new name.now) (result ≡ ReadError.Failed) }
        ensures failed { result ≡ ReadError.Failed → count_of self.new name.now ≡ one_more (count_of self.old name.now) }
        ensures memory { result ≡ ReadError.Memory → count_of self.new name.now ≡ count_of self.old name.now }
        ensures first { result ≡ ReadError.Memory → count_of self.old name.now ≡ 0 }
    {
        match self.add(name) {
            Ok(()) => ReadError::Failed,
            Err(_) => ReadError::Memory,
        }
    }

    fn add(&mut self, name: &str) -> Result<(), AllocError>
        ensures others { (other : List ℕ) → other ≢ name.now → count_of self.new other ≡ count_of self.old other }
        ensures cause { HasCause (count_of self.old name.now) (count_of self.new name.now) (IsOk result) }
        ensures ok { OnOk result (count_of self.new name.now ≡ one_more (count_of self.old name.now)) }
        ensures err { OnErr result ((count_of self.old name.now ≡ 0) × (count_of self.new name.now ≡ 0)) }
    {
        if let Some(count) = self.counts.get_mut(name) {
            *count = add_one(*count);
            return Ok(());
        }
        let key = String::from_str(self.alloc, name)?;
        self.counts.insert(key, 1)?;
        Ok(())
    }
}
