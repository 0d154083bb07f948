//! The words that threads draw.

ghost use Rattle.std.specs.Prelude.{◌≡◌, [], OnOk, OnErr};
ghost use Rattle.std.specs.Ordering.{nat_cmp};
ghost use Rattle.std.specs.BTreeMap.{insert_entry};
ghost use Rattle.interleave.specs.Inputs.{words_of};

use std::alloc::{AllocError, Global};
use std::collections::BTreeMap;
use std::marker::Model;
use words::Check;

/// Input words, in the order in which a thread draws them.
#[derive(Drop)]
pub struct Words {
    items: Vec<u64>,
}

impl Model for Words {
    ghost use Rattle.std.specs.Prelude.{List, ℕ};

    ghost Value = { List ℕ };

    ghost view = { λ w. w.items.items };
}

impl Words {
    /// The words of a vector. Takes no memory.
    pub fn new(items: Vec<u64>) -> Words
        ensures { result ≡ items.items }
    {
        Words { items }
    }

    /// The words, in the order in which they are drawn.
    pub fn as_slice(&self) -> &[u64]
        ensures { result.now ≡ self.now }
    {
        self.items.as_slice()
    }
}

/// For each thread by its number the words that it draws. A thread without an entry has none.
#[derive(Drop)]
pub struct Inputs {
    lists: BTreeMap<u32, Words>,
}

impl Model for Inputs {
    ghost use Rattle.interleave.specs.Inputs.{InputLists};

    ghost Value = { InputLists };

    ghost view = { λ i. i.lists.entries };
}

impl Inputs {
    /// No words. The map keeps the allocator.
    pub fn new(alloc: Global) -> Inputs
        ensures { result ≡ [] }
    {
        Inputs {
            lists: BTreeMap::new(alloc),
        }
    }

    /// Gives a thread its words, in the place of those that it had.
    pub fn insert(&mut self, thread: u32, words: Words) -> Result<(), AllocError>
        ensures ok { OnOk result (self.new ≡ insert_entry nat_cmp self.old thread words) }
        ensures err { OnErr result (self.new ≡ self.old) }
    {
        self.lists.insert(thread, words)?;
        Ok(())
    }

    /// The words of a thread.
    pub fn words(&self, thread: u32) -> &[u64]
        ensures { result.now ≡ words_of self.now thread }
    {
        match self.lists.get(&thread) {
            None => &[],
            Some(words) => words.as_slice(),
        }
    }

    /// The lists of words, by rising thread number.
    pub fn lists(&self) -> &BTreeMap<u32, Words>
        ensures { result.now.entries ≡ self.now }
    {
        &self.lists
    }
}

/// Which threads move, one number for each turn.
#[derive(Drop)]
pub struct Schedule {
    threads: Vec<u32>,
}

impl Model for Schedule {
    ghost use Rattle.std.specs.Prelude.{List, ℕ};

    ghost Value = { List ℕ };

    ghost view = { λ s. s.threads.items };
}

impl Schedule {
    /// The schedule of a vector. Takes no memory.
    pub fn new(threads: Vec<u32>) -> Schedule
        ensures { result ≡ threads.items }
    {
        Schedule { threads }
    }

    /// The words, in the order in which they are drawn.
    pub fn as_slice(&self) -> &[u32]
        ensures { result.now ≡ self.now }
    {
        self.threads.as_slice()
    }
}

/// A run that breaks a check: on these inputs and by this schedule the last turn breaks it.
#[derive(Drop)]
pub struct Trace {
    pub inputs: Inputs,
    pub schedule: Schedule,
    pub check: Check,
}
