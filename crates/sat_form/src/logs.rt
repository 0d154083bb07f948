//! Logs: the clauses that a search adds and deletes.

ghost use Rattle.std.specs.Prelude.{◌≡◌, ◌<◌, ◌^◌, ◌↔◌, [], ◌∷◌, ◌++◌, IsTrue, OnOk, OnErr, length, slice_get};
ghost use Rattle.std.specs.Option.{option_copied};
ghost use Rattle.std.specs.List.{position_from};
ghost use Rattle.sat_form.specs.Databases.{added_clauses, is_deletion_of, IsEntryWithin, AreEntriesWithin};

use crate::clauses::{Clause, is_within};
use std::alloc::{AllocError, Global};
use std::collections::BTreeMap;
use std::marker::Model;

/// Numbers of clauses, in order.
#[derive(Drop)]
pub struct Hints {
    numbers: Vec<usize>,
}

impl Model for Hints {
    ghost use Rattle.std.specs.Prelude.{List, ℕ};

    ghost Value = { List ℕ };

    ghost view = { λ h. h.numbers.items };
}

impl Hints {
    /// These numbers.
    pub fn from_numbers(numbers: Vec<usize>) -> Self
        ensures { result ≡ numbers.items }
    {
        Hints { numbers }
    }

    /// The numbers, in order.
    pub fn into_numbers(self) -> Vec<usize>
        ensures { result.items ≡ self }
    {
        self.numbers
    }

    /// The numbers, in order.
    pub fn numbers(&self) -> &[usize]
        ensures { result.now ≡ self.now }
    {
        &self.numbers
    }
}

/// A step of a search that is kept in a log. Clauses have numbers: those of the form first, from 0
/// on, and then the added ones, in order.
#[derive(Drop)]
pub enum Entry {
    /// This clause is added. The hints are the numbers of clauses, in the order in which they come
    /// to a conflict where the clause is taken as false.
    Added(Clause, Hints),
    /// The clause of this number is deleted.
    Deleted(usize),
}

impl Entry {
    /// Whether each literal of the clause, if one is added, is about a variable below `variables`.
    pub fn is_within(&self, variables: u32) -> bool
        ensures { IsTrue result ↔ IsEntryWithin variables self.now }
    {
        match self {
            Entry::Added(clause, _) => is_within(clause.literals(), variables),
            Entry::Deleted(_) => true,
        }
    }
}

/// The clauses that a search adds to those of a form, and those that it deletes, in order.
#[derive(Drop)]
pub struct Log {
    entries: Vec<Entry>,
    /// The places of the entries that add a clause.
    additions: Vec<usize>,
    /// For each deleted number the place of the first entry that deletes it.
    deletions: BTreeMap<usize, usize>,
}

impl Model for Log {
    ghost use Rattle.std.specs.Prelude.{List};
    ghost use Rattle.sat_form.specs.declared.logs.Entry.{Entry};
    ghost use Rattle.sat_form.specs.Indexes.{IsIndexed};

    ghost Value = { List Entry };

    ghost view = { λ l. l.entries.items };

    ghost invariant = { IsIndexed };
}

impl Log {
    /// The log without entries.
    pub fn new(alloc: Global) -> Self
        ensures { result ≡ [] }
    {
        Log {
            entries: Vec::new(alloc),
            additions: Vec::new(alloc),
            deletions: BTreeMap::new(alloc),
        }
    }

    /// Adds a clause, with the numbers of the clauses that propagate where it is taken as false. After
    /// an error the log is unchanged.
    pub fn add(&mut self, clause: Clause, hints: Hints) -> Result<(), AllocError>
        ensures ok { OnOk result (self.new ≡ self.old ++ Entry.Added clause hints ∷ []) }
        ensures err { OnErr result (self.new ≡ self.old) }
    {
        self.additions.push(self.entries.len())?;
        match self.entries.push(Entry::Added(clause, hints)) {
            Ok(()) => Ok(()),
            Err(_) => {
                let _ = self.additions.pop();
                Err(AllocError)
            }
        }
    }

    /// Deletes the clause of this number. After an error the log is unchanged.
    pub fn delete(&mut self, number: usize) -> Result<(), AllocError>
        ensures ok { OnOk result (self.new ≡ self.old ++ Entry.Deleted number ∷ []) }
        ensures err { OnErr result (self.new ≡ self.old) }
    {
        let place = self.entries.len();
        self.entries.push(Entry::Deleted(number))?;
        if self.deletions.contains_key(&number) {
            return Ok(());
        }
        match self.deletions.insert(number, place) {
            Ok(_) => Ok(()),
            Err(_) => {
                let _ = self.entries.pop();
                Err(AllocError)
            }
        }
    }

    /// The entries, in order.
    pub fn entries(&self) -> &[Entry]
        ensures is { result.now ≡ self.now }
        ensures limit { length self.now < 2 ^ 63 }
    {
        &self.entries
    }

    /// The clause that was added behind so many others, where there is one.
    pub fn added(&self, index: usize) -> Option<&Clause>
        ensures { option_copied result ≡ slice_get (added_clauses self.now) index }
    {
        if index >= self.additions.len() {
            return None;
        }
        match &self.entries[self.additions[index]] {
            Entry::Added(clause, _) => Some(clause),
            Entry::Deleted(_) => None,
        }
    }

    /// The place of the first entry that deletes the clause of this number, where there is one.
    pub fn deletion_of(&self, number: usize) -> Option<usize>
        ensures { result ≡ position_from (is_deletion_of number) 0 self.now }
    {
        self.deletions.get(&number).copied()
    }

    /// Whether each literal of the added clauses is about a variable below `variables`.
    pub fn is_within(&self, variables: u32) -> bool
        ensures { IsTrue result ↔ AreEntriesWithin variables self.now }
    {
        self.entries.iter().all(|entry| entry.is_within(variables))
    }
}
