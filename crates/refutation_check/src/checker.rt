//! The check of a refutation: each clause of a log follows by unit propagation.

ghost use Rattle.std.specs.Prelude.{◌≡◌, ◌≤◌, ◌↔◌, IsTrue, IfOk};
ghost use Rattle.sat_form.specs.Satisfaction.{AreWithin};
ghost use Rattle.sat_form.specs.Databases.{IsEntryWithin, AreEntriesWithin};
ghost use Rattle.sat_form.specs.Refutation.{IsJustified, IsDerivation, EndsEmpty, IsRefutation};
ghost use Rattle.refutation_check.specs.Moments.{IsMoment, IsMomentWithin, entries_before};

use crate::literals::LiteralSet;
use crate::moments::Moment;
use crate::propagation::follows;
use sat_form::{Clause, Cnf, Entry, Log};
use std::alloc::{AllocError, Global};
use std::marker::Model;

/// Checks refutations of forms that have at most a number of variables. It has all its memory.
#[derive(Drop)]
pub struct Checker {
    set: LiteralSet,
}

impl Model for Checker {
    ghost use Rattle.std.specs.Prelude.{ℕ};

    ghost Value = { ℕ };

    ghost view = { λ c. c.set.variables };
}

impl Checker {
    /// A checker for forms and logs of at most this many variables. A clause is read where it stands,
    /// so its length takes no memory.
    pub fn new(alloc: Global, variables: u32, _longest: usize) -> Result<Self, AllocError>
        ensures { IfOk result (λ checker. checker ≡ variables) }
    {
        Ok(Checker {
            set: LiteralSet::new(alloc, variables)?,
        })
    }

    /// How many variables a form may have.
    pub fn variables(&self) -> u32
        ensures { result ≡ self.now }
    {
        self.set.variables()
    }

    /// Whether the log refutes the form. Takes no memory.
    pub fn check(&mut self, cnf: &Cnf, log: &Log) -> bool
        requires form { cnf.now.variables ≤ self.old }
        requires log { AreEntriesWithin self.old log.now }
        ensures variables { self.new ≡ self.old }
        ensures answer { IsTrue result ↔ IsRefutation cnf.now.clauses log.now }
    {
        ends_empty(log) && are_justified(&mut self.set, cnf.clauses(), log)
    }
}

/// Whether the last entry adds the clause without literals.
fn ends_empty(log: &Log) -> bool
    ensures { IsTrue result ↔ EndsEmpty log.now }
{
    match log.entries().last() {
        Some(Entry::Added(clause, _)) => clause.literals().is_empty(),
        _ => false,
    }
}

/// Whether each entry may stand behind those before it.
fn are_justified(set: &mut LiteralSet, clauses: &[Clause], log: &Log) -> bool
    requires form { AreWithin set.old.variables clauses.now }
    requires log { AreEntriesWithin set.old.variables log.now }
    ensures variables { set.new.variables ≡ set.old.variables }
    ensures answer { IsTrue result ↔ IsDerivation clauses.now log.now }
{
    let mut added = 0;
    for (place, entry) in log.entries().iter().enumerate() {
        let moment = Moment {
            clauses,
            log,
            place,
            added,
        };
        if !is_justified(set, &moment, entry) {
            return false;
        }
        match entry {
            Entry::Added(_, _) => added += 1,
            Entry::Deleted(_) => {}
        }
    }
    true
}

/// Whether the entry may stand behind those before it.
fn is_justified(set: &mut LiteralSet, moment: &Moment, entry: &Entry) -> bool
    requires moment { IsMoment moment.now }
    requires within { IsMomentWithin set.old.variables moment.now }
    requires entry { IsEntryWithin set.old.variables entry.now }
    ensures variables { set.new.variables ≡ set.old.variables }
    ensures answer { IsTrue result ↔ IsJustified moment.now.clauses.now (entries_before moment.now) entry.now }
{
    match entry {
        Entry::Added(clause, hints) => follows(set, moment, clause, hints.numbers()),
        Entry::Deleted(number) => moment.clause(*number).is_some(),
    }
}
