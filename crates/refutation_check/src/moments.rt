//! Where the check of a log stands.

ghost use Rattle.std.specs.Prelude.{◌≡◌, ◌<◌, ◌^◌, ◌+◌, length};
ghost use Rattle.std.specs.Option.{option_copied};
ghost use Rattle.sat_form.specs.Databases.{deleted_numbers, numbered_clauses, is_among, live_clause};
ghost use Rattle.refutation_check.specs.Moments.{IsMoment, entries_before};

use sat_form::{Clause, Log};

/// The moment before an entry of a log of clauses that are added to those of a form.
#[derive(Clone, Copy)]
pub struct Moment<'a> {
    /// The clauses of the form.
    pub clauses: &'a [Clause],
    pub log: &'a Log,
    /// The place of the entry.
    pub place: usize,
    /// How many clauses were added before it.
    pub added: usize,
}

impl<'a> Moment<'a> {
    /// How many clauses have a number.
    pub fn count(&self) -> usize
        requires { IsMoment self.now }
        ensures { result ≡ length (numbered_clauses self.now.clauses.now (entries_before self.now)) }
    {
        length_of(self.clauses) + self.added
    }

    /// Whether an entry before it deletes the clause of this number.
    fn is_deleted(&self, number: usize) -> bool
        ensures { result ≡ is_among (deleted_numbers (entries_before self.now)) number }
    {
        match self.log.deletion_of(number) {
            Some(place) => place < self.place,
            None => false,
        }
    }

    /// The clause of this number, where there is one and it isn't deleted.
    pub fn clause(&self, number: usize) -> Option<&'a Clause>
        requires { IsMoment self.now }
        ensures { option_copied result ≡ live_clause self.now.clauses.now (entries_before self.now) number }
    {
        if self.is_deleted(number) {
            return None;
        }
        if number < self.clauses.len() {
            return Some(&self.clauses[number]);
        }
        let index = number - self.clauses.len();
        if index < self.added {
            self.log.added(index)
        } else {
            None
        }
    }
}

/// How many clauses there are.
fn length_of(clauses: &[Clause]) -> usize
    ensures is { result ≡ length clauses.now }
    ensures limit { result < 2 ^ 63 }
{
    clauses.len()
}
