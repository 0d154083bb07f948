//! When a search starts over: after so many conflicts, by the sequence of Luby.

/// How many conflicts a run has where the sequence says 1. Runs are long, since few learned clauses are deleted: each restart
/// brings clauses of another part of the search, which all later propagation reads.
const UNIT: u64 = 2000;

/// When a search starts over (Luby, Sinclair and Zuckerman 1993, in the form of Knuth, TAOCP 7.2.2.2).
#[derive(Drop)]
pub struct Restarts {
    /// The number of the present run, from 1 on.
    run: u64,
    /// The sequence's member for the present run, a power of 2.
    member: u64,
    /// How many conflicts are left of the present run.
    left: u64,
}

impl Restarts {
    /// The first run.
    pub fn new() -> Self {
        Restarts {
            run: 1,
            member: 1,
            left: UNIT,
        }
    }

    /// Counts a conflict, and says whether the next run begins with it.
    pub fn count(&mut self) -> bool {
        if self.left > 0 {
            self.left -= 1;
            return false;
        }
        self.begin();
        true
    }

    /// Begins the next run.
    fn begin(&mut self) {
        if self.run & self.run.wrapping_neg() == self.member {
            self.run = self.run.saturating_add(1);
            self.member = 1;
        } else {
            self.member = self.member.saturating_mul(2);
        }
        self.left = self.member.saturating_mul(UNIT);
    }
}
