//! Calls of the operating system that may fail.

// The numbers of the calls that are to fail, and a count that stays at its last value.

ghost use Rattle.std.specs.Prelude.{◌≡◌, ◌↔◌, IsTrue};
ghost use Rattle.outside.specs.Count.{one_more};

/// The calls of a source or a sink in memory: how many were made, and which of them are to fail.
#[derive(Drop)]
pub(crate) struct Calls {
    failing: Vec<u64>,
    made: u64,
}

impl Calls {
    ghost use Rattle.outside.specs.Calls.{calls_made, calls_to_fail, FailsNext};

    /// No call yet. `failing` has the numbers of the calls that are to fail, in any order; the first call is number 1.
    pub(crate) fn new(failing: Vec<u64>) -> Self
        ensures none { calls_made result ≡ 0 }
        ensures which { calls_to_fail result ≡ failing.items }
    {
        Calls { failing, made: 0 }
    }

    /// Makes the next call, and says whether it is to fail. The number of a call stays at 2^64 - 1 once it is there.
    pub(crate) fn next_fails(&mut self) -> bool
        ensures counted { calls_made self.new ≡ one_more (calls_made self.old) }
        ensures which { calls_to_fail self.new ≡ calls_to_fail self.old }
        ensures fails { IsTrue result ↔ FailsNext self.old }
    {
        self.made = add_one(self.made);
        self.failing.contains(&self.made)
    }
}

/// One more, up to 2^64 - 1.
pub(crate) fn add_one(count: u64) -> u64
    ensures { result ≡ one_more count }
{
    count.saturating_add(1)
}
