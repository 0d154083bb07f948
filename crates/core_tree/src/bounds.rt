//! How often loops are tested and functions called.

ghost use Rattle.std.specs.Prelude.{◌≡◌, ◌≤◌, true};
ghost use Rattle.core_tree.specs.Ranges.{loop_limits, is_unwinding, is_malloc_limit, are_loop_limits};

use crate::functions::Name;
use std::marker::Model;

/// The bound of one loop: the name of its function, its number there by keyword from 0, which a command
/// may give 10 digits, and how many times its test may be evaluated at each arrival.
#[derive(Drop)]
pub struct LoopBound {
    pub function: Name,
    pub number: u64,
    pub unwind: u32,
}

/// The bounds of a command. A bound on tests and activations is from 1 to 1,000, also in the set, and the
/// malloc limit from 1 to 4,096.
#[derive(Drop)]
pub struct Bounds {
    unwind: u32,
    set: Vec<LoopBound>,
    assertions: bool,
    malloc_limit: u32,
    malloc_may_fail: bool,
}

impl Model for Bounds {
    ghost use Rattle.std.specs.Prelude.{◌≡◌, true};
    ghost use Rattle.core_tree.specs.Ranges.{Limits, loop_limits, is_unwinding, is_malloc_limit, are_loop_limits};

    ghost Value = { Limits };

    ghost view = { λ b. record {
      unwind = b.unwind;
      set = loop_limits b.set.items;
      assertions = b.assertions;
      malloc_limit = b.malloc_limit;
      malloc_may_fail = b.malloc_may_fail;
    } };

    ghost invariant = { λ b. (is_unwinding b.unwind ≡ true)
        × (are_loop_limits (loop_limits b.set.items) ≡ true)
        × (is_malloc_limit b.malloc_limit ≡ true) };
}

impl Bounds {
    /// The bounds with these parts. Takes no memory.
    pub fn new(
        unwind: u32,
        set: Vec<LoopBound>,
        assertions: bool,
        malloc_limit: u32,
        malloc_may_fail: bool,
    ) -> Bounds
        requires unwind { is_unwinding unwind ≡ true }
        requires set { are_loop_limits (loop_limits set.items) ≡ true }
        requires malloc_limit { is_malloc_limit malloc_limit ≡ true }
        ensures { result ≡ record {
          unwind = unwind;
          set = loop_limits set.items;
          assertions = assertions;
          malloc_limit = malloc_limit;
          malloc_may_fail = malloc_may_fail;
        } }
    {
        Bounds {
            unwind,
            set,
            assertions,
            malloc_limit,
            malloc_may_fail,
        }
    }

    /// How many times the test of a loop that isn't in the set may be evaluated at each arrival, and how
    /// many activations of a function may be open.
    pub fn unwind(&self) -> u32
        ensures is { result ≡ self.now.unwind }
        ensures positive { 1 ≤ result }
        ensures at_most_1000 { result ≤ 1000 }
    {
        self.unwind
    }

    /// The bounds of single loops.
    pub fn set(&self) -> &[LoopBound]
        ensures is { loop_limits result.now ≡ self.now.set }
        ensures in_range { are_loop_limits self.now.set ≡ true }
    {
        &self.set
    }

    /// Whether passing a bound breaks a check.
    pub fn assertions(&self) -> bool
        ensures { result ≡ self.now.assertions }
    {
        self.assertions
    }

    /// The greatest number of bytes that one call can allocate.
    pub fn malloc_limit(&self) -> u32
        ensures is { result ≡ self.now.malloc_limit }
        ensures positive { 1 ≤ result }
        ensures at_most_4096 { result ≤ 4096 }
    {
        self.malloc_limit
    }

    /// Whether an allocation may give a null pointer.
    pub fn malloc_may_fail(&self) -> bool
        ensures { result ≡ self.now.malloc_may_fail }
    {
        self.malloc_may_fail
    }
}
