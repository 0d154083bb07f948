//! How often the test of a loop is evaluated.

ghost use Rattle.std.specs.Prelude.{◌≡◌};
ghost use Rattle.core_tree.specs.Ranges.{loop_limits};
ghost use Rattle.goto_prog.specs.Structured.{tests_in};

use core_tree::{Bounds, LoopBound};

// How many times a test may be evaluated at an arrival, by the loops of a set, and for the others.
#[tactic(auto, using(goto_prog::proofs::LoopTests::tests_here, goto_prog::proofs::LoopTests::tests_unnamed, goto_prog::proofs::LoopTests::tests_unnumbered, goto_prog::proofs::LoopTests::no_tests))]
fn tests_in(set: &[LoopBound], others: u32, function: &[u8], number: u32) -> u32
    ensures { result ≡ tests_in (loop_limits set.now) others function.now number }
{
    for bound in set {
        if bound.function.bytes.as_slice() == function && bound.number == number as u64 {
            return bound.unwind;
        }
    }
    others
}

/// How many times the test of a loop of the function with this name may be evaluated at an arrival.
pub(crate) fn tests(bounds: &Bounds, function: &[u8], number: u32) -> u32
    ensures { result ≡ tests_in bounds.now.set bounds.now.unwind function.now number }
{
    tests_in(bounds.set(), bounds.unwind(), function, number)
}
